//! Laws of the functional dependencies inside a set. Each is a function that does nothing, whose clause
//! is the law.

ghost use Rattle.std.specs.Prelude.{ℕ, ◌≤◌, List, All};
ghost use Rattle.attr_sets.specs.Attributes.{Attributes, below, IsSubset};
ghost use Rattle.attr_sets.specs.declared.set.TheConstants.{MOST_ATTRIBUTES};
ghost use Rattle.dep_model.specs.declared.dep.Dep.{Dep};
ghost use Rattle.dep_model.specs.Dependencies.{Dependency};
ghost use Rattle.dep_model.specs.Deps.{dependencies_of, IsDepWithin};
ghost use Rattle.fd_projection.specs.Projections.{IsProjection, IsCoverWithin, IsMinimalWithin};
ghost use Rattle.fd_closure.specs.LeftSides.{left_sides};

/// A functional dependency inside a set follows from its projection exactly where it follows from the
/// list; no dependency of the projection follows from the others, and no attribute of a left side can
/// be left out. The left side of a minimal dependency inside a set lies within the given left sides.
pub fn projections_are_exact()
    ensures cover { (n : ℕ) (ds : List Dep) (set : Attributes) (rules : List Dependency)
        → n ≤ MOST_ATTRIBUTES → All (IsDepWithin (below n)) ds → IsSubset set (below n)
        → IsProjection n (dependencies_of ds) set rules → IsCoverWithin n (dependencies_of ds) set rules }
    ensures given { (n : ℕ) (ds : List Dep) (set x : Attributes) (a : ℕ)
        → n ≤ MOST_ATTRIBUTES → All (IsDepWithin (below n)) ds → IsSubset set (below n)
        → IsMinimalWithin n (dependencies_of ds) set x a → IsSubset x (left_sides (dependencies_of ds)) }
{}
