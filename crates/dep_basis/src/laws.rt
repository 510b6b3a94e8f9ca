//! Laws of dependency bases. Each is a function that does nothing, whose clause is the law; so the gate
//! asks for its proof.

ghost use Rattle.std.specs.Prelude.{◌≡◌, ◌<◌, ◌≤◌, ◌↔◌, ◌⊎◌, ℕ, true, List, All};
ghost use Rattle.attr_sets.specs.Attributes.{Attributes, below, intersection, difference, IsSubset, IsEmpty};
ghost use Rattle.attr_sets.specs.declared.set.TheConstants.{MOST_ATTRIBUTES};
ghost use Rattle.dep_model.specs.declared.dep.Dep.{Dep};
ghost use Rattle.dep_model.specs.Dependencies.{Dependency, functional_part, left_of, IsWithin};
ghost use Rattle.dep_model.specs.Deps.{dependency_of, dependencies_of, IsDepWithin};
ghost use Rattle.dep_model.specs.Keys.{InClosure, IsBlock, IsPartOn};
ghost use Rattle.dep_basis.specs.Decisions.{IsBrokenBy};
ghost use Rattle.dep_basis.specs.Parts.{HasTwoParts};

/// Where all dependencies are functional, a left side has one block at most: all that is outside its
/// closure (Beeri 1980). The two rows that show that a dependency is not implied then agree exactly on
/// the closure of its left side (Sagiv, Delobel, Parker and Fagin 1981).
pub fn one_block()
    ensures block { (n : ℕ) (ds : List Dependency) (x p : Attributes) → All (IsWithin (below n)) ds
        → functional_part ds ≡ ds → IsSubset x (below n) → IsBlock n ds x p
        → (a : ℕ) → (p a ≡ true) ↔ ((a < n) × (InClosure n ds x a → ⊥)) }
    ensures agreement { (n : ℕ) (ds : List Dependency) (d : Dependency) (agreement : Attributes)
        → All (IsWithin (below n)) ds → functional_part ds ≡ ds → IsWithin (below n) d
        → IsBrokenBy n ds d agreement → (a : ℕ) → (agreement a ≡ true) ↔ InClosure n ds (left_of d) a }
{}

/// Each attribute is determined, or it is in a block. An attribute in no given left side adds only
/// itself: where `l` has all left sides, the closed set of `x` is that of what `x` has of `l`, together
/// with `x`, and the blocks of `x` are what the blocks of that have beyond `x`. A left side with two
/// parts on a scheme, of which one is not within the other, has two parts.
pub fn closed_or_in_a_block()
    ensures either { (n : ℕ) (ds : List Dep) (x : Attributes) (a : ℕ) → n ≤ MOST_ATTRIBUTES
        → All (IsDepWithin (below n)) ds → IsSubset x (below n) → a < n
        → InClosure n (dependencies_of ds) x a
        ⊎ ((p : Attributes) × IsBlock n (dependencies_of ds) x p × (p a ≡ true)) }
    ensures closed { (n : ℕ) (ds : List Dep) (l x : Attributes) → n ≤ MOST_ATTRIBUTES
        → All (IsDepWithin (below n)) ds
        → All (λ d. IsSubset (left_of (dependency_of d)) l) ds → IsSubset x (below n)
        → (a : ℕ) → InClosure n (dependencies_of ds) x a
        ↔ ((a < n) × (x a ≡ true)) ⊎ InClosure n (dependencies_of ds) (intersection x l) a }
    ensures blocks { (n : ℕ) (ds : List Dep) (l x : Attributes) → n ≤ MOST_ATTRIBUTES
        → All (IsDepWithin (below n)) ds
        → All (λ d. IsSubset (left_of (dependency_of d)) l) ds → IsSubset x (below n)
        → (p : Attributes) → IsBlock n (dependencies_of ds) x p
        ↔ ((q : Attributes) × IsBlock n (dependencies_of ds) (intersection x l) q × (p
        ≡ difference q x) × (IsEmpty p → ⊥)) }
    ensures two_parts { (n : ℕ) (ds : List Dependency) (scheme x p q : Attributes) → IsSubset scheme (below n)
        → IsPartOn n ds scheme x p → IsPartOn n ds scheme x q → (IsSubset q p → ⊥)
        → HasTwoParts n ds scheme x }
{}
