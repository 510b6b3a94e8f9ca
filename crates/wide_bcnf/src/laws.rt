//! Laws of pairs and of wide splits. Each is a function that does nothing, whose clause is the law.

ghost use Rattle.std.specs.Prelude.{◌≡◌, ℕ, ◌≤◌, List, ◌∷◌, [], All, length};
ghost use Rattle.attr_sets.specs.Attributes.{Attributes, below, IsSubset, IsEmpty, count_below};
ghost use Rattle.attr_sets.specs.declared.set.TheConstants.{MOST_ATTRIBUTES};
ghost use Rattle.dep_model.specs.declared.dep.Dep.{Dep};
ghost use Rattle.dep_model.specs.Dependencies.{Dependency};
ghost use Rattle.dep_model.specs.Deps.{dependencies_of, IsDepWithin};
ghost use Rattle.dep_model.specs.Forms.{IsBcnf};
ghost use Rattle.dep_model.specs.Projections.{IsLossless};
ghost use Rattle.wide_bcnf.specs.Pairs.{IsPair, HasPair};
ghost use Rattle.wide_bcnf.specs.WideSplits.{IsWideSplitOf};

/// A scheme without a pair is in Boyce-Codd form: what determines an attribute outside itself and
/// leaves another one undetermined would give a pair. A pair of a part of a scheme is a pair of the
/// scheme.
pub fn pairs_decide_the_form()
    ensures without { (n : ℕ) (ds : List Dep) (scheme : Attributes) → n ≤ MOST_ATTRIBUTES
        → All (IsDepWithin (below n)) ds → IsSubset scheme (below n)
        → (HasPair n (dependencies_of ds) scheme → ⊥)
        → IsBcnf n (dependencies_of ds) scheme }
    ensures part { (n : ℕ) (ds : List Dependency) (scheme part : Attributes) (a b : ℕ)
        → IsSubset part scheme → IsPair n ds part a b → IsPair n ds scheme a b }
{}

/// A scheme has one wide split alone. That of the universe is lossless, whatever the width.
pub fn one_wide_split()
    ensures lossless { (n : ℕ) (ds : List Dependency) (schemes : List Attributes)
        → IsWideSplitOf n ds (below n) schemes → IsLossless n ds schemes }
    ensures unique { (n : ℕ) (ds : List Dependency) (scheme : Attributes) (xs ys : List Attributes)
        → IsWideSplitOf n ds scheme xs → IsWideSplitOf n ds scheme ys → xs ≡ ys }
{}
