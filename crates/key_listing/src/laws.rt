//! Laws of the attributes in which the keys of a scheme can differ. Each is a function that does nothing,
//! whose clause is the law; so the gate asks for its proof.

ghost use Rattle.std.specs.Prelude.{◌≡◌, ℕ, ◌≤◌, ◌↔◌, true, false, List, All};
ghost use Rattle.attr_sets.specs.Attributes.{Attributes, below, union, intersection, IsSubset, IsBefore, Disjoint, count_below};
ghost use Rattle.attr_sets.specs.declared.set.TheConstants.{MOST_ATTRIBUTES};
ghost use Rattle.dep_model.specs.declared.dep.Dep.{Dep};
ghost use Rattle.dep_model.specs.Dependencies.{Dependency};
ghost use Rattle.dep_model.specs.Deps.{dependencies_of, IsDepWithin};
ghost use Rattle.dep_model.specs.Keys.{IsSuperkey, IsKey};
ghost use Rattle.dep_model.specs.Theories.{theory_of};
ghost use Rattle.dep_model.specs.Theories.{Theory};
ghost use Rattle.fd_closure.specs.LeftSides.{left_sides};
ghost use Rattle.fd_closure.specs.declared.left_sides.TheConstants.{WIDEST_SEARCHED};
ghost use Rattle.key_listing.specs.Refusals.{IsTooWide};
ghost use Rattle.key_listing.specs.Narrowing.{AreUndetermined, IsInEveryKey, IsInNoKey, DropsAttributesInNoKey};

/// An attribute that the scheme's others do not determine is in every key of the scheme. One that is in
/// no given left side, and that the scheme's others determine, is in no key of the scheme, multivalued
/// dependencies among the given ones or not (for functional ones alone Saiedian and Spencer 1996). A
/// scheme without its attributes that are in no key is a superkey of the scheme, and has the same keys.
pub fn keys_have_all_or_none()
    ensures in_every { (n : ℕ) (ds : List Dependency) (scheme k : Attributes) (a : ℕ)
        → IsInEveryKey n ds scheme a
        → IsKey n ds scheme k → k a ≡ true }
    ensures in_none { (n : ℕ) (ds : List Dep) (scheme k : Attributes) (a : ℕ) → n ≤ MOST_ATTRIBUTES
        → All (IsDepWithin (below n)) ds
        → IsSubset scheme (below n) → IsInNoKey n (dependencies_of ds) scheme a
        → IsKey n (dependencies_of ds) scheme k
        → k a ≡ false }
    ensures superkey { (n : ℕ) (ds : List Dep) (scheme rest : Attributes) → n ≤ MOST_ATTRIBUTES
        → All (IsDepWithin (below n)) ds
        → IsSubset scheme (below n) → DropsAttributesInNoKey n (dependencies_of ds) scheme rest
        → IsSuperkey n (dependencies_of ds) scheme rest }
    ensures same_keys { (n : ℕ) (ds : List Dep) (scheme rest k : Attributes) → n ≤ MOST_ATTRIBUTES
        → All (IsDepWithin (below n)) ds
        → IsSubset scheme (below n) → DropsAttributesInNoKey n (dependencies_of ds) scheme rest
        → IsKey n (dependencies_of ds) scheme k ↔ IsKey n (dependencies_of ds) rest k }
{}

/// The keys of a scheme are exactly the keys of its attributes in left sides, each with those others
/// that the former do not determine; and they ascend as those do. Where few attributes stand in left
/// sides, no schema is refused for its width.
pub fn keys_lie_in_left_sides()
    ensures keys { (n : ℕ) (ds : List Dep) (scheme rest k : Attributes) → n ≤ MOST_ATTRIBUTES
        → All (IsDepWithin (below n)) ds
        → IsSubset scheme (below n) → AreUndetermined n (dependencies_of ds) scheme rest
        → IsKey n (dependencies_of ds) scheme k
        ↔ ((j : Attributes)
        × IsKey n (dependencies_of ds) (intersection scheme (left_sides (dependencies_of ds))) j
        × (k ≡ union rest j)) }
    ensures order { (rest x y : Attributes) → Disjoint x rest → Disjoint y rest
        → IsBefore x y ↔ IsBefore (union rest x) (union rest y) }
    ensures never_refused { (theory : Theory)
        → count_below (left_sides (theory_of theory)) MOST_ATTRIBUTES ≤ WIDEST_SEARCHED
        → IsTooWide theory → ⊥ }
{}
