//! Laws of keys, prime attributes, parts and normal forms.

ghost use Rattle.std.specs.Prelude.{◌≡◌, ℕ, ◌↔◌, List};
ghost use Rattle.attr_sets.specs.Attributes.{Attributes, below, only, union, intersection, IsSubset, Intersects};
ghost use Rattle.dep_model.specs.Dependencies.{Dependency, fd, mvd, functional_part};
ghost use Rattle.dep_model.specs.OnSchemes.{ImpliedOn};
ghost use Rattle.dep_model.specs.Keys.{IsSuperkey, IsKey, IsPrime, IsPartOn};
ghost use Rattle.dep_model.specs.Forms.{IsThird, IsBcnf, IsFourth};
ghost use Rattle.dep_model.specs.Address.{address};

/// A key of a superkey of a scheme is a key of the scheme. An attribute is prime exactly where some set
/// is no superkey and holds a key once the attribute is added.
pub fn keys_of_superkeys_are_keys()
    ensures key { (n : ℕ) (ds : List Dependency) (scheme s k : Attributes) → IsSuperkey n ds scheme s
        → IsKey n ds s k → IsKey n ds scheme k }
    ensures prime { (n : ℕ) (ds : List Dependency) (scheme : Attributes) (a : ℕ)
        → IsPrime n ds scheme a
        ↔ ((x k : Attributes) × IsSubset x scheme × (IsSuperkey n ds scheme x → ⊥) × IsKey n ds scheme k
        × IsSubset k (union x (only a))) }
{}

/// A functional dependency within a part of a scheme is implied on both or on neither. A multivalued
/// dependency that is implied on a scheme is implied on a part of it that holds its left side, with its
/// right side cut down to the part. Two parts of a left side with a common attribute are one.
pub fn implied_on_a_part()
    ensures functional { (n : ℕ) (ds : List Dependency) (scheme part x y : Attributes) → IsSubset part scheme
        → IsSubset x part → IsSubset y part
        → ImpliedOn n ds scheme (fd x y) ↔ ImpliedOn n ds part (fd x y) }
    ensures multivalued { (n : ℕ) (ds : List Dependency) (scheme part x y : Attributes)
        → IsSubset part scheme → IsSubset x part
        → ImpliedOn n ds scheme (mvd x y) → ImpliedOn n ds part (mvd x (intersection y part)) }
    ensures disjoint { (n : ℕ) (ds : List Dependency) (scheme x p q : Attributes) → IsPartOn n ds scheme x p
        → IsPartOn n ds scheme x q → Intersects p q → p ≡ q }
{}

/// Fourth normal form gives Boyce-Codd form (Fagin 1977), and without multivalued dependencies that
/// gives third normal form. City, street and zip are in third normal form and not in Boyce-Codd form.
pub fn forms_follow()
    ensures fourth { (n : ℕ) (ds : List Dependency) (scheme : Attributes) → IsSubset scheme (below n)
        → IsFourth n ds scheme → IsBcnf n ds scheme }
    ensures bcnf { (n : ℕ) (ds : List Dependency) (scheme : Attributes) → functional_part ds ≡ ds
        → IsBcnf n ds scheme → IsThird n ds scheme }
    ensures address_third { IsThird 3 address (below 3) }
    ensures address_not_bcnf { IsBcnf 3 address (below 3) → ⊥ }
{}
