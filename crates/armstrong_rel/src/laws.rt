//! Laws of closed sets and of example relations. Each is a function that does nothing, whose clause is
//! the law.

ghost use Rattle.std.specs.Prelude.{◌≡◌, ℕ, ◌-◌, ◌<◌, ◌^◌, ◌↔◌, List, length, All};
ghost use Rattle.attr_sets.specs.Attributes.{Attributes, below};
ghost use Rattle.dep_model.specs.Dependencies.{Dependency, functional_part, IsWithin};
ghost use Rattle.dep_model.specs.Tuples.{Relation};
ghost use Rattle.armstrong_rel.specs.ClosedSets.{IsClosedSet, IsIrreducible, AreIrreducible};
ghost use Rattle.armstrong_rel.specs.Closures.{IsIntersectionBeyond};
ghost use Rattle.armstrong_rel.specs.Parts.{IsFilledPart};
ghost use Rattle.armstrong_rel.specs.Exhibits.{tuples_for, IsArmstrong, IsExhibit};

/// Where all dependencies are functional, a closed set is irreducible exactly where it is not the
/// intersection of the closures of itself with each attribute outside it. The irreducible closed sets
/// are, for some attribute, the largest closed sets without it: each is a closed part of the left sides
/// that does not determine the attribute, and would with any further attribute of them, together with
/// all other attributes in no left side.
pub fn irreducible_exactly_where()
    ensures no_intersection { (n : ℕ) (ds : List Dependency) (c m : Attributes) → All (IsWithin (below n)) ds
        → functional_part ds ≡ ds → IsClosedSet n ds c → IsIntersectionBeyond n ds c m
        → IsIrreducible n ds c ↔ (m ≡ c → ⊥) }
    ensures filled_part { (n : ℕ) (ds : List Dependency) → All (IsWithin (below n)) ds → functional_part ds ≡ ds
        → (c : Attributes) → IsIrreducible n ds c ↔ IsFilledPart n ds c }
{}

/// The relation of the irreducible closed sets obeys exactly the functional dependencies that are
/// implied, where all are functional (Beeri, Dowd, Fagin and Statman 1984). A list of dependencies has
/// one exhibit.
pub fn exhibits_are_exact()
    ensures exact { (n : ℕ) (ds : List Dependency) (sets : List Attributes) → All (IsWithin (below n)) ds
        → functional_part ds ≡ ds → AreIrreducible n ds sets → length sets < 2 ^ 64 - 1
        → IsArmstrong n ds (tuples_for n sets) }
    ensures unique { (n : ℕ) (ds : List Dependency) (r s : Relation) → IsExhibit n ds r → IsExhibit n ds s
        → r ≡ s }
{}
