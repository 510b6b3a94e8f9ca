//! How few rows must go, or change, so that rows obey a functional dependency. Laws, no code.
//!
//! How many these are is the error of the dependency (Kivinen and Mannila 1995).
//!
//! Promises: of each group of rows that agree on the left side the largest class stays, which
//! agrees on the right side too: the others are a least removal, and it is enough, and needed, to
//! change as many; rows have one error, it is none exactly where they obey the dependency, and it
//! never grows with the left side.
#![tactic(auto)]

ghost use Rattle.std.specs.Prelude.{◌≡◌, ◌≤◌, ◌↔◌, ℕ, List};
ghost use Rattle.attr_sets.specs.Attributes.{Attributes, IsSubset, union};
ghost use Rattle.row_groups.specs.Numberings.{AreGroups};
ghost use Rattle.dep_model.specs.Dependencies.{Dependency, Obeys, fd};
ghost use Rattle.dep_model.specs.Tuples.{Relation, IsOver};
ghost use Rattle.removal_laws.specs.Classes.{AreLargestClasses, in_chosen};
ghost use Rattle.removal_laws.specs.Errors.{IsError};
ghost use Rattle.removal_laws.specs.Removals.{IsLeastChange, IsLeastRemoval};

/// The rows outside the largest class of their group are a least removal; and as many rows must have
/// other values outside the left side, and that is enough.
pub fn largest_classes_stay()
    ensures removal { (n : ℕ) (x y : Attributes) (r : Relation) (groups classes chosen : List ℕ)
        → AreGroups r x groups → AreGroups r (union x y) classes → AreLargestClasses groups classes chosen
        → IsLeastRemoval n (fd x y) r (in_chosen groups classes chosen) }
    ensures change { (n : ℕ) (x y : Attributes) (r : Relation) (groups classes chosen : List ℕ) → IsOver n r
        → AreGroups r x groups → AreGroups r (union x y) classes → AreLargestClasses groups classes chosen
        → IsLeastChange n x y r (in_chosen groups classes chosen) }
{}

/// Rows have one error against a dependency. It is none exactly where the rows obey the dependency, and
/// that of a functional dependency never grows with its left side.
pub fn one_error()
    ensures unique { (n : ℕ) (r : Relation) (d : Dependency) (one other : ℕ)
        → IsError n r d one → IsError n r d other → one ≡ other }
    ensures none { (n : ℕ) (r : Relation) (d : Dependency) → IsError n r d 0 ↔ Obeys n d r }
    ensures smaller { (n : ℕ) (r : Relation) (v x y : Attributes) (larger smaller : ℕ) → IsSubset v x
        → IsError n r (fd v y) larger → IsError n r (fd x y) smaller → smaller ≤ larger }
{}
