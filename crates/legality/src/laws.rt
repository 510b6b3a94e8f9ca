//! Laws of offences.

ghost use Rattle.std.specs.Prelude.{◌≡◌, ℕ, List, All, Some, slice_get};
ghost use Rattle.dep_model.specs.Dependencies.{Dependency};
ghost use Rattle.dep_model.specs.Tuples.{Relation};
ghost use Rattle.legality.specs.Offences.{IsOffence, OffencesOf};
ghost use Rattle.legality.specs.declared.offence.Offence.{Offence};

/// An offence is that of the dependency at the position which it names.
pub fn offences_name_dependencies()
    ensures law { (n : ℕ) (ds : List Dependency) (r : Relation) (os : List Offence) → OffencesOf n ds r os
        → All (λ o. (d : Dependency) × (slice_get ds o.dep ≡ Some d) × IsOffence n r o.dep d o) os }
{}

/// Rows have one list of offences.
pub fn one_list_of_offences()
    ensures law { (n : ℕ) (ds : List Dependency) (r : Relation) (one other : List Offence)
        → OffencesOf n ds r one → OffencesOf n ds r other → one ≡ other }
{}
