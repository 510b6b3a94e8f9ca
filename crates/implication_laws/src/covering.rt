//! The laws of canonical covers, and of what `check cover` and `check cover canonical` say yes to.

ghost use Rattle.std.specs.Prelude.{◌≡◌, ◌↔◌, ℕ, List, []};
ghost use Rattle.canonical_cover.specs.Canonical.{IsCanonicalCover};
ghost use Rattle.cover_accounts.specs.CoverDiagnostics.{AreCoverDiagnostics};
ghost use Rattle.cover_accounts.specs.declared.diagnostic.CoverForm.TheVariants.{Minimal, Canonical};
ghost use Rattle.canonical_cover.specs.Merging.{merge_left_sides};
ghost use Rattle.dep_model.specs.Dependencies.{Dependency, functional_part};
ghost use Rattle.min_cover.specs.Covers.{IsMinimalCover};
ghost use Rattle.schema_match.specs.Carried.{HaveSameLegalRelations};
ghost use Rattle.schema_match.specs.Columns.{SameNames};
ghost use Rattle.schema_model.specs.Schemas.{width_of, theory_of};
ghost use Rattle.schema_model.specs.Schemas.{Schema};
ghost use Rattle.desk_covers.specs.CoverChecks.{ChecksCanonicalCover, ChecksCover};
ghost use Rattle.desk_covers.specs.Covering.{GivesCanonicalCover, GivesCover};
ghost use Rattle.schema_printer.specs.Printing.{schema_text};
ghost use Rattle.desk_responses.specs.ResponseValues.{ResponseValue, Says};
ghost use Rattle.desk_responses.specs.declared.status.Status.TheVariants.{Yes};
ghost use Rattle.implication_laws.specs.Minimality.{IsCanonicalByKind, IsMinimalByKind};

/// `check cover` and `check cover canonical` say nothing of a line exactly where the functional dependencies are a
/// minimal, or canonical, cover of themselves and no multivalued one follows from the rest, and yes exactly where
/// besides the schemas have the same legal relations; and a canonical cover is a cover with one dependency a left
/// side.
pub fn covers_are_confirmed()
    ensures minimal_silent { (schema : Schema)
        → AreCoverDiagnostics Minimal (width_of schema) (theory_of schema) [] ↔ IsMinimalByKind schema }
    ensures minimal_yes { (schema other : Schema) (file other_file : List ℕ) (response : ResponseValue)
        → ChecksCover schema other file other_file response
        → (response.status ≡ Yes)
        ↔ (SameNames schema other × HaveSameLegalRelations schema other × IsMinimalByKind other) }
    ensures minimal_functional { (schema : Schema) → functional_part (theory_of schema) ≡ theory_of schema
        → IsMinimalByKind schema ↔ IsMinimalCover (width_of schema) (theory_of schema) (theory_of schema) }
    ensures canonical_silent { (schema : Schema)
        → AreCoverDiagnostics Canonical (width_of schema) (theory_of schema) [] ↔ IsCanonicalByKind schema }
    ensures canonical_yes { (schema other : Schema) (file other_file : List ℕ) (response : ResponseValue)
        → ChecksCanonicalCover schema other file other_file response
        → (response.status ≡ Yes)
        ↔ (SameNames schema other × HaveSameLegalRelations schema other × IsCanonicalByKind other) }
    ensures canonical_functional { (schema : Schema) → functional_part (theory_of schema) ≡ theory_of schema
        → IsCanonicalByKind schema
        ↔ IsCanonicalCover (width_of schema) (theory_of schema) (theory_of schema) }
    ensures merged { (schema : Schema) (plain canonical : ResponseValue) → GivesCover schema plain
        → GivesCanonicalCover schema canonical
        → (whole : List Dependency) × Says Yes (schema_text schema whole) plain
        × Says Yes (schema_text schema (merge_left_sides whole)) canonical }
{}
