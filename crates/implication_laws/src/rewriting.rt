//! Laws of schemas over the same names whose dependencies are written otherwise.

ghost use Rattle.std.specs.Prelude.{◌≡◌, ◌≤◌, ℕ, List, length};
ghost use Rattle.dep_model.specs.Dependencies.{Dependency};
ghost use Rattle.schema_model.specs.Schemas.{naming_of, names_of, width_of, theory_of};
ghost use Rattle.schema_model.specs.Schemas.{Schema};
ghost use Rattle.min_cover.specs.Covers.{HaveSameLegal};
ghost use Rattle.schema_grammar.specs.Schemas.{MeansSchema};
ghost use Rattle.schema_grammar.specs.Texts.{declarations_of};
ghost use Rattle.schema_grammar.specs.declared.format.TheConstants.{MOST_DEPENDENCY_LINES};
ghost use Rattle.schema_printer.specs.Printing.{schema_text};
ghost use Rattle.desk_covers.specs.CoverChecks.{ChecksCanonicalCover, ChecksCover};
ghost use Rattle.desk_covers.specs.Covering.{GivesCanonicalCover, GivesCover};
ghost use Rattle.desk_responses.specs.ResponseValues.{ResponseValue, Says};
ghost use Rattle.desk_responses.specs.declared.status.Status.TheVariants.{Yes};
ghost use Rattle.implication_laws.specs.Alike.{AnswerAlike, AnswersAlikeWith};
ghost use Rattle.implication_laws.specs.Rewriting.{HaveSameDependencies, MeansConfirmed};

/// Two schemas with the same names are answered alike where the same relations are legal for them; so where they
/// have the same dependencies in any order; and so are the dependencies that `cover` prints in place of the
/// schema's own.
pub fn schemas_are_answered_alike()
    ensures same_relations { (schema other : Schema) → naming_of schema ≡ naming_of other
        → names_of schema ≡ names_of other
        → HaveSameLegal (width_of schema) (theory_of other) (theory_of schema) → AnswerAlike schema other }
    ensures line_order { (schema other : Schema) → HaveSameDependencies schema other → AnswerAlike schema other }
    ensures cover { (schema : Schema) (printed : ResponseValue) → GivesCover schema printed
        → (whole : List Dependency) × Says Yes (schema_text schema whole) printed
        × AnswersAlikeWith schema whole }
{}

/// What `cover` and `cover canonical` print of the schema of a text means a schema with the same names, columns and
/// columns that may lack values, and with the dependencies of the cover, whatever the names; where these are not more
/// than a schema text may have. `check cover`, or `check cover canonical`, says yes to it.
pub fn printed_covers_are_confirmed()
    ensures cover { (text : List ℕ) (schema : Schema) (printed : ResponseValue)
        → MeansSchema text (declarations_of schema) → GivesCover schema printed
        → (whole : List Dependency) × Says Yes (schema_text schema whole) printed
        × (length whole ≤ MOST_DEPENDENCY_LINES → MeansConfirmed ChecksCover schema whole printed.text) }
    ensures canonical { (text : List ℕ) (schema : Schema) (printed : ResponseValue)
        → MeansSchema text (declarations_of schema) → GivesCanonicalCover schema printed
        → (cover : List Dependency) × Says Yes (schema_text schema cover) printed
        × (length cover ≤ MOST_DEPENDENCY_LINES
        → MeansConfirmed ChecksCanonicalCover schema cover printed.text) }
{}
