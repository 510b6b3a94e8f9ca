//! Laws of the relation that `exhibit` prints.

ghost use Rattle.std.specs.Prelude.{◌≡◌, ◌⊎◌, ◌↔◌, ℕ, true, List, length};
ghost use Rattle.csv_text.specs.Rows.{rows_text};
ghost use Rattle.dep_model.specs.Dependencies.{Dependency, Obeys, is_fd};
ghost use Rattle.schema_model.specs.Schemas.{names_of, width_of, LegalFor};
ghost use Rattle.dep_model.specs.Tuples.{Relation};
ghost use Rattle.schema_model.specs.Schemas.{Schema};
ghost use Rattle.headed_rows.specs.Headings.{HeadedRows};
ghost use Rattle.desk_discovery.specs.Discoveries.{FindsRules, RefusesRules, found_text};
ghost use Rattle.desk_exhibits.specs.Exhibits.{Exhibits};
ghost use Rattle.desk_arguments.specs.Goals.{IsGoal};
ghost use Rattle.desk_implication.specs.Implication.{DecidesGoal};
ghost use Rattle.desk_tables.specs.Legality.{JudgesRows};
ghost use Rattle.desk_responses.specs.ResponseValues.{ResponseValue, Says};
ghost use Rattle.desk_responses.specs.declared.status.Status.TheVariants.{Yes};
ghost use Rattle.implication_laws.specs.Alike.{AnswersAlikeWith};

/// The relation that `exhibit` prints is legal for its schema; it obeys exactly the functional goals that are
/// implied; and what is discovered in it says as much as the schema does.
pub fn exhibits_show_their_schema()
    ensures legal { (schema : Schema) (shown : ResponseValue) → Exhibits schema shown → shown.status ≡ Yes
        → (rows : Relation) × Says Yes (rows_text (names_of schema) rows) shown × LegalFor schema rows
        × ((judged : ResponseValue) → JudgesRows schema rows judged → judged.status ≡ Yes) }
    ensures goals { (schema : Schema) (shown : ResponseValue) → Exhibits schema shown → shown.status ≡ Yes
        → (rows : Relation) × Says Yes (rows_text (names_of schema) rows) shown
        × ((goal : List ℕ) (d : Dependency) (decided : ResponseValue) → IsGoal schema goal d → is_fd d ≡ true
        → DecidesGoal schema goal decided → (decided.status ≡ Yes) ↔ Obeys (width_of schema) d rows) }
    ensures rules { (schema : Schema) (shown : ResponseValue) → Exhibits schema shown → shown.status ≡ Yes
        → (rows : Relation) × Says Yes (rows_text (names_of schema) rows) shown
        × ((file : List ℕ) (headed : HeadedRows) (found : ResponseValue) → headed.names ≡ names_of schema
        → headed.rows ≡ rows → FindsRules file headed found
        → RefusesRules (length headed.names) file headed found
        ⊎ ((ds : List Dependency) × Says Yes (found_text (names_of schema) ds) found
        × AnswersAlikeWith schema ds)) }
{}
