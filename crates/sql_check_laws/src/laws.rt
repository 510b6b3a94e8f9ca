ghost use Rattle.std.specs.Prelude.{◌≡◌, ◌↔◌, ◌<◌, ℕ, List, [], true};
ghost use Rattle.schema_model.specs.Schemas.{Schema};
ghost use Rattle.schema_model.specs.Schemas.{width_of, nullable_of, LegalFor};
ghost use Rattle.dep_model.specs.Tuples.{Relation, IsOver};
ghost use Rattle.sql_check.specs.Checks.{required_query};
ghost use Rattle.sql_evaluation.specs.Cells.{Cell, missing, text};
ghost use Rattle.sql_evaluation.specs.Evaluation.{Engine};
ghost use Rattle.sql_check_laws.specs.HeldRelations.{AreApart, Holds, CastsIntegers, cell_of};
ghost use Rattle.sql_check_laws.specs.CheckedRules.{Tells, TellsDependencies, NoneMissing, AreIntegers, RulesHold};
ghost use Rattle.sql_check_laws.specs.CheckedRules.{ShowsIntegers, NoBreachShown, NothingShown};

/// Over a table that holds a relation, whatever engine it is, the query of each dependency ends without an
/// error, and gives no row exactly where the relation obeys the dependency. So no query of a dependency gives
/// a row exactly where the relation is legal. The query of missing values ends without an error, and gives no
/// row exactly where no value is missing that may not be; where it is not there, none may be missing. In an
/// engine that casts the texts of integers to these integers, whatever it makes of other texts, the query of an
/// integer attribute ends without an error and without a row exactly where each value in its column is missing,
/// an integer, or the text of one. So no query of the script gives a row, and none ends with an error, exactly
/// where all rules hold.
pub fn queries_tell_rules()
    ensures dependencies { (e : Engine) (table : List ℕ) (s : Schema) (cell : ℕ → List ℕ → Cell) (r : Relation)
        → Holds e table s cell r → IsOver (width_of s) r → TellsDependencies e s table r }
    ensures legal { (e : Engine) (table : List ℕ) (s : Schema) (cell : ℕ → List ℕ → Cell) (r : Relation)
        → Holds e table s cell r → IsOver (width_of s) r → LegalFor s r ↔ NoBreachShown e s table }
    ensures missing_values { (e : Engine) (table : List ℕ) (s : Schema) (cell : ℕ → List ℕ → Cell) (r : Relation)
        → Holds e table s cell r → Tells e (required_query s table) (NoneMissing s cell r) }
    ensures integers { (e : Engine) (table : List ℕ) (s : Schema) (cell : ℕ → List ℕ → Cell) (r : Relation) (k : ℕ)
        → Holds e table s cell r → CastsIntegers e.cast → k < width_of s
        → AreIntegers cell r k ↔ ShowsIntegers e s table k }
    ensures script { (e : Engine) (table : List ℕ) (s : Schema) (cell : ℕ → List ℕ → Cell) (r : Relation)
        → Holds e table s cell r → IsOver (width_of s) r → CastsIntegers e.cast
        → RulesHold s cell r ↔ NothingShown e s table }
{}

/// For each relation there are such engines: with any values in the columns that are told apart where the
/// relation's are, so with the relation's own values as texts. In such an engine the empty text may be the
/// missing value of the columns in which values may be missing, and of no other: then it is missing nowhere
/// else, and no value is missing that may not be. A missing value is like itself and like no text, so the
/// queries of dependencies tell of these relations too, whatever types the columns have.
pub fn engines_hold_relations()
    ensures cells { (table : List ℕ) (s : Schema) (cell : ℕ → List ℕ → Cell) (r : Relation)
        → AreApart s cell r → (e : Engine) × CastsIntegers e.cast × Holds e table s cell r }
    ensures texts { (table : List ℕ) (s : Schema) (r : Relation)
        → (e : Engine) × CastsIntegers e.cast × Holds e table s (λ k v. text v) r }
    ensures empty_missing { (table : List ℕ) (s : Schema) (r : Relation)
        → (e : Engine) × CastsIntegers e.cast × Holds e table s (cell_of s) r }
    ensures empty { (s : Schema) (k : ℕ) (v : List ℕ) → nullable_of s k ≡ true
        → (cell_of s k v ≡ missing) ↔ (v ≡ []) }
    ensures none_missing { (s : Schema) (r : Relation) → NoneMissing s (cell_of s) r }
    ensures told { (e : Engine) (table : List ℕ) (s : Schema) (r : Relation)
        → Holds e table s (cell_of s) r → IsOver (width_of s) r → TellsDependencies e s table r }
{}
