ghost use Rattle.std.specs.Prelude.{◌≡◌, ℕ, List, length};
ghost use Rattle.schema_model.specs.Schemas.{Schema};
ghost use Rattle.schema_model.specs.Schemas.{width_of};
ghost use Rattle.dep_model.specs.Tuples.{Relation};
ghost use Rattle.ddl_text.specs.declared.table.TableDesign.{TableDesign};
ghost use Rattle.sql_check_laws.specs.HeldRelations.{Holds};
ghost use Rattle.sql_evaluation.specs.Cells.{Cell};
ghost use Rattle.sql_evaluation.specs.Running.{State, Cast, Fails, engine_at, ended, stopped, outcome};
ghost use Rattle.sql_migrate.specs.Script.{migration};
ghost use Rattle.sql_migrate_laws.specs.Moved.{HasMoved, LeavesOthers};

/// A run over a table that holds a relation, which ends without an error, has moved the relation into the
/// tables of the design: whatever design it is, and whatever rules the relation breaks. Its table has as many
/// columns as the schema has attributes: over a table with a column more such a run ends with an error. And it
/// leaves the user's table and every other table and view as they were, and of what it makes only the tables of
/// the design and the view. A run that ends with an error leaves everything as it was.
pub fn runs_move_all_or_nothing()
    ensures moved { (fails : Fails) (cast : Cast) (s : Schema) (name : List ℕ) (cell : ℕ → List ℕ → Cell)
        (r : Relation) (designs : List TableDesign) (start last : State)
        → Holds (engine_at cast start) name s cell r
        → outcome fails cast (migration s name designs) start ≡ ended last
        → HasMoved s cast cell r designs last }
    ensures no_other_columns { (fails : Fails) (cast : Cast) (s : Schema) (name : List ℕ) (cell : ℕ → List ℕ → Cell)
        (r : Relation) (designs : List TableDesign) (start last : State)
        (holds : Holds (engine_at cast start) name s cell r)
        → outcome fails cast (migration s name designs) start ≡ ended last
        → length holds.given.names ≡ width_of s }
    ensures others_left { (fails : Fails) (cast : Cast) (s : Schema) (name : List ℕ) (cell : ℕ → List ℕ → Cell)
        (r : Relation) (designs : List TableDesign) (start last : State)
        → Holds (engine_at cast start) name s cell r
        → outcome fails cast (migration s name designs) start ≡ ended last
        → LeavesOthers designs start last }
    ensures nothing_kept { (fails : Fails) (cast : Cast) (s : Schema) (name : List ℕ) (designs : List TableDesign)
        (start kept : State) → outcome fails cast (migration s name designs) start ≡ stopped kept
        → kept ≡ start }
{}
