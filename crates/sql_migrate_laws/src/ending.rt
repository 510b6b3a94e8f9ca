ghost use Rattle.std.specs.Prelude.{◌≡◌, ℕ, List};
ghost use Rattle.schema_model.specs.Schemas.{Schema};
ghost use Rattle.dep_model.specs.Tuples.{Relation};
ghost use Rattle.ddl_text.specs.declared.table.TableDesign.{TableDesign};
ghost use Rattle.sql_evaluation.specs.Cells.{Cell};
ghost use Rattle.sql_evaluation.specs.Running.{State, Cast, Fails, ended, outcome};
ghost use Rattle.sql_migrate.specs.Script.{migration};
ghost use Rattle.sql_migrate_laws.specs.Ending.{IsSoundRun};

/// Such a run ends without an error.
pub fn sound_migrations_end()
    ensures law { (fails : Fails) (cast : Cast) (s : Schema) (name : List ℕ) (cell : ℕ → List ℕ → Cell)
        (r : Relation) (designs : List TableDesign) (start : State)
        → IsSoundRun fails cast s name cell r designs start
        → (last : State) × (outcome fails cast (migration s name designs) start ≡ ended last) }
{}
