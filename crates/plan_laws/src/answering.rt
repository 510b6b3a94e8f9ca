//! Laws that each command on plans, tables and rows has one answer to the values that it is asked about.

ghost use Rattle.std.specs.Prelude.{◌≤◌, ℕ, List};
ghost use Rattle.attr_sets.specs.Attributes.{Attributes};
ghost use Rattle.dep_model.specs.Plans.{IsPlan};
ghost use Rattle.dep_model.specs.Tuples.{Relation};
ghost use Rattle.schema_model.specs.Schemas.{Schema, width_of};
ghost use Rattle.dep_model.specs.declared.form.Form.{Form};
ghost use Rattle.sample_rows.specs.declared.rows.TheConstants.{MOST_PERSONS};
ghost use Rattle.table_join.specs.Tables.{PartialRelation};
ghost use Rattle.table_names.specs.TableNames.{GivenNames};
ghost use Rattle.implication_laws.specs.OneAnswer.{AllowsOne};
ghost use Rattle.desk_designs.specs.Decompositions.{Splits, SplitsWide};
ghost use Rattle.desk_designs.specs.Designs.{WritesForm, WritesPlan};
ghost use Rattle.desk_designs.specs.Drawings.{DrawsForm, DrawsSchemes};
ghost use Rattle.desk_designs.specs.FewestReasons.{ExplainsFewest};
ghost use Rattle.desk_designs.specs.FewestTables.{SynthesizesFewest};
ghost use Rattle.desk_designs.specs.FormsOfSchemes.{ListsFormOfAll, ListsFormsOfPlan};
ghost use Rattle.desk_scripts.specs.Scripts.{ScriptsCheck, ScriptsMeasure, ScriptsMigration, ScriptsMigrationByPlan};
ghost use Rattle.desk_designs.specs.SplitReasons.{ExplainsSplit};
ghost use Rattle.desk_designs.specs.SynthesisReasons.{ExplainsSynthesis};
ghost use Rattle.desk_tables.specs.Legality.{JudgesRows};
ghost use Rattle.desk_tables.specs.Migrations.{MigratesPlan, Samples};
ghost use Rattle.desk_tables.specs.Overwriting.{MigratesHere, MigratesPlanHere};
ghost use Rattle.desk_tables.specs.OwnFolders.{HasOneLook, Looks, MigratesInto, MigratesPlanInto};
ghost use Rattle.desk_tables.specs.Rejoining.{JoinsTables};

/// What is asked of a schema, and of a schema and a plan, has one answer: `split`, `form`, `synthesize fewest`, the
/// reasons of plans, `ddl` and `draw`.
pub fn plans_have_one_answer()
    ensures split { (schema : Schema) (form : Form) → AllowsOne (Splits schema form) }
    ensures split_wide { (schema : Schema) → AllowsOne (SplitsWide schema) }
    ensures form { (schema : Schema) → AllowsOne (ListsFormOfAll schema) }
    ensures form_of_plan { (schema : Schema) (plan : List Attributes) → IsPlan (width_of schema) plan
        → AllowsOne (ListsFormsOfPlan schema plan) }
    ensures fewest { (schema : Schema) → AllowsOne (SynthesizesFewest schema) }
    ensures explained_synthesis { (schema : Schema) → AllowsOne (ExplainsSynthesis schema) }
    ensures explained_fewest { (schema : Schema) → AllowsOne (ExplainsFewest schema) }
    ensures explained_split { (schema : Schema) (form : Form) → AllowsOne (ExplainsSplit schema form) }
    ensures ddl { (schema : Schema) (form : Form) → AllowsOne (WritesForm schema form) }
    ensures ddl_of_plan { (schema : Schema) (names : GivenNames) (plan : List Attributes)
        → AllowsOne (WritesPlan schema names plan) }
    ensures draw { (schema : Schema) (form : Form) → AllowsOne (DrawsForm schema form) }
    ensures draw_of_plan { (schema : Schema) (names : GivenNames) (plan : List Attributes)
        → AllowsOne (DrawsSchemes schema names plan) }
{}

/// `sql check` and `sql measure` have one answer to a schema and the name of a table, and `sql migrate` to these and a
/// form or a plan.
pub fn scripts_have_one_answer()
    ensures check { (schema : Schema) (name : List ℕ) → AllowsOne (ScriptsCheck schema name) }
    ensures measure { (schema : Schema) (name : List ℕ) → AllowsOne (ScriptsMeasure schema name) }
    ensures migrate { (schema : Schema) (form : Form) (name : List ℕ) → AllowsOne (ScriptsMigration schema form name) }
    ensures migrate_by_plan { (schema : Schema) (names : GivenNames) (plan : List Attributes) (name : List ℕ)
        → AllowsOne (ScriptsMigrationByPlan schema names plan name) }
{}

/// `check rows`, `migrate` (where no file that is read is written over, and into a folder of its own too, where a
/// look at a name has one answer), `sample` and `rejoin` have one answer, text and tables, to the values that they
/// are asked about.
pub fn tables_have_one_answer()
    ensures check_rows { (schema : Schema) (rows : Relation) → AllowsOne (JudgesRows schema rows) }
    ensures migrate { (schema : Schema) (names : GivenNames) (plan : List Attributes) (rows : Relation)
        → AllowsOne (MigratesPlan schema names plan rows) }
    ensures here { (schema : Schema) (form : Form) (files : List (List ℕ)) (rows : Relation)
        → AllowsOne (MigratesHere schema form files rows) }
    ensures here_by_plan { (schema : Schema) (names : GivenNames) (plan : List Attributes) (files : List (List ℕ))
        (rows : Relation) → AllowsOne (MigratesPlanHere schema names plan files rows) }
    ensures into { (looks : Looks) (schema : Schema) (form : Form) (name : List ℕ) (rows : Relation)
        → HasOneLook looks → AllowsOne (MigratesInto looks schema form name rows) }
    ensures into_by_plan { (looks : Looks) (schema : Schema) (names : GivenNames) (plan : List Attributes)
        (name : List ℕ) (rows : Relation) → HasOneLook looks
        → AllowsOne (MigratesPlanInto looks schema names plan name rows) }
    ensures sample { (persons : ℕ) → persons ≤ MOST_PERSONS → AllowsOne (Samples persons) }
    ensures rejoin { (schema : Schema) (tables : List PartialRelation) → AllowsOne (JoinsTables schema tables) }
{}
