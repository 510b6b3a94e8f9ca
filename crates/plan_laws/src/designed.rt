//! The tables that `migrate` makes are those that `ddl` creates.

ghost use Rattle.std.specs.Prelude.{◌≡◌, ◌≢◌, ◌<◌, ◌^◌, ℕ, List, [], length, AllPairs};
ghost use Rattle.attr_sets.specs.Attributes.{Attributes};
ghost use Rattle.attr_sets.specs.declared.set.AttrSet.{AttrSet};
ghost use Rattle.dep_model.specs.Dependencies.{Dependency};
ghost use Rattle.dep_model.specs.Plans.{schemes_of};
ghost use Rattle.schema_model.specs.Schemas.{LegalFor, Schema};
ghost use Rattle.dep_model.specs.Tuples.{Relation};
ghost use Rattle.ddl_text.specs.declared.table.TableDesign.{TableDesign};
ghost use Rattle.design_order.specs.Order.{AreNamesInOrder};
ghost use Rattle.plan_printer.specs.NamedPlans.{AreApart};
ghost use Rattle.named_tables.specs.Tables.{TableValue};
ghost use Rattle.dep_model.specs.declared.form.Form.{Form};
ghost use Rattle.table_names.specs.TableNames.{GivenNames};
ghost use Rattle.desk_designs.specs.Decompositions.{IsPlanInForm};
ghost use Rattle.desk_designs.specs.Designs.{IsSoundDesign};
ghost use Rattle.desk_tables.specs.Migrations.{AreTablesOf};
ghost use Rattle.plan_laws.specs.Designed.{AreDesignedAs, KeysHoldIn, OtherKeysHoldIn, ReferencesHoldIn};

/// The tables that `migrate` makes of a plan are those that `ddl` creates for it, with their names and
/// columns, in the same order; so those that it makes of a normal form are those that `ddl` creates for that
/// form. In the tables that `migrate` makes of legal rows, the keys and references hold that `ddl` states.
pub fn migrated_tables_are_designed()
    ensures plan { (schema : Schema) (names : GivenNames) (plan : List AttrSet) (designs : List TableDesign)
        (rows : Relation) (tables : List TableValue) → IsSoundDesign schema names plan designs
        → AreTablesOf schema names (schemes_of plan) rows tables → AreDesignedAs schema designs tables }
    ensures form { (schema : Schema) (names : GivenNames) (form : Form) (plan other : List AttrSet)
        (designs : List TableDesign) (rows : Relation) (tables : List TableValue) → IsPlanInForm schema form plan
        → IsPlanInForm schema form other → IsSoundDesign schema names plan designs
        → AreTablesOf schema names (schemes_of other) rows tables → AreDesignedAs schema designs tables }
    ensures keys { (schema : Schema) (names : GivenNames) (plan : List AttrSet) (designs : List TableDesign)
        (rows : Relation) (tables : List TableValue) → IsSoundDesign schema names plan designs
        → AreTablesOf schema names (schemes_of plan) rows tables → LegalFor schema rows
        → KeysHoldIn designs tables }
    ensures other_keys { (schema : Schema) (names : GivenNames) (plan : List AttrSet) (designs : List TableDesign)
        (rows : Relation) (tables : List TableValue) → IsSoundDesign schema names plan designs
        → AreTablesOf schema names (schemes_of plan) rows tables → LegalFor schema rows
        → OtherKeysHoldIn designs tables }
    ensures references { (schema : Schema) (names : GivenNames) (plan : List AttrSet) (designs : List TableDesign)
        (rows : Relation) (tables : List TableValue) → IsSoundDesign schema names plan designs
        → AreTablesOf schema names (schemes_of plan) rows tables → LegalFor schema rows
        → ReferencesHoldIn schema designs tables }
{}

/// The tables that `migrate` makes have different names, by their numbers or given apart from one another; so
/// a destination that had none has all of them. Names that a plan gives to its tables apart from one another
/// stay apart in the order of a design; so those of a plan text are apart in the tables that are made of it.
pub fn migrated_tables_have_different_names()
    ensures numbered { (schema : Schema) (plan : List Attributes) (rows : Relation) (tables : List TableValue)
        → AreTablesOf schema [] plan rows tables → length tables < 2 ^ 64
        → AllPairs (λ one other. one.name ≢ other.name) tables }
    ensures given { (schema : Schema) (names : GivenNames) (plan : List Attributes) (rows : Relation)
        (tables : List TableValue) → AreApart names → AreTablesOf schema names plan rows tables
        → length tables < 2 ^ 64 → AllPairs (λ one other. one.name ≢ other.name) tables }
    ensures stay_apart { (n : ℕ) (ds : List Dependency) (plan : List Attributes) (names ordered : GivenNames)
        → AreNamesInOrder n ds plan names ordered → AreApart names → AreApart ordered }
{}
