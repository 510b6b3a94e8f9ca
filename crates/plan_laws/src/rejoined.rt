//! The tables that `migrate` makes of rows, `rejoin` joins to the rows, in whatever order.

ghost use Rattle.std.specs.Prelude.{◌≡◌, ℕ, List};
ghost use Rattle.attr_sets.specs.Attributes.{Attributes};
ghost use Rattle.attr_sets.specs.Sets.{attributes};
ghost use Rattle.csv_text.specs.Rows.{rows_text};
ghost use Rattle.dep_model.specs.JoinOrders.{from_last};
ghost use Rattle.dep_model.specs.Plans.{IsPlan};
ghost use Rattle.dep_model.specs.Projections.{Covers};
ghost use Rattle.optional_tables.specs.declared.keyed.KeyedScheme.{KeyedScheme};
ghost use Rattle.schema_model.specs.Schemas.{LegalFor, Schema, names_of, nullable_of, width_of};
ghost use Rattle.dep_model.specs.Tuples.{Relation};
ghost use Rattle.schema_printer.specs.Spelling.{printed_names_of};
ghost use Rattle.sql_migrate.specs.Script.{view_order};
ghost use Rattle.sql_migrate.specs.declared.joining.JoinedTable.{JoinedTable};
ghost use Rattle.named_tables.specs.Tables.{TableValue};
ghost use Rattle.table_join.specs.Answers.{IsFirstUncovered};
ghost use Rattle.table_join.specs.LookUps.{AreJoinedAndLookedUp, AreTooMany};
ghost use Rattle.table_join.specs.Tables.{PartialRelation, plan_of_tables};
ghost use Rattle.table_join.specs.declared.refusal.JoinRefusal.TheVariants.{NotCovered, TooManyRows};
ghost use Rattle.table_names.specs.TableNames.{GivenNames};
ghost use Rattle.desk_designs.specs.Designs.{AreReadable};
ghost use Rattle.desk_designs.specs.Joins.{LosesNothing};
ghost use Rattle.desk_responses.specs.ResponseValues.{ResponseValue, Says};
ghost use Rattle.desk_responses.specs.declared.status.Status.TheVariants.{Refused, Yes};
ghost use Rattle.desk_tables.specs.Migrations.{AreTablesOf};
ghost use Rattle.desk_tables.specs.Rejoining.{HaveLookUps, JoinsTables, join_refusal_text, joined_tables};
ghost use Rattle.desk_tables.specs.Rejoining.{looked_up_tables};
ghost use Rattle.desk_tables.specs.Tidiness.{AreTidy};
ghost use Rattle.desk_tables.specs.declared.rejoining.TheConstants.{MOST_JOINED_ROWS};
ghost use Rattle.plan_laws.specs.Rejoined.{GivesTheRows, HasNoOptional, HaveRowsInAnyOrder, HaveRowsOf};
ghost use Rattle.plan_laws.specs.Rejoined.{HaveRowsOnceEach};

/// Of the tables that `migrate` makes of legal rows by a plan that loses nothing and has no optional table,
/// `rejoin` gives the rows, each once, or refuses a join of too many. The same holds of those tables in any
/// other order, and where some of them are given more than once. Where tables that `migrate` makes are, in
/// whatever order, a readable design that has an optional table, and no table loses a value, `rejoin` gives
/// the rows too. The tables that `migrate` makes by a plan that loses nothing, can be read back and has an
/// optional table are such a design, each once and in whatever order. There and back: where `migrate` makes
/// tables of legal rows by a plan that loses nothing and can be read back, and no table loses a value,
/// `rejoin` of them, each once and in whatever order, gives exactly the rows, each once, or refuses a join of
/// too many, whether a table is optional or none.
pub fn migrated_tables_are_rejoined()
    ensures in_order { (schema : Schema) (names : GivenNames) (plan : List Attributes) (rows : Relation)
        (tables : List TableValue) (parts : List PartialRelation) → LosesNothing schema plan → HasNoOptional schema plan
        → LegalFor schema rows → AreTablesOf schema names plan rows tables → HaveRowsOf schema plan tables parts
        → GivesTheRows schema parts rows }
    ensures in_any_order { (schema : Schema) (names : GivenNames) (plan : List Attributes) (rows : Relation)
        (tables : List TableValue) (parts : List PartialRelation) → LosesNothing schema plan → HasNoOptional schema plan
        → LegalFor schema rows → AreTablesOf schema names plan rows tables
        → HaveRowsInAnyOrder schema plan tables parts → GivesTheRows schema parts rows }
    ensures looked_up { (schema : Schema) (names : GivenNames) (plan : List Attributes) (rows : Relation)
        (tables : List TableValue) (parts : List PartialRelation) (keyed : List KeyedScheme) (counts : List ℕ)
        → LosesNothing schema plan → IsPlan (width_of schema) plan → LegalFor schema rows → AreTidy schema plan rows
        → AreTablesOf schema names plan rows tables → HaveRowsInAnyOrder schema plan tables parts
        → HaveLookUps schema parts keyed counts → GivesTheRows schema parts rows }
    ensures have_look_ups { (schema : Schema) (names : GivenNames) (plan : List Attributes) (rows : Relation)
        (tables : List TableValue) (parts : List PartialRelation) → LosesNothing schema plan
        → AreReadable schema names plan → (HasNoOptional schema plan → ⊥) → AreTablesOf schema names plan rows tables
        → HaveRowsOnceEach schema plan tables parts
        → (keyed : List KeyedScheme) × ((counts : List ℕ) × HaveLookUps schema parts keyed counts) }
    ensures there_and_back { (schema : Schema) (names : GivenNames) (plan : List Attributes) (rows : Relation)
        (tables : List TableValue) (parts : List PartialRelation) → LosesNothing schema plan
        → AreReadable schema names plan → AreTablesOf schema names plan rows tables
        → HaveRowsOnceEach schema plan tables parts → IsPlan (width_of schema) plan → LegalFor schema rows
        → AreTidy schema plan rows → GivesTheRows schema parts rows }
{}

/// What `rejoin` answers of tables that are a readable design with an optional table: where each attribute is
/// in one of them, the rows to which they are joined and looked up within the limit; else the refusal of the
/// first attribute that is in none, or that there are too many rows. The order in which `rejoin` joins tables
/// from the last is the one in which the view of `sql migrate` joins them.
pub fn look_ups_are_answered()
    ensures rows { (schema : Schema) (tables : List PartialRelation) (keyed : List KeyedScheme) (counts : List ℕ)
        (rows : Relation) (response : ResponseValue) → HaveLookUps schema tables keyed counts
        → Covers (width_of schema) (plan_of_tables tables)
        → AreJoinedAndLookedUp (width_of schema) (nullable_of schema) MOST_JOINED_ROWS
        (joined_tables schema tables keyed) (looked_up_tables schema tables keyed counts) rows
        → JoinsTables schema tables response → Says Yes (rows_text (names_of schema) rows) response }
    ensures uncovered { (schema : Schema) (tables : List PartialRelation) (keyed : List KeyedScheme) (counts : List ℕ)
        (a : ℕ) (response : ResponseValue) → HaveLookUps schema tables keyed counts
        → IsFirstUncovered (width_of schema) (plan_of_tables tables) a → JoinsTables schema tables response
        → Says Refused (join_refusal_text (printed_names_of schema) (NotCovered a)) response }
    ensures too_many { (schema : Schema) (tables : List PartialRelation) (keyed : List KeyedScheme) (counts : List ℕ)
        (after : ℕ) (response : ResponseValue) → HaveLookUps schema tables keyed counts
        → Covers (width_of schema) (plan_of_tables tables)
        → AreTooMany (width_of schema) (nullable_of schema) MOST_JOINED_ROWS
        (joined_tables schema tables keyed) (looked_up_tables schema tables keyed counts) after
        → JoinsTables schema tables response
        → Says Refused (join_refusal_text (printed_names_of schema) (TooManyRows after)) response }
    ensures view { (tables : List JoinedTable) → view_order tables ≡ from_last (λ t. attributes t.scheme) tables }
{}
