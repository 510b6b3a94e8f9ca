ghost use Rattle.std.specs.Prelude.{◌≡◌, ◌++◌, ℕ, List, IsTrue, codes, length, replicate, IfOk, OnOk};
ghost use Rattle.std.specs.List.{flat_map};
ghost use Rattle.attr_sets.specs.Sets.{attributes};
ghost use Rattle.schema_model.specs.Schemas.{width_of};
ghost use Rattle.dep_model.specs.Tuples.{Relation};
ghost use Rattle.sql_syntax.specs.Names.{comma_list};
ghost use Rattle.sql_syntax.specs.Syntax.{missing_value};
ghost use Rattle.sql_syntax.specs.Printing.{query_text, scalar_text};
ghost use Rattle.sql_syntax.specs.Statements.{create_view, statement_text};
ghost use Rattle.sql_evaluation.specs.Cells.{Cell};
ghost use Rattle.sql_evaluation.specs.Running.{State, Cast, Fails, engine_at, ended, stopped, outcome};
ghost use Rattle.sql_check_laws.specs.HeldRelations.{Holds};
ghost use Rattle.sql_migrate.specs.Script.{copy_query, view_name, view_query, width_query, table_rows, viewed_rows};
ghost use Rattle.sql_migrate.specs.Script.{migration};
ghost use Rattle.sql_migrate_laws.specs.Moved.{HasMoved, LeavesOthers};
ghost use Rattle.sql_migrate_laws.specs.Ending.{IsSoundRun};
ghost use Rattle.sql_scripts.specs.Naming.{is_table_name, quoted_table};
ghost use Rattle.sql_scripts.specs.Migrating.{opening_text, fill_text, lacked_text, gained_text, width_text};
ghost use Rattle.sql_scripts.specs.Migrating.{test_words, count_text, test_end, testing_text, migrate_text};
ghost use Rattle.sql_scripts.specs.Migrating.{FillsTables, ViewIsTable};

use crate::columns::moved_columns;
use crate::filling::add_fills;
use crate::joining::view_text;
use crate::listing::{Listed, items_text};
use crate::naming::quote_table;
use crate::selecting::selected_text;
use attr_sets::AttrSet;
use byte_texts::add;
use ddl_text::{DesignList, TableDesign, print_ddl};
use dep_model::OutOfMemory;
use schema_model::Schema;
use sql_migrate::Move;
use sql_syntax::add_listed;
use std::alloc::Global;

/// A script that makes the tables of a design and fills them from a table, each from the rows that miss no value of
/// its key; makes a view on their join, from which it looks up the optional ones; and undoes all of this where the view
/// is not the table. In an engine that holds a relation as this table, a run without an error has moved it into the
/// tables, from a table without other columns, and left all else as it was; any other run has changed nothing. Over a
/// legal relation what fills each table are its rows, and where the plan loses nothing the join of all is the relation;
/// where the design can be read back, a run over rows that are tidy ends without an error, where the engine refuses
/// nothing but what breaks a rule of a table.
pub fn migrate_script(
    alloc: Global,
    schema: &Schema,
    design: &DesignList,
    table: &[u8],
) -> Result<Vec<u8>, OutOfMemory>
    requires name { IsTrue (is_table_name table.now) }
    ensures text { IfOk result
        (λ text. text.items ≡ migrate_text schema.now (quoted_table table.now) design.now) }
    ensures fills { FillsTables schema.now design.now }
    ensures view { ViewIsTable schema.now design.now }
    ensures moves { (fails : Fails) (cast : Cast) (cell : ℕ → List ℕ → Cell) (r : Relation)
        (start last : State) → Holds (engine_at cast start) (quoted_table table.now) schema.now cell r
        → outcome fails cast (migration schema.now (quoted_table table.now) design.now) start ≡ ended last
        → HasMoved schema.now cast cell r design.now last }
    ensures whole { (fails : Fails) (cast : Cast) (cell : ℕ → List ℕ → Cell) (r : Relation)
        (start last : State) (holds : Holds (engine_at cast start) (quoted_table table.now) schema.now cell r)
        → outcome fails cast (migration schema.now (quoted_table table.now) design.now) start ≡ ended last
        → length holds.given.names ≡ width_of schema.now }
    ensures leaves { (fails : Fails) (cast : Cast) (cell : ℕ → List ℕ → Cell) (r : Relation)
        (start last : State) → Holds (engine_at cast start) (quoted_table table.now) schema.now cell r
        → outcome fails cast (migration schema.now (quoted_table table.now) design.now) start ≡ ended last
        → LeavesOthers design.now start last }
    ensures undoes { (fails : Fails) (cast : Cast) (start kept : State)
        → outcome fails cast (migration schema.now (quoted_table table.now) design.now) start ≡ stopped kept
        → kept ≡ start }
    ensures ends { (fails : Fails) (cast : Cast) (cell : ℕ → List ℕ → Cell) (r : Relation) (start : State)
        → IsSoundRun fails cast schema.now (quoted_table table.now) cell r design.now start
        → (last : State)
        × (outcome fails cast (migration schema.now (quoted_table table.now) design.now) start ≡ ended last) }
{
    migrate_text(alloc, schema, design, table)
}

// The text of the script.
fn migrate_text(
    alloc: Global,
    schema: &Schema,
    design: &DesignList,
    table: &[u8],
) -> Result<Vec<u8>, OutOfMemory>
    ensures text { IfOk result
        (λ text. text.items ≡ migrate_text schema.now (quoted_table table.now) design.now) }
{
    let name = quote_table(alloc, table)?;
    script_text(alloc, schema, design, &name)
}

// The same; `table` is the quoted name of the user's table.
fn script_text(
    alloc: Global,
    schema: &Schema,
    design: &DesignList,
    table: &[u8],
) -> Result<Vec<u8>, OutOfMemory>
    ensures text { IfOk result (λ text. text.items ≡ migrate_text schema.now table.now design.now) }
{
    let ddl = print_ddl(alloc, schema, design)?;
    migration_text(alloc, schema, table, &ddl, design.tables())
}

// The same, from the text of the tables.
fn migration_text(
    alloc: Global,
    schema: &Schema,
    table: &[u8],
    ddl: &[u8],
    designs: &[TableDesign],
) -> Result<Vec<u8>, OutOfMemory>
    ensures text { IfOk result (λ text. text.items ≡ opening_text schema.now table.now ++ ddl.now
        ++ flat_map (fill_text schema.now) designs.now
        ++ statement_text (create_view view_name (view_query schema.now designs.now))
        ++ testing_text schema.now table.now) }
{
    let mut text = opening_text(alloc, schema, table)?;
    add(&mut text, ddl)?;
    add_fills(alloc, &mut text, schema, designs)?;
    add(&mut text, &view_statement(alloc, schema, designs)?)?;
    add(&mut text, &testing_text(alloc, schema, table)?)?;
    Ok(text)
}

// The statements before the tables.
#[tactic(auto, unfolding(sql_syntax::specs::Statements::statement_text))]
fn opening_text(alloc: Global, schema: &Schema, table: &[u8]) -> Result<Vec<u8>, OutOfMemory>
    ensures text { IfOk result (λ text. text.items ≡ opening_text schema.now table.now) }
{
    let query = copy_text(alloc, schema, table)?;
    let mut text = Vec::new(alloc);
    add(
        &mut text,
        b"-- all of it or nothing, where the first error ends it: ",
    )?;
    add(&mut text, b"psql -v ON_ERROR_STOP=1, sqlite3 -bail\n")?;
    add(&mut text, b"BEGIN;\n")?;
    add(&mut text, b"CREATE TEMPORARY TABLE \"t0\" AS ")?;
    add(&mut text, &query)?;
    add(&mut text, b";\n")?;
    Ok(text)
}

// The user's table, as it is copied.
#[tactic(auto, unfolding(sql_migrate::specs::Script::copy_query))]
fn copy_text(alloc: Global, schema: &Schema, table: &[u8]) -> Result<Vec<u8>, OutOfMemory>
    ensures text { IfOk result (λ text. text.items ≡ query_text (copy_query schema.now table.now)) }
{
    let set = AttrSet::full(schema.width());
    let items = items_text(alloc, schema, set, Listed::Copied)?;
    selected_text(alloc, false, &items, table, b"r", b"")
}

// The statement that makes the view.
#[tactic(auto, unfolding(sql_syntax::specs::Statements::statement_text))]
fn view_statement(
    alloc: Global,
    schema: &Schema,
    designs: &[TableDesign],
) -> Result<Vec<u8>, OutOfMemory>
    ensures text { IfOk result (λ text. text.items
        ≡ statement_text (create_view view_name (view_query schema.now designs.now))) }
{
    let query = view_text(alloc, schema, designs)?;
    let mut text = Vec::new(alloc);
    add(&mut text, b"CREATE VIEW \"joined\" AS ")?;
    add(&mut text, &query)?;
    add(&mut text, b";\n")?;
    Ok(text)
}

// The statements after the view: the table has no other columns, and both differences must be empty.
fn testing_text(alloc: Global, schema: &Schema, table: &[u8]) -> Result<Vec<u8>, OutOfMemory>
    ensures text { IfOk result (λ text. text.items ≡ testing_text schema.now table.now) }
{
    let width = width_query(alloc, schema, table)?;
    let lacked = lacked_text(alloc, schema, table)?;
    let gained = gained_text(alloc, schema, table)?;
    test_text(alloc, &width, &lacked, &gained)
}

// What the view lacks.
fn lacked_text(alloc: Global, schema: &Schema, table: &[u8]) -> Result<Vec<u8>, OutOfMemory>
    ensures text { IfOk result (λ text. text.items ≡ lacked_text schema.now table.now) }
{
    let held = table_text(alloc, schema, table)?;
    let viewed = viewed_text(alloc, schema)?;
    except_text(alloc, &held, &viewed)
}

// What the view has beyond the table.
fn gained_text(alloc: Global, schema: &Schema, table: &[u8]) -> Result<Vec<u8>, OutOfMemory>
    ensures text { IfOk result (λ text. text.items ≡ gained_text schema.now table.now) }
{
    let held = table_text(alloc, schema, table)?;
    let viewed = viewed_text(alloc, schema)?;
    except_text(alloc, &viewed, &held)
}

// The same, from the query of the columns and the two differences.
fn test_text(
    alloc: Global,
    width: &[u8],
    lacked: &[u8],
    gained: &[u8],
) -> Result<Vec<u8>, OutOfMemory>
    ensures text { IfOk result (λ text. text.items ≡ width_text width.now ++ test_words
        ++ count_text lacked.now ++ count_text gained.now ++ test_end) }
{
    let mut text = width_text(alloc, width)?;
    add(
        &mut text,
        b"-- an error here undoes all: the view would lack a row of the table, or have one more\n",
    )?;
    add(&mut text, &count_text(alloc, lacked)?)?;
    add(&mut text, &count_text(alloc, gained)?)?;
    add(
        &mut text,
        b"DROP TABLE \"t00\";\nDROP TABLE \"t0\";\nCOMMIT;\n",
    )?;
    Ok(text)
}

// The statements that make the table of the test, and put the rows of a query into it.
fn width_text(alloc: Global, query: &[u8]) -> Result<Vec<u8>, OutOfMemory>
    ensures text { IfOk result (λ text. text.items ≡ width_text query.now) }
{
    let mut text = Vec::new(alloc);
    add(
        &mut text,
        b"CREATE TEMPORARY TABLE \"t00\" (n BIGINT CHECK (n = 0));\n",
    )?;
    add(
        &mut text,
        b"-- an error here: the table has other columns than the schema\n",
    )?;
    add(&mut text, b"INSERT INTO \"t00\" ")?;
    add(&mut text, query)?;
    add(&mut text, b";\n")?;
    Ok(text)
}

// The rows of the table beside one of as many missing values as there are attributes, none of which is taken.
#[tactic(auto, unfolding(sql_migrate::specs::Script::width_query, sql_syntax::specs::Printing::selected_text))]
fn width_query(alloc: Global, schema: &Schema, table: &[u8]) -> Result<Vec<u8>, OutOfMemory>
    ensures text { IfOk result
        (λ text. text.items ≡ query_text (width_query schema.now table.now)) }
{
    let values = missing_values(alloc, schema)?;
    let source = width_source(alloc, table, &values)?;
    selected_text(alloc, false, b"0", &source, b"d", b" WHERE 1 = 0")
}

// The rows of a table, and one of values.
fn width_source(alloc: Global, table: &[u8], values: &[u8]) -> Result<Vec<u8>, OutOfMemory>
    ensures text { IfOk result (λ text. text.items
        ≡ codes "(" ++ ((codes "SELECT * FROM " ++ table.now ++ codes " AS r") ++ codes " UNION ALL "
        ++ (codes "SELECT " ++ values.now)) ++ codes ")") }
{
    let mut text = Vec::new(alloc);
    add(&mut text, b"(SELECT * FROM ")?;
    add(&mut text, table)?;
    add(&mut text, b" AS r UNION ALL SELECT ")?;
    add(&mut text, values)?;
    add(&mut text, b")")?;
    Ok(text)
}

// As many missing values as there are attributes.
fn missing_values(alloc: Global, schema: &Schema) -> Result<Vec<u8>, OutOfMemory>
    ensures text { IfOk result (λ text. text.items
        ≡ comma_list scalar_text (replicate (width_of schema.now) missing_value)) }
{
    let mut text = Vec::new(alloc);
    for attribute in 0..schema.width() {
        add_listed(&mut text, attribute > 0, b"NULL")?;
    }
    Ok(text)
}

// The statement that puts the number of the rows of a query into the table of the test.
fn count_text(alloc: Global, query: &[u8]) -> Result<Vec<u8>, OutOfMemory>
    ensures text { IfOk result (λ text. text.items ≡ count_text query.now) }
{
    let mut text = Vec::new(alloc);
    add(&mut text, b"INSERT INTO \"t00\" SELECT COUNT(*) FROM (")?;
    add(&mut text, query)?;
    add(&mut text, b") AS d;\n")?;
    Ok(text)
}

// The rows of the user's table, by their texts.
#[tactic(auto, unfolding(sql_migrate::specs::Script::table_rows))]
fn table_text(alloc: Global, schema: &Schema, table: &[u8]) -> Result<Vec<u8>, OutOfMemory>
    ensures text { IfOk result (λ text. text.items ≡ query_text (table_rows schema.now table.now)) }
{
    let set = AttrSet::full(schema.width());
    let items = items_text(alloc, schema, set, Listed::Compared)?;
    selected_text(alloc, false, &items, table, b"r", b"")
}

// The rows of the view, by their texts.
#[tactic(auto, unfolding(sql_migrate::specs::Script::viewed_rows))]
fn viewed_text(alloc: Global, schema: &Schema) -> Result<Vec<u8>, OutOfMemory>
    ensures text { IfOk result (λ text. text.items ≡ query_text (viewed_rows schema.now)) }
{
    let set = AttrSet::full(schema.width());
    let items = moved_columns(alloc, schema, set, Move::Returning)?;
    selected_text(alloc, false, &items, b"\"joined\"", b"j", b"")
}

// What the first query gives and the second does not.
fn except_text(alloc: Global, first: &[u8], second: &[u8]) -> Result<Vec<u8>, OutOfMemory>
    ensures text { IfOk result (λ text. text.items ≡ first.now ++ codes " EXCEPT " ++ second.now) }
{
    let mut text = Vec::new(alloc);
    add(&mut text, first)?;
    add(&mut text, b" EXCEPT ")?;
    add(&mut text, second)?;
    Ok(text)
}
