ghost use Rattle.std.specs.Prelude.{◌≡◌, ◌++◌, IfOk, OnOk};
ghost use Rattle.std.specs.List.{flat_map};
ghost use Rattle.attr_sets.specs.Sets.{attributes};
ghost use Rattle.dep_model.specs.Projections.{members_below};
ghost use Rattle.schema_model.specs.Schemas.{width_of};
ghost use Rattle.sql_syntax.specs.Printing.{clause_text, query_text};
ghost use Rattle.sql_migrate.specs.Script.{complete_rows, fill_query, rows_with};
ghost use Rattle.sql_scripts.specs.Migrating.{fill_text};

use crate::columns::{moved_columns, names_text, quoted_name};
use crate::listing::has_members;
use crate::missing::{Asked, rows_clause};
use crate::selecting::selected_text;
use attr_sets::AttrSet;
use byte_texts::add;
use ddl_text::TableDesign;
use dep_model::OutOfMemory;
use schema_model::Schema;
use sql_migrate::Move;
use std::alloc::Global;

// Adds the statements that fill the tables of a design.
pub fn add_fills(
    alloc: Global,
    text: &mut Vec<u8>,
    schema: &Schema,
    designs: &[TableDesign],
) -> Result<(), OutOfMemory>
    ensures added { OnOk result (text.new.items
        ≡ text.old.items ++ flat_map (fill_text schema.now) designs.now) }
{
    for design in designs {
        add(text, &fill_text(alloc, schema, design)?)?;
    }
    Ok(())
}

// The statement that fills a table.
#[tactic(auto, unfolding(sql_migrate::specs::Script::fill, sql_syntax::specs::Statements::statement_text))]
fn fill_text(alloc: Global, schema: &Schema, design: &TableDesign) -> Result<Vec<u8>, OutOfMemory>
    ensures text { IfOk result (λ text. text.items ≡ fill_text schema.now design.now) }
{
    let mut text = Vec::new(alloc);
    add(&mut text, b"INSERT INTO ")?;
    add(&mut text, &quoted_name(alloc, &design.name)?)?;
    add(&mut text, b" (")?;
    add(&mut text, &names_text(alloc, schema, design.scheme)?)?;
    add(&mut text, b") ")?;
    add(&mut text, &fill_query(alloc, schema, design)?)?;
    add(&mut text, b";\n")?;
    Ok(text)
}

// The values on a table of those rows of the copy that miss none of its key, each once.
#[tactic(auto, unfolding(sql_migrate::specs::Script::fill_query))]
fn fill_query(alloc: Global, schema: &Schema, design: &TableDesign) -> Result<Vec<u8>, OutOfMemory>
    ensures text { IfOk result (λ text. text.items ≡ query_text (fill_query schema.now design.now)) }
{
    let items = moved_columns(alloc, schema, design.scheme, Move::Entering)?;
    let clause = complete_rows(alloc, schema, design.key)?;
    selected_text(alloc, true, &items, b"\"t0\"", b"o", &clause)
}

// Which rows of the copy miss no value of a key.
fn complete_rows(alloc: Global, schema: &Schema, key: AttrSet) -> Result<Vec<u8>, OutOfMemory>
    ensures text { IfOk result
        (λ text. text.items ≡ clause_text (complete_rows schema.now (attributes key))) }
{
    rows_with(alloc, schema, key.intersection(schema.nullable()))
}

// Which rows of the copy have values of a set.
fn rows_with(alloc: Global, schema: &Schema, set: AttrSet) -> Result<Vec<u8>, OutOfMemory>
    ensures text { IfOk result (λ text. text.items
        ≡ clause_text (rows_with schema.now (members_below (width_of schema.now) (attributes set)))) }
{
    if !has_members(schema, set) {
        return Ok(Vec::new(alloc));
    }
    rows_clause(alloc, schema, set, Asked::Present)
}
