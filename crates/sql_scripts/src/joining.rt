ghost use Rattle.std.specs.Prelude.{◌≡◌, ◌<◌, ◌++◌, List, length, map, codes, All, IfOk};
ghost use Rattle.std.specs.List.{flat_map};
ghost use Rattle.attr_sets.specs.Sets.{attributes};
ghost use Rattle.schema_model.specs.Schemas.{universe_of};
ghost use Rattle.optional_tables.specs.Order.{members_at};
ghost use Rattle.ddl_text.specs.declared.table.TableDesign.{TableDesign};
ghost use Rattle.sql_syntax.specs.Names.{attribute_names, quoted_name};
ghost use Rattle.sql_syntax.specs.Printing.{joined_text, link_text, names_text, query_text};
ghost use Rattle.sql_migrate.specs.Script.{link, links, look_up, join_of, looked_up_tables, view_query};

use crate::columns::{names_text, quoted_name};
use crate::ordering::{filled_tables, view_order};
use attr_sets::AttrSet;
use byte_texts::add;
use ddl_text::{TableDesign, keyed_tables};
use dep_model::OutOfMemory;
use optional_tables::look_up_order;
use schema_model::Schema;
use sql_migrate::JoinedTable;
use std::alloc::Global;

// The join of the tables of a design, in the order of the view.
#[tactic(auto, unfolding(sql_migrate::specs::Script::view_query))]
pub fn view_text(
    alloc: Global,
    schema: &Schema,
    designs: &[TableDesign],
) -> Result<Vec<u8>, OutOfMemory>
    ensures text { IfOk result (λ text. text.items ≡ query_text (view_query schema.now designs.now)) }
{
    let tables = view_order(alloc, filled_tables(alloc, schema, designs)?)?;
    let look_ups = look_ups_text(alloc, schema, designs)?;
    join_text(alloc, schema, &tables, &look_ups)
}

// The join of tables, one after the other, and of those that are looked up from it.
fn join_text(
    alloc: Global,
    schema: &Schema,
    tables: &[JoinedTable],
    look_ups: &[u8],
) -> Result<Vec<u8>, OutOfMemory>
    ensures text { (optional : List TableDesign)
        → look_ups.now ≡ flat_map link_text (map (look_up schema.now) optional)
        → IfOk result (λ text. text.items ≡ query_text (join_of schema.now tables.now optional)) }
{
    let names = all_names(alloc, schema)?;
    if tables.is_empty() {
        return joined_text(alloc, &names, b"", look_ups);
    }
    join_from(alloc, schema, &names, &tables[0], &tables[1..], look_ups)
}

// Columns of a table and of those that are joined to it.
fn join_from(
    alloc: Global,
    schema: &Schema,
    names: &[u8],
    first: &JoinedTable,
    tables: &[JoinedTable],
    look_ups: &[u8],
) -> Result<Vec<u8>, OutOfMemory>
    ensures text { IfOk result
        (λ text. text.items ≡ joined_text names.now (quoted_name first.now.name)
        (flat_map link_text (links schema.now (attributes first.now.scheme) tables.now) ++ look_ups.now)) }
{
    let source = quoted_name(alloc, &first.name)?;
    let mut links = links_text(alloc, schema, first.scheme, tables)?;
    add(&mut links, look_ups)?;
    joined_text(alloc, names, &source, &links)
}

// The tables of a design that are looked up, in order.
fn look_ups_text(
    alloc: Global,
    schema: &Schema,
    designs: &[TableDesign],
) -> Result<Vec<u8>, OutOfMemory>
    ensures text { IfOk result (λ text. text.items ≡ flat_map link_text
        (map (look_up schema.now) (looked_up_tables schema.now designs.now))) }
{
    let keyed = keyed_tables(alloc, designs)?;
    let order = look_up_order(alloc, schema.nullable(), &keyed)?;
    look_ups_at(alloc, schema, designs, &order)
}

// The tables of a design at positions that are looked up.
fn look_ups_at(
    alloc: Global,
    schema: &Schema,
    designs: &[TableDesign],
    positions: &[usize],
) -> Result<Vec<u8>, OutOfMemory>
    requires within { All (λ k. k < length designs.now) positions.now }
    ensures text { IfOk result (λ text. text.items ≡ flat_map link_text
        (map (look_up schema.now) (members_at designs.now positions.now))) }
{
    let mut text = Vec::new(alloc);
    for k in positions {
        let link = look_up_text(alloc, schema, &designs[*k])?;
        add(&mut text, &link)?;
    }
    Ok(text)
}

// A table that is looked up by its key.
fn look_up_text(alloc: Global, schema: &Schema, table: &TableDesign) -> Result<Vec<u8>, OutOfMemory>
    ensures text { IfOk result (λ text. text.items ≡ link_text (look_up schema.now table.now)) }
{
    let name = quoted_name(alloc, &table.name)?;
    let names = names_text(alloc, schema, table.key)?;
    by_columns(alloc, b" LEFT JOIN ", &name, &names)
}

// The names of all attributes.
fn all_names(alloc: Global, schema: &Schema) -> Result<Vec<u8>, OutOfMemory>
    ensures text { IfOk result (λ text. text.items
        ≡ names_text (attribute_names schema.now (universe_of schema.now))) }
{
    names_text(alloc, schema, AttrSet::full(schema.width()))
}

// What is selected from a table and those that are joined to it.
#[tactic(auto, unfolding(sql_syntax::specs::Printing::joined_text))]
fn joined_text(
    alloc: Global,
    names: &[u8],
    first: &[u8],
    links: &[u8],
) -> Result<Vec<u8>, OutOfMemory>
    ensures text { IfOk result
        (λ text. text.items ≡ joined_text names.now first.now links.now) }
{
    let mut text = Vec::new(alloc);
    add(&mut text, b"SELECT ")?;
    add(&mut text, names)?;
    add(&mut text, b" FROM ")?;
    add(&mut text, first)?;
    add(&mut text, links)?;
    Ok(text)
}

// Tables that are joined to one of this scheme, and to those before them.
fn links_text(
    alloc: Global,
    schema: &Schema,
    scheme: AttrSet,
    tables: &[JoinedTable],
) -> Result<Vec<u8>, OutOfMemory>
    ensures text { IfOk result (λ text. text.items
        ≡ flat_map link_text (links schema.now (attributes scheme) tables.now)) }
{
    let mut text = Vec::new(alloc);
    let mut seen = scheme;
    for table in tables {
        let link = link_of(alloc, schema, seen.intersection(table.scheme), table)?;
        add(&mut text, &link)?;
        seen = seen.union(table.scheme);
    }
    Ok(text)
}

// A table that is joined by the attributes that it shares with those before it.
fn link_of(
    alloc: Global,
    schema: &Schema,
    shared: AttrSet,
    table: &JoinedTable,
) -> Result<Vec<u8>, OutOfMemory>
    ensures text { IfOk result (λ text. text.items
        ≡ link_text (link schema.now (attributes shared) table.now)) }
{
    let table = quoted_name(alloc, &table.name)?;
    if shared.is_empty() {
        crosswise(alloc, &table)
    } else {
        by_columns(
            alloc,
            b" JOIN ",
            &table,
            &names_text(alloc, schema, shared)?,
        )
    }
}

// Each row with each of a table.
fn crosswise(alloc: Global, table: &[u8]) -> Result<Vec<u8>, OutOfMemory>
    ensures text { IfOk result (λ text. text.items ≡ codes " CROSS JOIN " ++ table.now) }
{
    let mut text = Vec::new(alloc);
    add(&mut text, b" CROSS JOIN ")?;
    add(&mut text, table)?;
    Ok(text)
}

// Joined in this way by these columns.
fn by_columns(
    alloc: Global,
    joined: &[u8],
    table: &[u8],
    columns: &[u8],
) -> Result<Vec<u8>, OutOfMemory>
    ensures text { IfOk result (λ text. text.items
        ≡ joined.now ++ table.now ++ codes " USING (" ++ columns.now ++ codes ")") }
{
    let mut text = Vec::new(alloc);
    add(&mut text, joined)?;
    add(&mut text, table)?;
    add(&mut text, b" USING (")?;
    add(&mut text, columns)?;
    add(&mut text, b")")?;
    Ok(text)
}
