//! How large the boxes of tables are, and how deep they stand.

ghost use Rattle.std.specs.Prelude.{◌≡◌, ◌<◌, IfOk};
ghost use Rattle.design_picture.specs.Places.{attribute_columns, box_height, box_width, byte_columns, depth_at, depth_of, most_columns, name_columns, size_of, sizes_of};
ghost use Rattle.schema_model.specs.Schemas.{width_of};

use crate::sums::{product, sum};
use ddl_text::TableDesign;
use dep_model::OutOfMemory;
use schema_model::Schema;
use std::alloc::Global;

/// The depth of a table, and the width and height of its box in pixels.
#[derive(Clone, Copy, Debug)]
pub struct TableSize {
    pub depth: u32,
    pub width: u32,
    pub height: u32,
}

/// The sizes of tables, in order.
pub fn measure_tables(
    alloc: Global,
    schema: &Schema,
    tables: &[TableDesign],
) -> Result<Vec<TableSize>, OutOfMemory>
    ensures sizes { IfOk result (λ sizes. sizes.items ≡ sizes_of schema.now tables.now) }
{
    let mut sizes = Vec::new(alloc);
    for table in tables {
        let size = size_of(schema, &sizes, table)?;
        sizes.push(size)?;
    }
    Ok(sizes)
}

// The size of a table, after those before it.
fn size_of(
    schema: &Schema,
    before: &[TableSize],
    table: &TableDesign,
) -> Result<TableSize, OutOfMemory>
    ensures size { IfOk result (λ size. size ≡ size_of schema.now before.now table.now) }
{
    Ok(TableSize {
        depth: depth_of(before, &table.refs)?,
        width: box_width(schema, table)?,
        height: box_height(table)?,
    })
}

// 0 without a reference, else 1 more than the greatest depth of the tables that are referred to.
#[tactic(auto, unfolding(crate::specs::Places::depth_of))]
fn depth_of(before: &[TableSize], refs: &[u32]) -> Result<u32, OutOfMemory>
    ensures depth { IfOk result (λ depth. depth ≡ depth_of before.now refs.now) }
{
    let mut deepest = 0;
    for j in refs {
        deepest = deepest.max(sum(depth_at(before, *j), 1)?);
    }
    Ok(deepest)
}

// The depth of the table at a position.
#[tactic(auto, unfolding(crate::specs::Places::depth_at))]
fn depth_at(sizes: &[TableSize], position: u32) -> u32
    ensures depth { result ≡ depth_at sizes.now position }
{
    match sizes.get(position as usize) {
        Some(size) => size.depth,
        None => 0,
    }
}

// The width of the box of a table.
#[tactic(auto, unfolding(crate::specs::Places::box_width))]
fn box_width(schema: &Schema, table: &TableDesign) -> Result<u32, OutOfMemory>
    ensures width { IfOk result (λ width. width ≡ box_width schema.now table.now) }
{
    sum(16, product(9, most_columns(schema, table)?)?)
}

// The height of the box of a table.
#[tactic(auto, unfolding(crate::specs::Places::box_height))]
fn box_height(table: &TableDesign) -> Result<u32, OutOfMemory>
    ensures height { IfOk result (λ height. height ≡ box_height table.now) }
{
    product(24, table.scheme.len() as u32 + 1)
}

// The most columns of the name of a table and of its attributes.
#[tactic(auto, unfolding(crate::specs::Places::most_columns))]
fn most_columns(schema: &Schema, table: &TableDesign) -> Result<u32, OutOfMemory>
    ensures columns { IfOk result (λ columns. columns ≡ most_columns schema.now table.now) }
{
    let mut most = name_columns(table.name.bytes())?;
    for attribute in 0..schema.width() {
        if table.scheme.contains(attribute) {
            let columns = attribute_columns(schema, attribute)?;
            most = most.max(columns);
        }
    }
    Ok(most)
}

// The columns of the name of an attribute.
#[tactic(auto, unfolding(crate::specs::Places::attribute_columns))]
fn attribute_columns(schema: &Schema, attribute: u8) -> Result<u32, OutOfMemory>
    requires attribute { attribute < width_of schema.now }
    ensures columns { IfOk result (λ columns. columns ≡ attribute_columns schema.now attribute) }
{
    name_columns(schema.name(attribute).bytes())
}

// The columns of a name.
#[tactic(auto, unfolding(crate::specs::Places::name_columns))]
fn name_columns(name: &[u8]) -> Result<u32, OutOfMemory>
    ensures columns { IfOk result (λ columns. columns ≡ name_columns name.now) }
{
    let mut columns = 0;
    for b in name {
        columns = sum(columns, byte_columns(*b))?;
    }
    Ok(columns)
}

// The columns of the character that a byte begins.
fn byte_columns(byte: u8) -> u32
    ensures columns { result ≡ byte_columns byte }
{
    if byte < 128 {
        1
    } else if byte < 192 {
        0
    } else if byte < 204 {
        1
    } else {
        2
    }
}
