//! Where the boxes of tables stand.

ghost use Rattle.std.specs.Prelude.{◌≡◌, IfOk};
ghost use Rattle.design_picture.specs.Places.{left_of, place_at, place_of, places_from, places_of, top_of, whole_height, whole_width, widest_at};

use crate::sizes::{TableSize, measure_tables};
use crate::sums::sum;
use ddl_text::TableDesign;
use dep_model::OutOfMemory;
use schema_model::Schema;
use std::alloc::Global;

/// The depth of a table, and the left edge, the top, the width and the height of its box, in pixels.
#[derive(Clone, Copy, Debug)]
pub struct TablePlace {
    pub depth: u32,
    pub left: u32,
    pub top: u32,
    pub width: u32,
    pub height: u32,
}

/// The places of tables, in order. Tables of one depth stand in a column, each below those before it; the
/// columns stand beside each other, from the least depth on.
pub fn place_tables(
    alloc: Global,
    schema: &Schema,
    tables: &[TableDesign],
) -> Result<Vec<TablePlace>, OutOfMemory>
    ensures places { IfOk result (λ places. places.items ≡ places_of schema.now tables.now) }
{
    let sizes = measure_tables(alloc, schema, tables)?;
    places_from(alloc, &sizes, &sizes)
}

// The places of tables of these sizes.
fn places_from(
    alloc: Global,
    all: &[TableSize],
    sizes: &[TableSize],
) -> Result<Vec<TablePlace>, OutOfMemory>
    ensures places { IfOk result (λ places. places.items ≡ places_from all.now sizes.now) }
{
    let mut places = Vec::new(alloc);
    for size in sizes {
        let place = place_of(all, &places, *size)?;
        places.push(place)?;
    }
    Ok(places)
}

// The place of a table, after those before it.
fn place_of(
    sizes: &[TableSize],
    before: &[TablePlace],
    size: TableSize,
) -> Result<TablePlace, OutOfMemory>
    ensures place { IfOk result (λ place. place ≡ place_of sizes.now before.now size) }
{
    Ok(TablePlace {
        depth: size.depth,
        left: left_of(sizes, size.depth)?,
        top: top_of(before, size.depth)?,
        width: size.width,
        height: size.height,
    })
}

// The left edge of the tables of a depth.
#[tactic(auto, unfolding(crate::specs::Places::left_of))]
fn left_of(sizes: &[TableSize], depth: u32) -> Result<u32, OutOfMemory>
    ensures left { IfOk result (λ left. left ≡ left_of sizes.now depth) }
{
    let mut left = 10;
    for before in 0..depth {
        left = sum(sum(left, widest_at(sizes, before))?, 60)?;
    }
    Ok(left)
}

// The width of the widest box of a depth.
#[tactic(auto, unfolding(crate::specs::Places::widest_at))]
fn widest_at(sizes: &[TableSize], depth: u32) -> u32
    ensures widest { result ≡ widest_at sizes.now depth }
{
    let mut most = 0;
    for size in sizes {
        if size.depth == depth {
            most = most.max(size.width);
        }
    }
    most
}

// The top of the next table of a depth.
#[tactic(auto, unfolding(crate::specs::Places::top_of))]
fn top_of(before: &[TablePlace], depth: u32) -> Result<u32, OutOfMemory>
    ensures top { IfOk result (λ top. top ≡ top_of before.now depth) }
{
    let mut top = 10;
    for place in before {
        if place.depth == depth {
            top = sum(top, sum(place.height, 20)?)?;
        }
    }
    Ok(top)
}

// The place of the table at a position.
#[tactic(auto, unfolding(crate::specs::Places::place_at))]
pub fn place_at(places: &[TablePlace], position: usize) -> TablePlace
    ensures place { result ≡ place_at places.now position }
{
    match places.get(position) {
        Some(place) => *place,
        None => TablePlace {
            depth: 0,
            left: 0,
            top: 0,
            width: 0,
            height: 0,
        },
    }
}

// The width of the whole picture.
#[tactic(auto, unfolding(crate::specs::Places::whole_width))]
pub fn whole_width(places: &[TablePlace]) -> Result<u32, OutOfMemory>
    ensures width { IfOk result (λ width. width ≡ whole_width places.now) }
{
    let mut most = 0;
    for place in places {
        most = most.max(sum(place.left, place.width)?);
    }
    sum(most, 10)
}

// The height of the whole picture.
#[tactic(auto, unfolding(crate::specs::Places::whole_height))]
pub fn whole_height(places: &[TablePlace]) -> Result<u32, OutOfMemory>
    ensures height { IfOk result (λ height. height ≡ whole_height places.now) }
{
    let mut most = 0;
    for place in places {
        most = most.max(sum(place.top, place.height)?);
    }
    sum(most, 10)
}
