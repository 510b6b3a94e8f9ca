//! The lines of the references.

ghost use Rattle.std.specs.Prelude.{◌≡◌, ◌<◌, ◌++◌, length, IfOk, OnOk};
ghost use Rattle.attr_sets.specs.Sets.{attributes};
ghost use Rattle.attr_sets.specs.declared.set.TheConstants.{MOST_ATTRIBUTES};
ghost use Rattle.design_picture.specs.Picture.{curve_text, dot_text, first_of, line_text, lines_at, reference_text, reference_to, references_to, texts_below};

use crate::places::{TablePlace, place_at};
use crate::points::add_point;
use crate::rows::row_of;
use crate::sums::{product, sum};
use attr_sets::AttrSet;
use byte_texts::add;
use ddl_text::TableDesign;
use dep_model::OutOfMemory;
use std::alloc::Global;

// Adds the lines of the references of these tables, in order.
#[tactic(auto, unfolding(crate::specs::Picture::texts_below))]
pub fn add_lines(
    alloc: Global,
    text: &mut Vec<u8>,
    tables: &[TableDesign],
    places: &[TablePlace],
) -> Result<(), OutOfMemory>
    ensures added { OnOk result (text.new.items
        ≡ text.old.items ++ texts_below (length tables.now) (lines_at tables.now places.now)) }
{
    for k in 0..tables.len() {
        add_lines_at(alloc, text, tables, places, k)?;
    }
    Ok(())
}

// Adds the lines of the references of the table at a position.
#[tactic(auto, unfolding(crate::specs::Picture::lines_at))]
fn add_lines_at(
    alloc: Global,
    text: &mut Vec<u8>,
    tables: &[TableDesign],
    places: &[TablePlace],
    position: usize,
) -> Result<(), OutOfMemory>
    ensures added { OnOk result (text.new.items
        ≡ text.old.items ++ lines_at tables.now places.now position) }
{
    match tables.get(position) {
        Some(table) => {
            let place = place_at(places, position);
            add_references(alloc, text, tables, places, table, place, &table.refs)
        }
        None => Ok(()),
    }
}

// Adds the lines from a table to those at these positions, in order.
fn add_references(
    alloc: Global,
    text: &mut Vec<u8>,
    tables: &[TableDesign],
    places: &[TablePlace],
    table: &TableDesign,
    place: TablePlace,
    refs: &[u32],
) -> Result<(), OutOfMemory>
    ensures added { OnOk result (text.new.items
        ≡ text.old.items ++ references_to tables.now places.now table.now place refs.now) }
{
    for j in refs {
        add_reference_to(alloc, text, tables, places, table, place, *j)?;
    }
    Ok(())
}

// Adds the line from a table to that at a position.
#[tactic(auto, unfolding(crate::specs::Picture::reference_to))]
fn add_reference_to(
    alloc: Global,
    text: &mut Vec<u8>,
    tables: &[TableDesign],
    places: &[TablePlace],
    table: &TableDesign,
    place: TablePlace,
    position: u32,
) -> Result<(), OutOfMemory>
    ensures added { OnOk result (text.new.items ≡ text.old.items
        ++ reference_to tables.now places.now table.now place position) }
{
    match tables.get(position as usize) {
        Some(other) => {
            let other_place = place_at(places, position as usize);
            add_reference(alloc, text, table, place, other, other_place)
        }
        None => Ok(()),
    }
}

// Adds the line of a reference.
#[tactic(auto, unfolding(crate::specs::Picture::reference_text))]
fn add_reference(
    alloc: Global,
    text: &mut Vec<u8>,
    table: &TableDesign,
    place: TablePlace,
    other: &TableDesign,
    other_place: TablePlace,
) -> Result<(), OutOfMemory>
    ensures added { OnOk result (text.new.items ≡ text.old.items
        ++ reference_text table.now place other.now other_place) }
{
    let row = row_of(table.scheme, first_of(other.key));
    let below_top = sum(product(24, row)?, 12)?;
    add_line(
        alloc,
        text,
        place.left,
        sum(place.top, below_top)?,
        sum(other_place.left, other_place.width)?,
        sum(other_place.top, 12)?,
    )
}

// Adds a line.
#[tactic(auto, unfolding(crate::specs::Picture::line_text))]
fn add_line(
    alloc: Global,
    text: &mut Vec<u8>,
    x1: u32,
    y1: u32,
    x2: u32,
    y2: u32,
) -> Result<(), OutOfMemory>
    ensures added { OnOk result (text.new.items ≡ text.old.items ++ line_text x1 y1 x2 y2) }
{
    add_curve(alloc, text, x1, y1, x2, y2)?;
    add_dot(alloc, text, x2, y2)
}

// Adds the dot at the end of a line.
#[tactic(auto, unfolding(crate::specs::Picture::dot_text))]
fn add_dot(alloc: Global, text: &mut Vec<u8>, x: u32, y: u32) -> Result<(), OutOfMemory>
    ensures added { OnOk result (text.new.items ≡ text.old.items ++ dot_text x y) }
{
    add_point(text, alloc, b"<circle cx=\"", x, b"\" cy=\"", y)?;
    add(text, b"\" r=\"3\"/>\n")
}

// Adds the curve of a line.
#[tactic(auto, unfolding(crate::specs::Picture::curve_text))]
fn add_curve(
    alloc: Global,
    text: &mut Vec<u8>,
    x1: u32,
    y1: u32,
    x2: u32,
    y2: u32,
) -> Result<(), OutOfMemory>
    ensures added { OnOk result (text.new.items ≡ text.old.items ++ curve_text x1 y1 x2 y2) }
{
    add_point(text, alloc, b"<path d=\"M ", x1, b" ", y1)?;
    add_point(text, alloc, b" C ", x1.saturating_sub(30), b" ", y1)?;
    add_point(text, alloc, b" ", sum(x2, 30)?, b" ", y2)?;
    add_point(text, alloc, b" ", x2, b" ", y2)?;
    add(text, b"\"/>\n")
}

// The first attribute of a set.
#[tactic(auto, using(crate::proofs::PictureLemmas::first_found, crate::proofs::PictureLemmas::none_found))]
fn first_of(set: AttrSet) -> u8
    ensures first { result ≡ first_of (attributes set) }
    ensures attribute { result < MOST_ATTRIBUTES }
{
    match set.first() {
        Some(attribute) => attribute,
        None => 0,
    }
}
