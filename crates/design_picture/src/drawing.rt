ghost use Rattle.std.specs.Prelude.{◌≡◌, ◌++◌, length, IfOk, OnOk};
ghost use Rattle.design_picture.specs.Picture.{opening_text, picture_from, picture_text};

use crate::boxes::add_boxes;
use crate::lines::add_lines;
use crate::places::{TablePlace, place_tables, whole_height, whole_width};
use crate::points::add_point;
use byte_texts::add;
use ddl_text::{DesignList, TableDesign};
use dep_model::OutOfMemory;
use schema_model::Schema;
use std::alloc::Global;

/// The SVG text of a design, in a division of a page: a line for each reference of each table, in order, and
/// then a box for each table, in order.
pub fn draw_design(
    alloc: Global,
    schema: &Schema,
    design: &DesignList,
) -> Result<Vec<u8>, OutOfMemory>
    ensures text { IfOk result (λ text. text.items ≡ picture_text schema.now design.now) }
{
    let tables = design.tables();
    let places = place_tables(alloc, schema, tables)?;
    picture_from(alloc, schema, tables, &places)
}

// The picture of tables at these places.
#[tactic(auto, unfolding(crate::specs::Picture::picture_from))]
fn picture_from(
    alloc: Global,
    schema: &Schema,
    tables: &[TableDesign],
    places: &[TablePlace],
) -> Result<Vec<u8>, OutOfMemory>
    ensures text { IfOk result
        (λ text. text.items ≡ picture_from schema.now tables.now (length tables.now) places.now) }
{
    let width = whole_width(places)?;
    let height = whole_height(places)?;
    let mut text = Vec::new(alloc);
    add_opening(alloc, &mut text, width, height)?;
    add_lines(alloc, &mut text, tables, places)?;
    add_boxes(alloc, &mut text, schema, tables, places)?;
    add(&mut text, b"</svg></div>\n")?;
    Ok(text)
}

// Adds the opening of a picture of this width and height.
#[tactic(auto, unfolding(crate::specs::Picture::opening_text))]
fn add_opening(
    alloc: Global,
    text: &mut Vec<u8>,
    width: u32,
    height: u32,
) -> Result<(), OutOfMemory>
    ensures added { OnOk result (text.new.items ≡ text.old.items ++ opening_text width height) }
{
    add_point(
        text,
        alloc,
        b"<div class=\"p\"><svg xmlns=\"http://www.w3.org/2000/svg\" viewBox=\"0 0 ",
        width,
        b" ",
        height,
    )?;
    add_point(text, alloc, b"\" width=\"", width, b"\" height=\"", height)?;
    add(text, b"\">\n")
}
