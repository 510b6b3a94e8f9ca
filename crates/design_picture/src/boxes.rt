//! The boxes of the tables.

ghost use Rattle.std.specs.Prelude.{◌≡◌, ◌++◌, ◌<◌, length, OnOk};
ghost use Rattle.std.specs.List.{flat_map, list_any};
ghost use Rattle.attr_sets.specs.Sets.{attributes};
ghost use Rattle.attr_sets.specs.declared.set.TheConstants.{MOST_ATTRIBUTES};
ghost use Rattle.dep_model.specs.Projections.{members_below};
ghost use Rattle.schema_model.specs.Schemas.{width_of};
ghost use Rattle.design_picture.specs.Picture.{attribute_text, box_at, box_text, frame_text, in_other_key, mark_of, box_name_text, texts_below};

use crate::places::{TablePlace, place_at};
use crate::points::add_point;
use crate::rows::row_of;
use crate::sums::{product, sum};
use attr_sets::AttrSet;
use byte_texts::add;
use ddl_text::TableDesign;
use dep_model::OutOfMemory;
use html_pages::add_html;
use schema_model::Schema;
use std::alloc::Global;

// Adds the boxes of these tables, in order.
#[tactic(auto, unfolding(crate::specs::Picture::texts_below))]
pub fn add_boxes(
    alloc: Global,
    text: &mut Vec<u8>,
    schema: &Schema,
    tables: &[TableDesign],
    places: &[TablePlace],
) -> Result<(), OutOfMemory>
    ensures added { OnOk result (text.new.items
        ≡ text.old.items ++ texts_below (length tables.now) (box_at schema.now tables.now places.now)) }
{
    for k in 0..tables.len() {
        add_box_at(alloc, text, schema, tables, places, k)?;
    }
    Ok(())
}

// Adds the box of the table at a position.
#[tactic(auto, unfolding(crate::specs::Picture::box_at))]
fn add_box_at(
    alloc: Global,
    text: &mut Vec<u8>,
    schema: &Schema,
    tables: &[TableDesign],
    places: &[TablePlace],
    position: usize,
) -> Result<(), OutOfMemory>
    ensures added { OnOk result (text.new.items
        ≡ text.old.items ++ box_at schema.now tables.now places.now position) }
{
    match tables.get(position) {
        Some(table) => add_box(alloc, text, schema, table, place_at(places, position)),
        None => Ok(()),
    }
}

// Adds the box of a table.
#[tactic(auto, unfolding(crate::specs::Picture::box_text))]
fn add_box(
    alloc: Global,
    text: &mut Vec<u8>,
    schema: &Schema,
    table: &TableDesign,
    place: TablePlace,
) -> Result<(), OutOfMemory>
    ensures added { OnOk result (text.new.items ≡ text.old.items ++ box_text schema.now table.now place) }
{
    add_frame(alloc, text, place)?;
    add_name(alloc, text, place, 0, b" class=\"t\"", table.name.bytes())?;
    add_attributes(alloc, text, schema, table, place)
}

// Adds the frame of a box.
#[tactic(auto, unfolding(crate::specs::Picture::frame_text))]
fn add_frame(alloc: Global, text: &mut Vec<u8>, place: TablePlace) -> Result<(), OutOfMemory>
    ensures added { OnOk result (text.new.items ≡ text.old.items ++ frame_text place) }
{
    add_point(
        text,
        alloc,
        b"<rect x=\"",
        place.left,
        b"\" y=\"",
        place.top,
    )?;
    add_point(
        text,
        alloc,
        b"\" width=\"",
        place.width,
        b"\" height=\"",
        place.height,
    )?;
    add(text, b"\"/>\n")
}

// Adds the attributes of a table, ascending.
fn add_attributes(
    alloc: Global,
    text: &mut Vec<u8>,
    schema: &Schema,
    table: &TableDesign,
    place: TablePlace,
) -> Result<(), OutOfMemory>
    ensures added { OnOk result (text.new.items ≡ text.old.items
        ++ flat_map (attribute_text schema.now table.now place)
        (members_below (width_of schema.now) (attributes table.now.scheme))) }
{
    for attribute in 0..schema.width() {
        if table.scheme.contains(attribute) {
            add_attribute(alloc, text, schema, table, place, attribute)?;
        }
    }
    Ok(())
}

// Adds an attribute, marked where it is in a key.
#[tactic(auto, unfolding(crate::specs::Picture::attribute_text))]
fn add_attribute(
    alloc: Global,
    text: &mut Vec<u8>,
    schema: &Schema,
    table: &TableDesign,
    place: TablePlace,
    attribute: u8,
) -> Result<(), OutOfMemory>
    requires attribute { attribute < width_of schema.now }
    ensures added { OnOk result (text.new.items
        ≡ text.old.items ++ attribute_text schema.now table.now place attribute) }
{
    add_name(
        alloc,
        text,
        place,
        row_of(table.scheme, attribute),
        mark_of(table, attribute),
        schema.name(attribute).bytes(),
    )
}

// What marks an attribute of the first key of a table, and one of another key.
#[tactic(auto, unfolding(crate::specs::Picture::mark_of))]
fn mark_of(table: &TableDesign, attribute: u8) -> &'static [u8]
    requires attribute { attribute < MOST_ATTRIBUTES }
    ensures mark { result.now ≡ mark_of table.now attribute }
{
    if table.key.contains(attribute) {
        b" class=\"k\""
    } else if in_other_key(table, attribute) {
        b" class=\"o\""
    } else {
        b""
    }
}

// Whether an attribute is in another key of a table than the first.
fn in_other_key(table: &TableDesign, attribute: u8) -> bool
    requires attribute { attribute < MOST_ATTRIBUTES }
    ensures other { result ≡ in_other_key table.now attribute }
{
    match &table.other_keys {
        Some(keys) => in_some_key(keys, attribute),
        None => false,
    }
}

// Whether an attribute is in one of these keys.
fn in_some_key(keys: &[AttrSet], attribute: u8) -> bool
    requires attribute { attribute < MOST_ATTRIBUTES }
    ensures some { result ≡ list_any (λ key. attributes key attribute) keys.now }
{
    keys.iter().any(|key| key.contains(attribute))
}

// Adds a name at a row, with what marks it.
#[tactic(auto, unfolding(crate::specs::Picture::box_name_text))]
fn add_name(
    alloc: Global,
    text: &mut Vec<u8>,
    place: TablePlace,
    row: u32,
    mark: &[u8],
    name: &[u8],
) -> Result<(), OutOfMemory>
    ensures added { OnOk result (text.new.items ≡ text.old.items ++ box_name_text place row mark.now name.now) }
{
    let below_top = sum(product(24, row)?, 17)?;
    add_point(
        text,
        alloc,
        b"<text x=\"",
        sum(place.left, 8)?,
        b"\" y=\"",
        sum(place.top, below_top)?,
    )?;
    add(text, b"\"")?;
    add(text, mark)?;
    add(text, b">")?;
    add_html(text, name)?;
    add(text, b"</text>\n")
}
