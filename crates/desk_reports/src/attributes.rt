//! The section on the attributes.

ghost use Rattle.std.specs.Prelude.{◌≡◌, ◌++◌, ◌<◌, ℕ, codes, IsTrue, OnOk};
ghost use Rattle.attr_sets.specs.Sets.{attributes};
ghost use Rattle.attr_sets.specs.declared.set.TheConstants.{MOST_ATTRIBUTES};
ghost use Rattle.schema_model.specs.Schemas.{width_of};
ghost use Rattle.schema_model.specs.Schemas.{Schema as Declared};
ghost use Rattle.design_picture.specs.Picture.{texts_below};
ghost use Rattle.desk_reports.specs.Answers.{Adds, AreFoundKeys};
ghost use Rattle.desk_reports.specs.Attributes.{AreListedMembers, AttributesSection, attribute_row, attributes_text};
ghost use Rattle.desk_reports.specs.Attributes.{cell_text, key_cell, mark, members_of, missing_cell, name_cell};
ghost use Rattle.desk_reports.specs.Attributes.{type_cell};
ghost use Rattle.html_pages.specs.Escapes.{html_text};

use crate::found::FoundKeys;
use attr_sets::AttrSet;
use byte_texts::add;
use dep_model::OutOfMemory;
use desk_responses::put_name;
use html_pages::{add_heading, add_html};
use schema_model::Schema;
use schema_printer::add_type_word;
use std::alloc::Global;

/// Adds the section on the attributes of a schema, of which these are the keys.
pub fn put_attributes_section(
    alloc: Global,
    text: &mut Vec<u8>,
    schema: &Schema,
    keys: &FoundKeys,
) -> Result<(), OutOfMemory>
    requires keys { AreFoundKeys schema.now keys.now }
    ensures added { OnOk result (Adds (AttributesSection schema.now) text.old.items text.new.items) }
{
    let in_key = listed_members(keys);
    add_heading(text, b"Attributes")?;
    put_attributes(alloc, text, schema, in_key)?;
    Ok(())
}

// The members of the keys that are listed, none where the keys are refused.
fn listed_members(keys: &FoundKeys) -> AttrSet
    ensures members { (s : Declared) → AreFoundKeys s keys.now → AreListedMembers s (attributes result) }
{
    match keys {
        FoundKeys::Listed(keys) => members_of(keys),
        FoundKeys::Refused(_) => AttrSet::empty(),
    }
}

// The members of some set of a list.
#[tactic(auto, unfolding(crate::specs::Attributes::members_of))]
fn members_of(sets: &[AttrSet]) -> AttrSet
    ensures members { attributes result ≡ members_of sets.now }
{
    let mut found = AttrSet::empty();
    for set in sets {
        found = found.union(*set);
    }
    found
}

// Adds a row for each attribute, in a table.
#[tactic(auto, unfolding(crate::specs::Attributes::attributes_text))]
fn put_attributes(
    alloc: Global,
    text: &mut Vec<u8>,
    schema: &Schema,
    in_key: AttrSet,
) -> Result<(), OutOfMemory>
    ensures added { OnOk result (text.new.items
        ≡ text.old.items ++ attributes_text schema.now (attributes in_key)) }
{
    add(text, b"<table>\n")?;
    add_rows(alloc, text, schema, in_key)?;
    add(text, b"</table>\n")
}

// Adds a row for each attribute.
#[tactic(auto, unfolding(design_picture::specs::Picture::texts_below))]
fn add_rows(
    alloc: Global,
    text: &mut Vec<u8>,
    schema: &Schema,
    in_key: AttrSet,
) -> Result<(), OutOfMemory>
    ensures added { OnOk result (text.new.items ≡ text.old.items
        ++ texts_below (width_of schema.now) (attribute_row schema.now (attributes in_key))) }
{
    for attribute in 0..schema.width() {
        add_row(alloc, text, schema, in_key, attribute)?;
    }
    Ok(())
}

// Adds the row of an attribute.
#[tactic(auto, unfolding(crate::specs::Attributes::attribute_row))]
fn add_row(
    alloc: Global,
    text: &mut Vec<u8>,
    schema: &Schema,
    in_key: AttrSet,
    attribute: u8,
) -> Result<(), OutOfMemory>
    requires attribute { attribute < width_of schema.now }
    ensures added { OnOk result (text.new.items
        ≡ text.old.items ++ attribute_row schema.now (attributes in_key) attribute) }
{
    add(text, b"<tr>")?;
    add_name_cell(alloc, text, schema, attribute)?;
    add_type_cell(alloc, text, schema, attribute)?;
    add_missing_cell(text, schema, attribute)?;
    add_key_cell(text, in_key, attribute)?;
    add(text, b"</tr>\n")
}

// Adds the name of an attribute, as it is printed.
#[tactic(auto, unfolding(crate::specs::Attributes::name_cell))]
fn add_name_cell(
    alloc: Global,
    text: &mut Vec<u8>,
    schema: &Schema,
    attribute: u8,
) -> Result<(), OutOfMemory>
    requires attribute { attribute < width_of schema.now }
    ensures added { OnOk result (text.new.items ≡ text.old.items ++ name_cell schema.now attribute) }
{
    let mut name = Vec::new(alloc);
    put_name(&mut name, schema, attribute)?;
    add_escaped_cell(text, &name)
}

// Adds the type of an attribute.
#[tactic(auto, unfolding(crate::specs::Attributes::type_cell))]
fn add_type_cell(
    alloc: Global,
    text: &mut Vec<u8>,
    schema: &Schema,
    attribute: u8,
) -> Result<(), OutOfMemory>
    requires attribute { attribute < width_of schema.now }
    ensures added { OnOk result (text.new.items ≡ text.old.items ++ type_cell schema.now attribute) }
{
    let column = schema.column(attribute);
    let mut word = Vec::new(alloc);
    add_type_word(&mut word, &column)?;
    add_escaped_cell(text, &word)
}

// Adds whether a value of an attribute may be missing.
#[tactic(auto, unfolding(crate::specs::Attributes::missing_cell))]
fn add_missing_cell(text: &mut Vec<u8>, schema: &Schema, attribute: u8) -> Result<(), OutOfMemory>
    requires attribute { attribute < width_of schema.now }
    ensures added { OnOk result (text.new.items ≡ text.old.items ++ missing_cell schema.now attribute) }
{
    add_cell(
        text,
        marked(schema.nullable().contains(attribute), b"may be missing"),
    )
}

// Adds whether an attribute is in a key.
#[tactic(auto, unfolding(crate::specs::Attributes::key_cell))]
fn add_key_cell(text: &mut Vec<u8>, in_key: AttrSet, attribute: u8) -> Result<(), OutOfMemory>
    requires attribute { attribute < MOST_ATTRIBUTES }
    ensures added { OnOk result (text.new.items
        ≡ text.old.items ++ key_cell (attributes in_key) attribute) }
{
    add_cell(text, marked(in_key.contains(attribute), b"in a key"))
}

// A word, where it holds.
fn marked<'a>(holds: bool, word: &'a [u8]) -> &'a [u8]
    ensures mark { result.now ≡ mark holds word.now }
{
    if holds { word } else { b"" }
}

// Adds a cell.
fn add_cell(text: &mut Vec<u8>, word: &[u8]) -> Result<(), OutOfMemory>
    ensures added { OnOk result (text.new.items ≡ text.old.items ++ cell_text word.now) }
{
    add(text, b"<td>")?;
    add(text, word)?;
    add(text, b"</td>")
}

// Adds a cell of a text that is no HTML.
fn add_escaped_cell(text: &mut Vec<u8>, word: &[u8]) -> Result<(), OutOfMemory>
    ensures added { OnOk result (text.new.items ≡ text.old.items ++ cell_text (html_text word.now)) }
{
    add(text, b"<td>")?;
    add_html(text, word)?;
    add(text, b"</td>")
}
