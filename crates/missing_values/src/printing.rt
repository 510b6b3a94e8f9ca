ghost use Rattle.std.specs.Prelude.{◌≡◌, ◌<◌, ◌++◌, length, IfOk, OnOk};
ghost use Rattle.schema_model.specs.Schemas.{width_of};
ghost use Rattle.missing_values.specs.Refusals.{IsWithin, refusal_text, in_key_text, in_two_text, missing_text};

use crate::MissingRefusal;
use byte_texts::add;
use ddl_text::TableDesign;
use dep_model::OutOfMemory;
use schema_model::{Name, Schema};
use schema_printer::add_name;
use std::alloc::Global;

/// The line of a refusal.
pub fn print_refusal(
    alloc: Global,
    schema: &Schema,
    tables: &[TableDesign],
    refusal: MissingRefusal,
) -> Result<Vec<u8>, OutOfMemory>
    requires within { IsWithin (width_of schema.now) (length tables.now) refusal }
    ensures text { IfOk result (λ text. text.items ≡ refusal_text schema.now tables.now refusal) }
{
    match refusal {
        MissingRefusal::InKey { attribute, table } => {
            in_key_line(alloc, schema, attribute, &tables[table].name)
        }
        MissingRefusal::InTwo {
            attribute,
            earlier,
            table,
        } => in_two_line(
            alloc,
            schema,
            attribute,
            &tables[earlier].name,
            &tables[table].name,
        ),
    }
}

// The line of an attribute that stands in the key of a table.
fn in_key_line(
    alloc: Global,
    schema: &Schema,
    attribute: u8,
    table: &Name,
) -> Result<Vec<u8>, OutOfMemory>
    requires attribute { attribute < width_of schema.now }
    ensures text { IfOk result (λ text. text.items ≡ in_key_text schema.now attribute table.now) }
{
    let mut text = Vec::new(alloc);
    add_missing(&mut text, schema, attribute)?;
    add(&mut text, b"the key of ")?;
    add(&mut text, table.bytes())?;
    add(&mut text, b"\n")?;
    Ok(text)
}

// The line of an attribute that stands in two tables.
fn in_two_line(
    alloc: Global,
    schema: &Schema,
    attribute: u8,
    earlier: &Name,
    table: &Name,
) -> Result<Vec<u8>, OutOfMemory>
    requires attribute { attribute < width_of schema.now }
    ensures text { IfOk result (λ text. text.items
        ≡ in_two_text schema.now attribute earlier.now table.now) }
{
    let mut text = Vec::new(alloc);
    add_missing(&mut text, schema, attribute)?;
    add(&mut text, earlier.bytes())?;
    add(&mut text, b" and ")?;
    add(&mut text, table.bytes())?;
    add(&mut text, b"\n")?;
    Ok(text)
}

// Adds that a value of an attribute may be missing.
fn add_missing(text: &mut Vec<u8>, schema: &Schema, attribute: u8) -> Result<(), OutOfMemory>
    requires attribute { attribute < width_of schema.now }
    ensures added { OnOk result (text.new.items ≡ text.old.items ++ missing_text schema.now attribute) }
{
    add(text, b"refused: ")?;
    add_name(text, schema.naming(), schema.name(attribute))?;
    add(text, b" may be missing and is in ")
}
