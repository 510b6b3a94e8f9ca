ghost use Rattle.std.specs.Prelude.{◌≡◌, ◌++◌, codes, IfOk, OnOk};
ghost use Rattle.std.specs.Fmt.{decimal};
ghost use Rattle.schema_printer.specs.Spelling.{printed_names_of};
ghost use Rattle.desk_responses.specs.Lines.{attribute_name};
ghost use Rattle.csv_rows.specs.RefusalTexts.{row_reason_text, type_of};
ghost use Rattle.schema_printer.specs.Printing.{type_word};
ghost use Rattle.desk_inputs.specs.Rows.{row_refusal_text};

use byte_texts::{add, add_number};
use csv_rows::{RowRefusal, type_of};
use dep_model::OutOfMemory;
use desk_responses::put_name;
use schema_model::Schema;
use schema_printer::add_type_word;
use std::alloc::Global;

/// The line that words a refusal of rows.
pub fn row_refusal_line(
    alloc: Global,
    schema: &Schema,
    name: &[u8],
    refusal: RowRefusal,
) -> Result<Vec<u8>, OutOfMemory>
    ensures text { IfOk result (λ text.
        text.items ≡ row_refusal_text schema.now name.now refusal) }
{
    let mut text = Vec::new(alloc);
    add(&mut text, b"refused: rows ")?;
    add_number(&mut text, alloc, refusal.number())?;
    add(&mut text, b" at ")?;
    add(&mut text, name)?;
    add(&mut text, b": ")?;
    put_reason(alloc, &mut text, schema, refusal)?;
    add(&mut text, b"\n")?;
    Ok(text)
}

/// A refusal in words, at the end of a text.
fn put_reason(
    alloc: Global,
    text: &mut Vec<u8>,
    schema: &Schema,
    refusal: RowRefusal,
) -> Result<(), OutOfMemory>
    ensures added { OnOk result (text.new.items
        ≡ text.old.items ++ row_reason_text schema.now refusal) }
{
    match refusal {
        RowRefusal::NoHeader => add(text, b"no header"),
        RowRefusal::UnknownColumn { column } => {
            put_before_number(alloc, text, b"unknown column ", column)
        }
        RowRefusal::DoubleColumn { column } => {
            put_numbered(alloc, text, b"column ", column, b" repeated")
        }
        RowRefusal::MissingColumn { attribute } => { put_missing_column(text, schema, attribute) }
        RowRefusal::UnevenRow { row } => {
            put_numbered(alloc, text, b"row ", row, b" has the wrong length")
        }
        RowRefusal::TooManyRows => add(text, b"too many rows"),
        RowRefusal::NotOfType { row, attribute } => {
            put_not_of_type(alloc, text, schema, row, attribute)
        }
        RowRefusal::OpenHeader => add(text, b"the header has an open quote"),
        RowRefusal::OpenRow { row } => {
            put_numbered(alloc, text, b"row ", row, b" has an open quote")
        }
    }
}

/// A piece and a number, at the end of a text.
fn put_before_number(
    alloc: Global,
    text: &mut Vec<u8>,
    front: &[u8],
    number: u32,
) -> Result<(), OutOfMemory>
    ensures added { OnOk result (text.new.items ≡ text.old.items ++ (front.now ++ decimal number)) }
{
    add(text, front)?;
    add_number(text, alloc, number)
}

/// An attribute that has no column, at the end of a text.
fn put_missing_column(text: &mut Vec<u8>, schema: &Schema, attribute: u8) -> Result<(), OutOfMemory>
    ensures added { OnOk result (text.new.items
        ≡ text.old.items ++ (codes "missing column " ++ attribute_name (printed_names_of schema.now) attribute)) }
{
    add(text, b"missing column ")?;
    put_name(text, schema, attribute)
}

/// A row and an attribute at which it has no value of the column's type, at the end of a text.
fn put_not_of_type(
    alloc: Global,
    text: &mut Vec<u8>,
    schema: &Schema,
    row: u32,
    attribute: u8,
) -> Result<(), OutOfMemory>
    ensures added { OnOk result (text.new.items
        ≡ text.old.items ++ (codes "row " ++ decimal row ++ codes ": "
        ++ attribute_name (printed_names_of schema.now) attribute ++ codes " is no "
        ++ type_word (type_of schema.now attribute))) }
{
    let mut reason = Vec::new(alloc);
    add(&mut reason, b"row ")?;
    add_number(&mut reason, alloc, row)?;
    add(&mut reason, b": ")?;
    put_name(&mut reason, schema, attribute)?;
    add(&mut reason, b" is no ")?;
    add_type_word(&mut reason, &type_of(schema, attribute))?;
    add(text, &reason)
}

/// A number between two pieces, at the end of a text.
fn put_numbered(
    alloc: Global,
    text: &mut Vec<u8>,
    front: &[u8],
    number: u32,
    back: &[u8],
) -> Result<(), OutOfMemory>
    ensures added { OnOk result (text.new.items
        ≡ text.old.items ++ (front.now ++ decimal number ++ back.now)) }
{
    add(text, front)?;
    add_number(text, alloc, number)?;
    add(text, back)
}
