//! Values that are not of their column's type.

ghost use Rattle.std.specs.Prelude.{◌≡◌, ◌<◌, ◌≤◌, ◌==◌, ◌++◌, [], length, if◌then◌else◌, slice_index_or, IsTrue};
ghost use Rattle.std.specs.Prelude.{IfOk, OnOk};
ghost use Rattle.std.specs.List.{position_or_len};
ghost use Rattle.schema_model.specs.Columns.{is_column_type};
ghost use Rattle.schema_model.specs.Schemas.{width_of};
ghost use Rattle.schema_printer.specs.Printing.{type_word};
ghost use Rattle.schema_printer.specs.Spelling.{printed_names_of};
ghost use Rattle.desk_measures.specs.Findings.{Adds, FindsBelow};
ghost use Rattle.desk_measures.specs.Measures.{AreMistyped, IsColumnFound, flags_set, mistyped_text, mistyped_words};

use crate::fields::value_of;
use crate::telling::both;
use byte_texts::add;
use column_values::fits_column;
use csv_rows::type_of;
use dep_model::OutOfMemory;
use itoa::Buffer;
use row_store::Rows;
use schema_model::{ColumnType, Schema};
use schema_printer::{add_name, add_type_word};
use std::alloc::Global;

// A line for each column with such values, at the end of a text, and whether there are none.
#[tactic(auto, using(crate::proofs::FindingLemmas::adds_none))]
pub fn put_columns(
    alloc: Global,
    text: &mut Vec<u8>,
    schema: &Schema,
    rows: &Rows,
) -> Result<bool, OutOfMemory>
    ensures added { IfOk result (λ clean.
        Adds (FindsBelow (IsColumnFound schema.now rows.now) (width_of schema.now))
        text.old.items text.new.items clean) }
{
    let mut clean = true;
    for attribute in 0..schema.width() {
        let own = put_column(alloc, text, schema, rows, attribute)?;
        clean = both(clean, own);
    }
    Ok(clean)
}

// The line of one column, where it has such values.
fn put_column(
    alloc: Global,
    text: &mut Vec<u8>,
    schema: &Schema,
    rows: &Rows,
    attribute: u8,
) -> Result<bool, OutOfMemory>
    requires attribute { attribute < width_of schema.now }
    ensures added { IfOk result (λ clean.
        Adds (IsColumnFound schema.now rows.now attribute) text.old.items text.new.items clean) }
{
    let flags = mistyped(alloc, schema, rows, attribute)?;
    let count = flags_set(&flags);
    let first = first_set(&flags);
    put_mistyped_where(text, schema, attribute, count, first + 1)?;
    Ok(count == 0)
}

// The line of a column that has so many such values.
fn put_mistyped_where(
    text: &mut Vec<u8>,
    schema: &Schema,
    attribute: u8,
    count: usize,
    row: usize,
) -> Result<(), OutOfMemory>
    requires attribute { attribute < width_of schema.now }
    ensures added { OnOk result (text.new.items ≡ text.old.items
        ++ (if count == 0 then [] else mistyped_text schema.now attribute count row)) }
{
    if count == 0 {
        return Ok(());
    }
    put_mistyped(text, schema, attribute, count, row)
}

// A flag for each row, set where its value is not of its column's type.
fn mistyped(
    alloc: Global,
    schema: &Schema,
    rows: &Rows,
    attribute: u8,
) -> Result<Vec<bool>, OutOfMemory>
    requires attribute { attribute < width_of schema.now }
    ensures flags { IfOk result (λ flags. AreMistyped schema.now rows.now attribute flags.items) }
{
    let column = type_of(schema, attribute);
    let nullable = schema.nullable().contains(attribute);
    let mut flags = Vec::with_capacity(alloc, rows.len())?;
    for row in 0..rows.len() {
        let value = value_of(rows, row, attribute as usize);
        flags.push(!fits_column(&column, nullable, value))?;
    }
    Ok(flags)
}

// How many flags are set.
#[tactic(auto, using(crate::proofs::FlagLemmas::flags_steps))]
fn flags_set(flags: &[bool]) -> usize
    ensures count { result ≡ flags_set flags.now }
{
    let mut count = 0;
    for row in 0..flags.len() {
        count += one_if(flags[row]);
    }
    count
}

// 1 or 0.
fn one_if(flag: bool) -> usize
    ensures one { result ≡ (if flag then 1 else 0) }
{
    if flag { 1 } else { 0 }
}

// The position of the first flag that is set, or their number.
fn first_set(flags: &[bool]) -> usize
    ensures first { result ≡ position_or_len (λ flag. flag) flags.now }
    ensures within { result ≤ length flags.now }
{
    for row in 0..flags.len() {
        if flags[row] {
            return row;
        }
    }
    flags.len()
}

// How many values of a column are not of its type, and the first row that has one, on a line.
fn put_mistyped(
    text: &mut Vec<u8>,
    schema: &Schema,
    attribute: u8,
    count: usize,
    row: usize,
) -> Result<(), OutOfMemory>
    requires attribute { attribute < width_of schema.now }
    ensures added { OnOk result (text.new.items ≡ text.old.items
        ++ mistyped_text schema.now attribute count row) }
{
    add(text, b"column ")?;
    put_name(text, schema, attribute)?;
    add(text, b": ")?;
    add(text, Buffer::new().format(count).as_bytes())?;
    put_mistyped_words(text, &type_of(schema, attribute), count)?;
    add(text, Buffer::new().format(row).as_bytes())?;
    add(text, b"\n")
}

#[tactic(auto, unfolding(crate::specs::Measures::mistyped_words))]
fn put_mistyped_words(
    text: &mut Vec<u8>,
    column: &ColumnType,
    count: usize,
) -> Result<(), OutOfMemory>
    requires column { IsTrue (is_column_type column.now) }
    ensures added { OnOk result (text.new.items
        ≡ text.old.items ++ mistyped_words column.now count) }
{
    if count == 1 {
        put_type(text, b" value is no ", column, b", in row ")
    } else {
        put_type(text, b" values are no ", column, b", the first in row ")
    }
}

// The words of a type between two pieces.
fn put_type(
    text: &mut Vec<u8>,
    front: &[u8],
    column: &ColumnType,
    back: &[u8],
) -> Result<(), OutOfMemory>
    requires column { IsTrue (is_column_type column.now) }
    ensures added { OnOk result (text.new.items
        ≡ text.old.items ++ (front.now ++ type_word column.now ++ back.now)) }
{
    add(text, front)?;
    add_type_word(text, column)?;
    add(text, back)
}

// The name of an attribute as it is printed.
pub fn put_name(text: &mut Vec<u8>, schema: &Schema, attribute: u8) -> Result<(), OutOfMemory>
    requires attribute { attribute < width_of schema.now }
    ensures added { OnOk result (text.new.items
        ≡ text.old.items ++ slice_index_or (printed_names_of schema.now) attribute []) }
{
    add_name(text, schema.naming(), schema.name(attribute))
}
