ghost use Rattle.std.specs.Prelude.{◌≡◌, ◌≤◌, ℕ, true, false, List, [], length, Ok, Err, IfOk, IfErr, OnOk};
ghost use Rattle.csv.specs.Records.{fields_of};
ghost use Rattle.csv_rows.specs.Columns.{columns_of_header, IsHeader};
ghost use Rattle.csv_rows.specs.Records.{HasLeft};
ghost use Rattle.csv_rows.specs.Reading.{ClosedRowOf, RowOf, RowsUnder, RowsOf, ReadsHeader, RefusesHeader};
ghost use Rattle.dep_model.specs.Failures.{RefusesAs};
ghost use Rattle.column_values.specs.Values.{FitsColumns};
ghost use Rattle.schema_model.specs.Schemas.{names_of, width_of};
ghost use Rattle.dep_model.specs.Tuples.{IsOver};

use crate::RowRefusal;
use crate::header::Header;
use crate::quotes::{is_open, open_record};
use crate::records::{field, open_reader, take_record};
use attr_sets::AttrSet;
use column_values::fits_column;
use csv::{ByteRecord, Reader};
use dep_model::Failure;
use row_store::{FlatValues, Rows};
use schema_model::Schema;
use std::alloc::Global;

/// The most rows of a CSV text.
pub const MOST_ROWS: u32 = 10_000_000;

/// The rows of a CSV text in their order, each with its values in the order of the schema. The header
/// names each attribute once, in any order and ASCII case; one byte-order mark may stand before it.
/// Of more than one refusal the first decides: those of the header in the order of `RowRefusal`, then
/// those of the rows from the first row on, and of one row in that order; but an open quote comes right
/// after `NoHeader`, and in a row before all else.
pub fn read_rows(alloc: Global, schema: &Schema, text: &[u8]) -> Result<Rows, Failure<RowRefusal>>
    ensures ok { IfOk result (λ rows. RowsOf schema.now text.now (Ok rows)) }
    ensures over { IfOk result (λ rows. IsOver (width_of schema.now) rows) }
    ensures within_limit { IfOk result (λ rows. length rows ≤ MOST_ROWS) }
    ensures fits { IfOk result (λ rows. FitsColumns schema.now rows) }
    ensures err { IfErr result (RefusesAs (λ e. RowsOf schema.now text.now (Err e))) }
{
    let unclosed = open_record(text);
    let mut reader = open_reader(alloc, text);
    let header = match read_header(alloc, schema, unclosed, &mut reader) {
        Ok(header) => header,
        Err(failure) => return Err(failure),
    };
    let missing = AttrSet::full(schema.width()).difference(header.scheme);
    match missing.first() {
        Some(attribute) => Err(Failure::Refused(RowRefusal::MissingColumn { attribute })),
        None => read_body(alloc, schema, &header, unclosed, &mut reader, text.len()),
    }
}

// The header of a text, where the record of a number has an open quote.
pub fn read_header(
    alloc: Global,
    schema: &Schema,
    unclosed: Option<usize>,
    reader: &mut Reader<&[u8]>,
) -> Result<Header, Failure<RowRefusal>>
    ensures ok { (rs : List (List (List ℕ))) → HasLeft reader.old rs
        → IfOk result (λ h. ReadsHeader schema.now unclosed rs reader.new h) }
    ensures err { (rs : List (List (List ℕ))) → HasLeft reader.old rs
        → IfErr result (RefusesAs (RefusesHeader (names_of schema.now) unclosed rs)) }
{
    let mut fields = ByteRecord::new(alloc);
    match take_record(reader, &mut fields) {
        Ok(true) if is_open(unclosed, 1) => Err(Failure::Refused(RowRefusal::OpenHeader)),
        Ok(true) => Header::new(alloc, schema, &fields),
        Ok(false) => Err(Failure::Refused(RowRefusal::NoHeader)),
        Err(_) => Err(Failure::OutOfMemory),
    }
}

// The rows under a header. Room is taken at once for so many bytes of values.
pub fn read_body(
    alloc: Global,
    schema: &Schema,
    header: &Header,
    unclosed: Option<usize>,
    reader: &mut Reader<&[u8]>,
    room: usize,
) -> Result<Rows, Failure<RowRefusal>>
    requires { (columns : List ℕ) × IsHeader (width_of schema.now) columns header.now }
    ensures ok { (rs : List (List (List ℕ))) (columns : List ℕ) → HasLeft reader.old rs
        → IsHeader (width_of schema.now) columns header.now
        → IfOk result (λ rows. RowsUnder schema.now (Ok columns) unclosed rs (Ok rows)) }
    ensures err { (rs : List (List (List ℕ))) (columns : List ℕ) → HasLeft reader.old rs
        → IsHeader (width_of schema.now) columns header.now
        → IfErr result (RefusesAs (λ e. RowsUnder schema.now (Ok columns) unclosed rs (Err e))) }
    ensures within_limit { IfOk result (λ rows. length rows ≤ MOST_ROWS) }
{
    let mut fields = ByteRecord::new(alloc);
    let mut row = FlatValues::new(alloc);
    let mut rows = Rows::with_room(alloc, room)?;
    'records: loop {
        match take_record(reader, &mut fields) {
            Ok(true) => {}
            Ok(false) => return Ok(rows),
            Err(_) => return Err(Failure::OutOfMemory),
        }
        let count = rows.len();
        let is_open = is_open(unclosed, count + 2);
        let number = count as u32 + 1;
        match read_row(schema, header, is_open, number, &fields, &mut row) {
            Ok(()) => rows.push(&row)?,
            Err(failure) => return Err(failure),
        }
    }
}

// The row of a record, which may have an open quote, becomes the values.
fn read_row(
    schema: &Schema,
    header: &Header,
    is_open: bool,
    row: u32,
    fields: &ByteRecord,
    values: &mut FlatValues,
) -> Result<(), Failure<RowRefusal>>
    requires { (columns : List ℕ) × IsHeader (width_of schema.now) columns header.now }
    ensures ok { (columns : List ℕ) → IsHeader (width_of schema.now) columns header.now
        → OnOk result (RowOf schema.now columns is_open row (fields_of fields.now) (Ok values.new)) }
    ensures err { (columns : List ℕ) → IsHeader (width_of schema.now) columns header.now
        → IfErr result (RefusesAs (λ e. RowOf schema.now columns is_open row (fields_of fields.now) (Err e))) }
    ensures within_limit { OnOk result (row ≤ MOST_ROWS) }
{
    if is_open {
        Err(Failure::Refused(RowRefusal::OpenRow { row }))
    } else {
        read_closed_row(schema, header, row, fields, values)
    }
}

// The row of a record whose quotes are closed becomes the values.
fn read_closed_row(
    schema: &Schema,
    header: &Header,
    row: u32,
    fields: &ByteRecord,
    values: &mut FlatValues,
) -> Result<(), Failure<RowRefusal>>
    requires { (columns : List ℕ) × IsHeader (width_of schema.now) columns header.now }
    ensures ok { (columns : List ℕ) → IsHeader (width_of schema.now) columns header.now
        → OnOk result (ClosedRowOf schema.now columns row (fields_of fields.now) (Ok values.new)) }
    ensures err { (columns : List ℕ) → IsHeader (width_of schema.now) columns header.now
        → IfErr result (RefusesAs (λ e. ClosedRowOf schema.now columns row (fields_of fields.now) (Err e))) }
    ensures within_limit { OnOk result (row ≤ MOST_ROWS) }
{
    if fields.len() != header.columns {
        return Err(Failure::Refused(RowRefusal::UnevenRow { row }));
    }
    if row > MOST_ROWS {
        return Err(Failure::Refused(RowRefusal::TooManyRows));
    }
    values.clear();
    for entry in &header.order {
        let value = field(fields, entry.column);
        let attribute = entry.attribute;
        let column = schema.column(attribute);
        let nullable = schema.nullable().contains(attribute);
        if !fits_column(&column, nullable, value) {
            return Err(Failure::Refused(RowRefusal::NotOfType { row, attribute }));
        }
        values.push(value)?;
    }
    Ok(())
}
