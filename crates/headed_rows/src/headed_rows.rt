ghost use Rattle.std.specs.Prelude.{◌≡◌, ◌<◌, ◌≤◌, ℕ, false, List, length, IfOk, IfErr, IfSome, OnOk, None};
ghost use Rattle.csv.specs.Records.{fields_of};
ghost use Rattle.csv_rows.specs.Records.{HasLeft};
ghost use Rattle.dep_model.specs.Failures.{RefusesAs};
ghost use Rattle.dep_model.specs.Tuples.{IsOver};
ghost use Rattle.headed_rows.specs.Headings.{headed_of, IsHeadedWithin, IsRefusedWithin, is_open_at, FitsRow};
ghost use Rattle.headed_rows.specs.Headings.{RefusesRow, RefusesRows, ReadsNames, RefusesNames};

use crate::HeaderRefusal;
use crate::columns::column_names;
use csv::{ByteRecord, Reader};
use csv_rows::{field, is_open, open_reader, open_record, take_record};
use dep_model::{Failure, OutOfMemory};
use row_store::{FlatValues, MOST_HEADED_ROWS, Rows};
use schema_model::Name;
use std::alloc::Global;

/// How many columns and rows a text may have.
#[derive(Clone, Copy, Debug)]
pub struct Limits {
    pub columns: u8,
    pub rows: u32,
}

/// The rows of a CSV text and the names that its header gives the columns.
#[derive(Debug, Drop)]
pub struct Headed {
    /// The names of the columns, from left to right.
    pub names: Vec<Name>,
    /// The rows, each with its values in the order of the columns.
    pub rows: Rows,
}

/// The rows of a CSV text, at most so many, under a header of at most so many different names, which may be any
/// names. The records are those that `csv_rows` reads, after one byte-order mark. Of more than one refusal the
/// first in the order of `HeaderRefusal` decides, of the header's fields the first from the left, of the rows
/// the first from the top; of one row `UnevenRow` comes before `TooManyRows`. But an open quote comes right after
/// `NoHeader`, and in a row before all else.
pub fn read_headed(
    alloc: Global,
    limits: Limits,
    text: &[u8],
) -> Result<Headed, Failure<HeaderRefusal>>
    requires rows { limits.rows ≤ MOST_HEADED_ROWS }
    ensures ok { IfOk result (λ headed. IsHeadedWithin limits text.now (headed_of headed)) }
    ensures any_name { IfOk result (λ headed. 0 < length headed.names.items) }
    ensures err { IfErr result (RefusesAs (IsRefusedWithin limits text.now)) }
{
    let unclosed = open_record(text);
    let mut reader = open_reader(alloc, text);
    let names = match read_names(alloc, limits.columns, unclosed, &mut reader) {
        Ok(names) => names,
        Err(failure) => return Err(failure),
    };
    match read_body(
        alloc,
        limits.rows,
        names.len(),
        unclosed,
        &mut reader,
        text.len(),
    ) {
        Ok(rows) => Ok(Headed { names, rows }),
        Err(failure) => Err(failure),
    }
}

// The names of the columns.
fn read_names(
    alloc: Global,
    widest: u8,
    unclosed: Option<usize>,
    reader: &mut Reader<&[u8]>,
) -> Result<Vec<Name>, Failure<HeaderRefusal>>
    ensures ok { (rs : List (List (List ℕ))) → HasLeft reader.old rs
        → IfOk result (λ names. ReadsNames widest unclosed rs reader.new names.items) }
    ensures err { (rs : List (List (List ℕ))) → HasLeft reader.old rs
        → IfErr result (RefusesAs (RefusesNames widest unclosed rs)) }
{
    let mut fields = ByteRecord::new(alloc);
    match take_record(reader, &mut fields) {
        Ok(true) if is_open(unclosed, 1) => Err(Failure::Refused(HeaderRefusal::OpenHeader)),
        Ok(true) => column_names(alloc, widest, &fields),
        Ok(false) => Err(Failure::Refused(HeaderRefusal::NoHeader)),
        Err(_) => Err(Failure::OutOfMemory),
    }
}

// The rows under a header of this many columns, at most so many. Room is taken at once for so many bytes of values.
fn read_body(
    alloc: Global,
    most: u32,
    columns: usize,
    unclosed: Option<usize>,
    reader: &mut Reader<&[u8]>,
    room: usize,
) -> Result<Rows, Failure<HeaderRefusal>>
    requires most { most ≤ MOST_HEADED_ROWS }
    ensures records { (rs : List (List (List ℕ))) → HasLeft reader.old rs
        → IfOk result (λ rows. rows ≡ rs) }
    ensures closed { IfOk result (λ rows. (i : ℕ) → i < length rows → is_open_at unclosed i ≡ false) }
    ensures same_width { IfOk result (λ rows. IsOver columns rows) }
    ensures within_limit { IfOk result (λ rows. length rows ≤ most) }
    ensures err { (rs : List (List (List ℕ))) → HasLeft reader.old rs
        → IfErr result (RefusesAs (RefusesRows most unclosed columns rs)) }
{
    let mut fields = ByteRecord::new(alloc);
    let mut row = FlatValues::new(alloc);
    let mut rows = Rows::with_room(alloc, room)?;
    loop {
        match take_record(reader, &mut fields) {
            Ok(true) => {}
            Ok(false) => return Ok(rows),
            Err(_) => return Err(Failure::OutOfMemory),
        }
        let count = rows.len();
        match row_refusal(most, columns, unclosed, count as u32, &fields) {
            Some(refusal) => return Err(Failure::Refused(refusal)),
            None => {}
        }
        take_fields(&fields, &mut row)?;
        rows.push(&row)?;
    }
}

// Why the record after so many rows is no row, if it is none.
fn row_refusal(
    most: u32,
    columns: usize,
    unclosed: Option<usize>,
    count: u32,
    fields: &ByteRecord,
) -> Option<HeaderRefusal>
    requires most { most ≤ MOST_HEADED_ROWS }
    requires count { count ≤ most }
    ensures refusal { IfSome result (RefusesRow most unclosed columns count (fields_of fields.now)) }
    ensures none { result ≡ None → FitsRow most unclosed columns count (fields_of fields.now) }
{
    if is_open(unclosed, count as usize + 2) {
        Some(HeaderRefusal::OpenRow { row: count + 1 })
    } else if fields.len() != columns {
        Some(HeaderRefusal::UnevenRow { row: count + 1 })
    } else if count >= most {
        Some(HeaderRefusal::TooManyRows)
    } else {
        None
    }
}

// The values become those of a record.
fn take_fields(fields: &ByteRecord, values: &mut FlatValues) -> Result<(), OutOfMemory>
    ensures row { OnOk result (values.new ≡ fields_of fields.now) }
{
    values.clear();
    for i in 0..fields.len() {
        values.push(field(fields, i))?;
    }
    Ok(())
}
