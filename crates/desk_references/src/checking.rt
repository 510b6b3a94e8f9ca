ghost use Rattle.std.specs.Prelude.{◌≡◌, ◌<◌, ◌≤◌, ◌++◌, All, IfOk, OnOk, length, map};
ghost use Rattle.csv_text.specs.Rows.{csv_row, rows_only};
ghost use Rattle.dep_model.specs.Tuples.{IsOver};
ghost use Rattle.desk_references.specs.Checks.{ChecksReferences, JudgesReference, as_many_text, count_text};
ghost use Rattle.desk_references.specs.Checks.{unmatched_text};
ghost use Rattle.desk_responses.specs.ResponseValues.{Says};
ghost use Rattle.desk_responses.specs.Responses.{ExitsAs, RespondsAs};
ghost use Rattle.file_references.specs.Columns.{name_at};
ghost use Rattle.headed_rows.specs.Headers.{IsColumnHeader};
ghost use Rattle.headed_rows.specs.Headings.{headed_of};
ghost use Rattle.row_groups.specs.Numberings.{number_at};
ghost use Rattle.row_store.specs.declared.limits.TheConstants.{MOST_HEADED_ROWS};

use crate::columns::columns_of;
use arguments::Argument;
use byte_texts::{add, add_number};
use csv_text::add_row;
use dep_model::OutOfMemory;
use desk_responses::{EarlyExit, Response, Status};
use desk_texts::line_of;
use file_references::{distinct_values, rows_without_match};
use headed_rows::Headed;
use row_store::{FlatValues, Hashing, Rows, take_row};
use schema_model::Name;
use std::alloc::Global;

/// Whether the values of each row of a file in some columns, where it misses none of them, are those of
/// a row of another file in as many columns; and where they are not, the rows for which they are not.
/// The columns are those that two words state, paired in their order.
pub fn check_references(
    alloc: Global,
    hashing: Hashing,
    one: &Headed,
    first: &Argument,
    other: &Headed,
    second: &Argument,
) -> Result<Response, EarlyExit>
    requires header { IsColumnHeader one.now.names.items }
    requires same_width { IsOver (length one.now.names.items) one.now.rows }
    requires within_limit { length one.now.rows ≤ MOST_HEADED_ROWS }
    requires other_header { IsColumnHeader other.now.names.items }
    requires other_width { IsOver (length other.now.names.items) other.now.rows }
    ensures response { RespondsAs
        (ChecksReferences (headed_of one.now) first.now (headed_of other.now) second.now) result }
{
    let columns = match columns_of(alloc, b"first", &one.names, first) {
        Ok(columns) => columns,
        Err(exit) => return Err(exit),
    };
    let key = match columns_of(alloc, b"second", &other.names, second) {
        Ok(key) => key,
        Err(exit) => return Err(exit),
    };
    if columns.len() != key.len() {
        return Err(unpaired_exit(alloc));
    }
    judge_reference(alloc, hashing, one, &columns, other, &key)
}

// The columns of the two files are not as many.
fn unpaired_exit(alloc: Global) -> EarlyExit
    ensures says { ExitsAs (Says Status.Refused as_many_text) result }
{
    EarlyExit::with_text(
        Status::Refused,
        line_of(
            alloc,
            b"refused: as many names in both are needed",
            b"",
            b"",
        ),
    )
}

// Whether the values at columns are those of a row of the other file, and else the rows for which they
// are not.
fn judge_reference(
    alloc: Global,
    hashing: Hashing,
    one: &Headed,
    columns: &[usize],
    other: &Headed,
    key: &[usize],
) -> Result<Response, EarlyExit>
    requires same_width { IsOver (length one.now.names.items) one.now.rows }
    requires within_limit { length one.now.rows ≤ MOST_HEADED_ROWS }
    requires other_width { IsOver (length other.now.names.items) other.now.rows }
    requires columns { All (λ k. k < length one.now.names.items) columns.now }
    requires key { All (λ k. k < length other.now.names.items) key.now }
    ensures response { RespondsAs
        (JudgesReference (headed_of one.now) columns.now (headed_of other.now) key.now) result }
{
    let rows = rows_without_match(alloc, hashing, &one.rows, columns, &other.rows, key)?;
    if rows.is_empty() {
        let text = line_of(alloc, b"every row has its match", b"", b"")?;
        return Ok(Response::with_text(Status::Yes, text));
    }
    let text = unmatched_text(alloc, hashing, one, columns, &rows)?;
    Ok(Response::with_text(Status::No, text))
}

// How many rows have no match, and their values.
fn unmatched_text(
    alloc: Global,
    hashing: Hashing,
    headed: &Headed,
    columns: &[usize],
    rows: &[usize],
) -> Result<Vec<u8>, OutOfMemory>
    requires same_width { IsOver (length headed.now.names.items) headed.now.rows }
    requires columns { All (λ k. k < length headed.now.names.items) columns.now }
    requires rows { All (λ i. i < length headed.now.rows) rows.now }
    requires some { 0 < length rows.now }
    requires within_limit { length rows.now ≤ MOST_HEADED_ROWS }
    requires first { number_at rows.now 0 < MOST_HEADED_ROWS }
    ensures text { IfOk result (λ text. text.items ≡ unmatched_text (headed_of headed.now) columns.now rows.now) }
{
    let values = distinct_values(alloc, hashing, &headed.rows, columns, rows)?;
    let mut text = Vec::new(alloc);
    add_count(&mut text, alloc, rows.len() as u32, rows[0] as u32 + 1)?;
    add(&mut text, b"\n")?;
    add_header(&mut text, alloc, &headed.names, columns)?;
    add_rows(&mut text, alloc, &values)?;
    Ok(text)
}

// How many rows have no match, and the number of the first.
fn add_count(text: &mut Vec<u8>, alloc: Global, count: u32, first: u32) -> Result<(), OutOfMemory>
    ensures added { OnOk result (text.new.items ≡ text.old.items ++ count_text count first) }
{
    if count == 1 {
        add(text, b"1 row has no match, row ")?;
        return add_number(text, alloc, first);
    }
    add_number(text, alloc, count)?;
    add(text, b" rows have no match, the first is row ")?;
    add_number(text, alloc, first)
}

// The names of columns, as the header of CSV rows.
fn add_header(
    text: &mut Vec<u8>,
    alloc: Global,
    names: &[Name],
    columns: &[usize],
) -> Result<(), OutOfMemory>
    requires columns { All (λ k. k < length names.now) columns.now }
    ensures added { OnOk result (text.new.items
        ≡ text.old.items ++ csv_row (map (name_at names.now) columns.now)) }
{
    let mut row = FlatValues::new(alloc);
    for column in columns {
        row.push(names[*column].bytes())?;
    }
    add_row(text, &row)
}

// Rows, as CSV.
fn add_rows(text: &mut Vec<u8>, alloc: Global, rows: &Rows) -> Result<(), OutOfMemory>
    ensures added { OnOk result (text.new.items ≡ text.old.items ++ rows_only rows.now) }
{
    let mut values = FlatValues::new(alloc);
    for row in 0..rows.len() {
        take_row(&mut values, rows, row)?;
        add_row(text, &values)?;
    }
    Ok(())
}
