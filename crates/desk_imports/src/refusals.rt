//! Refusals of SQL, as they are worded.

ghost use Rattle.std.specs.Prelude.{◌≡◌, ◌<◌, ◌≤◌, ◌^◌, ◌++◌, length, take, IfOk, OnOk};
ghost use Rattle.desk_imports.specs.Imports.{import_refusal_text, line_and_column, place_text, reason_number};
ghost use Rattle.desk_imports.specs.Imports.{reason_text};
ghost use Rattle.desk_responses.specs.ResponseValues.{Says};
ghost use Rattle.desk_responses.specs.Responses.{ExitsAs};

use arguments::Argument;
use byte_texts::{add, add_number};
use dep_model::OutOfMemory;
use desk_responses::{EarlyExit, Status};
use sql_definitions::{Reason, Refusal};
use sql_lexemes::{column_at, line_at};
use std::alloc::Global;

/// A command that ends with the refusal of the text of a file.
pub fn import_refusal_exit(
    alloc: Global,
    file: &Argument,
    text: &[u8],
    refusal: Refusal,
) -> EarlyExit
    requires within_limit { length text.now < 2 ^ 31 }
    ensures says { ExitsAs (Says Status.Refused (import_refusal_text file.now text.now refusal)) result }
{
    EarlyExit::with_text(
        Status::Refused,
        import_refusal_line(alloc, file, text, refusal),
    )
}

// The line that words a refusal.
fn import_refusal_line(
    alloc: Global,
    file: &Argument,
    text: &[u8],
    refusal: Refusal,
) -> Result<Vec<u8>, OutOfMemory>
    requires within_limit { length text.now < 2 ^ 31 }
    ensures text { IfOk result (λ line. line.items ≡ import_refusal_text file.now text.now refusal) }
{
    let mut line = Vec::new(alloc);
    add(&mut line, b"refused: import ")?;
    add_number(&mut line, alloc, reason_number(refusal.reason))?;
    add(&mut line, b" at ")?;
    add(&mut line, file.bytes())?;
    add(&mut line, b":")?;
    add_place(&mut line, alloc, text, refusal.reason, refusal.place)?;
    add(&mut line, b" ")?;
    add(&mut line, reason_text(refusal.reason))?;
    add(&mut line, b"\n")?;
    Ok(line)
}

// Where a refusal stands.
fn add_place(
    line: &mut Vec<u8>,
    alloc: Global,
    text: &[u8],
    reason: Reason,
    place: usize,
) -> Result<(), OutOfMemory>
    requires within_limit { length text.now < 2 ^ 31 }
    ensures added { OnOk result (line.new.items ≡ line.old.items ++ place_text text.now reason place) }
{
    match reason {
        Reason::NoSuchTable => Ok(()),
        _ => add_line_and_column(line, alloc, text, place),
    }
}

// The line and the column of a place.
fn add_line_and_column(
    line: &mut Vec<u8>,
    alloc: Global,
    text: &[u8],
    place: usize,
) -> Result<(), OutOfMemory>
    requires within_limit { length text.now < 2 ^ 31 }
    ensures added { OnOk result (line.new.items ≡ line.old.items ++ line_and_column text.now place) }
{
    let front = front_of(text, place);
    add_number(line, alloc, line_at(front))?;
    add(line, b":")?;
    add_number(line, alloc, column_at(front))
}

// What stands before a place.
fn front_of(text: &[u8], place: usize) -> &[u8]
    ensures front { result.now ≡ take place text.now }
    ensures within { length result.now ≤ length text.now }
{
    if place <= text.len() {
        text.split_at(place).0
    } else {
        text.split_at(text.len()).0
    }
}

fn reason_number(reason: Reason) -> u32
    ensures number { result ≡ reason_number reason }
{
    match reason {
        Reason::StrangeByte | Reason::OpenQuote | Reason::OpenComment => 1,
        Reason::NoSuchTable => 2,
        Reason::TableDefinedTwice => 3,
        Reason::BadName => 4,
        Reason::NameDeclaredTwice => 5,
        Reason::ExpectedName
        | Reason::ExpectedBracket
        | Reason::ExpectedCommaOrBracket
        | Reason::ExpectedKey => 6,
        Reason::TooManyAttributes => 7,
        Reason::TooManyDependencies => 8,
        Reason::UnknownName => 9,
        Reason::TableAltered => 10,
    }
}

fn reason_text(reason: Reason) -> &'static [u8]
    ensures text { result.now ≡ reason_text reason }
{
    match reason {
        Reason::StrangeByte => b"strange byte",
        Reason::OpenQuote => b"open quote",
        Reason::OpenComment => b"open comment",
        Reason::NoSuchTable => b"no such table",
        Reason::TableDefinedTwice => b"table defined twice",
        Reason::BadName => b"bad name",
        Reason::NameDeclaredTwice => b"name declared twice",
        Reason::ExpectedName => b"expected a name",
        Reason::ExpectedBracket => b"expected (",
        Reason::ExpectedCommaOrBracket => b"expected , or )",
        Reason::ExpectedKey => b"expected KEY",
        Reason::TooManyAttributes => b"too many attributes",
        Reason::TooManyDependencies => b"too many dependencies",
        Reason::UnknownName => b"unknown name",
        Reason::TableAltered => b"the table is altered",
    }
}
