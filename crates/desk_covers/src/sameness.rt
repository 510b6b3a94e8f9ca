ghost use Rattle.std.specs.Prelude.{◌≡◌, ◌↔◌, ◌++◌, [], IsTrue, IsNone, IfSome, IfOk, IfErr, OnOk};
ghost use Rattle.desk_responses.specs.ResponseValues.{Says};
ghost use Rattle.desk_responses.specs.Responses.{response_value, RespondsAs, ExitsAs};
ghost use Rattle.desk_covers.specs.Sameness.{ChecksSame, Compares, IsDifferenceText, NameStops, SayTheSame};
ghost use Rattle.desk_covers.specs.Sameness.{difference_text, differences_text, not_in_text};
ghost use Rattle.schema_match.specs.Columns.{SameNames};
ghost use Rattle.schema_printer.specs.Spelling.{printed_names_of};
ghost use Rattle.desk_responses.specs.Lines.{attribute_name};

use arguments::Argument;
use byte_texts::add;
use dep_model::OutOfMemory;
use desk_responses::{EarlyExit, Response, Status, put_dep, put_line, put_name};
use desk_texts::line_of;
use schema_match::{differences, first_undeclared};
use schema_model::Schema;
use std::alloc::Global;

/// Whether two schemas say the same, if they have the same names. Each comes with the name of its file.
pub fn check_same(
    alloc: Global,
    schema: &Schema,
    other: &Schema,
    file: &Argument,
    other_file: &Argument,
) -> Result<Response, EarlyExit>
    ensures response { RespondsAs
        (ChecksSame schema.now other.now file.now other_file.now) result }
{
    match test_names(alloc, schema, other, file, other_file) {
        Ok(()) => {}
        Err(exit) => return Err(exit),
    }
    Ok(compare(alloc, schema, other, file, other_file)?)
}

/// Whether each of two schemas declares the names of the other.
pub fn test_names(
    alloc: Global,
    schema: &Schema,
    other: &Schema,
    file: &Argument,
    other_file: &Argument,
) -> Result<(), EarlyExit>
    ensures ok { IfOk result (λ _. SameNames schema.now other.now) }
    ensures exit { IfErr result (ExitsAs (NameStops schema.now other.now file.now other_file.now)) }
{
    if let Some(attribute) = first_undeclared(schema, other) {
        return Err(not_declared_exit(alloc, schema, attribute, other_file));
    }
    if let Some(attribute) = first_undeclared(other, schema) {
        return Err(not_declared_exit(alloc, other, attribute, file));
    }
    Ok(())
}

// A file does not declare the name of an attribute of a schema.
fn not_declared_exit(alloc: Global, schema: &Schema, attribute: u8, file: &Argument) -> EarlyExit
    ensures says { ExitsAs
        (Says Status.Refused (not_in_text (attribute_name (printed_names_of schema.now) attribute) file.now)) result }
{
    EarlyExit::with_text(
        Status::Refused,
        not_declared_line(alloc, schema, attribute, file),
    )
}

fn not_declared_line(
    alloc: Global,
    schema: &Schema,
    attribute: u8,
    file: &Argument,
) -> Result<Vec<u8>, OutOfMemory>
    ensures line { IfOk result
        (λ text. text.items ≡ not_in_text (attribute_name (printed_names_of schema.now) attribute) file.now) }
{
    let mut text = Vec::new(alloc);
    add(&mut text, b"refused: ")?;
    put_name(&mut text, schema, attribute)?;
    add(&mut text, b" is not in ")?;
    add(&mut text, file.bytes())?;
    add(&mut text, b"\n")?;
    Ok(text)
}

// Whether two schemas over the same names say the same.
fn compare(
    alloc: Global,
    schema: &Schema,
    other: &Schema,
    file: &Argument,
    other_file: &Argument,
) -> Result<Response, OutOfMemory>
    requires names { SameNames schema.now other.now }
    ensures response { IfOk result
        (λ response. Compares schema.now other.now file.now other_file.now (response_value response)) }
{
    let lines = difference_lines(alloc, schema, other, file, other_file)?;
    match lines {
        None => Ok(Response::with_text(Status::Yes, line_of(alloc, b"equivalent", b"", b"")?)),
        Some(text) => Ok(Response::with_text(Status::No, text)),
    }
}

/// What of two schemas over the same names does not follow from the other; none where they say the same.
pub fn difference_lines(
    alloc: Global,
    schema: &Schema,
    other: &Schema,
    file: &Argument,
    other_file: &Argument,
) -> Result<Option<Vec<u8>>, OutOfMemory>
    requires names { SameNames schema.now other.now }
    ensures same { IfOk result (λ lines. IsNone lines → SayTheSame schema.now other.now) }
    ensures differ { IfOk result (λ lines. IfSome lines
        (λ text. IsDifferenceText schema.now other.now file.now other_file.now text.items)) }
{
    let of_schema = differences(alloc, schema, other)?;
    let of_other = differences(alloc, other, schema)?;
    if are_empty(&of_schema, &of_other) {
        return Ok(None);
    }
    let mut text = line_of(alloc, b"different", b"", b"")?;
    put_differences(alloc, &mut text, schema, file, other_file, &of_schema)?;
    put_differences(alloc, &mut text, other, other_file, file, &of_other)?;
    Ok(Some(text))
}

// Whether neither schema has a difference.
fn are_empty(of_schema: &[u16], of_other: &[u16]) -> bool
    ensures none { IsTrue result ↔ ((of_schema.now ≡ []) × (of_other.now ≡ [])) }
{
    of_schema.is_empty() && of_other.is_empty()
}

// A line for each dependency of a file that does not follow from the other, at the end of a text.
fn put_differences(
    alloc: Global,
    text: &mut Vec<u8>,
    schema: &Schema,
    file: &Argument,
    other_file: &Argument,
    numbers: &[u16],
) -> Result<(), OutOfMemory>
    ensures added { OnOk result (text.new.items
        ≡ text.old.items ++ differences_text schema.now file.now other_file.now numbers.now) }
{
    for number in numbers {
        add(
            text,
            &difference_line(alloc, schema, file, other_file, *number)?,
        )?;
    }
    Ok(())
}

// A dependency of a file that does not follow from the other.
fn difference_line(
    alloc: Global,
    schema: &Schema,
    file: &Argument,
    other_file: &Argument,
    number: u16,
) -> Result<Vec<u8>, OutOfMemory>
    ensures text { IfOk result
        (λ text. text.items ≡ difference_text schema.now file.now other_file.now number) }
{
    let mut text = Vec::new(alloc);
    add(&mut text, b"line ")?;
    put_line(alloc, &mut text, schema, number as usize)?;
    add(&mut text, b" of ")?;
    add(&mut text, file.bytes())?;
    add(&mut text, b": ")?;
    put_dep(&mut text, schema, number as usize)?;
    add(&mut text, b" does not follow from ")?;
    add(&mut text, other_file.bytes())?;
    add(&mut text, b"\n")?;
    Ok(text)
}
