ghost use Rattle.std.specs.Prelude.{◌≡◌, ◌==◌, [], ◌∷◌, ◌++◌, if◌then◌else◌, OnOk};
ghost use Rattle.csv.specs.Quoting.{needs_byte};
ghost use Rattle.csv.specs.Writing.{default_writer, escaped, field_text, is_blank, needs_quotes, quoted, row_body};
ghost use Rattle.csv_text.specs.Rows.{csv_row};

use dep_model::OutOfMemory;
use row_store::FlatValues;

/// Adds the line of a row at the end of a text, without a writer of its own.
pub fn add_row(text: &mut Vec<u8>, row: &FlatValues) -> Result<(), OutOfMemory>
    ensures row { OnOk result (text.new.items ≡ text.old.items ++ csv_row row.now) }
{
    add_fields(text, row)?;
    if is_blank(row) {
        text.extend_from_slice(b"\"\"")?;
    }
    text.push(b'\n')?;
    Ok(())
}

// Whether a row shows no byte.
fn is_blank(row: &FlatValues) -> bool
    ensures blank { result ≡ is_blank default_writer row.now }
{
    if row.len() == 1 {
        return row.value(0).is_empty();
    }
    row.len() == 0
}

// The fields of a row, with commas between.
fn add_fields(text: &mut Vec<u8>, row: &FlatValues) -> Result<(), OutOfMemory>
    ensures fields { OnOk result (text.new.items ≡ text.old.items ++ row_body default_writer row.now) }
{
    for i in 0..row.len() {
        add_listed(text, i > 0, row.value(i))?;
    }
    Ok(())
}

// A field; after a comma where another one stands before it.
fn add_listed(text: &mut Vec<u8>, any_written: bool, value: &[u8]) -> Result<(), OutOfMemory>
    ensures added { OnOk result (text.new.items ≡ text.old.items
        ++ (if any_written then 44 ∷ field_text default_writer value.now
        else field_text default_writer value.now)) }
{
    if any_written {
        text.push(b',')?;
    }
    add_field(text, value)
}

// A field, between quotes where it needs them.
fn add_field(text: &mut Vec<u8>, value: &[u8]) -> Result<(), OutOfMemory>
    ensures field { OnOk result (text.new.items
        ≡ text.old.items ++ field_text default_writer value.now) }
{
    if needs_quotes(value) {
        return add_quoted(text, value);
    }
    text.extend_from_slice(value)?;
    Ok(())
}

fn needs_quotes(value: &[u8]) -> bool
    ensures needs { result ≡ needs_quotes default_writer value.now }
{
    value.iter().any(|byte| calls_for_quotes(*byte))
}

fn calls_for_quotes(byte: u8) -> bool
    ensures calls { result ≡ needs_byte default_writer byte }
{
    byte == b',' || byte == b'"' || byte == b'\r' || byte == b'\n'
}

// A field between quotes.
fn add_quoted(text: &mut Vec<u8>, value: &[u8]) -> Result<(), OutOfMemory>
    ensures quoted { OnOk result (text.new.items ≡ text.old.items ++ quoted default_writer value.now) }
{
    text.push(b'"')?;
    add_escaped(text, value)?;
    text.push(b'"')?;
    Ok(())
}

// The bytes of a field between its quotes.
fn add_escaped(text: &mut Vec<u8>, value: &[u8]) -> Result<(), OutOfMemory>
    ensures escaped { OnOk result (text.new.items
        ≡ text.old.items ++ escaped default_writer value.now) }
{
    for byte in value {
        add_doubled(text, *byte)?;
    }
    Ok(())
}

// A byte between quotes: a quote is doubled.
fn add_doubled(text: &mut Vec<u8>, byte: u8) -> Result<(), OutOfMemory>
    ensures doubled { OnOk result (text.new.items ≡ text.old.items
        ++ (if byte == 34 then 34 ∷ byte ∷ [] else byte ∷ [])) }
{
    if byte == b'"' {
        text.push(b'"')?;
    }
    text.push(byte)?;
    Ok(())
}
