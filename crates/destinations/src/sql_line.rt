ghost use Rattle.std.specs.Prelude.{◌≡◌, ◌==◌, false, [], ◌++◌, if◌then◌else◌, slice_index_or, IfOk, OnOk};
ghost use Rattle.std.specs.List.{list_any};
ghost use Rattle.std.specs.Str.{is_utf8};
ghost use Rattle.destinations.specs.Sql.{escape_after, escaped_after, quoted_text, is_sql_text, sql_value, sql_cell};
ghost use Rattle.destinations.specs.Sql.{sql_cells, sql_head, sql_row};
ghost use Rattle.sql_syntax.specs.Names.{comma_list, separator};

use byte_texts::add;
use dep_model::OutOfMemory;
use row_store::FlatValues;
use schema_model::Name;
use sql_syntax::{add_names, add_quoted};
use std::alloc::Global;

/// The front of each line of a table with these columns.
pub fn head_of(alloc: Global, name: &Name, columns: &[Name]) -> Result<Vec<u8>, OutOfMemory>
    ensures head { IfOk result (λ head. head.items ≡ sql_head name.now columns.now) }
{
    let mut text = Vec::new(alloc);
    add(&mut text, b"INSERT INTO ")?;
    add_quoted(&mut text, name)?;
    add(&mut text, b" (")?;
    add_names(&mut text, columns)?;
    add(&mut text, b") VALUES (")?;
    Ok(text)
}

/// Adds the line of a row, after this front.
pub fn add_line(
    alloc: Global,
    text: &mut Vec<u8>,
    head: &[u8],
    nullable: &[bool],
    row: &FlatValues,
) -> Result<(), OutOfMemory>
    ensures line { OnOk result (text.new.items ≡ text.old.items ++ sql_row head.now nullable.now row.now) }
{
    add(text, head)?;
    add_values(alloc, text, nullable, row)?;
    add(text, b");\n")
}

// The values of a row, with a comma and a blank between.
fn add_values(
    alloc: Global,
    text: &mut Vec<u8>,
    nullable: &[bool],
    row: &FlatValues,
) -> Result<(), OutOfMemory>
    ensures values { OnOk result (text.new.items
        ≡ text.old.items ++ comma_list (λ cell. cell) (sql_cells nullable.now row.now)) }
{
    for i in 0..row.len() {
        add_listed_value(alloc, text, i > 0, flag_at(nullable, i), row.value(i))?;
    }
    Ok(())
}

// Whether a value of the column at a position may be missing.
fn flag_at(nullable: &[bool], i: usize) -> bool
    ensures flag { result ≡ slice_index_or nullable.now i false }
{
    match nullable.get(i) {
        Some(flag) => *flag,
        None => false,
    }
}

// A value; after a comma and a blank where another one stands before it.
fn add_listed_value(
    alloc: Global,
    text: &mut Vec<u8>,
    any_written: bool,
    nullable: bool,
    value: &[u8],
) -> Result<(), OutOfMemory>
    ensures added { OnOk result (text.new.items ≡ text.old.items
        ++ (if any_written then separator ++ sql_cell nullable value.now else sql_cell nullable value.now)) }
{
    if any_written {
        add(text, b", ")?;
    }
    add_cell(alloc, text, nullable, value)
}

// The text of a value, or that it is missing.
fn add_cell(
    alloc: Global,
    text: &mut Vec<u8>,
    nullable: bool,
    value: &[u8],
) -> Result<(), OutOfMemory>
    ensures text { OnOk result (text.new.items ≡ text.old.items ++ sql_cell nullable value.now) }
{
    if nullable && value.is_empty() {
        return add(text, b"NULL");
    }
    add_value(alloc, text, value)
}

// The text of a value.
fn add_value(alloc: Global, text: &mut Vec<u8>, value: &[u8]) -> Result<(), OutOfMemory>
    ensures text { OnOk result (text.new.items ≡ text.old.items ++ sql_value value.now) }
{
    if is_sql_text(value) {
        return quote(text, value);
    }
    let digits = hex::encode_upper(alloc, value)?;
    add(text, b"X'")?;
    add(text, digits.as_bytes())?;
    add(text, b"'")
}

/// Whether a value can be a text of SQL: it is UTF-8, and has no zero byte.
pub fn is_sql_text(value: &[u8]) -> bool
    ensures text { result ≡ is_sql_text value.now }
{
    is_valid(value) && !value.contains(&0)
}

// Whether bytes are UTF-8.
#[tactic(auto, using(crate::proofs::SqlLemmas::utf8_not, crate::proofs::SqlLemmas::utf8_there))]
fn is_valid(bytes: &[u8]) -> bool
    ensures valid { result ≡ is_utf8 bytes.now }
{
    match str::from_utf8(bytes) {
        Ok(_) => true,
        Err(_) => false,
    }
}

// A value between single quotes, in which each single quote is doubled and each CR LF parted.
fn quote(text: &mut Vec<u8>, value: &[u8]) -> Result<(), OutOfMemory>
    ensures text { OnOk result (text.new.items ≡ text.old.items ++ quoted_text value.now) }
{
    add(text, b"'")?;
    if value.contains(&b'\'') || value.contains(&b'\r') {
        add_escaped(text, value)?;
    } else {
        add_plain(text, value)?;
    }
    add(text, b"'")
}

// A value without a single quote or CR, as it is.
#[tactic(auto, using(crate::proofs::SqlLemmas::none_escaped))]
fn add_plain(text: &mut Vec<u8>, value: &[u8]) -> Result<(), OutOfMemory>
    requires no_quote { list_any (λ byte. byte == 39) value.now ≡ false }
    requires no_return { list_any (λ byte. byte == 13) value.now ≡ false }
    ensures text { OnOk result (text.new.items ≡ text.old.items ++ escaped_after 0 value.now) }
{
    add(text, value)
}

// A value with each single quote in it doubled, and each CR LF parted.
fn add_escaped(text: &mut Vec<u8>, value: &[u8]) -> Result<(), OutOfMemory>
    ensures text { OnOk result (text.new.items ≡ text.old.items ++ escaped_after 0 value.now) }
{
    let mut last = 0;
    for byte in value {
        add_byte(text, last, *byte)?;
        last = *byte;
    }
    Ok(())
}

// A byte between single quotes that stands after another one, at the end of a text.
fn add_byte(text: &mut Vec<u8>, last: u8, byte: u8) -> Result<(), OutOfMemory>
    ensures more { OnOk result (text.new.items ≡ text.old.items ++ escape_after last byte) }
{
    if last == b'\r' && byte == b'\n' {
        return add(text, b"' || '\n");
    }
    if byte == b'\'' {
        return add(text, b"''");
    }
    add(text, &[byte])
}
