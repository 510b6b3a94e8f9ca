ghost use Rattle.std.specs.Prelude.{◌≡◌, ◌++◌, ◌<◌, codes, IfOk, OnOk};
ghost use Rattle.std.specs.List.{flat_map, range_with_len};
ghost use Rattle.schema_model.specs.Schemas.{width_of};
ghost use Rattle.schema_printer.specs.Printing.{is_integer};
ghost use Rattle.schema_printer.specs.Spelling.{spelling};
ghost use Rattle.sql_syntax.specs.Printing.{query_text};
ghost use Rattle.sql_check.specs.Columns.{named_column};
ghost use Rattle.sql_check.specs.Checks.{integer_query};
ghost use Rattle.sql_scripts.specs.Listing.{integer_test};
ghost use Rattle.sql_scripts.specs.Checking.{integer_check_text, value_text};

use crate::listing::column_text;
use crate::selecting::{line_of_query, selected_text};
use byte_texts::add;
use dep_model::OutOfMemory;
use schema_model::{ColumnType, Name, Naming, Schema};
use schema_printer::add_name;
use std::alloc::Global;

// Adds the query of each integer attribute.
pub fn add_integers(
    alloc: Global,
    text: &mut Vec<u8>,
    schema: &Schema,
    table: &[u8],
) -> Result<(), OutOfMemory>
    ensures added { OnOk result (text.new.items ≡ text.old.items
        ++ flat_map (value_text schema.now table.now) (range_with_len 0 (width_of schema.now))) }
{
    for attribute in 0..schema.width() {
        let query = value_text(alloc, schema, table, attribute)?;
        add(text, &query)?;
    }
    Ok(())
}

// The query of an attribute, where it is an integer.
fn value_text(
    alloc: Global,
    schema: &Schema,
    table: &[u8],
    attribute: u8,
) -> Result<Vec<u8>, OutOfMemory>
    requires attribute { attribute < width_of schema.now }
    ensures text { IfOk result (λ text. text.items ≡ value_text schema.now table.now attribute) }
{
    if !is_integer(schema.column(attribute)) {
        return Ok(Vec::new(alloc));
    }
    integer_check_text(alloc, schema.naming(), table, schema.name(attribute))
}

pub fn is_integer(column: ColumnType) -> bool
    ensures integer { result ≡ is_integer column }
{
    match column {
        ColumnType::Integer => true,
        _ => false,
    }
}

// The query for the values of a column that are no integers.
fn integer_check_text(
    alloc: Global,
    naming: Naming,
    table: &[u8],
    name: &Name,
) -> Result<Vec<u8>, OutOfMemory>
    ensures text { IfOk result (λ text. text.items ≡ integer_check_text naming table.now name.now) }
{
    let query = integer_query(alloc, table, name)?;
    let comment = integer_comment(alloc, naming, name)?;
    line_of_query(alloc, &comment, &query)
}

fn integer_comment(alloc: Global, naming: Naming, name: &Name) -> Result<Vec<u8>, OutOfMemory>
    ensures text { IfOk result (λ text. text.items
        ≡ codes "-- " ++ spelling naming name.now ++ codes " is an integer\n") }
{
    let mut text = Vec::new(alloc);
    add(&mut text, b"-- ")?;
    add_name(&mut text, naming, name)?;
    add(&mut text, b" is an integer\n")?;
    Ok(text)
}

// The values of a column that are not the text of the integer that they are cast to.
fn integer_query(alloc: Global, table: &[u8], name: &Name) -> Result<Vec<u8>, OutOfMemory>
    ensures text { IfOk result (λ text. text.items
        ≡ query_text (integer_query table.now (named_column (codes "r") name.now))) }
{
    let column = column_text(alloc, b"r.", name)?;
    let clause = integer_clause(alloc, &column)?;
    selected_text(alloc, false, &column, table, b"r", &clause)
}

// Which rows are taken.
fn integer_clause(alloc: Global, column: &[u8]) -> Result<Vec<u8>, OutOfMemory>
    ensures text { IfOk result (λ text. text.items ≡ codes " WHERE " ++ integer_test column.now) }
{
    let test = integer_test(alloc, column)?;
    let mut clause = Vec::new(alloc);
    add(&mut clause, b" WHERE ")?;
    add(&mut clause, &test)?;
    Ok(clause)
}

// Whether a value is not the text of the integer that it is cast to.
fn integer_test(alloc: Global, column: &[u8]) -> Result<Vec<u8>, OutOfMemory>
    ensures text { IfOk result (λ text. text.items ≡ integer_test column.now) }
{
    let cast = parted(alloc, b"CAST(", column, b" AS BIGINT)")?;
    let cast_back = parted(alloc, b"CAST(", &cast, b" AS TEXT)")?;
    let as_text = parted(alloc, b"CAST(", column, b" AS TEXT)")?;
    parted(alloc, &cast_back, b" <> ", &as_text)
}

// Three texts one after the other.
fn parted(alloc: Global, front: &[u8], middle: &[u8], back: &[u8]) -> Result<Vec<u8>, OutOfMemory>
    ensures text { IfOk result (λ text. text.items ≡ front.now ++ middle.now ++ back.now) }
{
    let mut text = Vec::new(alloc);
    add(&mut text, front)?;
    add(&mut text, middle)?;
    add(&mut text, back)?;
    Ok(text)
}
