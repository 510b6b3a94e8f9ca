ghost use Rattle.std.specs.Prelude.{◌≡◌, ◌++◌, IfOk, OnOk};
ghost use Rattle.destinations.specs.Formats.{ending, opening, line_front, row_line};

use crate::sql_line;
use byte_texts::add;
use dep_model::OutOfMemory;
use row_store::FlatValues;
use schema_model::Name;
use std::alloc::Global;

/// How a table is written to a file of its own.
#[derive(Clone, Copy, Debug, PartialEq, Eq)]
pub enum TableFormat {
    /// A header of the names of the columns and then the rows, as `csv` writes them, in `t1.csv`.
    Csv,
    /// An INSERT line for each row, in `t1.sql`.
    Sql,
}

/// The name of a table's file, after the path of its folder.
pub fn file_name(
    alloc: Global,
    front: &[u8],
    format: TableFormat,
    table: &Name,
) -> Result<Vec<u8>, OutOfMemory>
    ensures name { IfOk result (λ name. name.items ≡ front.now ++ table.now ++ ending format) }
{
    let mut name = Vec::from_slice(alloc, front)?;
    add(&mut name, table.bytes())?;
    match format {
        TableFormat::Csv => add(&mut name, b".csv")?,
        TableFormat::Sql => add(&mut name, b".sql")?,
    }
    Ok(name)
}

/// What stands before the rows.
pub fn opening_of(
    alloc: Global,
    format: TableFormat,
    columns: &[Name],
) -> Result<Vec<u8>, OutOfMemory>
    ensures text { IfOk result (λ text. text.items ≡ opening format columns.now) }
{
    match format {
        TableFormat::Csv => csv_text::header_line(alloc, columns),
        TableFormat::Sql => Ok(Vec::new(alloc)),
    }
}

/// What the line of each row begins with.
pub fn front_of(
    alloc: Global,
    format: TableFormat,
    table: &Name,
    columns: &[Name],
) -> Result<Vec<u8>, OutOfMemory>
    ensures text { IfOk result (λ text. text.items ≡ line_front format table.now columns.now) }
{
    match format {
        TableFormat::Csv => Ok(Vec::new(alloc)),
        TableFormat::Sql => sql_line::head_of(alloc, table, columns),
    }
}

/// Adds the line of one row to a text. It begins with `front`, which `front_of` gives, where the format has
/// one. `nullable` says of which columns a value may be missing.
pub fn add_line(
    alloc: Global,
    text: &mut Vec<u8>,
    format: TableFormat,
    front: &[u8],
    nullable: &[bool],
    row: &FlatValues,
) -> Result<(), OutOfMemory>
    ensures line { OnOk result (text.new.items ≡ text.old.items ++ row_line format front.now nullable.now row.now) }
{
    match format {
        TableFormat::Csv => csv_text::add_row(text, row),
        TableFormat::Sql => sql_line::add_line(alloc, text, front, nullable, row),
    }
}
