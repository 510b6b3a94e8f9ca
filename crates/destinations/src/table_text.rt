//! The text of a table, at the end of the open file of a folder.

ghost use Rattle.std.specs.Prelude.{◌≡◌, ◌<◌, length, map, IsTrue};
ghost use Rattle.std.specs.List.{flat_map};
ghost use Rattle.destinations.specs.Formats.{row_line, table_text};
ghost use Rattle.destinations.specs.Writing.{AddsBytes};
ghost use Rattle.named_tables.specs.Choices.{HasRows, chosen_row};
ghost use Rattle.named_tables.specs.Tables.{chosen_value};

use crate::format::{TableFormat, add_line, front_of, opening_of};
use desk_outside::{Folder, OutsideFault, write_all};
use named_tables::ChosenTable;
use row_store::{FlatValues, Rows, project_row};
use std::alloc::Global;

/// What the lines of rows are made in: memory that is kept from one to the next.
#[derive(Drop)]
pub struct LineMaker {
    pub alloc: Global,
    pub values: FlatValues,
    pub line: Vec<u8>,
}

impl LineMaker {
    /// One that holds no memory yet.
    pub fn new(alloc: Global) -> LineMaker {
        LineMaker {
            alloc,
            values: FlatValues::new(alloc),
            line: Vec::new(alloc),
        }
    }
}

/// The text of a table, in a format.
pub fn write_table<F: Folder>(
    folder: &mut F,
    lines: &mut LineMaker,
    format: TableFormat,
    rows: &Rows,
    table: &ChosenTable,
) -> Result<(), OutsideFault>
    requires is_open { IsTrue (F.state folder.old).is_open }
    requires even { HasRows rows.now table.now }
    ensures adds { AddsBytes (table_text format (chosen_value rows.now table.now))
        (F.state folder.old) (F.state folder.new) result }
{
    let opening = opening_of(lines.alloc, format, &table.columns)?;
    let front = front_of(lines.alloc, format, &table.name, &table.columns)?;
    write_all(folder, &opening)?;
    write_rows(folder, lines, format, &front, rows, table)
}

// The lines of the rows of a table, each after this front.
fn write_rows<F: Folder>(
    folder: &mut F,
    lines: &mut LineMaker,
    format: TableFormat,
    front: &[u8],
    rows: &Rows,
    table: &ChosenTable,
) -> Result<(), OutsideFault>
    requires is_open { IsTrue (F.state folder.old).is_open }
    requires even { HasRows rows.now table.now }
    ensures adds { AddsBytes (flat_map (row_line format front.now table.now.nullable.items)
        (map (chosen_row rows.now table.now) table.now.chosen.items))
        (F.state folder.old) (F.state folder.new) result }
{
    for row in &table.chosen {
        match write_row(folder, lines, format, front, rows, *row as usize, table) {
            Ok(()) => {}
            Err(fault) => return Err(fault),
        }
    }
    Ok(())
}

// The line of a row.
fn write_row<F: Folder>(
    folder: &mut F,
    lines: &mut LineMaker,
    format: TableFormat,
    front: &[u8],
    rows: &Rows,
    row: usize,
    table: &ChosenTable,
) -> Result<(), OutsideFault>
    requires is_open { IsTrue (F.state folder.old).is_open }
    requires row { row < length rows.now }
    ensures adds { AddsBytes (row_line format front.now table.now.nullable.items
        (chosen_row rows.now table.now row))
        (F.state folder.old) (F.state folder.new) result }
{
    project_row(&mut lines.values, table.scheme, rows, row)?;
    lines.line.clear();
    add_line(
        lines.alloc,
        &mut lines.line,
        format,
        front,
        &table.nullable,
        &lines.values,
    )?;
    write_all(folder, &lines.line)
}
