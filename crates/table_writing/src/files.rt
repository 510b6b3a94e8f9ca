//! Tables as the files of one folder.

ghost use Rattle.std.specs.Prelude.{All};
ghost use Rattle.destinations.specs.Formats.{table_file, table_files};
ghost use Rattle.destinations.specs.Writing.{FilesWritten, WritesFile};
ghost use Rattle.named_tables.specs.Choices.{HasRows};
ghost use Rattle.named_tables.specs.Tables.{chosen_value, chosen_values};

use desk_outside::{Folder, OutsideFault};
use destinations::{LineMaker, TableFormat, file_name, write_table};
use named_tables::ChosenTable;
use row_store::Rows;

/// Writes each table in order to a file, whose path begins with `front`, up to the first error.
pub fn write_table_files<F: Folder>(
    folder: &mut F,
    lines: &mut LineMaker,
    front: &[u8],
    format: TableFormat,
    rows: &Rows,
    tables: &[ChosenTable],
) -> Result<(), OutsideFault>
    requires even { All (HasRows rows.now) tables.now }
    ensures written { FilesWritten (table_files front.now format (chosen_values rows.now tables.now))
        (F.state folder.old) (F.state folder.new) result }
{
    for table in tables {
        match write_table_file(folder, lines, front, format, rows, table) {
            Ok(()) => {}
            Err(fault) => return Err(fault),
        }
    }
    Ok(())
}

// Writes the file of a table.
fn write_table_file<F: Folder>(
    folder: &mut F,
    lines: &mut LineMaker,
    front: &[u8],
    format: TableFormat,
    rows: &Rows,
    table: &ChosenTable,
) -> Result<(), OutsideFault>
    requires even { HasRows rows.now table.now }
    ensures writes { WritesFile (table_file front.now format (chosen_value rows.now table.now))
        (F.state folder.old) (F.state folder.new) result }
{
    let name = match file_name(lines.alloc, front, format, &table.name) {
        Ok(name) => name,
        Err(_) => return Err(OutsideFault::OutOfMemory),
    };
    match folder.begin(&name) {
        Ok(()) => {}
        Err(fault) => return Err(fault),
    }
    match write_table(folder, lines, format, rows, table) {
        Ok(()) => folder.end(),
        Err(fault) => {
            folder.give_up();
            Err(fault)
        }
    }
}
