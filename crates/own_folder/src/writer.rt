//! The writing of a folder of its own.

ghost use Rattle.std.specs.Prelude.{◌≡◌, ◌⊎◌, IfOk, OnErr};
ghost use Rattle.desk_outside.specs.Folders.{folder_path};
ghost use Rattle.named_tables.specs.Tables.{table_values};
ghost use Rattle.own_folder.specs.OwnWriting.{FilesOfOwn, NotMade, WrittenInOwn, WrittenToFolder};

use crate::script::write_load_file;
use dep_model::OutOfMemory;
use desk_outside::{Folder, OutsideFault, folder_path};
use destinations::{LineMaker, TableFormat};
use named_tables::ChosenTables;
use std::alloc::Global;
use table_writing::write_table_files;

/// Makes a folder of this name, and writes tables to it: a CSV file for each, and a script of these
/// statements and the rows. Where the folder cannot be made, both end with that error.
///
/// The memory for the two ends is taken before the folder is made.
pub fn write_own_folder<F: Folder>(
    alloc: Global,
    folder: &mut F,
    name: &[u8],
    script: &[u8],
    tables: &ChosenTables,
) -> Result<Vec<Result<(), OutsideFault>>, OutOfMemory>
    ensures written { IfOk result
        (λ ends. WrittenToFolder name.now script.now (table_values tables.now)
        (F.state folder.old) (F.state folder.new) ends.items) }
    ensures err { OnErr result (folder.new ≡ folder.old) }
{
    let mut ends = Vec::with_capacity(alloc, 2)?;
    let path = folder_path(alloc, name)?;
    let (csv, load) = make_and_write(alloc, folder, name, &path, script, tables);
    ends.push_reserved(csv);
    ends.push_reserved(load);
    Ok(ends)
}

// Makes a folder of this name and path, and writes the files of tables to it: how the CSV files and the script ended.
fn make_and_write<F: Folder>(
    alloc: Global,
    folder: &mut F,
    name: &[u8],
    path: &[u8],
    script: &[u8],
    tables: &ChosenTables,
) -> (Result<(), OutsideFault>, Result<(), OutsideFault>)
    requires path { path.now ≡ folder_path name.now }
    ensures written { NotMade name.now (F.state folder.old) (F.state folder.new) result.0 result.1
        ⊎ WrittenInOwn name.now script.now (table_values tables.now)
        (F.state folder.old) (F.state folder.new) result.0 result.1 }
{
    match folder.make_folder(name) {
        Ok(()) => write_files(alloc, folder, path, script, tables),
        Err(fault) => (Err(fault), Err(fault)),
    }
}

// Writes the files of tables to a folder of this path.
fn write_files<F: Folder>(
    alloc: Global,
    folder: &mut F,
    path: &[u8],
    script: &[u8],
    tables: &ChosenTables,
) -> (Result<(), OutsideFault>, Result<(), OutsideFault>)
    ensures written { FilesOfOwn path.now script.now (table_values tables.now)
        (F.state folder.old) (F.state folder.new) result.0 result.1 }
{
    let mut lines = LineMaker::new(alloc);
    let rows = &tables.rows;
    let csv = write_table_files(
        folder,
        &mut lines,
        path,
        TableFormat::Csv,
        rows,
        &tables.tables,
    );
    let load = write_load_file(folder, &mut lines, path, script, rows, &tables.tables);
    (csv, load)
}
