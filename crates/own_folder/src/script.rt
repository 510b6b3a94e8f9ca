//! The script that loads all tables of a migration.

ghost use Rattle.std.specs.Prelude.{◌≡◌, [], ◌∷◌, ◌++◌, All, IfOk, IsTrue, codes};
ghost use Rattle.std.specs.List.{flat_map};
ghost use Rattle.destinations.specs.Formats.{table_text};
ghost use Rattle.destinations.specs.Writing.{AddsBytes, WritesFile};
ghost use Rattle.destinations.specs.declared.format.TableFormat.TheVariants.{Sql};
ghost use Rattle.named_tables.specs.Choices.{HasRows};
ghost use Rattle.named_tables.specs.Tables.{chosen_values};
ghost use Rattle.own_folder.specs.OwnFiles.{load_file};

use crate::bytes::load_front;
use byte_texts::add;
use dep_model::OutOfMemory;
use desk_outside::{Folder, OutsideFault, write_all};
use destinations::{LineMaker, TableFormat, write_table};
use named_tables::ChosenTable;
use row_store::Rows;
use std::alloc::Global;

/// Writes the script that loads tables, in the folder of this path.
pub fn write_load_file<F: Folder>(
    folder: &mut F,
    lines: &mut LineMaker,
    path: &[u8],
    script: &[u8],
    rows: &Rows,
    tables: &[ChosenTable],
) -> Result<(), OutsideFault>
    requires even { All (HasRows rows.now) tables.now }
    ensures writes { WritesFile (load_file path.now script.now (chosen_values rows.now tables.now))
        (F.state folder.old) (F.state folder.new) result }
{
    let name = match load_name(lines.alloc, path) {
        Ok(name) => name,
        Err(_) => return Err(OutsideFault::OutOfMemory),
    };
    let front = match load_front(&mut lines.values, rows, tables) {
        Ok(front) => front,
        Err(_) => return Err(OutsideFault::OutOfMemory),
    };
    match folder.begin(&name) {
        Ok(()) => {}
        Err(fault) => return Err(fault),
    }
    match write_script(folder, lines, front, script, rows, tables) {
        Ok(()) => folder.end(),
        Err(fault) => {
            folder.give_up();
            Err(fault)
        }
    }
}

// The name of the script in the folder of this path.
fn load_name(alloc: Global, path: &[u8]) -> Result<Vec<u8>, OutOfMemory>
    ensures name { IfOk result (λ name. name.items ≡ path.now ++ codes "load.sql") }
{
    let mut name = Vec::from_slice(alloc, path)?;
    add(&mut name, b"load.sql")?;
    Ok(name)
}

// The text of the script, which begins with this front.
fn write_script<F: Folder>(
    folder: &mut F,
    lines: &mut LineMaker,
    front: &[u8],
    script: &[u8],
    rows: &Rows,
    tables: &[ChosenTable],
) -> Result<(), OutsideFault>
    requires is_open { IsTrue (F.state folder.old).is_open }
    requires even { All (HasRows rows.now) tables.now }
    ensures adds { AddsBytes (front.now ++ script.now ++ flat_map (table_text Sql) (chosen_values rows.now tables.now)
        ++ (codes "COMMIT;" ++ 10 ∷ [])) (F.state folder.old) (F.state folder.new) result }
{
    match write_all(folder, front) {
        Ok(()) => {}
        Err(fault) => return Err(fault),
    }
    match write_all(folder, script) {
        Ok(()) => {}
        Err(fault) => return Err(fault),
    }
    match write_insert_lines(folder, lines, rows, tables) {
        Ok(()) => {}
        Err(fault) => return Err(fault),
    }
    write_all(folder, b"COMMIT;\n")
}

// The INSERT lines of tables.
fn write_insert_lines<F: Folder>(
    folder: &mut F,
    lines: &mut LineMaker,
    rows: &Rows,
    tables: &[ChosenTable],
) -> Result<(), OutsideFault>
    requires is_open { IsTrue (F.state folder.old).is_open }
    requires even { All (HasRows rows.now) tables.now }
    ensures adds { AddsBytes (flat_map (table_text Sql) (chosen_values rows.now tables.now))
        (F.state folder.old) (F.state folder.new) result }
{
    for table in tables {
        match write_table(folder, lines, TableFormat::Sql, rows, table) {
            Ok(()) => {}
            Err(fault) => return Err(fault),
        }
    }
    Ok(())
}
