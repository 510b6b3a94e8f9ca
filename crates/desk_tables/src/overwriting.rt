//! Whether a file that is read would be written over by the tables that it becomes.

ghost use Rattle.std.specs.Prelude.{◌≡◌, ◌≤◌, ◌++◌, false, length, IfOk, IfErr, IsTrue};
ghost use Rattle.schema_model.specs.Names.{same_name};
ghost use Rattle.plans.specs.Plans.{plan_of};
ghost use Rattle.table_names.specs.TableNames.{name_of_table};
ghost use Rattle.desk_responses.specs.ResponseValues.{Says};
ghost use Rattle.desk_responses.specs.Responses.{ExitsAs};
ghost use Rattle.desk_responses.specs.declared.status.Status.TheVariants.{Refused};
ghost use Rattle.desk_tables.specs.Overwriting.{IsTableFile, OverStops, is_file_of, plain_name, written_over_text};

use byte_texts::add;
use dep_model::OutOfMemory;
use desk_responses::{EarlyExit, Status};
use desk_texts::line_of;
use plans::Plan;
use schema_model::Name;
use std::alloc::Global;
use table_names::{MOST_TABLES, name_of_table};

/// Tests whether a file that is read would be written over by the tables of a plan, whose names come in the order of
/// its design.
pub fn test_file(
    alloc: Global,
    plan: &Plan,
    names: &[Option<Name>],
    file: &[u8],
) -> Result<(), EarlyExit>
    ensures ok { IfOk result (λ _. IsTableFile names.now (length (plan_of plan.now)) file.now → ⊥) }
    ensures exit { IfErr result (ExitsAs (OverStops names.now (length (plan_of plan.now)) file.now)) }
{
    test_file_of(alloc, plan.schemes().len(), names, file)
}

// The same of so many tables. No memory holds more tables than have a name.
fn test_file_of(
    alloc: Global,
    tables: usize,
    names: &[Option<Name>],
    file: &[u8],
) -> Result<(), EarlyExit>
    ensures ok { IfOk result (λ _. IsTableFile names.now tables file.now → ⊥) }
    ensures exit { IfErr result (ExitsAs (OverStops names.now tables file.now)) }
{
    if tables > MOST_TABLES as usize {
        return Err(EarlyExit::OutOfMemory);
    }
    if is_table_file(alloc, tables as u32, names, file)? {
        return Err(written_over_exit(alloc, file));
    }
    Ok(())
}

// A file would be written over.
fn written_over_exit(alloc: Global, file: &[u8]) -> EarlyExit
    ensures says { ExitsAs (Says Refused (written_over_text file.now)) result }
{
    EarlyExit::with_text(Status::Refused, written_over_line(alloc, file))
}

fn written_over_line(alloc: Global, file: &[u8]) -> Result<Vec<u8>, OutOfMemory>
    ensures line { IfOk result (λ text. text.items ≡ written_over_text file.now) }
{
    line_of(alloc, b"refused: ", file, b" would be written over")
}

// Whether a name is that of a file of one of so many tables.
fn is_table_file(
    alloc: Global,
    tables: u32,
    names: &[Option<Name>],
    name: &[u8],
) -> Result<bool, OutOfMemory>
    requires named { tables ≤ MOST_TABLES }
    ensures yes { IfOk result (λ is. IsTrue is → IsTableFile names.now tables name.now) }
    ensures no { IfOk result (λ is. is ≡ false → IsTableFile names.now tables name.now → ⊥) }
{
    let plain = without_dot(name);
    for i in 0..tables {
        if is_file_of(alloc, &name_of_table(names, i), plain)? {
            return Ok(true);
        }
    }
    Ok(false)
}

// A name without `./` before it.
fn without_dot(name: &[u8]) -> &[u8]
    ensures plain { result.now ≡ plain_name name.now }
{
    if name.starts_with(b"./") {
        return &name[2..];
    }
    name
}

// Whether a name is that of a file of a table.
fn is_file_of(alloc: Global, table: &Name, name: &[u8]) -> Result<bool, OutOfMemory>
    ensures is { IfOk result (λ is. is ≡ is_file_of table.now name.now) }
{
    let is_csv = is_name_with(alloc, table, b".csv", name)?;
    let is_sql = is_name_with(alloc, table, b".sql", name)?;
    Ok(is_csv || is_sql)
}

// Whether a name is that of a table with this ending.
fn is_name_with(
    alloc: Global,
    table: &Name,
    ending: &[u8],
    name: &[u8],
) -> Result<bool, OutOfMemory>
    ensures is { IfOk result (λ is. is ≡ same_name name.now (table.now ++ ending.now)) }
{
    let mut file = Vec::from_slice(alloc, table.bytes())?;
    add(&mut file, ending)?;
    Ok(name.eq_ignore_ascii_case(&file))
}
