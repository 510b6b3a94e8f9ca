//! Values that can be no text of SQL, and how the script that loads tables begins.

ghost use Rattle.std.specs.Prelude.{◌≡◌, ◌||◌, ◌<◌, length, All, IfOk};
ghost use Rattle.std.specs.List.{list_any};
ghost use Rattle.named_tables.specs.Choices.{HasRows, chosen_row};
ghost use Rattle.named_tables.specs.Tables.{chosen_value, chosen_values};
ghost use Rattle.own_folder.specs.OwnFiles.{has_bytes, is_bytes, load_front};

use dep_model::OutOfMemory;
use destinations::is_sql_text;
use named_tables::ChosenTable;
use row_store::{FlatValues, Rows, project_row};

const SQLITE_FRONT: &[u8] = b"BEGIN;
-- values that are no text: for SQLite alone, another database stops here
SELECT typeof(X'') WHERE 1 = 0;
";

/// How the script that loads tables begins.
#[tactic(auto, unfolding(crate::specs::OwnFiles::load_front))]
pub fn load_front(
    values: &mut FlatValues,
    rows: &Rows,
    tables: &[ChosenTable],
) -> Result<&'static [u8], OutOfMemory>
    requires even { All (HasRows rows.now) tables.now }
    ensures front { IfOk result (λ text. text.now ≡ load_front (chosen_values rows.now tables.now)) }
{
    if any_bytes(values, rows, tables)? {
        Ok(SQLITE_FRONT)
    } else {
        Ok(b"BEGIN;\n")
    }
}

// Whether a table has a value that can be no text of SQL.
fn any_bytes(
    values: &mut FlatValues,
    rows: &Rows,
    tables: &[ChosenTable],
) -> Result<bool, OutOfMemory>
    requires even { All (HasRows rows.now) tables.now }
    ensures any { IfOk result
        (λ any. any ≡ list_any has_bytes (chosen_values rows.now tables.now)) }
{
    let mut any = false;
    for table in tables {
        any = any_with_table(any, values, rows, table)?;
    }
    Ok(any)
}

// Whether one was found before, or a table has one.
fn any_with_table(
    found: bool,
    values: &mut FlatValues,
    rows: &Rows,
    table: &ChosenTable,
) -> Result<bool, OutOfMemory>
    requires even { HasRows rows.now table.now }
    ensures any { IfOk result (λ any. any ≡ (found || has_bytes (chosen_value rows.now table.now))) }
{
    if found {
        return Ok(true);
    }
    has_bytes(values, rows, table)
}

// Whether a table has one.
fn has_bytes(values: &mut FlatValues, rows: &Rows, table: &ChosenTable) -> Result<bool, OutOfMemory>
    requires even { HasRows rows.now table.now }
    ensures any { IfOk result (λ any. any ≡ has_bytes (chosen_value rows.now table.now)) }
{
    let mut any = false;
    for row in &table.chosen {
        any = any_with_row(any, values, rows, table, *row as usize)?;
    }
    Ok(any)
}

// Whether one was found before, or a row has one, as a table has it.
fn any_with_row(
    found: bool,
    values: &mut FlatValues,
    rows: &Rows,
    table: &ChosenTable,
    row: usize,
) -> Result<bool, OutOfMemory>
    requires row { row < length rows.now }
    ensures any { IfOk result
        (λ any. any ≡ (found || list_any is_bytes (chosen_row rows.now table.now row))) }
{
    if found {
        return Ok(true);
    }
    project_row(values, table.scheme, rows, row)?;
    Ok(are_any_bytes(values))
}

// Whether one of these values can be no text of SQL.
fn are_any_bytes(values: &FlatValues) -> bool
    ensures any { result ≡ list_any is_bytes values.now }
{
    let mut any = false;
    for i in 0..values.len() {
        any = any || !is_sql_text(values.value(i));
    }
    any
}
