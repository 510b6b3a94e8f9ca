//! What all values of a column are.

ghost use Rattle.std.specs.Prelude.{◌<◌, ◌↔◌, All, length, IsTrue};
ghost use Rattle.column_types.specs.FirstTypes.{AllEmpty, AllHave, HasEmpty};

use column_values::fits_column;
use row_store::Rows;
use schema_model::ColumnType;

// Whether all values of a column are of a type, but for empty ones.
pub fn all_have(rows: &Rows, position: usize, column: &ColumnType) -> bool
    requires position { All (λ row. position < length row) rows.now }
    ensures have { IsTrue result ↔ AllHave rows.now position column.now }
{
    for row in 0..rows.len() {
        if !fits_column(column, true, rows.value(row, position)) {
            return false;
        }
    }
    true
}

// Whether each value of a column is empty.
pub fn all_empty(rows: &Rows, position: usize) -> bool
    requires position { All (λ row. position < length row) rows.now }
    ensures empty { IsTrue result ↔ AllEmpty rows.now position }
{
    for row in 0..rows.len() {
        if !rows.value(row, position).is_empty() {
            return false;
        }
    }
    true
}

// Whether a value of a column is empty.
pub fn has_empty(rows: &Rows, position: usize) -> bool
    requires position { All (λ row. position < length row) rows.now }
    ensures empty { IsTrue result ↔ HasEmpty rows.now position }
{
    for row in 0..rows.len() {
        if rows.value(row, position).is_empty() {
            return true;
        }
    }
    false
}
