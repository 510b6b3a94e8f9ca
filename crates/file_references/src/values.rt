//! Rows at lists of columns, whose values are lent, and sets of what they have.

ghost use Rattle.std.specs.Prelude.{◌≡◌, ◌↔◌, ◌<◌, length, All, Contains, IsTrue, OnOk};
ghost use Rattle.std.specs.List.{list_all};
ghost use Rattle.file_references.specs.Columns.{is_there, values_on};
ghost use Rattle.row_store.specs.Rows.{row_at};
ghost use Rattle.table_join.specs.Lent.{lent_values, tuples_of};

use dep_model::OutOfMemory;
use indexmap::IndexSet;
use row_store::{Hashing, Rows};

// How many rows of a file are looked at first: nearly all columns that do not refer show it there.
pub const MOST_FIRST_ROWS: usize = 100;

// The values of a row at columns.
pub type Values<'a> = Vec<&'a [u8]>;

// The values become those of a row at columns.
pub fn take_on<'a>(
    values: &mut Values<'a>,
    rows: &'a Rows,
    row: usize,
    columns: &[usize],
) -> Result<(), OutOfMemory>
    requires row { row < length rows.now }
    requires columns { All (λ k. k < length (row_at rows.now row)) columns.now }
    ensures values { OnOk result (lent_values values.new.items ≡ values_on columns.now (row_at rows.now row)) }
{
    values.clear();
    for column in columns {
        values.push(rows.value(row, *column))?;
    }
    Ok(())
}

// Whether none of the values is missing.
pub fn are_there(values: &[&[u8]]) -> bool
    ensures there { result ≡ list_all is_there (lent_values values.now) }
{
    for value in values {
        if value.is_empty() {
            return false;
        }
    }
    true
}

// Whether a set has these values.
pub fn has_values(set: &IndexSet<Values, Hashing>, values: &Values) -> bool
    ensures has { IsTrue result ↔ Contains (tuples_of set.now.keys) (lent_values values.now.items) }
{
    match set.get_index_of(values) {
        Some(_) => true,
        None => false,
    }
}

// Whether two rows have the same values.
pub fn are_same(rows: &Rows, one: usize, other: usize) -> bool
    requires one { one < length rows.now }
    requires other { other < length rows.now }
    ensures same { IsTrue result ↔ (row_at rows.now one ≡ row_at rows.now other) }
{
    let width = rows.width(one);
    if rows.width(other) != width {
        return false;
    }
    for position in 0..width {
        if rows.value(one, position) != rows.value(other, position) {
            return false;
        }
    }
    true
}
