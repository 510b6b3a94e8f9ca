//! Columns of a file to which columns of the same names in other files may refer, as their first rows show.

ghost use Rattle.std.specs.Prelude.{◌≡◌, ◌↔◌, ◌<◌, ℕ, true, Some, length, map, All, Contains, IfOk, IsTrue};
ghost use Rattle.attr_sets.specs.Attributes.{IsSubset};
ghost use Rattle.attr_sets.specs.Sets.{attributes};
ghost use Rattle.dep_model.specs.Tuples.{IsOver, Tuple, value_at};
ghost use Rattle.file_references.specs.Columns.{file_at, misses_nothing, name_at};
ghost use Rattle.file_references.specs.Finds.{AreAmong, HasColumn, MayRefer};
ghost use Rattle.headed_rows.specs.Headers.{IsColumnHeader};
ghost use Rattle.headed_rows.specs.Headings.{headed_of};
ghost use Rattle.row_store.specs.Rows.{row_at};
ghost use Rattle.schema_model.specs.Schemas.{attribute_named};
ghost use Rattle.table_join.specs.Lent.{lent_values};

use crate::values::MOST_FIRST_ROWS;
use attr_sets::AttrSet;
use dep_model::OutOfMemory;
use headed_rows::Headed;
use indexmap::IndexSet;
use row_store::{Hashing, Rows};
use std::alloc::Global;
use tokens::position_among;

// Fewer columns have so few sets that to look into the columns takes longer than into the sets.
const FEWEST_OPEN: u8 = 4;

// Of the columns of a file whose names another one has too, those to which columns of these names may refer.
// The others are in no key of several columns that is referred to. Columns that are keys alone stay.
pub fn promising_columns(
    alloc: Global,
    hashing: Hashing,
    files: &[Headed],
    target: usize,
    shared: AttrSet,
    keys: &[AttrSet],
) -> Result<AttrSet, OutOfMemory>
    requires target { target < length files.now }
    requires header { All (λ h. IsColumnHeader h.names.items) files.now }
    requires same_width { All (λ h. IsOver (length h.names.items) h.rows) files.now }
    ensures within { IfOk result (λ promising. IsSubset (attributes promising) (attributes shared)) }
    ensures promising { (file k x : ℕ) → file < length files.now → (file ≡ target → ⊥) → attributes shared k ≡ true
        → attribute_named (file_at (map headed_of files.now) file).names
        (name_at (file_at (map headed_of files.now) target).names k) ≡ Some x
        → MayRefer (file_at (map headed_of files.now) file).rows x (file_at (map headed_of files.now) target).rows k
        → IfOk result (λ promising. attributes promising k ≡ true) }
{
    let mut promising = shared;
    let open = without_all(shared, keys);
    if open.len() < FEWEST_OPEN {
        return Ok(promising);
    }
    for column in 0..files[target].names.len() {
        if open.contains(column as u8) {
            if !may_be_referred_to(alloc, hashing, files, target, column)? {
                promising = promising.without(column as u8);
            }
        }
    }
    Ok(promising)
}

// The members of a set that are in none of these.
fn without_all(set: AttrSet, others: &[AttrSet]) -> AttrSet
    ensures within { IsSubset (attributes result) (attributes set) }
{
    let mut left = set;
    for other in others {
        left = left.difference(*other);
    }
    left
}

// Whether a column of this name in another file may refer to this one. Where the answer is no, none does.
fn may_be_referred_to(
    alloc: Global,
    hashing: Hashing,
    files: &[Headed],
    target: usize,
    column: usize,
) -> Result<bool, OutOfMemory>
    requires target { target < length files.now }
    requires column { column < length (file_at (map headed_of files.now) target).names }
    requires same_width { All (λ h. IsOver (length h.names.items) h.rows) files.now }
    ensures may { (file x : ℕ) → file < length files.now → (file ≡ target → ⊥)
        → attribute_named (file_at (map headed_of files.now) file).names
        (name_at (file_at (map headed_of files.now) target).names column) ≡ Some x
        → MayRefer (file_at (map headed_of files.now) file).rows x
        (file_at (map headed_of files.now) target).rows column
        → IfOk result (λ may. may ≡ true) }
{
    let name = files[target].names[column].bytes();
    let values = column_values(alloc, hashing, &files[target].rows, column)?;
    for file in 0..files.len() {
        if file != target && are_named_among(&files[file], name, &values) {
            return Ok(true);
        }
    }
    Ok(false)
}

// The different values of a column.
fn column_values<'a>(
    alloc: Global,
    hashing: Hashing,
    rows: &'a Rows,
    column: usize,
) -> Result<IndexSet<&'a [u8], Hashing>, OutOfMemory>
    requires column { All (λ t. column < length t) rows.now }
    ensures values { IfOk result (λ values. HasColumn rows.now column (lent_values values.keys)) }
{
    let mut values = IndexSet::with_hasher(alloc, hashing);
    for row in 0..rows.len() {
        values.insert(rows.value(row, column))?;
    }
    Ok(values)
}

// Whether the first rows of a file have their values in the column of a name among these.
fn are_named_among(file: &Headed, name: &[u8], values: &IndexSet<&[u8], Hashing>) -> bool
    requires same_width { IsOver (length file.now.names.items) file.now.rows }
    ensures among { (x : ℕ) → attribute_named file.now.names.items name.now ≡ Some x
        → AreAmong file.now.rows x (lent_values values.now.keys) → result ≡ true }
{
    match position_among(&file.names, name) {
        None => false,
        Some(column) => are_first_among(&file.rows, column, values),
    }
}

// Whether the first rows that miss nothing have their values at a column among these.
fn are_first_among(rows: &Rows, column: usize, values: &IndexSet<&[u8], Hashing>) -> bool
    requires column { All (λ t. column < length t) rows.now }
    ensures among { AreAmong rows.now column (lent_values values.now.keys) → result ≡ true }
{
    for row in 0..rows.len() {
        if row == MOST_FIRST_ROWS {
            return true;
        }
        if misses_nothing(rows, row) && !has_value(values, rows.value(row, column)) {
            return false;
        }
    }
    true
}

// Whether a row misses no value.
fn misses_nothing(rows: &Rows, row: usize) -> bool
    requires row { row < length rows.now }
    ensures misses { result ≡ misses_nothing (row_at rows.now row) }
{
    for position in 0..rows.width(row) {
        if rows.value(row, position).is_empty() {
            return false;
        }
    }
    true
}

// Whether a set has this value.
fn has_value(set: &IndexSet<&[u8], Hashing>, value: &[u8]) -> bool
    ensures has { IsTrue result ↔ Contains (lent_values set.now.keys) value.now }
{
    match set.get_index_of(&value) {
        Some(_) => true,
        None => false,
    }
}
