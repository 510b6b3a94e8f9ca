//! The rows that miss no value of a key.

ghost use Rattle.std.specs.Prelude.{◌≡◌, ◌<◌, ◌≤◌, length, filter, All, IfOk};
ghost use Rattle.attr_sets.specs.Sets.{attributes};
ghost use Rattle.dep_model.specs.Tuples.{IsOver, value_at};
ghost use Rattle.optional_tables.specs.LookUps.{empty_values, misses_none};
ghost use Rattle.row_store.specs.Rows.{row_at};

use attr_sets::{AttrSet, MOST_ATTRIBUTES};
use dep_model::OutOfMemory;
use row_store::Rows;
use std::alloc::Global;

/// Of rows by their numbers those that miss no value of a key.
pub fn complete_rows(
    alloc: Global,
    rows: &Rows,
    width: u8,
    nullable: AttrSet,
    key: AttrSet,
    numbers: Vec<u32>,
) -> Result<Vec<u32>, OutOfMemory>
    requires within_limit { width ≤ MOST_ATTRIBUTES }
    requires over { IsOver width rows.now }
    requires there { All (λ i. i < length rows.now) numbers.items }
    ensures complete { IfOk result (λ v. v.items ≡ filter
        (λ i. misses_none (empty_values (attributes nullable)) (attributes key) (row_at rows.now i))
        numbers.items) }
{
    if !key.intersects(nullable) {
        return Ok(numbers);
    }
    let mut complete = Vec::with_capacity(alloc, numbers.len())?;
    for k in 0..numbers.len() {
        let row = numbers[k];
        if is_complete(rows, width, nullable, key, row as usize) {
            complete.push(row)?;
        }
    }
    Ok(complete)
}

// Whether a row misses no value of a key.
fn is_complete(rows: &Rows, width: u8, nullable: AttrSet, key: AttrSet, row: usize) -> bool
    requires within_limit { width ≤ MOST_ATTRIBUTES }
    requires over { IsOver width rows.now }
    requires row { row < length rows.now }
    ensures complete { result
        ≡ misses_none (empty_values (attributes nullable)) (attributes key) (row_at rows.now row) }
{
    for attribute in 0..width {
        if !key.contains(attribute) {
            continue;
        }
        if is_missing(rows, width, nullable, row, attribute) {
            return false;
        }
    }
    true
}

// Whether the value of a row at an attribute is missing.
fn is_missing(rows: &Rows, width: u8, nullable: AttrSet, row: usize, attribute: u8) -> bool
    requires within_limit { width ≤ MOST_ATTRIBUTES }
    requires over { IsOver width rows.now }
    requires row { row < length rows.now }
    requires attribute { attribute < width }
    ensures missing { result
        ≡ empty_values (attributes nullable) attribute (value_at (row_at rows.now row) attribute) }
{
    nullable.contains(attribute) && rows.value(row, attribute as usize).is_empty()
}
