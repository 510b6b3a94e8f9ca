//! Whether columns identify the rows of a file, and the values that the rows have there.

ghost use Rattle.std.specs.Prelude.{◌≡◌, ◌+◌, ◌<◌, length, All, IfOk, MatchBool, MatchOption};
ghost use Rattle.file_references.specs.Keys.{HoldsKey, HoldsKeySoFar, IsWholeKey};
ghost use Rattle.row_store.specs.Rows.{row_at};
ghost use Rattle.table_join.specs.Lent.{tuples_of};

use crate::values::{Values, are_same, are_there, take_on};
use dep_model::OutOfMemory;
use indexmap::IndexSet;
use row_store::{Hashing, Rows};
use std::alloc::Global;

// The values of rows at columns, where no row misses one of them and no two different rows have the same.
pub fn key_values<'a>(
    alloc: Global,
    hashing: Hashing,
    rows: &'a Rows,
    columns: &[usize],
) -> Result<Option<IndexSet<Values<'a>, Hashing>>, OutOfMemory>
    requires columns { All (λ t. All (λ k. k < length t) columns.now) rows.now }
    ensures key { IfOk result (λ found. MatchOption found
        (IsWholeKey rows.now columns.now → ⊥)
        (λ values. HoldsKey rows.now columns.now (tuples_of values.keys))) }
{
    let mut values = IndexSet::with_hasher(alloc, hashing);
    let mut firsts = Vec::new(alloc);
    for row in 0..rows.len() {
        if !add_row(alloc, rows, row, columns, &mut values, &mut firsts)? {
            return Ok(None);
        }
    }
    Ok(Some(values))
}

// Adds the values of one row more, which are kept with the first row that has them. It answers whether
// they can still be those of a key: none is missing, and no other row has them.
fn add_row<'a>(
    alloc: Global,
    rows: &'a Rows,
    row: usize,
    columns: &[usize],
    values: &mut IndexSet<Values<'a>, Hashing>,
    firsts: &mut Vec<usize>,
) -> Result<bool, OutOfMemory>
    requires row { row < length rows.now }
    requires columns { All (λ t. All (λ k. k < length t) columns.now) rows.now }
    requires key { HoldsKeySoFar rows.now columns.now row (tuples_of values.old.keys) firsts.old.items }
    ensures key { IfOk result (λ is_key. MatchBool is_key
        (HoldsKeySoFar rows.now columns.now (row + 1) (tuples_of values.new.keys) firsts.new.items)
        (IsWholeKey rows.now columns.now → ⊥)) }
{
    let mut key = Vec::with_capacity(alloc, columns.len())?;
    take_on(&mut key, rows, row, columns)?;
    if !are_there(&key) {
        return Ok(false);
    }
    let (place, _) = values.insert_full(key)?;
    if place == firsts.len() {
        firsts.push(row)?;
        return Ok(true);
    }
    Ok(are_same(rows, firsts[place], row))
}
