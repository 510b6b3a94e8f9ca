//! Rows with one value more, by which different rows differ.

ghost use Rattle.std.specs.Prelude.{◌≡◌, ◌<◌, ◌≤◌, ◌^◌, length, IfOk, OnOk};
ghost use Rattle.attr_sets.specs.Attributes.{below};
ghost use Rattle.attr_sets.specs.declared.set.TheConstants.{MOST_ATTRIBUTES};
ghost use Rattle.row_groups.specs.Interning.{groups_of};
ghost use Rattle.row_groups.specs.Numberings.{AreGroups};
ghost use Rattle.dep_model.specs.Tuples.{IsOver};
ghost use Rattle.fd_search.specs.Numbered.{AreNumbered, AreNumberedBy, with_number};
ghost use Rattle.row_store.specs.Rows.{row_at};

use attr_sets::AttrSet;
use dep_model::OutOfMemory;
use row_groups::{Groups, Interned};
use row_store::{FlatValues, Hashing, Rows, take_row};
use std::alloc::Global;

// Rows with the number of their group as one value more, where equal rows are a group. The rows themselves are let go.
pub fn numbered(alloc: Global, hashing: Hashing, width: u8, rows: Rows) -> Result<Rows, OutOfMemory>
    requires width { width ≤ MOST_ATTRIBUTES }
    requires over { IsOver width rows }
    requires fits_u32 { length rows < 2 ^ 32 }
    ensures numbered { IfOk result (AreNumbered width rows) }
{
    let equal = equal_rows(alloc, hashing, width, &rows)?;
    with_numbers(alloc, &rows, equal.numbers())
}

// The groups of equal rows.
fn equal_rows(
    alloc: Global,
    hashing: Hashing,
    width: u8,
    rows: &Rows,
) -> Result<Groups, OutOfMemory>
    requires width { width ≤ MOST_ATTRIBUTES }
    requires over { IsOver width rows.now }
    requires fits_u32 { length rows.now < 2 ^ 32 }
    ensures groups { IfOk result (λ g. AreGroups rows.now (below width) (groups_of g)) }
{
    let codes = Interned::intern(alloc, hashing, width, rows)?;
    Groups::by_agreement(alloc, &codes, AttrSet::full(width))
}

// Each of the rows with its number as one value more.
fn with_numbers(alloc: Global, rows: &Rows, numbers: &[u32]) -> Result<Rows, OutOfMemory>
    requires one_each { length numbers.now ≡ length rows.now }
    ensures rows { IfOk result (AreNumberedBy rows.now numbers.now) }
{
    let mut made = Rows::new(alloc);
    let mut row = FlatValues::new(alloc);
    for i in 0..rows.len() {
        take_numbered(rows, i, numbers[i], &mut row)?;
        made.push(&row)?;
    }
    Ok(made)
}

// The values become those of a row and its number.
fn take_numbered(
    rows: &Rows,
    position: usize,
    number: u32,
    row: &mut FlatValues,
) -> Result<(), OutOfMemory>
    requires position { position < length rows.now }
    ensures row { OnOk result (row.new ≡ with_number number (row_at rows.now position)) }
{
    take_row(row, rows, position)?;
    let bytes = number.to_le_bytes();
    row.push(&bytes)
}
