ghost use Rattle.std.specs.Prelude.{◌≡◌, ℕ, ◌+◌, ◌<◌, ◌≤◌, ◌^◌, All, length, IfOk, OnOk};
ghost use Rattle.attr_sets.specs.declared.set.TheConstants.{MOST_ATTRIBUTES};
ghost use Rattle.row_groups.specs.Interning.{count_of, width_of_rows};
ghost use Rattle.candidate_search.specs.Pairs.{IsRowPair};

use attr_sets::MOST_ATTRIBUTES;
use dep_model::OutOfMemory;
use fd_discovery::{all_rows, order_by};
use indexmap::IndexSet;
use row_groups::Interned;
use row_store::Hashing;
use std::alloc::Global;

// The most pairs that are kept: in wide rows by chance nearly every pair agrees on other columns.
const MOST_PAIRS: usize = 200_000;

// Rows by their numbers, those of one row side by side.
#[derive(Debug, Drop)]
struct RowTable {
    width: usize,
    numbers: Vec<u32>,
}

impl RowTable {
    // The numbers of all rows.
    fn new(alloc: Global, codes: &Interned, width: u8) -> Result<RowTable, OutOfMemory>
        requires columns { width_of_rows codes.now ≡ width }
    {
        let mut numbers = Vec::new(alloc);
        for row in 0..codes.count() {
            add_row(codes, width, row, &mut numbers)?;
        }
        Ok(RowTable {
            width: width as usize,
            numbers,
        })
    }

    // The numbers of one row.
    fn row(&self, row: u32) -> &[u32] {
        let start = (row as usize).wrapping_mul(self.width);
        match self.numbers.get(start..start.wrapping_add(self.width)) {
            Some(numbers) => numbers,
            None => &[],
        }
    }
}

// Adds the numbers of a row.
fn add_row(
    codes: &Interned,
    width: u8,
    row: usize,
    numbers: &mut Vec<u32>,
) -> Result<(), OutOfMemory>
    requires columns { width_of_rows codes.now ≡ width }
    requires row { row < count_of codes.now }
{
    for attribute in 0..width {
        numbers.push(codes.code(row, attribute))?;
    }
    Ok(())
}

// A number for the columns in which two rows agree. Up to 64 columns it is another for others.
fn agreement_number(one: &[u32], other: &[u32]) -> u64 {
    let mut number: u64 = 0;
    for k in 0..one.len() {
        number = number.rotate_left(1);
        if k < other.len() && one[k] == other[k] {
            number ^= 1;
        }
    }
    number
}

// The pairs of rows that were looked at and first agreed on other columns than those before them.
#[derive(Debug, Drop)]
struct Sample {
    seen: IndexSet<u64, Hashing>,
    pairs: Vec<(u32, u32)>,
}

// Pairs of rows that agree on different columns, as far as neighbours do that have one value in a column. Which
// pairs these are is a matter of speed alone.
pub fn neighbour_pairs(
    alloc: Global,
    codes: &Interned,
    width: u8,
) -> Result<Vec<(u32, u32)>, OutOfMemory>
    requires width { width ≤ MOST_ATTRIBUTES }
    requires columns { width_of_rows codes.now ≡ width }
    requires fits_u32 { count_of codes.now < 2 ^ 32 }
    ensures rows { IfOk result (λ pairs. All (IsRowPair (count_of codes.now)) pairs.items) }
{
    let table = RowTable::new(alloc, codes, width)?;
    let mut sample = Sample {
        seen: IndexSet::with_hasher(alloc, codes.hashing()),
        pairs: Vec::new(alloc),
    };
    look_through(alloc, codes, width, &table, false, &mut sample)?;
    look_through(alloc, codes, width, &table, true, &mut sample)?;
    Ok(sample.pairs)
}

// Looks at neighbours in the orders by each column and then by those after it, or, backwards, by those before it.
// In a first round the rows are only brought into order.
fn look_through(
    alloc: Global,
    codes: &Interned,
    width: u8,
    table: &RowTable,
    backwards: bool,
    sample: &mut Sample,
) -> Result<(), OutOfMemory>
    requires width { width ≤ MOST_ATTRIBUTES }
    requires columns { width_of_rows codes.now ≡ width }
    requires fits_u32 { count_of codes.now < 2 ^ 32 }
    requires pairs { All (IsRowPair (count_of codes.now)) sample.old.pairs.items }
    ensures pairs { OnOk result (All (IsRowPair (count_of codes.now)) sample.new.pairs.items) }
{
    let mut order = all_rows(alloc, codes.count())?;
    for step in 0..2 * width as usize {
        let numbers = codes.column(column_at(step, width, backwards));
        order = order_by(alloc, numbers, &order)?;
        if step >= width as usize {
            look_along(table, numbers, &order, sample)?;
        }
    }
    Ok(())
}

// The column of a step of two rounds: from the last to the first, or backwards from the first to the last.
fn column_at(step: usize, width: u8, backwards: bool) -> u8
    requires step { step < width + width }
    ensures column { result < width }
{
    let place = if step < width as usize {
        step as u8
    } else {
        (step - width as usize) as u8
    };
    if backwards { place } else { width - 1 - place }
}

// Looks at rows of one number that stand side by side, then at those that stand further apart, as long as one in
// twenty tells something new.
fn look_along(
    table: &RowTable,
    numbers: &[u32],
    order: &[u32],
    sample: &mut Sample,
) -> Result<(), OutOfMemory>
    requires order { All (λ row. row < length numbers.now) order.now }
    requires pairs { All (IsRowPair (length numbers.now)) sample.old.pairs.items }
    ensures pairs { OnOk result (All (IsRowPair (length numbers.now)) sample.new.pairs.items) }
{
    for distance in 1..order.len() {
        let before = sample.pairs.len();
        let looked = look_at(table, numbers, order, distance, sample)?;
        if sample.pairs.len().saturating_sub(before) <= looked / 20 {
            return Ok(());
        }
    }
    Ok(())
}

// Looks at rows of one number that stand so far apart. Gives how many pairs these are.
fn look_at(
    table: &RowTable,
    numbers: &[u32],
    order: &[u32],
    distance: usize,
    sample: &mut Sample,
) -> Result<usize, OutOfMemory>
    requires order { All (λ row. row < length numbers.now) order.now }
    requires pairs { All (IsRowPair (length numbers.now)) sample.old.pairs.items }
    ensures pairs { OnOk result (All (IsRowPair (length numbers.now)) sample.new.pairs.items) }
{
    let mut looked: usize = 0;
    for k in distance..order.len() {
        let first = order[k - distance];
        let second = order[k];
        if numbers[first as usize] == numbers[second as usize] {
            looked = looked.wrapping_add(1);
            look(table, first, second, sample)?;
        }
    }
    Ok(looked)
}

// Looks at two rows, and keeps them where they agree on other columns than all before and there is room.
fn look(table: &RowTable, first: u32, second: u32, sample: &mut Sample) -> Result<(), OutOfMemory>
    ensures pairs { (n : ℕ) → first < n → second < n → All (IsRowPair n) sample.old.pairs.items
        → OnOk result (All (IsRowPair n) sample.new.pairs.items) }
{
    let (_, fresh) = sample
        .seen
        .insert_full(agreement_number(table.row(first), table.row(second)))?;
    if fresh {
        sample.pairs.push((first, second))?;
    }
    Ok(())
}
