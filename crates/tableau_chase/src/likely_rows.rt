//! Rows that are likely to agree on the left side of a dependency, found by sums. This decides speed alone and
//! not truth, so no clause rests on it: what is found here is tried before anything is done.

ghost use Rattle.std.specs.Prelude.{◌≤◌, ◌<◌, length, All};
ghost use Rattle.attr_sets.specs.declared.set.TheConstants.{MOST_ATTRIBUTES};

use crate::row_groups::members;
use crate::symbol_row::{SymbolRow, spread};
use attr_sets::{AttrSet, MOST_ATTRIBUTES};
use dep_model::{Dep, OutOfMemory};
use std::alloc::Global;
use std::mem;

// The places in which sums are looked for, and how many are tried for one.
const PLACES: u64 = 2048;

const MOST_TRIES: u64 = 8;

/// The sums of rows, for each dependency.
#[derive(Drop)]
pub struct LikelyRows {
    sums: Vec<SideSums>,
    renamed: Vec<usize>,
}

impl LikelyRows {
    /// Of no dependency.
    pub fn none(alloc: Global) -> LikelyRows {
        LikelyRows {
            sums: Vec::new(alloc),
            renamed: Vec::new(alloc),
        }
    }

    /// Of each dependency of a list. All rows are taken to have changed.
    pub fn of(
        alloc: Global,
        rows: &[SymbolRow],
        deps: &[Dep],
        width: u8,
    ) -> Result<LikelyRows, OutOfMemory>
        requires width { width ≤ MOST_ATTRIBUTES }
    {
        let mut likely = LikelyRows::none(alloc);
        for dep in deps {
            likely.sums.push(sums_by(alloc, rows, *dep, width)?)?;
        }
        Ok(likely)
    }

    /// Notes that a symbol becomes another throughout an attribute.
    pub fn rename(&mut self, rows: &[SymbolRow], a: u8, former: u32, later: u32)
        requires within { All (λ row. a < length row) rows.now }
    {
        if self.sums.is_empty() {
            return;
        }
        self.renamed.clear();
        for i in 0..rows.len() {
            if rows[i].symbol(a as usize) == former {
                // where there is no memory, the row is passed over here
                let _ = self.renamed.push(i);
            }
        }
        let difference = spread(a, later).wrapping_sub(spread(a, former));
        change_all(&mut self.sums, &self.renamed, a, difference);
    }

    /// Whether a row changed on the left side of dependency `k` since this was asked last.
    pub fn take_changed(&mut self, k: usize) -> bool {
        match self.sums.get_mut(k) {
            Some(sums) => mem::replace(&mut sums.changed, false),
            None => false,
        }
    }

    /// For each row the first that is likely to agree with it on the left side of dependency `k`.
    pub fn firsts(&self, alloc: Global, k: usize) -> Result<Vec<usize>, OutOfMemory> {
        match self.sums.get(k) {
            Some(sums) => first_rows(alloc, &sums.of_rows),
            None => Ok(Vec::new(alloc)),
        }
    }
}

// For each row the sum of the numbers of its symbols on a set: equal where rows agree there, and seldom elsewhere.
#[derive(Drop)]
struct SideSums {
    on: AttrSet,
    of_rows: Vec<u64>,
    changed: bool,
}

// The sums on the left side of a functional dependency; a multivalued one has none.
fn sums_by(alloc: Global, rows: &[SymbolRow], dep: Dep, width: u8) -> Result<SideSums, OutOfMemory>
    requires width { width ≤ MOST_ATTRIBUTES }
{
    match dep {
        Dep::Fd { lhs, rhs: _ } => sums_on(alloc, rows, lhs, width),
        Dep::Mvd { lhs: _, rhs: _ } => Ok(SideSums {
            on: AttrSet::empty(),
            of_rows: Vec::new(alloc),
            changed: false,
        }),
    }
}

fn sums_on(
    alloc: Global,
    rows: &[SymbolRow],
    on: AttrSet,
    width: u8,
) -> Result<SideSums, OutOfMemory>
    requires width { width ≤ MOST_ATTRIBUTES }
{
    let listed = members(alloc, on, width)?;
    let mut of_rows = Vec::with_capacity(alloc, rows.len())?;
    for i in 0..rows.len() {
        of_rows.push(rows[i].sum_at(&listed))?;
    }
    Ok(SideSums {
        on,
        of_rows,
        changed: true,
    })
}

// Changes the sums of some rows by one difference, on each left side that has an attribute.
fn change_all(sums: &mut [SideSums], renamed: &[usize], a: u8, difference: u64) {
    for k in 0..sums.len() {
        if a < MOST_ATTRIBUTES && sums[k].on.contains(a) {
            sums[k].changed = true;
            change_some(&mut sums[k].of_rows, renamed, difference);
        }
    }
}

fn change_some(of_rows: &mut [u64], renamed: &[usize], difference: u64) {
    for i in renamed {
        if let Some(sum) = of_rows.get_mut(*i) {
            *sum = sum.wrapping_add(difference);
        }
    }
}

// For each row the first with its sum.
fn first_rows(alloc: Global, sums: &[u64]) -> Result<Vec<usize>, OutOfMemory> {
    let mut places = vec![in alloc; 0; PLACES as usize]?;
    let mut firsts = Vec::with_capacity(alloc, sums.len())?;
    for i in 0..sums.len() {
        firsts.push(first_row(&mut places, sums, i))?;
    }
    Ok(firsts)
}

// The first row with the sum of a row: in a place that the sum names, or in one of the next, one more than its
// number stands, or 0 where none does.
fn first_row(places: &mut [usize], sums: &[u64], i: usize) -> usize
    requires row { i < length sums.now }
{
    let sum = sums[i];
    for t in 0..MOST_TRIES {
        let Some(place) = places.get_mut((sum.wrapping_add(t) % PLACES) as usize) else {
            return i;
        };
        if *place == 0 {
            *place = i + 1;
            return i;
        }
        if sums.get(*place - 1) == Some(&sum) {
            return *place - 1;
        }
    }
    i
}
