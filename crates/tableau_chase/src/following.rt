//! Steps to which earlier steps lead, as far as sums of symbols tell.

ghost use Rattle.std.specs.Prelude.{◌≡◌, ◌<◌, ◌≤◌, ◌^◌, length, OnOk};
ghost use Rattle.attr_sets.specs.Sets.{attributes};
ghost use Rattle.attr_sets.specs.declared.set.TheConstants.{MOST_ATTRIBUTES};
ghost use Rattle.dep_model.specs.Dependencies.{fd};
ghost use Rattle.dep_model.specs.Deps.{dependency_of, dependencies_of};
ghost use Rattle.dep_model.specs.Projections.{members_below};
ghost use Rattle.chase_laws.specs.Tableaux.{IsTableauOver};
ghost use Rattle.tableau_chase.specs.Equating.{Follows, FollowsBy};

use crate::equating::equate;
use crate::likely_rows::LikelyRows;
use crate::row_groups::members;
use crate::symbol_row::SymbolRow;
use attr_sets::AttrSet;
use dep_model::{Dep, OutOfMemory};
use std::alloc::Global;

// So many times the dependencies have their turns. It decides speed alone: there may be more steps.
const MOST_ROUNDS: u32 = 4096;

/// Takes the steps to which changes lead, again and again, as far as sums tell. That there are no more is not known of
/// the tableau that is left.
pub fn follow_steps(
    alloc: Global,
    rows: &mut [SymbolRow],
    deps: &[Dep],
    width: u8,
) -> Result<(), OutOfMemory>
    requires width { width ≤ MOST_ATTRIBUTES }
    requires over { IsTableauOver width rows.old }
    ensures follows { OnOk result (Follows (dependencies_of deps.now) rows.old rows.new) }
{
    let mut likely = LikelyRows::of(alloc, rows, deps, width)?;
    for _ in 0..MOST_ROUNDS {
        let changed = take_led_steps(alloc, rows, deps, width, &mut likely)?;
        if !changed {
            return Ok(());
        }
    }
    Ok(())
}

// Takes the steps of each functional dependency in turn on whose left side a row changed since its last turn. Says
// whether there were some.
fn take_led_steps(
    alloc: Global,
    rows: &mut [SymbolRow],
    deps: &[Dep],
    width: u8,
    likely: &mut LikelyRows,
) -> Result<bool, OutOfMemory>
    requires width { width ≤ MOST_ATTRIBUTES }
    requires over { IsTableauOver width rows.old }
    ensures follows { OnOk result (Follows (dependencies_of deps.now) rows.old rows.new) }
{
    let mut some = false;
    for k in 0..deps.len() {
        if !likely.take_changed(k) {
            continue;
        }
        let changed = take_likely_steps(alloc, rows, deps[k], k, width, likely)?;
        some = some || changed;
    }
    Ok(some)
}

// Takes the steps of functional dependency `k` on rows that are likely to agree on its left side; a multivalued one has
// none.
fn take_likely_steps(
    alloc: Global,
    rows: &mut [SymbolRow],
    dep: Dep,
    k: usize,
    width: u8,
    likely: &mut LikelyRows,
) -> Result<bool, OutOfMemory>
    requires width { width ≤ MOST_ATTRIBUTES }
    requires over { IsTableauOver width rows.old }
    ensures follows { OnOk result (FollowsBy (dependency_of dep) rows.old rows.new) }
{
    match dep {
        Dep::Fd { lhs, rhs } => equate_likely(alloc, rows, lhs, rhs, k, width, likely),
        Dep::Mvd { lhs: _, rhs: _ } => Ok(false),
    }
}

// Makes rows agree on the right side that are likely to agree on the left one, and do.
fn equate_likely(
    alloc: Global,
    rows: &mut [SymbolRow],
    lhs: AttrSet,
    rhs: AttrSet,
    k: usize,
    width: u8,
    likely: &mut LikelyRows,
) -> Result<bool, OutOfMemory>
    requires width { width ≤ MOST_ATTRIBUTES }
    requires over { IsTableauOver width rows.old }
    ensures follows { OnOk result (FollowsBy (fd (attributes lhs) (attributes rhs)) rows.old rows.new) }
{
    let left = members(alloc, lhs, width)?;
    let right = members(alloc, rhs, width)?;
    let firsts = likely.firsts(alloc, k)?;
    let mut changed = false;
    for i in 0..rows.len() {
        let first = first_at(&firsts, i);
        if equate_agreeing(rows, first, i, lhs, rhs, &left, &right, width, likely) {
            changed = true;
        }
    }
    Ok(changed)
}

// The first row that is named for row `i`, or this row.
fn first_at(firsts: &[usize], i: usize) -> usize
    ensures within { result ≤ i }
{
    match firsts.get(i) {
        Some(first) => (*first).min(i),
        None => i,
    }
}

// Makes two rows agree on the right side, where they agree on the left one.
fn equate_agreeing(
    rows: &mut [SymbolRow],
    first: usize,
    second: usize,
    lhs: AttrSet,
    rhs: AttrSet,
    left: &[u8],
    right: &[u8],
    width: u8,
    likely: &mut LikelyRows,
) -> bool
    requires over { IsTableauOver width rows.old }
    requires first { first < length rows.old }
    requires second { second < length rows.old }
    requires left { left.now ≡ members_below width (attributes lhs) }
    requires right { right.now ≡ members_below width (attributes rhs) }
    ensures follows { FollowsBy (fd (attributes lhs) (attributes rhs)) rows.old rows.new }
{
    if first == second || rows[first].agrees(&rows[second], right) {
        return false;
    }
    let agree = rows[first].agrees(&rows[second], left);
    if !agree {
        return false;
    }
    equate(rows, first, second, rhs, right, width, likely)
}
