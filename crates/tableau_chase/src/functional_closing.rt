//! Steps by functional dependencies, until none changes the tableau.

ghost use Rattle.std.specs.Prelude.{◌≡◌, ◌<◌, ◌≤◌, ◌^◌, ℕ, false, length, slice_index, Contains};
ghost use Rattle.std.specs.Prelude.{IsTrue, IfOk, OnOk};
ghost use Rattle.attr_sets.specs.Attributes.{Attributes};
ghost use Rattle.attr_sets.specs.Sets.{attributes};
ghost use Rattle.attr_sets.specs.declared.set.TheConstants.{MOST_ATTRIBUTES};
ghost use Rattle.dep_model.specs.Dependencies.{fd};
ghost use Rattle.dep_model.specs.Deps.{dependency_of, dependencies_of};
ghost use Rattle.chase_laws.specs.Tableaux.{IsTableauOver, Tableau};
ghost use Rattle.chase_laws.specs.Rounds.{ClosesFunctionallyTo};
ghost use Rattle.tableau_chase.specs.Equating.{Changes, KeepsRows, AgreesBy};
ghost use Rattle.tableau_chase.specs.Equating.{AreGroupedBy, AreGrouped, AreApart, IsKeptApart};

use crate::equating::equate;
use crate::following::follow_steps;
use crate::likely_rows::LikelyRows;
use crate::row_groups::{leaders, members};
use crate::symbol_row::SymbolRow;
use attr_sets::AttrSet;
use dep_model::{Dep, OutOfMemory};
use std::alloc::Global;

/// Takes steps by functional dependencies until none changes the tableau.
pub fn close_functionally(
    alloc: Global,
    rows: &mut [SymbolRow],
    deps: &[Dep],
    width: u8,
) -> Result<(), OutOfMemory>
    requires width { width ≤ MOST_ATTRIBUTES }
    requires over { IsTableauOver width rows.old }
    requires fits_u32 { length rows.old < 2 ^ 32 }
    ensures closes { OnOk result (ClosesFunctionallyTo (dependencies_of deps.now) rows.old rows.new) }
    ensures count { OnOk result (length rows.new ≡ length rows.old) }
{
    let mut changed = true;
    while changed {
        changed = take_all_steps(alloc, rows, deps, width)?;
    }
    Ok(())
}

// Takes the steps of each functional dependency in turn, and then those to which they lead; says
// whether there were some.
fn take_all_steps(
    alloc: Global,
    rows: &mut [SymbolRow],
    deps: &[Dep],
    width: u8,
) -> Result<bool, OutOfMemory>
    requires width { width ≤ MOST_ATTRIBUTES }
    requires over { IsTableauOver width rows.old }
    requires fits_u32 { length rows.old < 2 ^ 32 }
    ensures changes { IfOk result (λ changed. Changes (dependencies_of deps.now) changed rows.old rows.new) }
    ensures keeps { OnOk result (KeepsRows rows.old rows.new) }
    ensures obeyed { IfOk result
        (λ changed. changed ≡ false → (x y : Attributes) → Contains (dependencies_of deps.now) (fd x y)
        → AgreesBy x y rows.old) }
{
    let changed = take_steps(alloc, rows, deps, width)?;
    if !changed {
        return Ok(false);
    }
    follow_steps(alloc, rows, deps, width)?;
    Ok(true)
}

// Takes the steps of each functional dependency in turn, and says whether there were some.
fn take_steps(
    alloc: Global,
    rows: &mut [SymbolRow],
    deps: &[Dep],
    width: u8,
) -> Result<bool, OutOfMemory>
    requires width { width ≤ MOST_ATTRIBUTES }
    requires over { IsTableauOver width rows.old }
    requires fits_u32 { length rows.old < 2 ^ 32 }
    ensures changes { IfOk result (λ changed. Changes (dependencies_of deps.now) changed rows.old rows.new) }
    ensures keeps { OnOk result (KeepsRows rows.old rows.new) }
    ensures obeyed { IfOk result
        (λ changed. changed ≡ false → (x y : Attributes) → Contains (dependencies_of deps.now) (fd x y)
        → AgreesBy x y rows.old) }
{
    let mut changed = false;
    let mut apart = None;
    for dep in deps {
        if take_steps_by(alloc, rows, *dep, width, &mut apart)? {
            changed = true;
        }
    }
    Ok(changed)
}

// Takes the steps of a functional dependency; of a multivalued one there are none.
fn take_steps_by(
    alloc: Global,
    rows: &mut [SymbolRow],
    dep: Dep,
    width: u8,
    apart: &mut Option<AttrSet>,
) -> Result<bool, OutOfMemory>
    requires width { width ≤ MOST_ATTRIBUTES }
    requires over { IsTableauOver width rows.old }
    requires fits_u32 { length rows.old < 2 ^ 32 }
    requires apart { IsKeptApart apart.old rows.old }
    ensures grouped { IfOk result (λ changed. AreGroupedBy (dependency_of dep) rows.old rows.new changed) }
    ensures apart { OnOk result (IsKeptApart apart.new rows.new) }
{
    match dep {
        Dep::Fd { lhs, rhs } => equate_groups(alloc, rows, lhs, rhs, width, apart),
        Dep::Mvd { lhs: _, rhs: _ } => Ok(false),
    }
}

// Makes rows that agree on the left side agree on the right one. A set on which no two rows agree is kept
// from one dependency to the next: where a left side holds it, there is nothing to do.
fn equate_groups(
    alloc: Global,
    rows: &mut [SymbolRow],
    lhs: AttrSet,
    rhs: AttrSet,
    width: u8,
    apart: &mut Option<AttrSet>,
) -> Result<bool, OutOfMemory>
    requires width { width ≤ MOST_ATTRIBUTES }
    requires over { IsTableauOver width rows.old }
    requires fits_u32 { length rows.old < 2 ^ 32 }
    requires apart { IsKeptApart apart.old rows.old }
    ensures grouped { IfOk result (λ changed.
        AreGrouped (attributes lhs) (attributes rhs) rows.old rows.new changed) }
    ensures apart { OnOk result (IsKeptApart apart.new rows.new) }
{
    if are_known_apart(*apart, lhs) {
        return Ok(false);
    }
    let leaders = leaders(alloc, rows, lhs, width)?;
    if lead_themselves(&leaders) {
        *apart = Some(lhs);
        return Ok(false);
    }
    let listed = members(alloc, rhs, width)?;
    let mut likely = LikelyRows::none(alloc);
    let mut changed = false;
    for i in 0..rows.len() {
        if equate(
            rows,
            leaders[i] as usize,
            i,
            rhs,
            &listed,
            width,
            &mut likely,
        ) {
            changed = true;
        }
    }
    *apart = unless_changed(*apart, changed);
    Ok(changed)
}

// Whether no two rows agree on a set, since none do on a part of it.
fn are_known_apart(apart: Option<AttrSet>, on: AttrSet) -> bool
    ensures apart { IsTrue result → (t : Tableau) → IsKeptApart apart t → AreApart (attributes on) t }
{
    match apart {
        Some(set) => set.is_subset(on),
        None => false,
    }
}

// Whether each row leads itself.
fn lead_themselves(leaders: &[u32]) -> bool
    ensures themselves { IsTrue result → (i : ℕ) → i < length leaders.now
        → slice_index leaders.now i ≡ i }
{
    for i in 0..leaders.len() {
        if leaders[i] as usize != i {
            return false;
        }
    }
    true
}

// The set that is kept, where the rows are as they were.
fn unless_changed(apart: Option<AttrSet>, changed: bool) -> Option<AttrSet>
    ensures kept { (t s : Tableau) → IsKeptApart apart t → (changed ≡ false → s ≡ t)
        → IsKeptApart result s }
{
    if changed { None } else { apart }
}
