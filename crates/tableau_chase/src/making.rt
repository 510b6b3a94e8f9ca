//! The rows that multivalued dependencies make.

ghost use Rattle.std.specs.Prelude.{◌≡◌, ◌≤◌, ◌<◌, ◌^◌, ℕ, length, take, All, Contains, Err, OnOk};
ghost use Rattle.attr_sets.specs.Attributes.{Attributes, union, IsSubset};
ghost use Rattle.attr_sets.specs.Sets.{attributes};
ghost use Rattle.attr_sets.specs.declared.set.TheConstants.{MOST_ATTRIBUTES};
ghost use Rattle.dep_model.specs.Deps.{dependency_of, dependencies_of};
ghost use Rattle.chase_laws.specs.Tableaux.{IsTableauOver, Tableau};
ghost use Rattle.chase_laws.specs.Rounds.{IsMadeOf};
ghost use Rattle.tableau_chase.specs.Groups.{symbol_row_at};
ghost use Rattle.tableau_chase.specs.Pools.{IsPool};
ghost use Rattle.tableau_chase.specs.Making.{IsExchangedRow, IsMadeFrom, IsExchangedWith, AddsAll, Overflows};

use crate::outcome::ChaseRefusal;
use crate::pool::Pool;
use crate::row_groups::{followers, leaders};
use attr_sets::AttrSet;
use dep_model::{Dep, Failure};
use std::alloc::Global;

/// Adds all rows that one step by a multivalued dependency makes of the rows that are there.
pub fn add_next(
    alloc: Global,
    pool: &mut Pool,
    deps: &[Dep],
    width: u8,
    limit: u32,
) -> Result<(), Failure<ChaseRefusal>>
    requires width { width ≤ MOST_ATTRIBUTES }
    requires pool { IsPool limit pool.old }
    requires over { IsTableauOver width pool.old.rows.items }
    ensures pool { OnOk result (IsPool limit pool.new) }
    ensures next { OnOk result
        (AddsAll (IsMadeOf width
        (dependencies_of deps.now) pool.old.rows.items) pool.old.rows.items pool.new.rows.items) }
    ensures too_many { result ≡ Err (Failure.Refused ChaseRefusal.TooManyRows)
        → Overflows (IsMadeOf width (dependencies_of deps.now) pool.old.rows.items) limit pool.old.rows.items }
{
    let count = pool.rows.len();
    for dep in deps {
        match add_made(alloc, pool, count, *dep, width, limit) {
            Ok(()) => {}
            Err(failure) => return Err(failure),
        }
    }
    Ok(())
}

// Adds the rows that a dependency makes of the first rows; a functional one makes none.
fn add_made(
    alloc: Global,
    pool: &mut Pool,
    count: usize,
    dep: Dep,
    width: u8,
    limit: u32,
) -> Result<(), Failure<ChaseRefusal>>
    requires width { width ≤ MOST_ATTRIBUTES }
    requires pool { IsPool limit pool.old }
    requires count { count ≤ length pool.old.rows.items }
    requires over { IsTableauOver width (take count pool.old.rows.items) }
    ensures pool { OnOk result (IsPool limit pool.new) }
    ensures made { OnOk result
        (AddsAll (IsMadeFrom width (dependency_of dep)
        (take count pool.old.rows.items)) pool.old.rows.items pool.new.rows.items) }
    ensures too_many { result ≡ Err (Failure.Refused ChaseRefusal.TooManyRows)
        → Overflows (IsMadeFrom width (dependency_of dep)
        (take count pool.old.rows.items)) limit pool.old.rows.items }
{
    match dep {
        Dep::Fd { lhs: _, rhs: _ } => Ok(()),
        Dep::Mvd { lhs, rhs } => add_products(alloc, pool, count, lhs, rhs, width, limit),
    }
}

// The same for a multivalued dependency: each part on the left and the right side with each part elsewhere.
fn add_products(
    alloc: Global,
    pool: &mut Pool,
    count: usize,
    lhs: AttrSet,
    rhs: AttrSet,
    width: u8,
    limit: u32,
) -> Result<(), Failure<ChaseRefusal>>
    requires width { width ≤ MOST_ATTRIBUTES }
    requires pool { IsPool limit pool.old }
    requires count { count ≤ length pool.old.rows.items }
    requires over { IsTableauOver width (take count pool.old.rows.items) }
    ensures pool { OnOk result (IsPool limit pool.new) }
    ensures made { OnOk result
        (AddsAll (IsExchangedRow width (attributes lhs) (attributes rhs)
        (take count pool.old.rows.items)) pool.old.rows.items pool.new.rows.items) }
    ensures too_many { result ≡ Err (Failure.Refused ChaseRefusal.TooManyRows)
        → Overflows (IsExchangedRow width (attributes lhs) (attributes rhs)
        (take count pool.old.rows.items)) limit pool.old.rows.items }
{
    let both = lhs.union(rhs);
    let rest = AttrSet::full(width).difference(both).union(lhs);
    let agreeing = leaders(alloc, &pool.rows[..count], lhs, width)?;
    let firsts = leaders(alloc, &pool.rows[..count], both, width)?;
    let seconds = leaders(alloc, &pool.rows[..count], rest, width)?;
    let groups = followers(alloc, &agreeing, &seconds)?;
    for i in 0..count {
        if firsts[i] == i as u32 {
            let group = &groups[agreeing[i] as usize];
            match add_exchanged(alloc, pool, i, group.numbers(), both, width, limit) {
                Ok(()) => {}
                Err(failure) => return Err(failure),
            }
        }
    }
    Ok(())
}

// Adds the rows with the symbols of row `first` on a set and those of each of some rows elsewhere.
fn add_exchanged(
    alloc: Global,
    pool: &mut Pool,
    first: usize,
    seconds: &[u32],
    on: AttrSet,
    width: u8,
    limit: u32,
) -> Result<(), Failure<ChaseRefusal>>
    requires width { width ≤ MOST_ATTRIBUTES }
    requires pool { IsPool limit pool.old }
    requires first { first < length pool.old.rows.items }
    requires first_over { length (symbol_row_at pool.old.rows.items first) ≡ width }
    requires seconds { All (λ j. j < length pool.old.rows.items) seconds.now }
    requires seconds_over { All (λ j. length (symbol_row_at pool.old.rows.items j) ≡ width) seconds.now }
    ensures pool { OnOk result (IsPool limit pool.new) }
    ensures made { OnOk result
        (AddsAll (IsExchangedWith width
        (attributes on) pool.old.rows.items first seconds.now) pool.old.rows.items pool.new.rows.items) }
    ensures too_many { result ≡ Err (Failure.Refused ChaseRefusal.TooManyRows)
        → Overflows (IsExchangedWith width
        (attributes on) pool.old.rows.items first seconds.now) limit pool.old.rows.items }
{
    for k in 0..seconds.len() {
        let second = seconds[k] as usize;
        let row = pool.rows[first].exchange(alloc, &pool.rows[second], on, width)?;
        match pool.add(alloc, row, limit) {
            Ok(()) => {}
            Err(failure) => return Err(failure),
        }
    }
    Ok(())
}
