//! Rows that agree on a set, found by hashing their symbols there.

ghost use Rattle.std.specs.Prelude.{◌≡◌, ◌<◌, ◌≤◌, ◌^◌, ℕ, List, [], ◌∷◌, ◌++◌, length, slice_index, All, IfOk, OnOk};
ghost use Rattle.attr_sets.specs.Sets.{attributes};
ghost use Rattle.attr_sets.specs.declared.set.TheConstants.{MOST_ATTRIBUTES};
ghost use Rattle.dep_model.specs.Projections.{members_below};
ghost use Rattle.chase_laws.specs.Tableaux.{IsTableauOver};
ghost use Rattle.tableau_chase.specs.Groups.{AreSymbolLeaders, AreFollowers};

use crate::numbers::RowNumbers;
use crate::symbol_row::SymbolRow;
use attr_sets::AttrSet;
use dep_model::OutOfMemory;
use std::alloc::Global;
use std::marker::Model;

/// The attributes of a set, ascending.
pub fn members(alloc: Global, set: AttrSet, width: u8) -> Result<Vec<u8>, OutOfMemory>
    requires width { width ≤ MOST_ATTRIBUTES }
    ensures members { IfOk result (λ members. members.items ≡ members_below width (attributes set)) }
{
    let mut members = Vec::new(alloc);
    for a in 0..width {
        if set.contains(a) {
            members.push(a)?;
        }
    }
    Ok(members)
}

/// For each row the number of the first row that agrees with it on a set.
pub fn leaders(
    alloc: Global,
    rows: &[SymbolRow],
    on: AttrSet,
    width: u8,
) -> Result<Vec<u32>, OutOfMemory>
    requires width { width ≤ MOST_ATTRIBUTES }
    requires over { IsTableauOver width rows.now }
    requires fits_u32 { length rows.now < 2 ^ 32 }
    ensures leaders { IfOk result (λ leaders. AreSymbolLeaders (attributes on) rows.now leaders.items) }
{
    let listed = members(alloc, on, width)?;
    let mut numbers = RowNumbers::new(alloc);
    let mut leaders = Vec::with_capacity(alloc, rows.len())?;
    for i in 0..rows.len() {
        let symbols = rows[i].symbols_at(alloc, &listed)?;
        leaders.push(numbers.number(symbols, i as u32)?)?;
    }
    Ok(leaders)
}

/// Numbers of rows.
#[derive(Drop)]
pub struct Group {
    numbers: Vec<u32>,
}

impl Model for Group {
    ghost Value = { List ℕ };

    ghost view = { λ f. f.numbers.items };
}

impl Group {
    /// None.
    pub fn new(alloc: Global) -> Group
        ensures none { result ≡ [] }
    {
        Group {
            numbers: Vec::new(alloc),
        }
    }

    /// One more, at the end.
    pub fn add(&mut self, number: u32) -> Result<(), OutOfMemory>
        ensures added { OnOk result (self.new ≡ self.old ++ number ∷ []) }
    {
        self.numbers.push(number)?;
        Ok(())
    }

    /// The numbers themselves.
    pub fn numbers(&self) -> &[u32]
        ensures numbers { result.now ≡ self.now }
    {
        &self.numbers
    }
}

/// For each row that leads others, the rows that it leads and that lead others by the second list.
pub fn followers(alloc: Global, leaders: &[u32], seconds: &[u32]) -> Result<Vec<Group>, OutOfMemory>
    requires same_length { length seconds.now ≡ length leaders.now }
    requires fits_u32 { length leaders.now < 2 ^ 32 }
    requires within { (j : ℕ) → j < length leaders.now → slice_index leaders.now j < length leaders.now }
    ensures followers { IfOk result (λ groups. AreFollowers leaders.now seconds.now groups.items) }
{
    let mut groups = no_followers(alloc, leaders.len())?;
    for j in 0..leaders.len() {
        if seconds[j] == j as u32 {
            groups[leaders[j] as usize].add(j as u32)?;
        }
    }
    Ok(groups)
}

// So many empty groups.
fn no_followers(alloc: Global, count: usize) -> Result<Vec<Group>, OutOfMemory>
    ensures count { IfOk result (λ groups. length groups.items ≡ count) }
    ensures none { IfOk result (λ groups. All (λ group. group ≡ []) groups.items) }
{
    let mut groups = Vec::with_capacity(alloc, count)?;
    for _i in 0..count {
        groups.push(Group::new(alloc))?;
    }
    Ok(groups)
}
