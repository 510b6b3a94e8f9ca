ghost use Rattle.std.specs.Prelude.{◌≡◌, ◌<◌, ◌≤◌, ◌^◌, All, false, length, map, replicate, IfOk};
ghost use Rattle.attr_sets.specs.Attributes.{IsSubset, below};
ghost use Rattle.attr_sets.specs.Sets.{attributes};
ghost use Rattle.row_groups.specs.Interning.{IsInterned, firsts_of, groups_of};
ghost use Rattle.row_groups.specs.Numberings.{number_at};
ghost use Rattle.legality.specs.Parts.{AreBelow};
ghost use Rattle.row_measures.specs.Broken.{rows_outside};
ghost use Rattle.row_measures.specs.ByClass.{AreLargestBelow, AreOutside, AreSorted};

use crate::counting::{numbers_of, row_counts};
use attr_sets::{AttrSet, MOST_ATTRIBUTES};
use dep_model::OutOfMemory;
use row_groups::{Groups, Interned};
use row_store::Rows;
use std::alloc::Global;

// Rows against a functional dependency: the rows that agree on its left side are a group, those that
// agree on both sides are a class.
#[derive(Debug, Drop)]
pub struct ByClass {
    pub groups: Groups,
    pub classes: Groups,
    pub sizes: Vec<u32>,
    pub chosen: Vec<u32>,
    pub broken: Vec<bool>,
}

// The rows by group and class, with the largest class of each group, and which groups have more than one.
pub fn sort_by_class(
    alloc: Global,
    rows: &Rows,
    width: u8,
    codes: &Interned,
    lhs: AttrSet,
    rhs: AttrSet,
) -> Result<ByClass, OutOfMemory>
    requires width { width ≤ MOST_ATTRIBUTES }
    requires codes { IsInterned width rows.now codes.now }
    requires lhs { IsSubset (attributes lhs) (below width) }
    requires rhs { IsSubset (attributes rhs) (below width) }
    ensures sorted { IfOk result (AreSorted (attributes lhs) (attributes rhs) rows.now) }
{
    let own = rhs.difference(lhs);
    let groups = Groups::by_agreement(alloc, codes, lhs)?;
    let classes = groups.refined(alloc, codes, own)?;
    let sizes = row_counts(alloc, classes.numbers(), classes.firsts().len())?;
    let owners = numbers_of(alloc, groups.numbers(), classes.firsts())?;
    let mut chosen = numbers_of(alloc, classes.numbers(), groups.firsts())?;
    choose_largest(&owners, &sizes, &mut chosen);
    let broken = broken_groups(alloc, groups.numbers(), classes.numbers(), &chosen)?;
    Ok(ByClass {
        groups,
        classes,
        sizes,
        chosen,
        broken,
    })
}

// The least class of each group gives way to the largest, of equally large ones to the least.
pub fn choose_largest(owners: &[u32], sizes: &[u32], chosen: &mut Vec<u32>)
    requires sizes { length sizes.now ≡ length owners.now }
    requires owners { AreBelow owners.now (length chosen.old.items) }
    requires fits_u32 { length owners.now < 2 ^ 32 }
    requires least { AreLargestBelow 0 owners.now sizes.now chosen.old.items }
    ensures count { length chosen.new.items ≡ length chosen.old.items }
    ensures largest { AreLargestBelow (length owners.now) owners.now sizes.now chosen.new.items }
{
    for class in 0..owners.len() {
        let group = owners[class] as usize;
        let best = chosen[group] as usize;
        if sizes[class] > sizes[best] {
            chosen[group] = class as u32;
        }
    }
}

// Which groups have a row outside their chosen class.
fn broken_groups(
    alloc: Global,
    groups: &[u32],
    classes: &[u32],
    chosen: &[u32],
) -> Result<Vec<bool>, OutOfMemory>
    requires same_length { length classes.now ≡ length groups.now }
    requires groups { AreBelow groups.now (length chosen.now) }
    ensures count { IfOk result (λ v. length v.items ≡ length chosen.now) }
    ensures broken { IfOk result (λ v.
        AreOutside groups.now classes.now chosen.now (length groups.now) v.items) }
{
    let mut broken = no_flags(alloc, chosen.len())?;
    for row in 0..groups.len() {
        let group = groups[row] as usize;
        if classes[row] != chosen[group] {
            broken[group] = true;
        }
    }
    Ok(broken)
}

// This many flags, none of which is set.
pub fn no_flags(alloc: Global, count: usize) -> Result<Vec<bool>, OutOfMemory>
    ensures unset { IfOk result (λ v. v.items ≡ replicate count false) }
{
    let mut flags = Vec::new(alloc);
    flags.resize(count, false)?;
    Ok(flags)
}

// How many rows are outside the chosen class of their group.
pub fn count_outside(groups: &[u32], classes: &[u32], chosen: &[u32]) -> u64
    requires same_length { length classes.now ≡ length groups.now }
    requires groups { AreBelow groups.now (length chosen.now) }
    requires fits_u32 { length groups.now < 2 ^ 32 }
    ensures count { result ≡ rows_outside groups.now classes.now chosen.now }
{
    let mut count = 0;
    for row in 0..groups.len() {
        if classes[row] != chosen[groups[row] as usize] {
            count += 1;
        }
    }
    count
}
