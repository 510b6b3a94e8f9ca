ghost use Rattle.std.specs.Prelude.{◌≡◌, ◌<◌, ◌≤◌, ◌^◌, ℕ, length, IfOk};
ghost use Rattle.attr_sets.specs.Attributes.{IsSubset, below};
ghost use Rattle.attr_sets.specs.Sets.{attributes};
ghost use Rattle.row_groups.specs.Interning.{IsInterned};
ghost use Rattle.row_groups.specs.Numberings.{number_at};
ghost use Rattle.legality.specs.Parts.{AreBelow};
ghost use Rattle.row_measures.specs.ByPart.{ArePartsSorted, AreShort, shortage};

use crate::by_class::no_flags;
use crate::counting::numbers_of;
use attr_sets::{AttrSet, MOST_ATTRIBUTES};
use dep_model::OutOfMemory;
use legality::part_counts;
use row_groups::{Groups, Interned};
use row_store::Rows;
use std::alloc::Global;

// Rows against a multivalued dependency: the rows that agree on its left side are a group.
#[derive(Debug, Drop)]
pub struct ByPart {
    pub groups: Groups,
    pub broken: Vec<bool>,
    pub missing: u64,
}

// The rows by group, which groups lack a pair of a right side and a rest, and how many pairs are missing.
// Of a left and right side as many rests are missing as its group has more than stand beside it.
pub fn sort_by_part(
    alloc: Global,
    rows: &Rows,
    width: u8,
    codes: &Interned,
    lhs: AttrSet,
    rhs: AttrSet,
) -> Result<ByPart, OutOfMemory>
    requires width { width ≤ MOST_ATTRIBUTES }
    requires codes { IsInterned width rows.now codes.now }
    requires lhs { IsSubset (attributes lhs) (below width) }
    requires rhs { IsSubset (attributes rhs) (below width) }
    ensures sorted { IfOk result (ArePartsSorted width (attributes lhs) (attributes rhs) rows.now) }
{
    let universe = AttrSet::full(width);
    let sides = lhs.union(rhs);
    let own = rhs.difference(lhs);
    let outside = universe.difference(sides);
    let groups = Groups::by_agreement(alloc, codes, lhs)?;
    let lefts = groups.refined(alloc, codes, own)?;
    let rests = groups.refined(alloc, codes, outside)?;
    let all = lefts.refined(alloc, codes, outside)?;
    let left_groups = numbers_of(alloc, groups.numbers(), lefts.firsts())?;
    let wanted = part_counts(alloc, &groups, &rests)?;
    let present = part_counts(alloc, &lefts, &all)?;
    let broken = short_groups(alloc, &left_groups, &wanted, &present)?;
    let missing = count_missing(&left_groups, &wanted, &present);
    Ok(ByPart {
        groups,
        broken,
        missing,
    })
}

// Which groups have a left part beside which fewer rests stand than the group has.
fn short_groups(
    alloc: Global,
    left_groups: &[u32],
    wanted: &[u32],
    present: &[u32],
) -> Result<Vec<bool>, OutOfMemory>
    requires wanted { AreBelow left_groups.now (length wanted.now) }
    requires present { length present.now ≡ length left_groups.now }
    ensures count { IfOk result (λ v. length v.items ≡ length wanted.now) }
    ensures short { IfOk result (λ v.
        AreShort left_groups.now wanted.now present.now (length left_groups.now) v.items) }
{
    let mut short = no_flags(alloc, wanted.len())?;
    for left in 0..left_groups.len() {
        let group = left_groups[left] as usize;
        if present[left] < wanted[group] {
            short[group] = true;
        }
    }
    Ok(short)
}

// How many rests the left parts lack.
fn count_missing(left_groups: &[u32], wanted: &[u32], present: &[u32]) -> u64
    requires wanted { AreBelow left_groups.now (length wanted.now) }
    requires present { length present.now ≡ length left_groups.now }
    requires fits_u32 { length left_groups.now < 2 ^ 32 }
    requires enough { (a : ℕ) → a < length left_groups.now
        → number_at present.now a ≤ number_at wanted.now (number_at left_groups.now a) }
    ensures missing { result ≡ shortage left_groups.now wanted.now present.now }
{
    let mut missing = 0;
    for left in 0..left_groups.len() {
        let group = left_groups[left] as usize;
        missing += (wanted[group] - present[left]) as u64;
    }
    missing
}
