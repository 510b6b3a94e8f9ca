ghost use Rattle.std.specs.Prelude.{◌≡◌, ◌<◌, ◌≤◌, false, length, replicate, IfOk};
ghost use Rattle.attr_sets.specs.Attributes.{IsSubset, below};
ghost use Rattle.attr_sets.specs.Sets.{attributes};
ghost use Rattle.row_groups.specs.Interning.{IsInterned};
ghost use Rattle.dep_model.specs.Dependencies.{mvd};
ghost use Rattle.dep_model.specs.Tuples.{Relation};
ghost use Rattle.legality.specs.Answers.{AreCodesOfRows, IsLeastOffence};
ghost use Rattle.legality.specs.Parts.{AreBelow, AreBeside, IsFirstMissing, IsFirstShort};

use crate::counting::part_counts;
use crate::pair::Pair;
use attr_sets::{AttrSet, MOST_ATTRIBUTES};
use dep_model::OutOfMemory;
use row_groups::{Groups, Interned};
use std::alloc::Global;

// The least pair of rows that agree on `lhs` and have no row that is the first on `lhs` and `rhs`
// and the second on the rest. A row is the first of such a pair exactly where fewer rests stand
// beside its left and right side than there are in its group.
pub fn least_multivalued_pair(
    alloc: Global,
    width: u8,
    codes: &Interned,
    lhs: AttrSet,
    rhs: AttrSet,
) -> Result<Option<Pair>, OutOfMemory>
    requires width { width ≤ MOST_ATTRIBUTES }
    requires codes { AreCodesOfRows width codes.now }
    requires lhs { IsSubset (attributes lhs) (below width) }
    requires rhs { IsSubset (attributes rhs) (below width) }
    ensures pair { (rows : Relation) → IsInterned width rows codes.now → IfOk result
        (λ least. IsLeastOffence width rows (mvd (attributes lhs) (attributes rhs)) least) }
{
    let universe = AttrSet::full(width);
    let sides = lhs.union(rhs);
    let outside = universe.difference(sides);
    let others = lhs.union(outside);
    let groups = Groups::by_agreement(alloc, codes, lhs)?;
    let lefts = Groups::by_agreement(alloc, codes, sides)?;
    let rests = Groups::by_agreement(alloc, codes, others)?;
    let all = Groups::by_agreement(alloc, codes, universe)?;
    let wanted = part_counts(alloc, &groups, &rests)?;
    let present = part_counts(alloc, &lefts, &all)?;
    match first_short(groups.numbers(), &wanted, lefts.numbers(), &present) {
        Some(first) => {
            let count = rests.firsts().len();
            let beside = rests_beside(alloc, lefts.numbers(), rests.numbers(), count, first)?;
            let least = first_missing(groups.numbers(), rests.numbers(), &beside, first);
            Ok(least)
        }
        None => Ok(None),
    }
}

// The first row whose left and right side has fewer rests beside it than there are in its group.
fn first_short(groups: &[u32], wanted: &[u32], lefts: &[u32], present: &[u32]) -> Option<usize>
    requires same_length { length lefts.now ≡ length groups.now }
    requires wanted { AreBelow groups.now (length wanted.now) }
    requires present { AreBelow lefts.now (length present.now) }
    ensures first { IsFirstShort groups.now wanted.now lefts.now present.now result }
{
    for row in 0..groups.len() {
        let count = present[lefts[row] as usize];
        if count < wanted[groups[row] as usize] {
            return Some(row);
        }
    }
    None
}

// Which of this many rests stand beside the left and right side of a row.
fn rests_beside(
    alloc: Global,
    lefts: &[u32],
    rests: &[u32],
    count: usize,
    first: usize,
) -> Result<Vec<bool>, OutOfMemory>
    requires same_length { length rests.now ≡ length lefts.now }
    requires first { first < length lefts.now }
    requires count { AreBelow rests.now count }
    ensures count { IfOk result (λ v. length v.items ≡ count) }
    ensures beside { IfOk result (λ v. AreBeside lefts.now rests.now first (length lefts.now) v.items) }
{
    let mut beside = no_rests(alloc, count)?;
    for row in 0..lefts.len() {
        if lefts[row] == lefts[first] {
            let rest = rests[row] as usize;
            beside[rest] = true;
        }
    }
    Ok(beside)
}

// This many rests, of which none is marked.
fn no_rests(alloc: Global, count: usize) -> Result<Vec<bool>, OutOfMemory>
    ensures unmarked { IfOk result (λ v. v.items ≡ replicate count false) }
{
    let mut beside = Vec::new(alloc);
    beside.resize(count, false)?;
    Ok(beside)
}

// The first row of the group of `first` whose rest is not marked.
fn first_missing(groups: &[u32], rests: &[u32], beside: &[bool], first: usize) -> Option<Pair>
    requires same_length { length rests.now ≡ length groups.now }
    requires first { first < length groups.now }
    requires beside { AreBelow rests.now (length beside.now) }
    ensures missing { IsFirstMissing groups.now rests.now beside.now first result }
{
    for second in 0..groups.len() {
        if groups[second] == groups[first] {
            let rest = rests[second] as usize;
            if !beside[rest] {
                return Some(Pair { first, second });
            }
        }
    }
    None
}
