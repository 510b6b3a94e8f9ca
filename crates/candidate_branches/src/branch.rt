//! A branch of the search for candidates, and the evidence that it takes on with a column.

ghost use Rattle.std.specs.Prelude.{◌≡◌, ◌++◌, ◌<◌, ◌↔◌, true, false, filter, length, Contains, IsTrue, IfOk};
ghost use Rattle.attr_sets.specs.Attributes.{union, difference};
ghost use Rattle.attr_sets.specs.Sets.{attributes};
ghost use Rattle.attr_sets.specs.declared.set.TheConstants.{MOST_ATTRIBUTES};
ghost use Rattle.dep_model.specs.Plans.{schemes_of};
ghost use Rattle.candidate_branches.specs.Branches.{has_column, lacks_column, IsEachLacked};

use attr_sets::AttrSet;
use dep_model::OutOfMemory;
use std::alloc::Global;

/// A set to which columns are added.
#[derive(Debug, Drop)]
pub struct Branch {
    /// The set.
    pub set: AttrSet,
    /// The columns that it may take on.
    pub free: AttrSet,
    /// How many it may take on.
    pub left: u8,
    /// The evidence that holds the set.
    pub held: Vec<AttrSet>,
    /// The evidence that lacks one of its members.
    pub once: Vec<AttrSet>,
}

// The sets that have a column, in their order.
pub fn sets_with(alloc: Global, sets: &[AttrSet], column: u8) -> Result<Vec<AttrSet>, OutOfMemory>
    requires column { column < MOST_ATTRIBUTES }
    ensures having { IfOk result (λ having. having.items ≡ filter (has_column column) sets.now) }
{
    let mut having = Vec::new(alloc);
    for set in sets {
        if set.contains(column) {
            having.push(*set)?;
        }
    }
    Ok(having)
}

// Adds the sets that lack a column.
pub fn add_sets_without(
    sets: &[AttrSet],
    column: u8,
    lacking: &mut Vec<AttrSet>,
) -> Result<(), OutOfMemory>
    requires column { column < MOST_ATTRIBUTES }
    ensures lacking { IfOk result (λ _.
        lacking.new.items ≡ lacking.old.items ++ filter (lacks_column column) sets.now) }
{
    for set in sets {
        if !set.contains(column) {
            lacking.push(*set)?;
        }
    }
    Ok(())
}

// Whether each member of a set is lacked by some evidence that has a column.
pub fn is_each_lacked(evidence: &[AttrSet], set: AttrSet, column: u8) -> bool
    requires column { column < MOST_ATTRIBUTES }
    ensures lacked { IsTrue result
        ↔ IsEachLacked (schemes_of evidence.now) (attributes set) column }
{
    let mut lacked = AttrSet::empty();
    for one in evidence {
        if set.is_subset(lacked) {
            return true;
        }
        lacked = lacked_also(*one, set, column, lacked);
    }
    set.is_subset(lacked)
}

// The members of a set that are lacked, with those that this evidence lacks, if it has the column.
fn lacked_also(one: AttrSet, set: AttrSet, column: u8, lacked: AttrSet) -> AttrSet
    requires column { column < MOST_ATTRIBUTES }
    ensures without { attributes one column ≡ false → attributes result ≡ attributes lacked }
    ensures having { attributes one column ≡ true
        → attributes result ≡ union (attributes lacked) (difference (attributes set) (attributes one)) }
{
    if one.contains(column) {
        lacked.union(set.difference(one))
    } else {
        lacked
    }
}

// Of the evidence that holds a set, one outside which are fewest of the free columns. Which it is, is a matter of speed
// alone.
pub fn narrowest(held: &[AttrSet], free: AttrSet) -> AttrSet
    requires some { 0 < length held.now }
    ensures listed { Contains held.now result }
{
    let mut best = held[0];
    let mut fewest = free.difference(best).len();
    for i in 0..held.len() {
        let outside = free.difference(held[i]).len();
        if outside < fewest {
            best = held[i];
            fewest = outside;
        }
    }
    best
}
