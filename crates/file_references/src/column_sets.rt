//! Sets of columns: those of one size, their columns, and whether one lies within another.

ghost use Rattle.std.specs.Prelude.{◌≡◌, ◌↔◌, ◌+◌, ◌++◌, ◌≤◌, ℕ, All, Any, IfOk, IsTrue, OnOk};
ghost use Rattle.attr_sets.specs.Attributes.{Attributes, IsSubset, below};
ghost use Rattle.attr_sets.specs.Sets.{attributes};
ghost use Rattle.dep_model.specs.Projections.{members_below};
ghost use Rattle.file_references.specs.Keys.{AddsLarger, AreAllOfSize};

use attr_sets::{AttrSet, MOST_ATTRIBUTES};
use dep_model::OutOfMemory;
use std::alloc::Global;

// The sets of one member of a set.
pub fn sets_of_one(alloc: Global, whole: AttrSet) -> Result<Vec<AttrSet>, OutOfMemory>
    ensures sets { IfOk result (λ sets. AreAllOfSize (attributes whole) 1 sets.items) }
{
    let mut sets = Vec::new(alloc);
    for attribute in 0..MOST_ATTRIBUTES as u8 {
        if whole.contains(attribute) {
            sets.push(AttrSet::single(attribute))?;
        }
    }
    Ok(sets)
}

// Where these are the subsets of a set that have so many members, those that have one more.
pub fn sets_of_one_more(
    alloc: Global,
    whole: AttrSet,
    sets: &[AttrSet],
) -> Result<Vec<AttrSet>, OutOfMemory>
    ensures sets { (size : ℕ) → AreAllOfSize (attributes whole) size sets.now
        → IfOk result (λ larger. AreAllOfSize (attributes whole) (size + 1) larger.items) }
{
    let mut larger = Vec::new(alloc);
    for set in sets {
        add_larger(whole, *set, &mut larger)?;
    }
    Ok(larger)
}

// Adds a set with each member of another beyond its own.
fn add_larger(whole: AttrSet, set: AttrSet, larger: &mut Vec<AttrSet>) -> Result<(), OutOfMemory>
    ensures added { OnOk result (AddsLarger (attributes whole) (attributes set) larger.old.items larger.new.items) }
{
    for attribute in 0..MOST_ATTRIBUTES as u8 {
        if whole.contains(attribute) && set.is_subset(AttrSet::full(attribute)) {
            larger.push(set.with(attribute))?;
        }
    }
    Ok(())
}

// The columns of a set, of which it has so many at most, ascending.
pub fn columns_of(alloc: Global, width: u8, set: AttrSet) -> Result<Vec<usize>, OutOfMemory>
    requires width { width ≤ MOST_ATTRIBUTES }
    ensures columns { IfOk result (λ columns. columns.items ≡ members_below width (attributes set)) }
{
    let mut columns = Vec::new(alloc);
    for attribute in 0..width {
        if set.contains(attribute) {
            columns.push(attribute as usize)?;
        }
    }
    Ok(columns)
}

// Whether one of the sets lies within another.
pub fn has_within(sets: &[AttrSet], set: AttrSet) -> bool
    ensures has { IsTrue result ↔ Any (λ s. IsSubset (attributes s) (attributes set)) sets.now }
{
    for other in sets {
        if other.is_subset(set) {
            return true;
        }
    }
    false
}
