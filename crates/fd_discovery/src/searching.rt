ghost use Rattle.std.specs.Prelude.{◌≡◌, ◌<◌, ◌≤◌, ℕ, true, IfOk};
ghost use Rattle.attr_sets.specs.Attributes.{IsSubset, below, union};
ghost use Rattle.attr_sets.specs.Sets.{attributes};
ghost use Rattle.attr_sets.specs.declared.set.TheConstants.{MOST_ATTRIBUTES};
ghost use Rattle.dep_model.specs.Deps.{dependencies_of};
ghost use Rattle.dep_model.specs.Tuples.{Relation};
ghost use Rattle.fd_discovery.specs.Leaders.{AreLed};
ghost use Rattle.fd_discovery.specs.Searching.{AreUndetermined, AreFoundBefore, AreFoundUpTo};

use crate::leaders::{determines, refine_leaders};
use crate::table::CodeColumns;
use attr_sets::{AttrSet, MOST_ATTRIBUTES};
use dep_model::{Dep, OutOfMemory, sides};
use std::alloc::Global;

// Adds the minimal dependencies of the sets that have further members below `bound`, from the first such
// set to the last. The members of `set` stand from `bound` on. A set from which every attribute is given
// ends the search above it: then every attribute is given from each larger set too.
pub fn search_above(
    alloc: Global,
    table: &CodeColumns,
    leaders: &[u32],
    set: AttrSet,
    bound: u8,
    found: &mut Vec<Dep>,
) -> Result<(), OutOfMemory>
    requires width { table.now.width ≤ MOST_ATTRIBUTES }
    requires at_most_width { bound ≤ table.now.width }
    requires set { IsSubset (attributes set) (below table.now.width) }
    requires above { (k : ℕ) → attributes set k ≡ true → bound ≤ k }
    requires rows { (r : Relation) × AreLed r table.now (attributes set) leaders.now }
    ensures found { (r : Relation) → AreLed r table.now (attributes set) leaders.now
        → AreFoundUpTo table.now.width r (attributes set) found.old.items
        → IfOk result (λ _.
        AreFoundUpTo table.now.width r (union (attributes set) (below bound)) found.new.items) }
{
    for attribute in 0..bound {
        let larger = set.with(attribute);
        let wanted = attributes_not_given(found, larger, table.width);
        if !wanted.is_empty() {
            let codes = table.codes.column(attribute);
            let order = table.orders[attribute as usize].rows();
            let finer = refine_leaders(alloc, leaders, codes, order)?;
            add_minimal(table, &finer, larger, wanted, found)?;
            search_above(alloc, table, &finer, larger, attribute, found)?;
        }
    }
    Ok(())
}

// Adds the minimal dependencies of a set, where `wanted` has the attributes that are not given from it.
pub fn add_minimal(
    table: &CodeColumns,
    leaders: &[u32],
    set: AttrSet,
    wanted: AttrSet,
    found: &mut Vec<Dep>,
) -> Result<(), OutOfMemory>
    requires width { table.now.width ≤ MOST_ATTRIBUTES }
    requires rows { (r : Relation) × AreLed r table.now (attributes set) leaders.now }
    ensures found { (r : Relation) → AreLed r table.now (attributes set) leaders.now
        → IsSubset (attributes set) (below table.now.width)
        → AreUndetermined table.now.width (dependencies_of found.old.items) (attributes set)
        (attributes wanted)
        → AreFoundBefore table.now.width r (attributes set) found.old.items
        → IfOk result (λ _. AreFoundUpTo table.now.width r (attributes set) found.new.items) }
{
    for attribute in 0..table.width {
        if wanted.contains(attribute) && determines(leaders, table.codes.column(attribute)) {
            let rhs = AttrSet::single(attribute);
            found.push(Dep::Fd { lhs: set, rhs })?;
        }
    }
    Ok(())
}

/// The attributes below a width that are outside a set and that no listed dependency gives from it.
pub fn attributes_not_given(found: &[Dep], set: AttrSet, width: u8) -> AttrSet
    requires width { width ≤ MOST_ATTRIBUTES }
    ensures rest { AreUndetermined width (dependencies_of found.now) (attributes set) (attributes result) }
{
    let mut given = set;
    for dep in found {
        let (lhs, rhs) = sides(*dep);
        if lhs.is_subset(set) {
            given = given.union(rhs);
        }
    }
    AttrSet::full(width).difference(given)
}
