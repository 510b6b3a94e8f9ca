ghost use Rattle.std.specs.Prelude.{◌≡◌, ◌<◌, ◌≤◌, ◌-◌, true, length, slice_index_or, All, IfOk, IfSome};
ghost use Rattle.attr_sets.specs.Sets.{attributes};
ghost use Rattle.attr_sets.specs.declared.set.TheConstants.{MOST_ATTRIBUTES};
ghost use Rattle.candidate_search.specs.Levels.{AreTabled, IsLevel};
ghost use Rattle.candidate_search.specs.declared.levels.Level.{Level};
ghost use Rattle.dep_model.specs.Tuples.{Relation};

use attr_sets::{AttrSet, MOST_ATTRIBUTES};
use dep_model::OutOfMemory;
use fd_discovery::{CodeColumns, refine_leaders};
use std::alloc::Global;

/// Rows by their leaders on a set: of those that agree there one, the same for all of them.
#[derive(Debug, Drop)]
pub struct Level {
    pub set: AttrSet,
    pub leaders: Vec<u32>,
}

// Leads levels to a set: leaves those whose sets do not lie within it, and goes on from the last by one
// column after the other. Which levels it leaves is a matter of speed alone: where they do not end at the set, the rows
// are grouped anew.
pub fn lead_to(
    alloc: Global,
    table: &CodeColumns,
    width: u8,
    set: AttrSet,
    levels: &mut Vec<Level>,
) -> Result<(), OutOfMemory>
    requires width { width ≤ MOST_ATTRIBUTES }
    requires rows { (r : Relation) × AreTabled width r table.now × All (IsLevel r) levels.old.items }
    ensures levels { (r : Relation) → AreTabled width r table.now → All (IsLevel r) levels.old.items
        → IfOk result (λ _. All (IsLevel r) levels.new.items) }
{
    levels.truncate(count_within(levels, set));
    for step in 0..width {
        let column = width - 1 - step;
        if set.contains(column) {
            deepen(alloc, table, width, column, levels)?;
        }
    }
    Ok(())
}

// How many of the first levels have sets within a set. It is a matter of speed alone: any levels may be left.
fn count_within(levels: &[Level], set: AttrSet) -> usize {
    for k in 0..levels.len() {
        if !levels[k].set.is_subset(set) {
            return k;
        }
    }
    levels.len()
}

// Whether the last level is that of a set.
pub fn ends_at(levels: &[Level], set: AttrSet) -> bool
    ensures some { result ≡ true → 0 < length levels.now }
    ensures set { result ≡ true
        → (d : Level) → attributes (slice_index_or levels.now (length levels.now - 1) d).set ≡ attributes set }
{
    if levels.is_empty() {
        return false;
    }
    levels[levels.len() - 1].set == set
}

// Adds the level of one column more, where the last level's set lacks it.
fn deepen(
    alloc: Global,
    table: &CodeColumns,
    width: u8,
    column: u8,
    levels: &mut Vec<Level>,
) -> Result<(), OutOfMemory>
    requires width { width ≤ MOST_ATTRIBUTES }
    requires rows { (r : Relation) × AreTabled width r table.now × All (IsLevel r) levels.old.items }
    requires column { column < width }
    ensures levels { (r : Relation) → AreTabled width r table.now → All (IsLevel r) levels.old.items
        → IfOk result (λ _. All (IsLevel r) levels.new.items) }
{
    match next_level(alloc, table, width, column, levels)? {
        Some(level) => {
            levels.push(level)?;
            Ok(())
        }
        None => Ok(()),
    }
}

// The level of one column more than the last, or of that column alone.
fn next_level(
    alloc: Global,
    table: &CodeColumns,
    width: u8,
    column: u8,
    levels: &[Level],
) -> Result<Option<Level>, OutOfMemory>
    requires width { width ≤ MOST_ATTRIBUTES }
    requires rows { (r : Relation) × AreTabled width r table.now × All (IsLevel r) levels.now }
    requires column { column < width }
    ensures level { (r : Relation) → AreTabled width r table.now → All (IsLevel r) levels.now
        → IfOk result (λ next. IfSome next (IsLevel r)) }
{
    if levels.is_empty() {
        let set = AttrSet::empty();
        let leaders = Vec::from_elem(alloc, 0, table.codes.count())?;
        return one_more(alloc, table, width, column, &Level { set, leaders });
    }
    one_more(alloc, table, width, column, &levels[levels.len() - 1])
}

// The level of one column more, where the set lacks it.
fn one_more(
    alloc: Global,
    table: &CodeColumns,
    width: u8,
    column: u8,
    level: &Level,
) -> Result<Option<Level>, OutOfMemory>
    requires width { width ≤ MOST_ATTRIBUTES }
    requires rows { (r : Relation) × AreTabled width r table.now × IsLevel r level.now }
    requires column { column < width }
    ensures level { (r : Relation) → AreTabled width r table.now → IsLevel r level.now
        → IfOk result (λ next. IfSome next (IsLevel r)) }
{
    if level.set.contains(column) {
        return Ok(None);
    }
    let codes = table.codes.column(column);
    let order = table.orders[column as usize].rows();
    let leaders = refine_leaders(alloc, &level.leaders, codes, order)?;
    let set = level.set.with(column);
    Ok(Some(Level { set, leaders }))
}
