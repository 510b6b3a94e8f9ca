//! The branches above a branch.

ghost use Rattle.std.specs.Prelude.{◌≡◌, ℕ, ◌<◌, ◌≤◌, true, List, length, All, Contains, IfOk};
ghost use Rattle.attr_sets.specs.Attributes.{Attributes};
ghost use Rattle.attr_sets.specs.Sets.{attributes};
ghost use Rattle.attr_sets.specs.declared.set.TheConstants.{MOST_ATTRIBUTES};
ghost use Rattle.candidate_branches.specs.Branches.{IsBranch, AreAbove, AddsChild, IsChild};
ghost use Rattle.candidate_branches.specs.declared.branch.Branch.{Branch};

use crate::branch::{Branch, add_sets_without, is_each_lacked, narrowest, sets_with};
use attr_sets::{AttrSet, MOST_ATTRIBUTES};
use dep_model::OutOfMemory;
use std::alloc::Global;

// The branches of one column more, in which each candidate above a branch is found that some evidence holds.
pub fn branches_above(alloc: Global, width: u8, branch: &Branch) -> Result<Vec<Branch>, OutOfMemory>
    requires width { width ≤ MOST_ATTRIBUTES }
    requires held { 0 < length branch.now.held.items }
    ensures lower { IfOk result (λ above. All (λ b. b.left < branch.now.left) above.items) }
    ensures above { (most a : ℕ) (es : List Attributes) → IsBranch width most a es branch.now
        → IfOk result (λ above. AreAbove width most a es branch.now above.items) }
{
    let mut above = Vec::new(alloc);
    if branch.left == 0 {
        return Ok(above);
    }
    let by = narrowest(&branch.held, branch.free);
    let columns = branch.free.difference(by);
    let mut free = branch.free.difference(columns);
    for column in 0..width {
        if columns.contains(column) {
            add_branch(alloc, branch, column, free, &mut above)?;
            free = free.with(column);
        }
    }
    Ok(above)
}

// Adds the branch of one column more, where each member of its set is needed.
fn add_branch(
    alloc: Global,
    branch: &Branch,
    column: u8,
    free: AttrSet,
    above: &mut Vec<Branch>,
) -> Result<(), OutOfMemory>
    requires column { column < MOST_ATTRIBUTES }
    requires left { 0 < branch.now.left }
    ensures lower { All (λ b. b.left < branch.now.left) above.old.items
        → IfOk result (λ _. All (λ b. b.left < branch.now.left) above.new.items) }
    ensures added { IfOk result (λ _. AddsChild branch.now column (attributes free) above.old.items above.new.items) }
{
    if !is_each_lacked(&branch.once, branch.set, column) {
        return Ok(());
    }
    above.push(child(alloc, branch, column, free)?)?;
    Ok(())
}

// The branch of one column more.
fn child(alloc: Global, branch: &Branch, column: u8, free: AttrSet) -> Result<Branch, OutOfMemory>
    requires column { column < MOST_ATTRIBUTES }
    requires left { 0 < branch.now.left }
    ensures child { IfOk result (IsChild branch.now column (attributes free)) }
{
    let held = sets_with(alloc, &branch.held, column)?;
    let mut once = sets_with(alloc, &branch.once, column)?;
    add_sets_without(&branch.held, column, &mut once)?;
    Ok(Branch {
        set: branch.set.with(column),
        free,
        left: branch.left - 1,
        held,
        once,
    })
}
