//! The search for the candidates of evidence, branch by branch.

ghost use Rattle.std.specs.Prelude.{◌≡◌, ℕ, ◌<◌, ◌≤◌, ◌++◌, [], ◌∷◌, List, All, IfOk, IfSome};
ghost use Rattle.attr_sets.specs.Attributes.{Attributes, below, difference, none, only};
ghost use Rattle.attr_sets.specs.Sets.{attributes};
ghost use Rattle.attr_sets.specs.declared.set.TheConstants.{MOST_ATTRIBUTES};
ghost use Rattle.dep_model.specs.Plans.{schemes_of};
ghost use Rattle.candidate_sets.specs.Standing.{AreCandidates};
ghost use Rattle.candidate_branches.specs.Branches.{IsBranch, AddsAbove, AreAllAbove, HasNumber};

use crate::branch::Branch;
use crate::branching::branches_above;
use crate::evidence::largest_without;
use attr_sets::{AttrSet, MOST_ATTRIBUTES};
use candidate_sets::{MOST_CANDIDATES, TooManyCandidates};
use dep_model::{Failure, OutOfMemory};
use std::alloc::Global;

/// The candidates for attribute `right` of evidence, of at most `most` of `width` columns, in the order of
/// sets; or none, where there is much evidence, or more than `MOST_CANDIDATES` sets are found. Whether it
/// gives up so is a matter of speed alone. The evidence is best given larger sets first.
pub fn candidates_of(
    alloc: Global,
    width: u8,
    most: u8,
    right: u8,
    evidence: &[AttrSet],
) -> Result<Option<Vec<AttrSet>>, OutOfMemory>
    requires width { width ≤ MOST_ATTRIBUTES }
    requires right { right < width }
    ensures candidates { IfOk result (λ listed. IfSome listed (λ sets.
        AreCandidates width most (schemes_of evidence.now) right (schemes_of sets.items))) }
{
    match largest_without(alloc, evidence, right)? {
        Some(largest) => {
            let root = empty_branch(alloc, width, most, right, largest);
            all_above(alloc, width, &root)
        }
        None => Ok(None),
    }
}

// The branch of the empty set.
fn empty_branch(alloc: Global, width: u8, most: u8, right: u8, held: Vec<AttrSet>) -> Branch
    requires width { width ≤ MOST_ATTRIBUTES }
    requires right { right < width }
    ensures set { attributes result.set ≡ none }
    ensures free { attributes result.free ≡ difference (below width) (only right) }
    ensures left { result.left ≡ most }
    ensures held { result.held.items ≡ held.items }
    ensures once { result.once.items ≡ [] }
{
    Branch {
        set: AttrSet::empty(),
        free: AttrSet::full(width).without(right),
        left: most,
        held,
        once: Vec::new(alloc),
    }
}

// The candidates above a branch, in the order of sets.
fn all_above(alloc: Global, width: u8, branch: &Branch) -> Result<Option<Vec<AttrSet>>, OutOfMemory>
    requires width { width ≤ MOST_ATTRIBUTES }
    ensures all { (most a : ℕ) (es : List Attributes) → IsBranch width most a es branch.now
        → IfOk result (λ listed. IfSome listed (λ sets.
        AreAllAbove width most a es branch.now (schemes_of sets.items))) }
{
    let mut found = Vec::new(alloc);
    match add_above(alloc, width, branch, &mut found) {
        Ok(()) => {}
        Err(Failure::Refused(_)) => return Ok(None),
        Err(Failure::OutOfMemory) => return Err(OutOfMemory),
    }
    found.sort_unstable();
    found.dedup();
    Ok(Some(found))
}

// Adds the candidates above a branch.
fn add_above(
    alloc: Global,
    width: u8,
    branch: &Branch,
    found: &mut Vec<AttrSet>,
) -> Result<(), Failure<TooManyCandidates>>
    requires width { width ≤ MOST_ATTRIBUTES }
    ensures numbers { All HasNumber found.old.items → IfOk result (λ _. All HasNumber found.new.items) }
    ensures added { (most a : ℕ) (es : List Attributes) → IsBranch width most a es branch.now
        → IfOk result (λ _. AddsAbove width most a es branch.now (schemes_of found.old.items)
        (schemes_of found.new.items)) }
{
    if branch.held.is_empty() {
        add_one(found, branch.set)?;
        return Ok(());
    }
    let above = branches_above(alloc, width, branch)?;
    for i in 0..above.len() {
        add_above(alloc, width, &above[i], found)?;
    }
    Ok(())
}

// Adds a set, unless there are too many.
fn add_one(found: &mut Vec<AttrSet>, set: AttrSet) -> Result<(), Failure<TooManyCandidates>>
    ensures numbers { All HasNumber found.old.items → IfOk result (λ _. All HasNumber found.new.items) }
    ensures added { IfOk result (λ _. found.new.items ≡ found.old.items ++ set ∷ []) }
{
    if found.len() >= MOST_CANDIDATES {
        return Err(Failure::Refused(TooManyCandidates));
    }
    found.push(set)?;
    Ok(())
}
