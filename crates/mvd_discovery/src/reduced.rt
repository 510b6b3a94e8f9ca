ghost use Rattle.std.specs.Prelude.{◌≡◌, ◌<◌, ◌↔◌, ◌⊎◌, ℕ, true, IsTrue, IfOk, OnOk};
ghost use Rattle.attr_sets.specs.Attributes.{IsBefore, IsSubset, below, difference, only, union};
ghost use Rattle.attr_sets.specs.Sets.{attributes};
ghost use Rattle.dep_model.specs.Dependencies.{ObeysMvd};
ghost use Rattle.dep_model.specs.Deps.{dependencies_of};
ghost use Rattle.dep_model.specs.Tuples.{Relation};
ghost use Rattle.mvd_laws.specs.Reduced.{AreAllReduced, HoldsWithLess, IsBlockOfRows, IsReduced};
ghost use Rattle.mvd_discovery.specs.Counting.{AreCounts};
ghost use Rattle.mvd_discovery.specs.Listing.{AreReducedOf, IsUpTo};

use crate::blocks::first_block;
use crate::counts::Counts;
use crate::obeying::{obeys_functional, obeys_multivalued};
use attr_sets::AttrSet;
use dep_model::{Dep, OutOfMemory};
use std::alloc::Global;

// The reduced dependencies of all sets, one set after the other.
pub fn reduced_dependencies(alloc: Global, counts: &Counts) -> Result<Vec<Dep>, OutOfMemory>
    requires rows { (r : Relation) × AreCounts r counts.now }
    ensures reduced { (r : Relation) → AreCounts r counts.now
        → IfOk result (λ found. AreAllReduced counts.now.width r (dependencies_of found.items)) }
{
    let whole = AttrSet::full(counts.width);
    let mut found = Vec::new(alloc);
    let mut next = Some(AttrSet::empty());
    while let Some(left) = next {
        add_blocks(counts, left, &mut found)?;
        next = left.next_subset(whole);
    }
    Ok(found)
}

// Adds the reduced dependencies of one set, block by block.
fn add_blocks(counts: &Counts, left: AttrSet, found: &mut Vec<Dep>) -> Result<(), OutOfMemory>
    requires rows { (r : Relation) × AreCounts r counts.now }
    requires left { IsSubset (attributes left) (below counts.now.width) }
    ensures found { (r : Relation) → AreCounts r counts.now
        → AreReducedOf counts.now.width r (λ x. IsBefore x (attributes left)) (dependencies_of found.old.items)
        → OnOk result (AreReducedOf counts.now.width r (λ x. IsUpTo x (attributes left))
        (dependencies_of found.new.items)) }
{
    let mut blocks = AttrSet::full(counts.width).difference(left);
    while let Some(first) = blocks.first() {
        let right = first_block(counts, left, blocks, first);
        if is_reduced(counts, left, right) {
            found.push(Dep::Mvd {
                lhs: left,
                rhs: right,
            })?;
        }
        blocks = blocks.difference(right);
    }
    Ok(())
}

// Whether the dependency of a set on one of its blocks is reduced.
fn is_reduced(counts: &Counts, left: AttrSet, right: AttrSet) -> bool
    requires rows { (r : Relation) × AreCounts r counts.now }
    requires left { IsSubset (attributes left) (below counts.now.width) }
    requires right { IsSubset (attributes right) (below counts.now.width) }
    ensures reduced { (r : Relation) → AreCounts r counts.now
        → IsBlockOfRows counts.now.width r (attributes left) (attributes right)
        → IsTrue result ↔ IsReduced counts.now.width r (attributes left) (attributes right) }
{
    if AttrSet::full(counts.width).is_subset(left.union(right)) {
        return false;
    }
    if obeys_functional(counts, left, right) {
        return false;
    }
    !holds_with_less(counts, left, right)
}

// Whether for some attribute of the set, the set without it multidetermines the block, or the block with it.
fn holds_with_less(counts: &Counts, left: AttrSet, right: AttrSet) -> bool
    requires rows { (r : Relation) × AreCounts r counts.now }
    requires left { IsSubset (attributes left) (below counts.now.width) }
    requires right { IsSubset (attributes right) (below counts.now.width) }
    ensures holds { (r : Relation) → AreCounts r counts.now → IsTrue result
        ↔ ((a : ℕ) × HoldsWithLess counts.now.width r (attributes left) (attributes right) a) }
{
    for attribute in 0..counts.width {
        if left.contains(attribute) && holds_without(counts, left, right, attribute) {
            return true;
        }
    }
    false
}

fn holds_without(counts: &Counts, left: AttrSet, right: AttrSet, attribute: u8) -> bool
    requires rows { (r : Relation) × AreCounts r counts.now }
    requires left { IsSubset (attributes left) (below counts.now.width) }
    requires right { IsSubset (attributes right) (below counts.now.width) }
    requires attribute { attribute < counts.now.width }
    ensures holds { (r : Relation) → AreCounts r counts.now → IsTrue result
        ↔ (ObeysMvd (below counts.now.width) (difference (attributes left) (only attribute)) (attributes right) r
        ⊎ ObeysMvd (below counts.now.width) (difference (attributes left) (only attribute))
        (union (attributes right) (only attribute)) r) }
{
    let less = left.without(attribute);
    if obeys_multivalued(counts, less, right) {
        return true;
    }
    obeys_multivalued(counts, less, right.with(attribute))
}
