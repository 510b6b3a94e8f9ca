ghost use Rattle.std.specs.Prelude.{IfOk, OnOk};
ghost use Rattle.attr_sets.specs.Attributes.{IsSubset};
ghost use Rattle.attr_sets.specs.Sets.{attributes};
ghost use Rattle.dep_model.specs.Deps.{dependencies_of};
ghost use Rattle.dep_model.specs.Theories.{width_of, universe_of, theory_of};
ghost use Rattle.fd_closure.specs.Closures.{IsClosureOf};
ghost use Rattle.fd_projection.specs.Closures.{IsClosureOfParts, AreTriedMinimal, AreFoundWithin, TriedBefore, TriedUpTo};

use crate::closures::{closed_beyond, closed_by_parts};
use crate::refusal::MOST_LISTED;
use attr_sets::AttrSet;
use dep_model::{Dep, OutOfMemory, Theory};
use fd_closure::{KnownClosure, left_attributes};
use std::alloc::Global;

// The minimal dependencies inside a set, in order: all, or more than are listed. Their left sides lie
// within the given left sides.
pub fn minimal_within(alloc: Global, theory: &Theory, set: AttrSet) -> Result<Vec<Dep>, OutOfMemory>
    requires set { IsSubset (attributes set) (universe_of theory.now) }
    ensures found { IfOk result (λ found. AreFoundWithin (width_of theory.now) (theory_of theory.now)
        (attributes set) (dependencies_of found.items)) }
{
    let whole = left_attributes(theory.deps()).intersection(set);
    let mut table = Vec::new(alloc);
    let mut found = Vec::new(alloc);
    let mut next = Some(AttrSet::empty());
    while let Some(lhs) = next {
        let given = closed_by_parts(theory, &table, whole, lhs);
        let closed = closed_beyond(theory, lhs, given);
        add_minimal(theory, set, lhs, closed, given, &mut found)?;
        if found.len() > MOST_LISTED {
            return Ok(found);
        }
        table.push(KnownClosure { of: lhs, closed })?;
        next = lhs.next_subset(whole);
    }
    Ok(found)
}

// Adds the minimal dependencies with a left side, of which is known what it determines and what its
// parts do.
fn add_minimal(
    theory: &Theory,
    set: AttrSet,
    lhs: AttrSet,
    closed: AttrSet,
    given: AttrSet,
    found: &mut Vec<Dep>,
) -> Result<(), OutOfMemory>
    requires set { IsSubset (attributes set) (universe_of theory.now) }
    requires lhs { IsSubset (attributes lhs) (attributes set) }
    requires closed { IsClosureOf (width_of theory.now) (theory_of theory.now) (attributes lhs)
        (attributes closed) }
    requires given { IsClosureOfParts (width_of theory.now) (theory_of theory.now) (attributes lhs)
        (attributes given) }
    requires found { AreTriedMinimal (width_of theory.now) (theory_of theory.now) (attributes set)
        (TriedBefore (attributes lhs)) (dependencies_of found.old.items) }
    ensures found { OnOk result (AreTriedMinimal (width_of theory.now) (theory_of theory.now) (attributes set)
        (TriedUpTo (attributes lhs)) (dependencies_of found.new.items)) }
{
    let rights = closed.intersection(set).difference(lhs.union(given));
    for attribute in 0..theory.width() {
        if rights.contains(attribute) {
            let rhs = AttrSet::single(attribute);
            found.push(Dep::Fd { lhs, rhs })?;
        }
    }
    Ok(())
}
