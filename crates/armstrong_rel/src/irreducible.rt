ghost use Rattle.std.specs.Prelude.{◌≡◌, ℕ, ◌<◌, ◌≤◌, ◌↔◌, ◌++◌, ◌∷◌, [], true, length, All, IfOk, OnOk};
ghost use Rattle.attr_sets.specs.Attributes.{IsSubset};
ghost use Rattle.attr_sets.specs.Sets.{attributes};
ghost use Rattle.dep_model.specs.Theories.{width_of, universe_of, theory_of};
ghost use Rattle.fd_closure.specs.LeftSides.{left_sides};
ghost use Rattle.armstrong_rel.specs.declared.refusal.TheConstants.{MOST_EXHIBITED_ROWS};
ghost use Rattle.fd_closure.specs.Closures.{IsKnownClosure};
ghost use Rattle.armstrong_rel.specs.Parts.{IsClosedPart, IsSharedBeyond, IsLacking};
ghost use Rattle.armstrong_rel.specs.Refusals.{IsFunctional};
ghost use Rattle.armstrong_rel.specs.Searching.{AreTriedIrreducible, AreFoundSets, HasPartBefore, HasPartUpTo};

use crate::closures::{closed_at, closures};
use crate::refusal::MOST_EXHIBITED_ROWS;
use attr_sets::AttrSet;
use dep_model::{OutOfMemory, Theory};
use fd_closure::KnownClosure;
use std::alloc::Global;

// The irreducible closed sets, ascending: all of them, or as many as a relation has no rows for. Each is
// found from what it has of the left sides.
pub fn irreducible_sets(
    alloc: Global,
    theory: &Theory,
    used: AttrSet,
) -> Result<Vec<AttrSet>, OutOfMemory>
    requires functional { IsFunctional theory.now }
    requires used { attributes used ≡ left_sides (theory_of theory.now) }
    ensures sets { IfOk result (λ found.
        AreFoundSets (width_of theory.now) (theory_of theory.now) found.items) }
{
    let table = closures(alloc, theory, used)?;
    let mut found = Vec::new(alloc);
    let mut position: usize = 0;
    let mut next = Some(AttrSet::empty());
    while let Some(part) = next {
        add_sets_with(theory, used, &table, part, position, &mut found)?;
        position = position.wrapping_add(1);
        next = part.next_subset(used);
    }
    found.sort_unstable();
    Ok(found)
}

// Adds the irreducible closed sets that have just this part of the left sides.
fn add_sets_with(
    theory: &Theory,
    used: AttrSet,
    table: &[KnownClosure],
    part: AttrSet,
    position: usize,
    found: &mut Vec<AttrSet>,
) -> Result<(), OutOfMemory>
    requires functional { IsFunctional theory.now }
    requires used { attributes used ≡ left_sides (theory_of theory.now) }
    requires table { All (IsKnownClosure (width_of theory.now) (theory_of theory.now)) table.now }
    requires part { IsSubset (attributes part) (left_sides (theory_of theory.now)) }
    requires found { AreTriedIrreducible (width_of theory.now) (theory_of theory.now)
        (HasPartBefore (theory_of theory.now) (attributes part)) found.old.items }
    ensures found { OnOk result (AreTriedIrreducible (width_of theory.now) (theory_of theory.now)
        (HasPartUpTo (theory_of theory.now) (attributes part)) found.new.items) }
{
    let closed = closed_at(theory, table, part, position);
    if closed.intersection(used) != part {
        return Ok(());
    }
    let shared = shared_beyond(theory, used, table, part, position);
    add_lacking(theory, used, part, shared.difference(closed), found)
}

// The attributes that a part of the left sides determines with each further attribute of them.
fn shared_beyond(
    theory: &Theory,
    used: AttrSet,
    table: &[KnownClosure],
    part: AttrSet,
    position: usize,
) -> AttrSet
    requires functional { IsFunctional theory.now }
    requires used { attributes used ≡ left_sides (theory_of theory.now) }
    requires table { All (IsKnownClosure (width_of theory.now) (theory_of theory.now)) table.now }
    requires part { IsSubset (attributes part) (left_sides (theory_of theory.now)) }
    ensures shared { IsSharedBeyond (width_of theory.now) (theory_of theory.now) (attributes part)
        (attributes result) }
{
    let mut shared = AttrSet::full(theory.width());
    let mut step: usize = 1;
    for attribute in 0..theory.width() {
        if used.difference(part).contains(attribute) {
            let more = part.with(attribute);
            let closed = closed_at(theory, table, more, position.wrapping_add(step));
            shared = shared.intersection(closed);
        }
        if used.contains(attribute) {
            step = step.wrapping_mul(2);
        }
    }
    shared
}

// Adds the irreducible closed sets with a closed part of the left sides: for each attribute that the part
// lacks and would determine with any further attribute, all attributes in no left side but that one.
fn add_lacking(
    theory: &Theory,
    used: AttrSet,
    part: AttrSet,
    lacking: AttrSet,
    found: &mut Vec<AttrSet>,
) -> Result<(), OutOfMemory>
    requires functional { IsFunctional theory.now }
    requires used { attributes used ≡ left_sides (theory_of theory.now) }
    requires part { IsSubset (attributes part) (left_sides (theory_of theory.now)) }
    requires closed { IsClosedPart (width_of theory.now) (theory_of theory.now) (attributes part) }
    requires lacking { (a : ℕ) → (attributes lacking a ≡ true)
        ↔ IsLacking (width_of theory.now) (theory_of theory.now) (attributes part) a }
    requires found { AreTriedIrreducible (width_of theory.now) (theory_of theory.now)
        (HasPartBefore (theory_of theory.now) (attributes part)) found.old.items }
    ensures found { OnOk result (AreTriedIrreducible (width_of theory.now) (theory_of theory.now)
        (HasPartUpTo (theory_of theory.now) (attributes part)) found.new.items) }
{
    let rest = AttrSet::full(theory.width()).difference(used);
    let whole = part.union(rest);
    let lacking_rest = lacking.intersection(rest);
    for attribute in 0..theory.width() {
        if lacking_rest.contains(attribute) {
            add_set(whole.without(attribute), found)?;
        }
    }
    if lacking.intersects(used) {
        add_set(whole, found)?;
    }
    Ok(())
}

// Adds a set, where there are not as many as a relation has no rows for.
fn add_set(set: AttrSet, found: &mut Vec<AttrSet>) -> Result<(), OutOfMemory>
    ensures added { OnOk result (length found.old.items < MOST_EXHIBITED_ROWS
        → found.new.items ≡ found.old.items ++ set ∷ []) }
    ensures full { OnOk result (MOST_EXHIBITED_ROWS ≤ length found.old.items
        → found.new.items ≡ found.old.items) }
{
    if found.len() < MOST_EXHIBITED_ROWS {
        found.push(set)?;
    }
    Ok(())
}
