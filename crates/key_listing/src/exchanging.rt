ghost use Rattle.std.specs.Prelude.{◌≡◌, ℕ, ◌≤◌, ◌<◌, List, length, take, IfOk, All};
ghost use Rattle.attr_sets.specs.Attributes.{Attributes};
ghost use Rattle.attr_sets.specs.Sets.{attributes};
ghost use Rattle.dep_model.specs.Dependencies.{functional_part};
ghost use Rattle.dep_model.specs.Keys.{IsSuperkey, IsKey};
ghost use Rattle.dep_model.specs.Theories.{width_of, universe_of, theory_of};
ghost use Rattle.key_listing.specs.Listing.{AreFoundKeys, AreSomeKeys, HoldsAnyUnlessMany, IsExchangedUnlessMany};

use crate::holding::holds_any;
use crate::refusal::MOST_KEYS;
use attr_sets::AttrSet;
use dep_model::{Dep, OutOfMemory, Theory};
use fd_closure::functional_key;
use std::alloc::Global;

// The keys of the universe by functional dependencies: one, and from each with each dependency another,
// until all have been had, or one more than are listed.
pub fn exchanged_keys(alloc: Global, theory: &Theory) -> Result<Vec<AttrSet>, OutOfMemory>
    requires functional { functional_part (theory_of theory.now) ≡ theory_of theory.now }
    ensures keys { IfOk result (λ found.
        AreFoundKeys (width_of theory.now) (theory_of theory.now) (universe_of theory.now) found.items) }
{
    let mut found = Vec::new(alloc);
    found.push(functional_key(theory.deps(), AttrSet::full(theory.width())))?;
    let mut tried = 0;
    while tried < found.len() {
        let key = found[tried];
        add_exchanged(theory, key, &mut found)?;
        tried += 1;
    }
    found.sort_unstable();
    Ok(found)
}

// Adds a key within each set that a dependency makes of a key, where no found one lies within it.
fn add_exchanged(theory: &Theory, key: AttrSet, found: &mut Vec<AttrSet>) -> Result<(), OutOfMemory>
    requires functional { functional_part (theory_of theory.now) ≡ theory_of theory.now }
    requires key { IsKey (width_of theory.now) (theory_of theory.now) (universe_of theory.now)
        (attributes key) }
    requires keys { AreSomeKeys (width_of theory.now) (theory_of theory.now)
        (universe_of theory.now) found.old.items }
    ensures keys { IfOk result (λ _.
        AreSomeKeys (width_of theory.now) (theory_of theory.now) (universe_of theory.now) found.new.items) }
    ensures kept { IfOk result (λ _. take (length found.old.items) found.new.items ≡ found.old.items) }
    ensures exchanged { IfOk result
        (λ _. IsExchangedUnlessMany (theory_of theory.now) found.new.items (attributes key)) }
{
    for dep in theory.deps() {
        if let Dep::Fd { lhs, rhs } = *dep {
            add_key_within(theory, lhs.union(key.difference(rhs)), found)?;
        }
    }
    Ok(())
}

// Adds a key within a superkey, where no found one lies within it and they are not more than are listed.
fn add_key_within(
    theory: &Theory,
    set: AttrSet,
    found: &mut Vec<AttrSet>,
) -> Result<(), OutOfMemory>
    requires functional { functional_part (theory_of theory.now) ≡ theory_of theory.now }
    requires superkey { IsSuperkey (width_of theory.now) (theory_of theory.now) (universe_of theory.now)
        (attributes set) }
    requires keys { AreSomeKeys (width_of theory.now) (theory_of theory.now)
        (universe_of theory.now) found.old.items }
    ensures keys { IfOk result (λ _.
        AreSomeKeys (width_of theory.now) (theory_of theory.now) (universe_of theory.now) found.new.items) }
    ensures kept { IfOk result (λ _. take (length found.old.items) found.new.items ≡ found.old.items) }
    ensures held { IfOk result (λ _. HoldsAnyUnlessMany found.new.items (attributes set)) }
{
    if found.len() <= MOST_KEYS && !holds_any(found, set) {
        found.push(functional_key(theory.deps(), set))?;
    }
    Ok(())
}
