ghost use Rattle.std.specs.Prelude.{◌≡◌, ◌≤◌, length, take, Contains, IsNone, IfOk, IfSome};
ghost use Rattle.attr_sets.specs.Attributes.{IsSubset};
ghost use Rattle.attr_sets.specs.Sets.{attributes};
ghost use Rattle.dep_model.specs.Theories.{width_of, universe_of, theory_of};
ghost use Rattle.dep_model.specs.Keys.{IsSuperkey};
ghost use Rattle.key_listing.specs.Listing.{AreFoundKeys, AreSomeKeys};
ghost use Rattle.key_listing.specs.Narrowing.{AreInEachSuperkey};
ghost use Rattle.key_listing.specs.Searching.{HasKeysBetween};

use crate::holding::held_key;
use crate::narrowing::{attributes_in_every_key, without_attributes_in_no_key};
use crate::refusal::MOST_KEYS;
use crate::superkeys::one_key;
use attr_sets::AttrSet;
use dep_basis::is_superkey;
use dep_model::{OutOfMemory, Theory};
use std::alloc::Global;

// The keys of a scheme, ascending: all of them, or one more than are listed. Only those subsets are tried
// that hold what is in every key and have nothing of what is in none.
pub fn searched_keys(
    alloc: Global,
    theory: &Theory,
    scheme: AttrSet,
) -> Result<Vec<AttrSet>, OutOfMemory>
    requires scheme { IsSubset (attributes scheme) (universe_of theory.now) }
    ensures keys { IfOk result (λ found.
        AreFoundKeys (width_of theory.now) (theory_of theory.now) (attributes scheme) found.items) }
{
    let rest = without_attributes_in_no_key(theory, scheme);
    keys_with(alloc, theory, rest, attributes_in_every_key(theory, rest))
}

// The keys of a scheme, each of which has the attributes in every key.
fn keys_with(
    alloc: Global,
    theory: &Theory,
    scheme: AttrSet,
    in_every_key: AttrSet,
) -> Result<Vec<AttrSet>, OutOfMemory>
    requires scheme { IsSubset (attributes scheme) (universe_of theory.now) }
    requires in_every_key { AreInEachSuperkey (width_of theory.now) (theory_of theory.now)
        (attributes scheme)
        (attributes in_every_key) }
    ensures keys { IfOk result (λ found.
        AreFoundKeys (width_of theory.now) (theory_of theory.now) (attributes scheme) found.items) }
{
    let mut found = Vec::new(alloc);
    add_keys(theory, scheme, scheme, in_every_key, &mut found)?;
    found.sort_unstable();
    Ok(found)
}

// Adds the keys of a scheme that lie between two sets, until all have been had, or one more than are
// listed. Where some key lies within the larger set, each other one lacks an attribute of it. So they are
// distinguished by an attribute of that key beyond the smaller set: first those without it, then those with it.
fn add_keys(
    theory: &Theory,
    scheme: AttrSet,
    most: AttrSet,
    least: AttrSet,
    found: &mut Vec<AttrSet>,
) -> Result<(), OutOfMemory>
    requires scheme { IsSubset (attributes scheme) (universe_of theory.now) }
    requires within_scheme { IsSubset (attributes most) (attributes scheme) }
    requires keys { AreSomeKeys (width_of theory.now) (theory_of theory.now)
        (attributes scheme) found.old.items }
    ensures keys { IfOk result (λ _.
        AreSomeKeys (width_of theory.now) (theory_of theory.now) (attributes scheme) found.new.items) }
    ensures kept { IfOk result (λ _. take (length found.old.items) found.new.items ≡ found.old.items) }
    ensures all_keys { IfOk result (λ _.
        HasKeysBetween (width_of theory.now) (theory_of theory.now) (attributes scheme)
        (attributes least) (attributes most)
        found.new.items) }
{
    if found.len() > MOST_KEYS {
        return Ok(());
    }
    let Some(key) = key_within(theory, scheme, most, least, found)? else {
        return Ok(());
    };
    match key.difference(least).first() {
        None => Ok(()),
        Some(attribute) => {
            add_keys(theory, scheme, most.without(attribute), least, found)?;
            add_keys(theory, scheme, most, least.with(attribute), found)
        }
    }
}

// A found key within a set, with few attributes beyond a third. Where there is none and the set is
// a superkey, one is added; where it is no superkey, there is none.
fn key_within(
    theory: &Theory,
    scheme: AttrSet,
    set: AttrSet,
    least: AttrSet,
    found: &mut Vec<AttrSet>,
) -> Result<Option<AttrSet>, OutOfMemory>
    requires scheme { IsSubset (attributes scheme) (universe_of theory.now) }
    requires set { IsSubset (attributes set) (attributes scheme) }
    requires keys { AreSomeKeys (width_of theory.now) (theory_of theory.now)
        (attributes scheme) found.old.items }
    requires within_limit { length found.old.items ≤ MOST_KEYS }
    ensures keys { IfOk result (λ _.
        AreSomeKeys (width_of theory.now) (theory_of theory.now) (attributes scheme) found.new.items) }
    ensures kept { IfOk result (λ _. take (length found.old.items) found.new.items ≡ found.old.items) }
    ensures none { IfOk result (λ key. IsNone key
        → IsSuperkey (width_of theory.now) (theory_of theory.now) (attributes scheme) (attributes set)
        → ⊥) }
    ensures within { IfOk result (λ key. IfSome key (λ k. IsSubset (attributes k) (attributes set))) }
    ensures found { IfOk result (λ key. IfSome key (Contains found.new.items)) }
{
    if let Some(key) = held_key(found, set, least) {
        return Ok(Some(key));
    }
    if !is_superkey(theory, scheme, set) {
        return Ok(None);
    }
    let key = one_key(theory, set);
    found.push(key)?;
    Ok(Some(key))
}
