ghost use Rattle.std.specs.Prelude.{◌≡◌, ◌⊎◌, ℕ, All, Some, IfSome};
ghost use Rattle.attr_sets.specs.Attributes.{Attributes, below, IsSubset, IsBefore};
ghost use Rattle.attr_sets.specs.Narrowing.{IsNarrowed};
ghost use Rattle.attr_sets.specs.Sets.{attributes};
ghost use Rattle.attr_sets.specs.declared.narrowing.Direction.TheVariants as directions;
ghost use Rattle.dep_model.specs.Dependencies.{functional_part};
ghost use Rattle.dep_model.specs.Deps.{dependencies_of, IsDepWithin};
ghost use Rattle.dep_model.specs.Theories.{width_of};
ghost use Rattle.which_form.specs.KeyRanges.{IsKeyIn, IsKeyRange, functional_of};
ghost use Rattle.which_form.specs.KeySearches.{AreWanted, DeterminesSome, HasAllOf, IsFoundIn, KeepsAllIn, SaysWhetherDetermines};

use crate::ranges::KeyRange;
use attr_sets::{AttrSet, Direction, narrowed};
use dep_model::{Dep, Theory};
use fd_closure::functional_closure;
use std::cmp::Ordering;

// What is found among the keys of a scheme: the attributes that are in some, and of their proper parts the
// first that determines one of some attributes.
#[derive(Clone, Copy, Debug)]
pub struct Found {
    pub in_keys: AttrSet,
    pub first: Option<AttrSet>,
}

// What is found, with one more key.
pub fn with_key(
    theory: &Theory,
    range: KeyRange,
    wanted: AttrSet,
    found: Found,
    key: AttrSet,
) -> Found
    requires range { IsKeyRange theory.now range }
    requires wanted { AreWanted theory.now range wanted }
    requires found { IsFoundIn theory.now range wanted found }
    requires key { IsKeyIn theory.now range (attributes key) }
    ensures found { IsFoundIn theory.now range wanted result }
    ensures kept { KeepsAllIn theory.now wanted found result }
    ensures has_all { HasAllOf (width_of theory.now) (functional_of theory.now) (attributes wanted)
        result (attributes key) }
{
    let in_keys = found.in_keys.union(key);
    if wanted.is_empty() {
        let first = found.first;
        return Found { in_keys, first };
    }
    let part = first_determining(theory.deps(), wanted, key.intersection(range.sides));
    if part == key {
        let first = found.first;
        return Found { in_keys, first };
    }
    let first = Some(earlier(found.first, part));
    Found { in_keys, first }
}

// The first subset of a set, in the order of sets, that determines one of some attributes, where the set
// does: each attribute, from the last to the first, is left out if the rest still determines one.
fn first_determining(deps: &[Dep], wanted: AttrSet, set: AttrSet) -> AttrSet
    ensures narrowed { (n : ℕ) → All (IsDepWithin (below n)) deps.now → IsSubset (attributes set) (below n)
        → IsNarrowed directions.Descending
        (DeterminesSome n (functional_part (dependencies_of deps.now)) (attributes wanted))
        (attributes set) (attributes set) (attributes result) }
{
    narrowed(
        set,
        set,
        Direction::Descending,
        |part| determines_some(deps, part, wanted),
    )
}

// Whether a set determines one of some attributes by the functional dependencies of a list.
fn determines_some(deps: &[Dep], set: AttrSet, wanted: AttrSet) -> bool
    ensures determines { SaysWhetherDetermines deps.now (attributes set) (attributes wanted) result }
{
    functional_closure(deps, set).intersects(wanted)
}

// Of a set and one that was found before, if any, the one that comes first.
fn earlier(found: Option<AttrSet>, set: AttrSet) -> AttrSet
    ensures either { (result ≡ set) ⊎ (found ≡ Some result) }
    ensures before { (x : Attributes) → IsBefore x (attributes result) → IsBefore x (attributes set) }
    ensures before_found { IfSome found (λ other. (x : Attributes)
        → IsBefore x (attributes result) → IsBefore x (attributes other)) }
{
    match found {
        Some(other) => first_of(other, set),
        None => set,
    }
}

// Of two sets the one that comes first.
fn first_of(one: AttrSet, other: AttrSet) -> AttrSet
    ensures either { (result ≡ other) ⊎ (result ≡ one) }
    ensures before_one { (x : Attributes) → IsBefore x (attributes result) → IsBefore x (attributes one) }
    ensures before_other { (x : Attributes) → IsBefore x (attributes result)
        → IsBefore x (attributes other) }
{
    match one.cmp(&other) {
        Ordering::Less => one,
        Ordering::Equal => other,
        Ordering::Greater => other,
    }
}
