ghost use Rattle.std.specs.Prelude.{◌≡◌, ◌<◌, IsTrue};
ghost use Rattle.attr_sets.specs.Attributes.{only, union, IsSubset, IsEmpty, Disjoint};
ghost use Rattle.attr_sets.specs.Sets.{attributes};
ghost use Rattle.dep_model.specs.Keys.{IsSuperkey};
ghost use Rattle.dep_model.specs.Theories.{width_of, universe_of};
ghost use Rattle.fd_closure.specs.Closures.{IsKnownClosure};
ghost use Rattle.which_form.specs.KeyRanges.{IsKeyRange, IsSuperkeyIn, functional_of};
ghost use Rattle.which_form.specs.KeySearches.{AreWanted, HasAllIn, IsFoundIn, KeepsAllIn};

use crate::found::{Found, with_key};
use crate::keys::is_key;
use crate::ranges::KeyRange;
use attr_sets::{AttrSet, MOST_ATTRIBUTES};
use dep_model::Theory;
use fd_closure::{KnownClosure, follows, functional_closure};

// What is found among all keys of a scheme.
pub fn search_all_keys(theory: &Theory, range: KeyRange, wanted: AttrSet, found: Found) -> Found
    requires range { IsKeyRange theory.now range }
    requires wanted { AreWanted theory.now range wanted }
    requires found { IsFoundIn theory.now range wanted found }
    ensures found { IsFoundIn theory.now range wanted result }
    ensures has_all { HasAllIn theory.now range wanted (attributes range.least)
        (union (attributes range.least) (attributes range.varying)) result }
{
    let closed = functional_closure(theory.deps(), range.least);
    let part = KnownClosure {
        of: range.least,
        closed,
    };
    search_keys(theory, range, wanted, part, range.varying, found)
}

// What is found among the keys that hold a part, and beside it attributes of a rest alone: first those keys
// without the first attribute of the rest, then those with it, of which there are none where the part
// determines it.
fn search_keys(
    theory: &Theory,
    range: KeyRange,
    wanted: AttrSet,
    part: KnownClosure,
    rest: AttrSet,
    found: Found,
) -> Found
    requires range { IsKeyRange theory.now range }
    requires wanted { AreWanted theory.now range wanted }
    requires part { IsSubset (attributes part.of) (attributes range.scheme) }
    requires closed { IsKnownClosure (width_of theory.now) (functional_of theory.now) part }
    requires rest { IsSubset (attributes rest) (attributes range.scheme) }
    requires apart { Disjoint (attributes rest) (attributes part.of) }
    requires found { IsFoundIn theory.now range wanted found }
    ensures found { IsFoundIn theory.now range wanted result }
    ensures kept { KeepsAllIn theory.now wanted found result }
    ensures has_all { HasAllIn theory.now range wanted (attributes part.of)
        (union (attributes part.of) (attributes rest)) result }
{
    if range.scheme.is_subset(part.closed) {
        return with_superkey(theory, range, wanted, found, part.of);
    }
    if has_all_between(theory, range, wanted, part, rest, found) {
        return found;
    }
    let Some(attribute) = rest.first() else {
        return found;
    };
    let fewer = rest.without(attribute);
    let before = search_keys(theory, range, wanted, part, fewer, found);
    if part.closed.contains(attribute) {
        return before;
    }
    let more = part_with(theory, part, attribute);
    search_keys(theory, range, wanted, more, fewer, before)
}

// What is found among the keys that hold a superkey, which is itself if any.
fn with_superkey(
    theory: &Theory,
    range: KeyRange,
    wanted: AttrSet,
    found: Found,
    set: AttrSet,
) -> Found
    requires range { IsKeyRange theory.now range }
    requires wanted { AreWanted theory.now range wanted }
    requires found { IsFoundIn theory.now range wanted found }
    requires superkey { IsSuperkeyIn theory.now range (attributes set) }
    ensures found { IsFoundIn theory.now range wanted result }
    ensures kept { KeepsAllIn theory.now wanted found result }
    ensures has_all { HasAllIn theory.now range wanted (attributes set) (attributes range.scheme) result }
{
    if is_key(theory, range, set) {
        with_key(theory, range, wanted, found, set)
    } else {
        found
    }
}

// Whether it is seen at once that nothing more is to be found among the keys that hold a part, and beside
// it attributes of a rest alone: there are none, or their attributes are known, and nothing else is wanted.
fn has_all_between(
    theory: &Theory,
    range: KeyRange,
    wanted: AttrSet,
    part: KnownClosure,
    rest: AttrSet,
    found: Found,
) -> bool
    requires range { IsKeyRange theory.now range }
    requires closed { IsKnownClosure (width_of theory.now) (functional_of theory.now) part }
    requires part { IsSubset (attributes part.of) (attributes range.scheme) }
    requires rest { IsSubset (attributes rest) (attributes range.scheme) }
    ensures has_all { IsTrue result → HasAllIn theory.now range wanted (attributes part.of)
        (union (attributes part.of) (attributes rest)) found }
{
    if all_is_known(wanted, part.of.union(rest), found) {
        return true;
    }
    !may_be_superkey(theory, range.scheme, part, rest)
}

// Whether no attributes are wanted, and those of a set are known to be in keys.
fn all_is_known(wanted: AttrSet, set: AttrSet, found: Found) -> bool
    ensures known { IsTrue result
        → IsEmpty (attributes wanted) × IsSubset (attributes set) (attributes found.in_keys) }
{
    wanted.is_empty() && set.is_subset(found.in_keys)
}

// Whether a part with a rest determines all of a scheme. What the part determines stands in its place.
fn may_be_superkey(theory: &Theory, scheme: AttrSet, part: KnownClosure, rest: AttrSet) -> bool
    requires scheme { IsSubset (attributes scheme) (universe_of theory.now) }
    requires closed { IsKnownClosure (width_of theory.now) (functional_of theory.now) part }
    requires part { IsSubset (attributes part.of) (attributes scheme) }
    requires rest { IsSubset (attributes rest) (attributes scheme) }
    ensures superkey { IsSuperkey (width_of theory.now) (functional_of theory.now) (attributes scheme)
        (union (attributes part.of) (attributes rest)) → IsTrue result }
{
    follows(theory.deps(), part.closed.union(rest), scheme)
}

// A part with an attribute more, and what it determines then.
fn part_with(theory: &Theory, part: KnownClosure, attribute: u8) -> KnownClosure
    requires part { IsSubset (attributes part.of) (universe_of theory.now) }
    requires closed { IsKnownClosure (width_of theory.now) (functional_of theory.now) part }
    requires attribute { attribute < MOST_ATTRIBUTES }
    requires within { IsSubset (only attribute) (universe_of theory.now) }
    ensures of { attributes result.of ≡ union (attributes part.of) (only attribute) }
    ensures closed { IsKnownClosure (width_of theory.now) (functional_of theory.now) result }
{
    let closed = functional_closure(theory.deps(), part.closed.with(attribute));
    KnownClosure {
        of: part.of.with(attribute),
        closed,
    }
}
