ghost use Rattle.std.specs.Prelude.{◌≡◌, ◌↔◌, true, IsTrue, IsNone, IfSome};
ghost use Rattle.attr_sets.specs.Attributes.{union, IsSubset};
ghost use Rattle.attr_sets.specs.Sets.{attributes};
ghost use Rattle.dep_model.specs.Dependencies.{functional_part};
ghost use Rattle.dep_model.specs.Keys.{IsSuperkey, IsKey, IsPrime};
ghost use Rattle.dep_model.specs.Theories.{width_of, universe_of, theory_of};
ghost use Rattle.normal_forms.specs.Adding.{AddOnlyThemselves};
ghost use Rattle.normal_forms.specs.Beginning.{IsKnownPart};
ghost use Rattle.normal_forms.specs.Passing.{PassesOver};
ghost use Rattle.normal_forms.specs.Primes.{BecomesSuperkeyBy, ArePrime, IsPrimeOrNot};

use crate::beginning::{KnownPart, begun, first_few, next_part, no_part};
use crate::passing::{FEWEST_PASSED, filled};
use attr_sets::AttrSet;
use dep_model::Theory;
use fd_closure::{follows, functional_key};

// What is known of some attributes: all are prime, as are these; or which is the least that is not.
#[derive(Clone, Copy, Debug)]
pub enum Sifted {
    Prime(AttrSet),
    NotPrime(u8),
}

// Whether some attributes of a scheme are prime by the functional dependencies. Some are known to
// be; each key that is found adds to them.
pub fn prime_or_not(
    theory: &Theory,
    scheme: AttrSet,
    whole: AttrSet,
    primes: AttrSet,
    candidates: AttrSet,
) -> Sifted
    requires scheme { IsSubset (attributes scheme) (universe_of theory.now) }
    requires within_scheme { IsSubset (attributes whole) (attributes scheme) }
    requires added { AddOnlyThemselves (width_of theory.now)
        (functional_part (theory_of theory.now)) (attributes scheme) (attributes whole) }
    requires primes { ArePrime (width_of theory.now) (functional_part (theory_of theory.now))
        (attributes scheme) (attributes primes) }
    requires candidates { IsSubset (attributes candidates) (attributes scheme) }
    ensures prime_or_not { IsPrimeOrNot (width_of theory.now) (functional_part (theory_of theory.now))
        (attributes scheme) (attributes primes) (attributes candidates) result }
{
    let mut known = primes;
    loop {
        let Some(attribute) = candidates.difference(known).first() else {
            return Sifted::Prime(known);
        };
        match key_with(theory, scheme, whole, attribute) {
            Some(key) => known = known.union(key),
            None => return Sifted::NotPrime(attribute),
        }
    }
}

// A key of a scheme with an attribute in it, by the functional dependencies; none where the
// attribute is not prime. Where some set becomes a superkey by the attribute, one does that has
// all the attributes which add only themselves.
fn key_with(theory: &Theory, scheme: AttrSet, whole: AttrSet, attribute: u8) -> Option<AttrSet>
    requires scheme { IsSubset (attributes scheme) (universe_of theory.now) }
    requires within_scheme { IsSubset (attributes whole) (attributes scheme) }
    requires added { AddOnlyThemselves (width_of theory.now)
        (functional_part (theory_of theory.now)) (attributes scheme) (attributes whole) }
    requires attribute { attributes scheme attribute ≡ true }
    ensures none { IsNone result
        → IsPrime (width_of theory.now) (functional_part (theory_of theory.now))
        (attributes scheme) attribute → ⊥ }
    ensures key { IfSome result (λ key.
        IsKey (width_of theory.now) (functional_part (theory_of theory.now)) (attributes scheme)
        (attributes key)) }
    ensures member { IfSome result (λ key. attributes key attribute ≡ true) }
{
    let rest = scheme.difference(whole).without(attribute);
    let others = whole.without(attribute);
    let few = first_few(others);
    let mut part = no_part();
    let mut next = Some(AttrSet::empty());
    while let Some(set) = next {
        let before = set.union(rest);
        part = next_part(theory, true, part, few, before);
        if becomes_superkey_by(theory, scheme, part, before, attribute) {
            return Some(functional_key(theory.deps(), before.with(attribute)));
        }
        next = passed_keys(theory, scheme, part, rest, attribute, others, set).next_subset(others);
    }
    None
}

// The last of the subsets of a set that are passed over after one: with it all that comes of it by
// adding attributes before its first, where with the rest it is a superkey, or where all of that with
// the rest and the attribute is none.
fn passed_keys(
    theory: &Theory,
    scheme: AttrSet,
    part: KnownPart,
    rest: AttrSet,
    attribute: u8,
    whole: AttrSet,
    set: AttrSet,
) -> AttrSet
    requires scheme { IsSubset (attributes scheme) (universe_of theory.now) }
    requires part { IsKnownPart true theory.now part }
    requires whole { IsSubset (attributes whole) (attributes scheme) }
    requires rest { IsSubset (attributes rest) (attributes scheme) }
    requires attribute { attributes scheme attribute ≡ true }
    requires set { IsSubset (attributes set) (attributes whole) }
    ensures holds { IsSubset (attributes set) (attributes result) }
    ensures within { IsSubset (attributes result) (attributes whole) }
    ensures passed { PassesOver
        (λ y. BecomesSuperkeyBy (width_of theory.now) (functional_part (theory_of theory.now))
        (attributes scheme) (union y (attributes rest)) attribute)
        (attributes whole) (attributes set) (attributes result) }
{
    let most = filled(set, whole);
    let few = most.difference(set).len() < FEWEST_PASSED;
    if few {
        return set;
    }
    let with_rest = set.union(rest);
    if is_superkey(theory, scheme, part, with_rest) {
        return most;
    }
    let with_most = most.union(rest).with(attribute);
    if is_superkey(theory, scheme, part, with_most) {
        set
    } else {
        most
    }
}

// Whether a set is no superkey of a scheme and becomes one with an attribute.
fn becomes_superkey_by(
    theory: &Theory,
    scheme: AttrSet,
    part: KnownPart,
    set: AttrSet,
    attribute: u8,
) -> bool
    requires scheme { IsSubset (attributes scheme) (universe_of theory.now) }
    requires part { IsKnownPart true theory.now part }
    requires set { IsSubset (attributes set) (attributes scheme) }
    requires attribute { attributes scheme attribute ≡ true }
    ensures becomes_superkey { IsTrue result
        ↔ BecomesSuperkeyBy (width_of theory.now) (functional_part (theory_of theory.now))
        (attributes scheme) (attributes set) attribute }
{
    is_superkey(theory, scheme, part, set.with(attribute))
        && !is_superkey(theory, scheme, part, set)
}

// Whether a set determines all of a scheme by the functional dependencies. What it determines is found
// from what a part is known to determine on.
fn is_superkey(theory: &Theory, scheme: AttrSet, part: KnownPart, set: AttrSet) -> bool
    requires scheme { IsSubset (attributes scheme) (universe_of theory.now) }
    requires part { IsKnownPart true theory.now part }
    requires set { IsSubset (attributes set) (attributes scheme) }
    ensures superkey { IsTrue result
        ↔ IsSuperkey (width_of theory.now) (functional_part (theory_of theory.now))
        (attributes scheme) (attributes set) }
{
    follows(theory.deps(), begun(part, set), scheme)
}
