ghost use Rattle.std.specs.Prelude.{◌≡◌, ℕ, ◌↔◌, true, IsNone, IfSome};
ghost use Rattle.attr_sets.specs.Attributes.{IsSubset};
ghost use Rattle.attr_sets.specs.Sets.{attributes};
ghost use Rattle.dep_model.specs.Dependencies.{functional_part};
ghost use Rattle.dep_model.specs.Forms.{IsThird};
ghost use Rattle.dep_model.specs.Keys.{IsSuperkey};
ghost use Rattle.dep_model.specs.Theories.{width_of, universe_of, theory_of};
ghost use Rattle.fd_closure.specs.LeftSides.{left_sides};
ghost use Rattle.normal_forms.specs.Beginning.{IsKnownPart};
ghost use Rattle.normal_forms.specs.Breaking.{Breaks};
ghost use Rattle.normal_forms.specs.Passing.{PassesOver};
ghost use Rattle.normal_forms.specs.Violations.{DeterminesBeyond};
ghost use Rattle.normal_forms.specs.Chosen.{IsChosenViolation};

use crate::beginning::{KnownPart, closure_begun, first_few, next_part, no_part};
use crate::forms::Breach;
use crate::narrowing::functionally_searched_attributes;
use crate::passing::{FEWEST_PASSED, determines_none, filled};
use crate::primes::{Sifted, prime_or_not};
use attr_sets::AttrSet;
use dep_model::{Form, Theory};

// The chosen violation of third normal form. Whether an attribute is prime is found out where it
// is asked first, and kept.
pub fn third_violation(theory: &Theory, scheme: AttrSet) -> Option<Breach>
    requires scheme { IsSubset (attributes scheme) (universe_of theory.now) }
    ensures none { IsNone result
        → IsThird (width_of theory.now) (theory_of theory.now) (attributes scheme) }
    ensures chosen { IfSome result (λ breach.
        IsChosenViolation (width_of theory.now) (theory_of theory.now) Form.Third (attributes scheme)
        (attributes breach.lhs) (attributes breach.rhs)) }
    ensures in_left_sides { IfSome result (λ breach.
        IsSubset (attributes breach.lhs) (left_sides (theory_of theory.now))) }
{
    let whole = functionally_searched_attributes(theory, scheme);
    let few = first_few(whole);
    let mut part = no_part();
    let mut primes = AttrSet::empty();
    let mut next = Some(AttrSet::empty());
    while let Some(lhs) = next {
        part = next_part(theory, true, part, few, lhs);
        let beyond = determined_beyond(theory, scheme, part, lhs);
        match prime_or_not(theory, scheme, whole, primes, beyond) {
            Sifted::Prime(known) => primes = known,
            Sifted::NotPrime(attribute) => {
                let rhs = AttrSet::single(attribute);
                return Some(Breach { lhs, rhs });
            }
        }
        next = passed_third(theory, scheme, whole, lhs).next_subset(whole);
    }
    None
}

// The last of the subsets of a set that are passed over after one: with it all that comes of it by
// adding attributes before its first, where it is seen at once that nothing of that determines some of
// the scheme and not all.
fn passed_third(theory: &Theory, scheme: AttrSet, whole: AttrSet, set: AttrSet) -> AttrSet
    requires scheme { IsSubset (attributes scheme) (universe_of theory.now) }
    requires within_scheme { IsSubset (attributes whole) (attributes scheme) }
    requires set { IsSubset (attributes set) (attributes whole) }
    ensures holds { IsSubset (attributes set) (attributes result) }
    ensures within { IsSubset (attributes result) (attributes whole) }
    ensures passed { PassesOver
        (Breaks (width_of theory.now) (functional_part (theory_of theory.now)) Form.Bcnf
        (attributes scheme))
        (attributes whole) (attributes set) (attributes result) }
{
    let most = filled(set, whole);
    let few = most.difference(set).len() < FEWEST_PASSED;
    if few {
        return set;
    }
    let passes = determines_none(theory, scheme, true, set, most);
    if passes { most } else { set }
}

// What a left side determines of a scheme beyond itself by the functional dependencies; nothing
// where it is a superkey.
fn determined_beyond(theory: &Theory, scheme: AttrSet, part: KnownPart, lhs: AttrSet) -> AttrSet
    requires scheme { IsSubset (attributes scheme) (universe_of theory.now) }
    requires part { IsKnownPart true theory.now part }
    requires lhs { IsSubset (attributes lhs) (attributes scheme) }
    ensures beyond { (a : ℕ) → (attributes result a ≡ true)
        ↔ ((IsSuperkey (width_of theory.now) (functional_part (theory_of theory.now))
        (attributes scheme) (attributes lhs) → ⊥)
        × DeterminesBeyond (width_of theory.now) (functional_part (theory_of theory.now))
        (attributes scheme) (attributes lhs) a) }
{
    let found = closure_begun(theory, true, part, lhs);
    if scheme.is_subset(found) {
        return AttrSet::empty();
    }
    found.intersection(scheme).difference(lhs)
}
