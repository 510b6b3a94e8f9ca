ghost use Rattle.std.specs.Prelude.{◌≡◌, ◌↔◌, ◌<◌, ℕ, true, false, IsNone, IfSome};
ghost use Rattle.attr_sets.specs.Attributes.{only, IsSubset};
ghost use Rattle.attr_sets.specs.Sets.{attributes};
ghost use Rattle.dep_model.specs.Keys.{IsPrime};
ghost use Rattle.dep_model.specs.Theories.{width_of, universe_of, theory_of};
ghost use Rattle.which_form.specs.KeyRanges.{IsKeyRange, functional_of};
ghost use Rattle.which_form.specs.KeySearches.{AreWanted, DeterminesSome, IsLeastDetermined};
ghost use Rattle.which_form.specs.SecondForm.{IsSecond, IsFirstInSecond};

use crate::found::Found;
use crate::ranges::{KeyRange, key_range};
use crate::searching::search_all_keys;
use attr_sets::AttrSet;
use dep_model::Theory;
use fd_closure::functional_closure;
use normal_forms::Breach;

// The violation of second form that is named. First the attributes are searched that are in no key, then
// the first proper part of a key that determines one.
pub fn second_violation(theory: &Theory, scheme: AttrSet) -> Option<Breach>
    requires scheme { IsSubset (attributes scheme) (universe_of theory.now) }
    ensures none { IsNone result
        ↔ IsSecond (width_of theory.now) (theory_of theory.now) (attributes scheme) }
    ensures named { IfSome result (λ breach.
        IsFirstInSecond (width_of theory.now) (functional_of theory.now) (attributes scheme)
        (attributes breach.lhs) (attributes breach.rhs)) }
{
    let range = key_range(theory, scheme);
    let wanted = attributes_in_no_key(theory, range);
    let known = Found {
        in_keys: scheme.difference(wanted),
        first: None,
    };
    let found = search_all_keys(theory, range, wanted, known);
    match found.first {
        Some(lhs) => {
            let rhs = least_determined(theory, wanted, lhs);
            Some(Breach { lhs, rhs })
        }
        None => None,
    }
}

// The attributes of a scheme that are in no key.
fn attributes_in_no_key(theory: &Theory, range: KeyRange) -> AttrSet
    requires range { IsKeyRange theory.now range }
    ensures in_no_key { AreWanted theory.now range result }
    ensures others { (a : ℕ) → attributes range.scheme a ≡ true → attributes result a ≡ false
        → IsPrime (width_of theory.now) (functional_of theory.now) (attributes range.scheme) a }
{
    let none = AttrSet::empty();
    let known = Found {
        in_keys: none,
        first: None,
    };
    let found = search_all_keys(theory, range, none, known);
    range.scheme.difference(found.in_keys)
}

// The first of some attributes that a set determines, where it determines one.
fn least_determined(theory: &Theory, wanted: AttrSet, lhs: AttrSet) -> AttrSet
    requires lhs { IsSubset (attributes lhs) (universe_of theory.now) }
    requires determines { DeterminesSome (width_of theory.now) (functional_of theory.now)
        (attributes wanted) (attributes lhs) }
    ensures least { IsLeastDetermined (width_of theory.now) (functional_of theory.now)
        (attributes wanted) (attributes lhs) (attributes result) }
{
    let determined = functional_closure(theory.deps(), lhs).intersection(wanted);
    match determined.first() {
        Some(attribute) => AttrSet::single(attribute),
        None => AttrSet::empty(),
    }
}
