ghost use Rattle.std.specs.Prelude.{◌≡◌, ℕ, ◌↔◌, true, List, IsTrue, IsNone, IfSome};
ghost use Rattle.attr_sets.specs.Attributes.{Attributes, below, difference, IsSubset, IsEmpty, IsFirstFrom};
ghost use Rattle.attr_sets.specs.Sets.{attributes};
ghost use Rattle.dep_model.specs.Dependencies.{Dependency, functional_part};
ghost use Rattle.dep_model.specs.Keys.{InClosure, IsPartOn};
ghost use Rattle.dep_model.specs.Theories.{width_of, universe_of, theory_of};
ghost use Rattle.normal_forms.specs.Beginning.{IsKnownPart};
ghost use Rattle.normal_forms.specs.Breaking.{Breaks, IsFirstBreaking, NoneBreaks};
ghost use Rattle.normal_forms.specs.Passing.{LiesBetween, PassesOver};
ghost use Rattle.normal_forms.specs.Violations.{Violates};

use crate::beginning::{KnownPart, begun, closure_begun, first_few, next_part, no_part};
use crate::parting::parts_none;
use crate::passing::{FEWEST_PASSED, determines_none, filled};
use attr_sets::AttrSet;
use dep_basis::{block, closure, has_two_parts};
use dep_model::{Form, Theory};

// Whether a left side violates Boyce-Codd or fourth form. Where all dependencies are functional
// both are violated by a left side that determines some of the rest and not all. Else a left side
// of which a part is known to determine all is named first, and one with one part alone, which most
// often is all that is asked.
pub fn breaks(
    theory: &Theory,
    scheme: AttrSet,
    form: Form,
    functional: bool,
    part: KnownPart,
    lhs: AttrSet,
) -> bool
    requires scheme { IsSubset (attributes scheme) (universe_of theory.now) }
    requires part { IsKnownPart functional theory.now part }
    requires lhs { IsSubset (attributes lhs) (attributes scheme) }
    requires form { form ≡ Form.Third → ⊥ }
    requires functional { IsTrue functional
        → functional_part (theory_of theory.now) ≡ theory_of theory.now }
    ensures breaks { IsTrue result
        ↔ Breaks (width_of theory.now) (theory_of theory.now) form (attributes scheme)
        (attributes lhs) }
{
    if functional {
        return determines_some(scheme, lhs, closure_begun(theory, functional, part, lhs));
    }
    if scheme.is_subset(begun(part, lhs)) {
        return false;
    }
    if !has_two_parts(theory, scheme, lhs) {
        return false;
    }
    let found = closure_begun(theory, functional, part, lhs);
    match form {
        Form::Fourth => !scheme.is_subset(found),
        Form::Third | Form::Bcnf => determines_some(scheme, lhs, found),
    }
}

// Whether the closed set of a left side has more than it of a scheme, and not all.
fn determines_some(scheme: AttrSet, lhs: AttrSet, closed: AttrSet) -> bool
    requires lhs { IsSubset (attributes lhs) (attributes scheme) }
    ensures breaks { (n : ℕ) (ds : List Dependency) → IsSubset (attributes scheme) (below n)
        → ((a : ℕ) → (attributes closed a ≡ true) ↔ InClosure n ds (attributes lhs) a)
        → IsTrue result ↔ Breaks n ds Form.Bcnf (attributes scheme) (attributes lhs) }
{
    !scheme.is_subset(closed) && !closed.intersection(scheme).is_subset(lhs)
}

// The first of the subsets of a set that violates Boyce-Codd or fourth form on a scheme.
pub fn first_breaking(
    theory: &Theory,
    scheme: AttrSet,
    form: Form,
    functional: bool,
    whole: AttrSet,
) -> Option<AttrSet>
    requires scheme { IsSubset (attributes scheme) (universe_of theory.now) }
    requires within_scheme { IsSubset (attributes whole) (attributes scheme) }
    requires form { form ≡ Form.Third → ⊥ }
    requires functional { IsTrue functional
        → functional_part (theory_of theory.now) ≡ theory_of theory.now }
    ensures none { IsNone result
        → NoneBreaks (width_of theory.now) (theory_of theory.now) form (attributes scheme)
        (attributes whole) }
    ensures first { IfSome result (λ lhs.
        IsFirstBreaking (width_of theory.now) (theory_of theory.now) form (attributes scheme)
        (attributes whole) (attributes lhs)) }
{
    let few = first_few(whole);
    let mut part = no_part();
    let mut next = Some(AttrSet::empty());
    while let Some(set) = next {
        part = next_part(theory, functional, part, few, set);
        if breaks(theory, scheme, form, functional, part, set) {
            return Some(set);
        }
        next = passed(theory, scheme, form, functional, whole, set).next_subset(whole);
    }
    None
}

// The last of the subsets of a set that are passed over after one: with it all that comes of it by
// adding attributes before its first, where it is seen at once that nothing of that violates the form.
fn passed(
    theory: &Theory,
    scheme: AttrSet,
    form: Form,
    functional: bool,
    whole: AttrSet,
    set: AttrSet,
) -> AttrSet
    requires scheme { IsSubset (attributes scheme) (universe_of theory.now) }
    requires within_scheme { IsSubset (attributes whole) (attributes scheme) }
    requires form { form ≡ Form.Third → ⊥ }
    requires functional { IsTrue functional
        → functional_part (theory_of theory.now) ≡ theory_of theory.now }
    requires set { IsSubset (attributes set) (attributes whole) }
    ensures holds { IsSubset (attributes set) (attributes result) }
    ensures within { IsSubset (attributes result) (attributes whole) }
    ensures passed { PassesOver
        (Breaks (width_of theory.now) (theory_of theory.now) form (attributes scheme))
        (attributes whole) (attributes set) (attributes result) }
{
    let most = filled(set, whole);
    let few = most.difference(set).len() < FEWEST_PASSED;
    if few {
        return set;
    }
    let passes = breaks_none(theory, scheme, form, functional, set, most);
    if passes { most } else { set }
}

// Whether it is seen at once that no set between two violates Boyce-Codd or fourth form.
fn breaks_none(
    theory: &Theory,
    scheme: AttrSet,
    form: Form,
    functional: bool,
    least: AttrSet,
    most: AttrSet,
) -> bool
    requires scheme { IsSubset (attributes scheme) (universe_of theory.now) }
    requires most { IsSubset (attributes most) (attributes scheme) }
    requires least { IsSubset (attributes least) (attributes most) }
    requires form { form ≡ Form.Third → ⊥ }
    requires functional { IsTrue functional
        → functional_part (theory_of theory.now) ≡ theory_of theory.now }
    ensures none { IsTrue result → (x : Attributes)
        → LiesBetween (attributes least) (attributes most) x
        → Breaks (width_of theory.now) (theory_of theory.now) form (attributes scheme) x → ⊥ }
{
    if functional {
        return determines_none(theory, scheme, true, least, most);
    }
    match form {
        Form::Fourth => parts_none(theory, scheme, least, most),
        Form::Third | Form::Bcnf => determines_none(theory, scheme, false, least, most),
    }
}

// The right side of a left side that violates Boyce-Codd or fourth form: for the one all that it
// determines beyond itself, for the other the part with the first attribute beyond it.
pub fn right_side(theory: &Theory, scheme: AttrSet, form: Form, lhs: AttrSet) -> AttrSet
    requires scheme { IsSubset (attributes scheme) (universe_of theory.now) }
    requires lhs { IsSubset (attributes lhs) (attributes scheme) }
    requires form { form ≡ Form.Third → ⊥ }
    requires breaks { Breaks (width_of theory.now) (theory_of theory.now) form (attributes scheme)
        (attributes lhs) }
    ensures violates { Violates (width_of theory.now) (theory_of theory.now) form (attributes scheme)
        (attributes lhs) (attributes result) }
{
    match form {
        Form::Fourth => first_part(theory, scheme, lhs),
        Form::Third | Form::Bcnf => closure(theory, lhs).intersection(scheme).difference(lhs),
    }
}

/// The part of a left side with the first attribute beyond it; the empty set where nothing lies beyond
/// it.
pub fn first_part(theory: &Theory, scheme: AttrSet, lhs: AttrSet) -> AttrSet
    requires scheme { IsSubset (attributes scheme) (universe_of theory.now) }
    requires lhs { IsSubset (attributes lhs) (attributes scheme) }
    ensures first { (a : ℕ) → IsFirstFrom (difference (attributes scheme) (attributes lhs)) 0 a
        → attributes result a ≡ true }
    ensures part { (IsEmpty (difference (attributes scheme) (attributes lhs)) → ⊥)
        → IsPartOn (width_of theory.now) (theory_of theory.now) (attributes scheme) (attributes lhs)
        (attributes result) }
{
    let Some(first) = scheme.difference(lhs).first() else {
        return AttrSet::empty();
    };
    match block(theory, lhs, first) {
        Some(found) => found.intersection(scheme),
        None => AttrSet::single(first),
    }
}
