ghost use Rattle.std.specs.Prelude.{◌≡◌, ℕ, ◌<◌, ◌↔◌, true, false, IsTrue};
ghost use Rattle.attr_sets.specs.Attributes.{Attributes, only, difference, IsSubset};
ghost use Rattle.attr_sets.specs.Sets.{attributes};
ghost use Rattle.dep_model.specs.Theories.{width_of, universe_of, theory_of};
ghost use Rattle.dep_basis.specs.Parts.{HasTwoParts};
ghost use Rattle.dep_model.specs.declared.form.Form.TheVariants as forms;
ghost use Rattle.normal_forms.specs.Breaking.{Breaks};
ghost use Rattle.normal_forms.specs.Passing.{LiesBetween, HasNoPartsAbout};

use attr_sets::{AttrSet, MOST_ATTRIBUTES};
use dep_basis::{closure, has_two_parts};
use dep_model::Theory;

// Whether it is seen at once that no set between two violates fourth form: the smaller one determines
// all, or the larger one, without two attributes at most that the smaller one lacks, has never two
// parts. Else two attributes in different parts of a set would be in different parts without them.
pub fn parts_none(theory: &Theory, scheme: AttrSet, least: AttrSet, most: AttrSet) -> bool
    requires scheme { IsSubset (attributes scheme) (universe_of theory.now) }
    requires most { IsSubset (attributes most) (attributes scheme) }
    requires least { IsSubset (attributes least) (attributes most) }
    ensures none { IsTrue result → (x : Attributes)
        → LiesBetween (attributes least) (attributes most) x
        → Breaks (width_of theory.now) (theory_of theory.now) forms.Fourth (attributes scheme) x
        → ⊥ }
{
    if scheme.is_subset(closure(theory, least)) {
        return true;
    }
    has_no_parts_about(theory, scheme, least, most)
        && is_whole_without_two(theory, scheme, least, most)
}

// Whether a set without one of its attributes that a smaller one lacks, or without two, never has two
// parts.
fn is_whole_without_two(theory: &Theory, scheme: AttrSet, least: AttrSet, most: AttrSet) -> bool
    requires scheme { IsSubset (attributes scheme) (universe_of theory.now) }
    requires most { IsSubset (attributes most) (attributes scheme) }
    ensures whole { IsTrue result → (a : ℕ) → attributes most a ≡ true → attributes least a ≡ false
        → HasNoPartsAbout (width_of theory.now) (theory_of theory.now) (attributes scheme)
        (attributes least) (difference (attributes most) (only a)) }
{
    for i in 0..MOST_ATTRIBUTES {
        if may_have_parts_without(theory, scheme, least, most, i) {
            return false;
        }
    }
    true
}

// Whether a set has an attribute that a smaller one lacks, and without it, or without one more, has two
// parts.
fn may_have_parts_without(
    theory: &Theory,
    scheme: AttrSet,
    least: AttrSet,
    most: AttrSet,
    attribute: u8,
) -> bool
    requires scheme { IsSubset (attributes scheme) (universe_of theory.now) }
    requires most { IsSubset (attributes most) (attributes scheme) }
    requires attribute { attribute < MOST_ATTRIBUTES }
    ensures none { result ≡ false → attributes most attribute ≡ true
        → attributes least attribute ≡ false
        → HasNoPartsAbout (width_of theory.now) (theory_of theory.now) (attributes scheme)
        (attributes least) (difference (attributes most) (only attribute)) }
{
    if !most.difference(least).contains(attribute) {
        return false;
    }
    !has_no_parts_about(theory, scheme, least, most.without(attribute))
}

// Whether neither a set nor the set without one of its attributes that a smaller one lacks has two
// parts.
fn has_no_parts_about(theory: &Theory, scheme: AttrSet, least: AttrSet, most: AttrSet) -> bool
    requires scheme { IsSubset (attributes scheme) (universe_of theory.now) }
    requires most { IsSubset (attributes most) (attributes scheme) }
    ensures none { IsTrue result
        → HasNoPartsAbout (width_of theory.now) (theory_of theory.now) (attributes scheme)
        (attributes least) (attributes most) }
{
    if has_two_parts(theory, scheme, most) {
        return false;
    }
    for i in 0..MOST_ATTRIBUTES {
        if has_parts_without(theory, scheme, least, most, i) {
            return false;
        }
    }
    true
}

// Whether a set has an attribute that a smaller one lacks, and without it two parts.
fn has_parts_without(
    theory: &Theory,
    scheme: AttrSet,
    least: AttrSet,
    most: AttrSet,
    attribute: u8,
) -> bool
    requires scheme { IsSubset (attributes scheme) (universe_of theory.now) }
    requires most { IsSubset (attributes most) (attributes scheme) }
    requires attribute { attribute < MOST_ATTRIBUTES }
    ensures parts { IsTrue result
        ↔ ((attributes most attribute ≡ true) × (attributes least attribute ≡ false)
        × HasTwoParts (width_of theory.now) (theory_of theory.now) (attributes scheme)
        (difference (attributes most) (only attribute))) }
{
    if !most.difference(least).contains(attribute) {
        return false;
    }
    has_two_parts(theory, scheme, most.without(attribute))
}
