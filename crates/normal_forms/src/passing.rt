ghost use Rattle.std.specs.Prelude.{◌≡◌, ℕ, ◌<◌, ◌↔◌, true, false, IsTrue};
ghost use Rattle.attr_sets.specs.Attributes.{Attributes, only, difference, IsSubset, IsBefore};
ghost use Rattle.attr_sets.specs.Sets.{attributes};
ghost use Rattle.dep_model.specs.Keys.{InClosure};
ghost use Rattle.dep_model.specs.Theories.{width_of, universe_of};
ghost use Rattle.dep_model.specs.declared.form.Form.TheVariants as forms;
ghost use Rattle.normal_forms.specs.Breaking.{Breaks};
ghost use Rattle.normal_forms.specs.Passing.{theory_by, LiesBetween};

use attr_sets::{AttrSet, MOST_ATTRIBUTES};
use dep_basis::closure;
use dep_model::Theory;
use fd_closure::functional_closure;

// The fewest attributes that may still be added to a set where a search looks whether it can pass over
// all that comes of it: what that costs grows with their number or its square, what it saves
// exponentially.
pub const FEWEST_PASSED: u8 = 6;

// A set with all those attributes of another that come before its first: the last of the sets that
// come of it by adding such attributes.
pub fn filled(set: AttrSet, whole: AttrSet) -> AttrSet
    requires within { IsSubset (attributes set) (attributes whole) }
    ensures holds { IsSubset (attributes set) (attributes result) }
    ensures within { IsSubset (attributes result) (attributes whole) }
    ensures between { (x : Attributes) → IsSubset x (attributes whole) → IsBefore (attributes set) x
        → (IsBefore (attributes result) x → ⊥) → LiesBetween (attributes set) (attributes result) x }
{
    match set.first() {
        Some(first) => set.union(whole.intersection(AttrSet::full(first))),
        None => whole,
    }
}

// What a set determines by the functional dependencies alone, or by all.
pub fn closed_set(theory: &Theory, functional: bool, lhs: AttrSet) -> AttrSet
    requires lhs { IsSubset (attributes lhs) (universe_of theory.now) }
    ensures closure { (a : ℕ) → (attributes result a ≡ true)
        ↔ InClosure (width_of theory.now) (theory_by functional theory.now) (attributes lhs) a }
{
    if functional {
        functional_closure(theory.deps(), lhs)
    } else {
        closure(theory, lhs)
    }
}

// Whether it is seen at once that no set between two determines some of a scheme beyond itself, and not
// all: the smaller one determines all, or no attribute that it lacks is determined without it by the
// larger one.
pub fn determines_none(
    theory: &Theory,
    scheme: AttrSet,
    functional: bool,
    least: AttrSet,
    most: AttrSet,
) -> bool
    requires scheme { IsSubset (attributes scheme) (universe_of theory.now) }
    requires most { IsSubset (attributes most) (attributes scheme) }
    requires least { IsSubset (attributes least) (attributes most) }
    ensures none { IsTrue result → (x : Attributes)
        → LiesBetween (attributes least) (attributes most) x
        → Breaks (width_of theory.now) (theory_by functional theory.now) forms.Bcnf (attributes scheme) x
        → ⊥ }
{
    if scheme.is_subset(closed_set(theory, functional, least)) {
        return true;
    }
    let found = closed_set(theory, functional, most).intersection(scheme);
    found.is_subset(most) && is_independent(theory, functional, least, most)
}

// Whether a set determines none of its attributes, beside those of a smaller one, without it.
fn is_independent(theory: &Theory, functional: bool, least: AttrSet, most: AttrSet) -> bool
    requires most { IsSubset (attributes most) (universe_of theory.now) }
    ensures independent { IsTrue result → (a : ℕ) → attributes most a ≡ true
        → attributes least a ≡ false
        → InClosure (width_of theory.now) (theory_by functional theory.now)
        (difference (attributes most) (only a)) a → ⊥ }
{
    for i in 0..MOST_ATTRIBUTES {
        if is_determined_without(theory, functional, least, most, i) {
            return false;
        }
    }
    true
}

// Whether a set has an attribute that a smaller one lacks, and determines it without it.
fn is_determined_without(
    theory: &Theory,
    functional: bool,
    least: AttrSet,
    most: AttrSet,
    attribute: u8,
) -> bool
    requires most { IsSubset (attributes most) (universe_of theory.now) }
    requires attribute { attribute < MOST_ATTRIBUTES }
    ensures determined { IsTrue result
        ↔ ((attributes most attribute ≡ true) × (attributes least attribute ≡ false)
        × InClosure (width_of theory.now) (theory_by functional theory.now)
        (difference (attributes most) (only attribute)) attribute) }
{
    if !most.difference(least).contains(attribute) {
        return false;
    }
    closed_set(theory, functional, most.without(attribute)).contains(attribute)
}
