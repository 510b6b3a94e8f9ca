ghost use Rattle.std.specs.Prelude.{◌≡◌, ◌↔◌, ◌<◌, ℕ, true, IsTrue};
ghost use Rattle.attr_sets.specs.Attributes.{IsSubset};
ghost use Rattle.attr_sets.specs.Sets.{attributes};
ghost use Rattle.dep_model.specs.Theories.{width_of, universe_of, theory_of};
ghost use Rattle.key_listing.specs.Narrowing.{IsInEveryKey, DropsAttributesInNoKey};

use attr_sets::{AttrSet, MOST_ATTRIBUTES};
use dep_basis::{closure, is_superkey};
use dep_model::Theory;
use fd_closure::left_attributes;

// The attributes of a scheme that the scheme's others do not determine. Each is in every key.
pub fn attributes_in_every_key(theory: &Theory, scheme: AttrSet) -> AttrSet
    requires scheme { IsSubset (attributes scheme) (universe_of theory.now) }
    ensures in_every_key { (a : ℕ) → (attributes result a ≡ true)
        ↔ IsInEveryKey (width_of theory.now) (theory_of theory.now) (attributes scheme) a }
{
    let mut in_every_key = AttrSet::empty();
    for i in 0..MOST_ATTRIBUTES {
        if is_in_every_key(theory, scheme, i) {
            in_every_key = in_every_key.with(i);
        }
    }
    in_every_key
}

// Whether an attribute is one of a scheme that the scheme's others do not determine.
fn is_in_every_key(theory: &Theory, scheme: AttrSet, attribute: u8) -> bool
    requires scheme { IsSubset (attributes scheme) (universe_of theory.now) }
    requires attribute { attribute < MOST_ATTRIBUTES }
    ensures in_every_key { IsTrue result
        ↔ IsInEveryKey (width_of theory.now) (theory_of theory.now) (attributes scheme) attribute }
{
    scheme.contains(attribute) && !is_superkey(theory, scheme, scheme.without(attribute))
}

// A scheme without those of its attributes that are in no given left side and that the others determine.
// Each is in no key.
pub fn without_attributes_in_no_key(theory: &Theory, scheme: AttrSet) -> AttrSet
    requires scheme { IsSubset (attributes scheme) (universe_of theory.now) }
    ensures rest { DropsAttributesInNoKey (width_of theory.now) (theory_of theory.now)
        (attributes scheme) (attributes result) }
{
    let used = left_attributes(theory.deps());
    let determined = closure(theory, scheme.intersection(used));
    scheme.difference(determined.difference(used))
}
