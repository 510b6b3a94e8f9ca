ghost use Rattle.std.specs.Prelude.{◌≡◌, ◌↔◌, ℕ, ◌<◌, true, IsTrue};
ghost use Rattle.attr_sets.specs.Attributes.{IsSubset};
ghost use Rattle.attr_sets.specs.Sets.{attributes};
ghost use Rattle.dep_model.specs.Theories.{width_of, universe_of};
ghost use Rattle.key_listing.specs.Narrowing.{IsInEveryKey};
ghost use Rattle.normal_forms.specs.Adding.{AddOnlyThemselves};
ghost use Rattle.which_form.specs.KeyRanges.{IsKeyRange, functional_of};

use attr_sets::{AttrSet, MOST_ATTRIBUTES};
use dep_model::Theory;
use fd_closure::{functional_closure, functional_left_attributes, is_functional_superkey};

// Between which sets the keys of a scheme lie by the functional dependencies: each has the least attributes,
// and beside them varying ones alone. The attributes that are no sides add only themselves.
#[derive(Clone, Copy, Debug)]
pub struct KeyRange {
    pub scheme: AttrSet,
    pub sides: AttrSet,
    pub least: AttrSet,
    pub varying: AttrSet,
}

// The range of the keys of a scheme. What the attributes in every key determine is in none, but for
// themselves; nor is what stands in no left side and is determined by the others (Saiedian and Spencer
// 1996).
pub fn key_range(theory: &Theory, scheme: AttrSet) -> KeyRange
    requires scheme { IsSubset (attributes scheme) (universe_of theory.now) }
    ensures range { IsKeyRange theory.now result }
    ensures scheme { result.scheme ≡ scheme }
{
    let sides = sides_in(theory, scheme);
    let least = attributes_in_every_key(theory, scheme);
    let closed = functional_closure(theory.deps(), least);
    let varying = sides.difference(closed);
    KeyRange {
        scheme,
        sides,
        least,
        varying,
    }
}

// The attributes of a scheme in those left sides that lie within what it determines.
fn sides_in(theory: &Theory, scheme: AttrSet) -> AttrSet
    requires scheme { IsSubset (attributes scheme) (universe_of theory.now) }
    ensures within { IsSubset (attributes result) (attributes scheme) }
    ensures added { AddOnlyThemselves (width_of theory.now) (functional_of theory.now)
        (attributes scheme) (attributes result) }
{
    let reach = functional_closure(theory.deps(), scheme);
    functional_left_attributes(theory.deps(), reach).intersection(scheme)
}

// The attributes of a scheme that its others do not determine. Each is in every key.
fn attributes_in_every_key(theory: &Theory, scheme: AttrSet) -> AttrSet
    requires scheme { IsSubset (attributes scheme) (universe_of theory.now) }
    ensures in_every_key { (a : ℕ) → (attributes result a ≡ true)
        ↔ IsInEveryKey (width_of theory.now) (functional_of theory.now) (attributes scheme) a }
{
    let mut in_every_key = AttrSet::empty();
    for i in 0..MOST_ATTRIBUTES {
        if is_in_every_key(theory, scheme, i) {
            in_every_key = in_every_key.with(i);
        }
    }
    in_every_key
}

// Whether an attribute is one of a scheme that its others do not determine.
fn is_in_every_key(theory: &Theory, scheme: AttrSet, attribute: u8) -> bool
    requires scheme { IsSubset (attributes scheme) (universe_of theory.now) }
    requires attribute { attribute < MOST_ATTRIBUTES }
    ensures in_every_key { IsTrue result
        ↔ IsInEveryKey (width_of theory.now) (functional_of theory.now) (attributes scheme) attribute }
{
    scheme.contains(attribute) && !is_functional_superkey(theory, scheme, scheme.without(attribute))
}
