ghost use Rattle.std.specs.Prelude.{◌≡◌, ◌↔◌, ◌<◌, true, IsTrue};
ghost use Rattle.attr_sets.specs.Attributes.{only, difference, IsSubset};
ghost use Rattle.attr_sets.specs.Sets.{attributes};
ghost use Rattle.dep_model.specs.Keys.{IsSuperkey};
ghost use Rattle.dep_model.specs.Theories.{width_of, universe_of};
ghost use Rattle.which_form.specs.KeyRanges.{IsKeyIn, IsKeyRange, IsSuperkeyIn, functional_of};

use crate::ranges::KeyRange;
use attr_sets::{AttrSet, MOST_ATTRIBUTES};
use dep_model::Theory;
use fd_closure::is_functional_superkey;

// Whether a superkey of a scheme is a key. Only varying attributes can be left out.
pub fn is_key(theory: &Theory, range: KeyRange, set: AttrSet) -> bool
    requires range { IsKeyRange theory.now range }
    requires superkey { IsSuperkeyIn theory.now range (attributes set) }
    ensures key { IsTrue result ↔ IsKeyIn theory.now range (attributes set) }
{
    let tried = set.difference(range.least);
    for i in 0..MOST_ATTRIBUTES {
        if is_spare(theory, range.scheme, tried, set, i) {
            return false;
        }
    }
    true
}

// Whether an attribute is one of those that are tried, and a set is a superkey without it.
fn is_spare(theory: &Theory, scheme: AttrSet, tried: AttrSet, set: AttrSet, attribute: u8) -> bool
    requires scheme { IsSubset (attributes scheme) (universe_of theory.now) }
    requires set { IsSubset (attributes set) (attributes scheme) }
    requires attribute { attribute < MOST_ATTRIBUTES }
    ensures spare { IsTrue result
        ↔ ((attributes tried attribute ≡ true)
        × IsSuperkey (width_of theory.now) (functional_of theory.now) (attributes scheme)
        (difference (attributes set) (only attribute))) }
{
    if !tried.contains(attribute) {
        return false;
    }
    is_functional_superkey(theory, scheme, set.without(attribute))
}
