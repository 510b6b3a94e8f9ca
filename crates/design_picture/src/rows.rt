ghost use Rattle.std.specs.Prelude.{◌≡◌, ◌≤◌};
ghost use Rattle.attr_sets.specs.Sets.{attributes};
ghost use Rattle.attr_sets.specs.declared.set.TheConstants.{MOST_ATTRIBUTES};
ghost use Rattle.design_picture.specs.Picture.{row_of};

use attr_sets::AttrSet;

// The row of an attribute in the box of a scheme.
#[tactic(auto, unfolding(crate::specs::Picture::row_of))]
pub fn row_of(scheme: AttrSet, attribute: u8) -> u32
    requires attribute { attribute ≤ MOST_ATTRIBUTES }
    ensures row { result ≡ row_of (attributes scheme) attribute }
{
    scheme.intersection(AttrSet::full(attribute)).len() as u32 + 1
}
