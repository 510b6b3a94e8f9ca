ghost use Rattle.std.specs.Prelude.{◌≡◌, ◌⊎◌, ◌↔◌, Contains, IsTrue, IsNone, IfSome, Some};
ghost use Rattle.attr_sets.specs.Attributes.{IsSubset};
ghost use Rattle.attr_sets.specs.Sets.{attributes};
ghost use Rattle.key_listing.specs.Listing.{HoldsAny};

use attr_sets::AttrSet;

// Whether some listed set lies within a set.
pub fn holds_any(found: &[AttrSet], set: AttrSet) -> bool
    ensures holds { IsTrue result ↔ HoldsAny found.now (attributes set) }
{
    for key in found {
        if key.is_subset(set) {
            return true;
        }
    }
    false
}

// A listed set within a set. Of several it is the one with the fewest members beyond a third, which is the
// best to go on from; nothing rests on that.
pub fn held_key(found: &[AttrSet], set: AttrSet, least: AttrSet) -> Option<AttrSet>
    ensures none { IsNone result → HoldsAny found.now (attributes set) → ⊥ }
    ensures found { IfSome result (Contains found.now) }
    ensures within { IfSome result (λ k. IsSubset (attributes k) (attributes set)) }
{
    let mut held = None;
    for key in found {
        if key.is_subset(set) {
            held = Some(smaller_of(held, *key, least));
        }
    }
    held
}

// Of two sets the one with fewer members beyond a third.
fn smaller_of(held: Option<AttrSet>, key: AttrSet, least: AttrSet) -> AttrSet
    ensures either { (result ≡ key) ⊎ (held ≡ Some result) }
{
    if let Some(other) = held {
        if other.difference(least).len() <= key.difference(least).len() {
            return other;
        }
    }
    key
}
