ghost use Rattle.std.specs.Prelude.{◌≡◌, ◌+◌, ◌<◌};
ghost use Rattle.attr_sets.specs.Attributes.{IsSubset};
ghost use Rattle.attr_sets.specs.Narrowing.{IsNarrowedBy};
ghost use Rattle.attr_sets.specs.Sets.{attributes};

use crate::set::{AttrSet, MOST_ATTRIBUTES};

/// The order in which the attributes of a set are tried.
#[derive(Clone, Copy, Debug)]
pub enum Direction {
    /// From the first to the last.
    Ascending,
    /// From the last to the first.
    Descending,
}

impl Direction {
    // The attribute whose turn it is after so many others.
    fn attribute_at(self, step: u8) -> u8
        requires step { step < MOST_ATTRIBUTES }
        ensures attribute { result < MOST_ATTRIBUTES }
        ensures ascending { self ≡ Direction.Ascending → result ≡ step }
        ensures descending { self ≡ Direction.Descending → result + step + 1 ≡ MOST_ATTRIBUTES }
    {
        match self {
            Direction::Ascending => step,
            Direction::Descending => MOST_ATTRIBUTES - 1 - step,
        }
    }
}

/// What is left of a set where each of its attributes that is to be tried, one after the other, is left out if
/// the rest passes a test. Where all that contains a set that passes does so too, no part of what is left passes
/// without one of these attributes.
pub fn narrowed<F: Fn(AttrSet) -> bool>(
    start: AttrSet,
    tried: AttrSet,
    direction: Direction,
    passes: F,
) -> AttrSet
    requires callable { (set : AttrSet) → IsSubset (attributes set) (attributes start) → F.pre passes set }
    ensures narrowed { IsNarrowedBy direction (F.post passes) (attributes tried) (attributes start)
        (attributes result) }
{
    let mut kept = start;
    for step in 0..MOST_ATTRIBUTES {
        let attribute = direction.attribute_at(step);
        if !kept.intersection(tried).contains(attribute) {
            continue;
        }
        let rest = kept.without(attribute);
        if passes(rest) {
            kept = rest;
        }
    }
    kept
}
