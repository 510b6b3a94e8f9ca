ghost use Rattle.std.specs.Prelude.{◌≡◌, ◌<◌, ℕ, true};
ghost use Rattle.attr_sets.specs.Attributes.{IsFirstFrom, IsSubset, below};
ghost use Rattle.attr_sets.specs.Sets.{attributes};
ghost use Rattle.dep_model.specs.Tuples.{Relation};
ghost use Rattle.mvd_laws.specs.Reduced.{IsBlockOfRows, IsPartOfRows};
ghost use Rattle.mvd_discovery.specs.Counting.{AreCounts};

use crate::counts::Counts;
use crate::obeying::obeys_multivalued;
use attr_sets::AttrSet;

// The block of a set with the first attribute of some of its blocks together. Of the sets within these that have the
// attribute it is the first that is obeyed, since a part of a block comes before the block.
pub fn first_block(counts: &Counts, left: AttrSet, blocks: AttrSet, first: u8) -> AttrSet
    requires rows { (r : Relation) × AreCounts r counts.now
        × IsPartOfRows counts.now.width r (attributes left) (attributes blocks) }
    requires left { IsSubset (attributes left) (below counts.now.width) }
    requires first { IsFirstFrom (attributes blocks) 0 first }
    ensures block { (r : Relation) → AreCounts r counts.now
        → IsPartOfRows counts.now.width r (attributes left) (attributes blocks)
        → IsBlockOfRows counts.now.width r (attributes left) (attributes result) }
    ensures within { IsSubset (attributes result) (attributes blocks) }
    ensures member { attributes result first ≡ true }
{
    let others = blocks.without(first);
    let mut part = AttrSet::empty();
    while let Some(next) = part.next_subset(others) {
        if obeys_multivalued(counts, left, part.with(first)) {
            return part.with(first);
        }
        part = next;
    }
    part.with(first)
}
