ghost use Rattle.std.specs.Prelude.{◌≤◌, All};
ghost use Rattle.attr_sets.specs.Attributes.{below, IsSubset};
ghost use Rattle.attr_sets.specs.Sets.{attributes};
ghost use Rattle.attr_sets.specs.declared.set.TheConstants.{MOST_ATTRIBUTES};
ghost use Rattle.dep_model.specs.Deps.{dependencies_of, IsDepWithin};
ghost use Rattle.dep_basis.specs.Traces.{AreTraces};

use crate::pieces::{MOST_BLOCKS, all_pieces, piece_with};
use attr_sets::AttrSet;
use dep_model::Dep;

/// The closed set and the blocks of a left side, or what a scheme has of them. The first `count` of
/// `blocks` are non-empty, and stand in the order of their least attributes; the others are empty.
#[derive(Clone, Copy, Debug)]
pub struct Blocks {
    /// The attributes that the left side determines.
    pub closed: AttrSet,
    /// The parts of the other attributes that it multidetermines, each as small as can be.
    pub blocks: [AttrSet; MOST_BLOCKS],
    /// How many of `blocks` there are.
    pub count: u8,
}

// The closed set of a left side and its blocks, as a scheme has them. The least attribute that is left
// of the scheme is closed, or it begins the next trace.
pub fn traces(deps: &[Dep], width: u8, scheme: AttrSet, lhs: AttrSet) -> Blocks
    requires width { width ≤ MOST_ATTRIBUTES }
    requires deps { All (IsDepWithin (below width)) deps.now }
    requires scheme { IsSubset (attributes scheme) (below width) }
    requires lhs { IsSubset (attributes lhs) (below width) }
    ensures traces { AreTraces width (dependencies_of deps.now) (attributes scheme)
        (attributes lhs) result }
{
    let found = all_pieces(deps, width, lhs);
    let mut closed = AttrSet::empty();
    let mut blocks = [AttrSet::empty(); MOST_BLOCKS];
    let mut count: u8 = 0;
    let mut left = scheme;
    while let Some(first) = left.first() {
        let block = piece_with(&found.sets[..found.count as usize], first);
        if block == AttrSet::empty() {
            closed = closed.with(first);
            left = left.without(first);
        } else {
            blocks[count as usize] = block.intersection(scheme);
            count += 1;
            left = left.difference(block);
        }
    }
    Blocks {
        closed,
        blocks,
        count,
    }
}
