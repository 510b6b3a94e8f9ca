ghost use Rattle.std.specs.Prelude.{◌≡◌, ℕ, ◌+◌, ◌<◌, ◌≤◌, ◌↔◌, true, false, ◌++◌, ◌∷◌, [], length, All, Contains};
ghost use Rattle.attr_sets.specs.Attributes.{below, IsSubset, IsEmpty};
ghost use Rattle.attr_sets.specs.Sets.{attributes};
ghost use Rattle.attr_sets.specs.declared.set.TheConstants.{MOST_ATTRIBUTES};
ghost use Rattle.dep_model.specs.Deps.{dependencies_of, IsDepWithin};
ghost use Rattle.dep_basis.specs.declared.pieces.TheConstants.{MOST_BLOCKS};
ghost use Rattle.dep_basis.specs.Pieces.{found_blocks, HasRoom, ArePieces, IsRefined};

use crate::cutting::next_cut;
use attr_sets::{AttrSet, MOST_ATTRIBUTES};
use dep_model::Dep;
use fd_closure::functional_closure;

/// How many blocks there are at most: one for each attribute.
pub const MOST_BLOCKS: usize = MOST_ATTRIBUTES as usize;

// The blocks of a left side that were found so far, in no order: the first `count` of `sets`.
#[derive(Clone, Copy, Debug)]
pub struct Pieces {
    pub sets: [AttrSet; MOST_BLOCKS],
    pub count: u8,
}

// All blocks of a left side: pieces that nothing cuts. An attribute in none of them is determined.
// What lies outside its closure by the functional dependencies is refined.
pub fn all_pieces(deps: &[Dep], width: u8, lhs: AttrSet) -> Pieces
    requires width { width ≤ MOST_ATTRIBUTES }
    requires deps { All (IsDepWithin (below width)) deps.now }
    requires lhs { IsSubset (attributes lhs) (below width) }
    ensures pieces { ArePieces width (dependencies_of deps.now) (attributes lhs) result }
{
    let mut found = Pieces {
        sets: [AttrSet::empty(); MOST_BLOCKS],
        count: 0,
    };
    let outside = AttrSet::full(width).difference(functional_closure(deps, lhs));
    refine(deps, outside, &mut found);
    found
}

// Refines a piece by a dependency that cuts it, and what that gives back in its turn: a
// multivalued dependency both sides, a functional one what is outside its right side. A piece that
// nothing cuts is a block.
fn refine(deps: &[Dep], piece: AttrSet, found: &mut Pieces)
    requires room { HasRoom (attributes piece) found.old }
    ensures refined { IsRefined deps.now (attributes piece) found.old found.new }
{
    if piece.is_empty() {
        return;
    }
    match next_cut(deps, piece) {
        None => push(found, piece),
        Some(k) => match deps[k] {
            Dep::Fd { rhs, .. } => refine(deps, piece.difference(rhs), found),
            Dep::Mvd { rhs, .. } => {
                refine(deps, piece.intersection(rhs), found);
                refine(deps, piece.difference(rhs), found);
            }
        },
    }
}

// One block more.
fn push(found: &mut Pieces, block: AttrSet)
    requires not_full { found.old.count < MOST_BLOCKS }
    requires size { length found.old.sets ≡ MOST_BLOCKS }
    ensures sets { found_blocks found.new ≡ found_blocks found.old ++ block ∷ [] }
    ensures count { found.new.count ≡ found.old.count + 1 }
    ensures size { length found.new.sets ≡ MOST_BLOCKS }
{
    found.sets[found.count as usize] = block;
    found.count += 1;
}

// The piece with an attribute; the empty set where no piece has it.
pub fn piece_with(pieces: &[AttrSet], attribute: u8) -> AttrSet
    requires attribute { attribute < MOST_ATTRIBUTES }
    ensures none { IsEmpty (attributes result) → All (λ p. attributes p attribute ≡ false) pieces.now }
    ensures piece { (IsEmpty (attributes result) → ⊥) → Contains pieces.now result }
    ensures member { (IsEmpty (attributes result) → ⊥) → attributes result attribute ≡ true }
{
    for piece in pieces {
        if piece.contains(attribute) {
            return *piece;
        }
    }
    AttrSet::empty()
}

// What a set has in none of the pieces.
pub fn outside_all(universe: AttrSet, pieces: &[AttrSet]) -> AttrSet
    ensures members { (a : ℕ) → (attributes result a ≡ true)
        ↔ (attributes universe a ≡ true) × All (λ p. attributes p a ≡ false) pieces.now }
{
    let mut left = universe;
    for piece in pieces {
        left = left.difference(*piece);
    }
    left
}
