ghost use Rattle.std.specs.Prelude.{◌≡◌, IfOk, IfErr};
ghost use Rattle.attr_sets.specs.Attributes.{Attributes, union, intersection, difference, Disjoint};
ghost use Rattle.attr_sets.specs.Sets.{attributes};
ghost use Rattle.dep_model.specs.Theories.{Theory};
ghost use Rattle.dep_model.specs.Dependencies.{fd, mvd};
ghost use Rattle.dep_model.specs.Theories.{universe_of};
ghost use Rattle.derivation.specs.Derivs.{tree_of};
ghost use Rattle.derivation.specs.Conclusions.{Proves};
ghost use Rattle.derivation.specs.Builders.{IsLittleMore, intersected_block};

use crate::{Deriv, LeafRule, PairRule, StepRule};
use attr_sets::AttrSet;
use dep_model::{OutOfMemory, Theory};
use std::alloc::Global;

/// Out of memory in a call that joins two derivations, which it hands back as they were.
#[derive(Debug, Drop)]
pub struct Returned {
    pub first: Box<Deriv>,
    pub second: Box<Deriv>,
}

// Room for a node that is made later.
fn room_for_one(alloc: Global) -> Result<Box<Deriv>, OutOfMemory> {
    Ok(Box::new(alloc, Deriv::Leaf(LeafRule::Given(0)))?)
}

fn room_for_three(alloc: Global) -> Result<[Box<Deriv>; 3], OutOfMemory> {
    Ok([
        room_for_one(alloc)?,
        room_for_one(alloc)?,
        room_for_one(alloc)?,
    ])
}

fn room_for_four(alloc: Global) -> Result<[Box<Deriv>; 4], OutOfMemory> {
    Ok([
        room_for_one(alloc)?,
        room_for_one(alloc)?,
        room_for_one(alloc)?,
        room_for_one(alloc)?,
    ])
}

fn room_for_five(alloc: Global) -> Result<[Box<Deriv>; 5], OutOfMemory> {
    let [a, b, c, d] = room_for_four(alloc)?;
    Ok([a, b, c, d, room_for_one(alloc)?])
}

fn room_for_six(alloc: Global) -> Result<[Box<Deriv>; 6], OutOfMemory> {
    let [a, b, c] = room_for_three(alloc)?;
    let [d, e, f] = room_for_three(alloc)?;
    Ok([a, b, c, d, e, f])
}

/// From `X -> Y` and `X -> Z`: `X -> YZ`, where `lhs` is `X` and `rhs` is `Z`.
pub fn unite_fd(
    alloc: Global,
    lhs: AttrSet,
    rhs: AttrSet,
    first: Box<Deriv>,
    second: Box<Deriv>,
) -> Result<Box<Deriv>, Returned>
    ensures concludes { (s : Theory) (y : Attributes)
        → Proves s (tree_of first.value) (fd (attributes lhs) y)
        → Proves s (tree_of second.value) (fd (attributes lhs) (attributes rhs))
        → IfOk result (λ b. Proves s (tree_of b.value) (fd (attributes lhs) (union y
        (attributes rhs)))) }
    ensures size { IfOk result (λ b.
        IsLittleMore (tree_of first.value) (tree_of second.value) (tree_of b.value)) }
    ensures returned { IfErr result (λ r. (r.first ≡ first) × (r.second ≡ second)) }
{
    let Ok([mut low, mut high, mut top]) = room_for_three(alloc) else {
        return Err(Returned { first, second });
    };
    // X -> XZ and XZ -> YZ.
    *low = Deriv::Step(StepRule::Augmentation { by: lhs }, second);
    *high = Deriv::Step(StepRule::Augmentation { by: rhs }, first);
    *top = Deriv::Pair(PairRule::Transitivity, low, high);
    Ok(top)
}

/// From `X ->> Y` and `X ->> Z`: `X ->> YZ`, where `lhs` is `X`, `left` is `Y` and `right` is `Z`.
pub fn unite_mvd(
    alloc: Global,
    lhs: AttrSet,
    left: AttrSet,
    right: AttrSet,
    first: Box<Deriv>,
    second: Box<Deriv>,
) -> Result<Box<Deriv>, Returned>
    ensures concludes { (s : Theory)
        → Proves s (tree_of first.value) (mvd (attributes lhs) (attributes left))
        → Proves s (tree_of second.value) (mvd (attributes lhs) (attributes right))
        → IfOk result
        (λ b. Proves s (tree_of b.value) (mvd (attributes lhs) (union (attributes left)
        (attributes right)))) }
    ensures size { IfOk result (λ b.
        IsLittleMore (tree_of first.value) (tree_of second.value) (tree_of b.value)) }
    ensures returned { IfErr result (λ r. (r.first ≡ first) × (r.second ≡ second)) }
{
    let Ok(
        [
            mut wider,
            mut lifted,
            mut rest,
            mut outside,
            mut inside,
            mut top,
        ],
    ) = room_for_six(alloc)
    else {
        return Err(Returned { first, second });
    };
    // X ->> XY, XY ->> Z, and XY ->> U - XYZ.
    *wider = Deriv::Step(
        StepRule::MAugmentation {
            wide: lhs,
            narrow: lhs,
        },
        first,
    );
    *lifted = Deriv::Step(
        StepRule::MAugmentation {
            wide: left,
            narrow: AttrSet::empty(),
        },
        second,
    );
    *rest = Deriv::Step(StepRule::Complementation, lifted);
    // X ->> U - XYZ, X ->> YZ - X, and X ->> YZ.
    *outside = Deriv::Pair(PairRule::MTransitivity, wider, rest);
    *inside = Deriv::Step(StepRule::Complementation, outside);
    *top = Deriv::Step(
        StepRule::MAugmentation {
            wide: lhs,
            narrow: lhs.intersection(left.union(right)),
        },
        inside,
    );
    Ok(top)
}

/// From `X ->> W` and `V ->> T`, where `W` has no member in `X` or `V`: `X ->>` what `W` and `T` share.
/// `lhs` is `X`, and `block` is `W`.
pub fn split_inside(
    alloc: Global,
    theory: &Theory,
    lhs: AttrSet,
    block: AttrSet,
    first: Box<Deriv>,
    second: Box<Deriv>,
) -> Result<Box<Deriv>, Returned>
    ensures concludes { (v t : Attributes) → Disjoint (attributes block) (attributes lhs)
        → Disjoint (attributes block) v
        → Proves theory.now (tree_of first.value) (mvd (attributes lhs) (attributes block))
        → Proves theory.now (tree_of second.value) (mvd v t)
        → IfOk result (λ b. Proves theory.now (tree_of b.value) (mvd (attributes lhs) (intersection
        (attributes block) t))) }
    ensures size { IfOk result (λ b.
        IsLittleMore (tree_of first.value) (tree_of second.value) (tree_of b.value)) }
    ensures returned { IfErr result (λ r. (r.first ≡ first) × (r.second ≡ second)) }
{
    let Ok(room) = room_for_four(alloc) else {
        return Err(Returned { first, second });
    };
    Ok(intersect_block(room, theory, lhs, block, first, second))
}

/// From `X ->> W` and `V ->> T`, where `W` has no member in `X` or `V`: `X ->> W - T`. `lhs` is `X`, and
/// `block` is `W`.
pub fn split_outside(
    alloc: Global,
    theory: &Theory,
    lhs: AttrSet,
    block: AttrSet,
    first: Box<Deriv>,
    second: Box<Deriv>,
) -> Result<Box<Deriv>, Returned>
    ensures concludes { (v t : Attributes) → Disjoint (attributes block) (attributes lhs)
        → Disjoint (attributes block) v
        → Proves theory.now (tree_of first.value) (mvd (attributes lhs) (attributes block))
        → Proves theory.now (tree_of second.value) (mvd v t)
        → IfOk result (λ b. Proves theory.now (tree_of b.value) (mvd (attributes lhs) (difference
        (attributes block) t))) }
    ensures size { IfOk result (λ b.
        IsLittleMore (tree_of first.value) (tree_of second.value) (tree_of b.value)) }
    ensures returned { IfErr result (λ r. (r.first ≡ first) × (r.second ≡ second)) }
{
    let Ok([mut other, rest, wider, lifted, top]) = room_for_five(alloc) else {
        return Err(Returned { first, second });
    };
    // V ->> U - VT, and what W shares with U - VT is W - T.
    *other = Deriv::Step(StepRule::Complementation, second);
    Ok(intersect_block([rest, wider, lifted, top], theory, lhs, block, first, other))
}

// From `X ->> W` and `V ->> T`, as in `split_inside`: `X ->>` what `W` and `T` share, in the room that
// is given.
fn intersect_block(
    room: [Box<Deriv>; 4],
    theory: &Theory,
    lhs: AttrSet,
    block: AttrSet,
    first: Box<Deriv>,
    second: Box<Deriv>,
) -> Box<Deriv>
    ensures tree { tree_of result.value
        ≡ intersected_block (universe_of theory.now) (attributes lhs) (attributes block)
        (tree_of first.value) (tree_of second.value) }
{
    let outside = AttrSet::full(theory.width()).difference(block);
    let [mut rest, mut wider, mut lifted, mut top] = room;
    // X ->> U - W, U - W ->> T, and so X ->> T without U - W.
    *rest = Deriv::Step(StepRule::Complementation, first);
    *wider = Deriv::Step(
        StepRule::MAugmentation {
            wide: lhs,
            narrow: lhs,
        },
        rest,
    );
    *lifted = Deriv::Step(
        StepRule::MAugmentation {
            wide: outside,
            narrow: AttrSet::empty(),
        },
        second,
    );
    *top = Deriv::Pair(PairRule::MTransitivity, wider, lifted);
    top
}
