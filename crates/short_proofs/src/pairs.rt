//! Two dependencies joined by transitivity or by coalescence, as derivations.

ghost use Rattle.std.specs.Prelude.{◌≡◌, ◌≤◌, ◌+◌, if◌then◌else◌, IfOk};
ghost use Rattle.attr_sets.specs.Attributes.{union};
ghost use Rattle.attr_sets.specs.Sets.{attributes};
ghost use Rattle.derivation.specs.Derivs.{tree_of};
ghost use Rattle.short_proofs.specs.Short.{cut_to};
ghost use Rattle.short_proofs.specs.Shapes.{count, start_count, tree_of_halves, tree_of_merged};

use crate::shapes::{one_if, stepped};
use crate::starts::{Start, start_deriv};
use attr_sets::AttrSet;
use dep_model::OutOfMemory;
use derivation::{Deriv, LeafRule, PairRule, StepRule};
use std::alloc::Global;

/// The sides of a goal, and a dependency that begins, whose right side is `middle`.
#[derive(Clone, Copy)]
pub struct Half {
    pub lhs: AttrSet,
    pub rhs: AttrSet,
    pub first: Start,
    pub middle: AttrSet,
}

/// What is joined by transitivity.
#[derive(Clone, Copy)]
pub struct Halves {
    pub half: Half,
    pub second: Start,
}

/// What is done to join two dependencies by transitivity: the first is lifted, by the left side of the goal
/// on both of its sides; the second is widened, by the right side of the first on its left; what comes of
/// both is turned, which is complementation; and again it is augmented, by what both sides of the goal share.
#[derive(Clone, Copy)]
pub struct Transit {
    pub lifted: bool,
    pub widened: bool,
    pub turned: bool,
    pub again: bool,
}

/// What is joined by coalescence: the sides of the goal, the dependency that begins, and the number of a
/// functional one with its right side.
#[derive(Clone, Copy)]
pub struct Merged {
    pub lhs: AttrSet,
    pub rhs: AttrSet,
    pub first: Start,
    pub number: u16,
    pub right: AttrSet,
}

/// What is done to join two dependencies by coalescence: the first is lifted, by the left side of the goal on
/// its left; the second is cut, to what the goal lacks; and again what comes of both is augmented, by what
/// both sides of the goal share.
#[derive(Clone, Copy)]
pub struct Coalescing {
    pub lifted: bool,
    pub cut: bool,
    pub again: bool,
}

// The derivation of two halves that are joined.
pub fn difference_deriv(
    alloc: Global,
    halves: Halves,
    by: Transit,
) -> Result<Box<Deriv>, OutOfMemory>
    ensures tree { IfOk result (λ b. tree_of b.value
        ≡ tree_of_halves halves by.lifted by.widened by.turned by.again) }
{
    let Halves { half, second } = halves;
    let Half {
        lhs,
        rhs,
        first,
        middle,
    } = half;
    let begun = start_deriv(alloc, first)?;
    let other = start_deriv(alloc, second)?;
    let lift = StepRule::MAugmentation {
        wide: lhs,
        narrow: lhs,
    };
    let widen = StepRule::MAugmentation {
        wide: with_added(by.lifted, middle, lhs),
        narrow: AttrSet::empty(),
    };
    let shared = StepRule::MAugmentation {
        wide: lhs,
        narrow: lhs.intersection(rhs),
    };
    let lifted = stepped(alloc, by.lifted, lift, begun)?;
    let widened = stepped(alloc, by.widened, widen, other)?;
    let joined = Box::new(alloc, Deriv::Pair(PairRule::MTransitivity, lifted, widened))?;
    let turned = stepped(alloc, by.turned, StepRule::Complementation, joined)?;
    stepped(alloc, by.again, shared, turned)
}

/// How many nodes the derivation of two halves that are joined has at least.
pub fn difference_size(halves: Halves, by: Transit) -> u8
    ensures size { result ≡ start_count halves.half.first.replicated halves.half.first.complemented
        + start_count halves.second.replicated halves.second.complemented + 1
        + count by.lifted + count by.widened + count by.turned + count by.again }
{
    start_size(halves.half.first)
        + start_size(halves.second)
        + 1
        + one_if(by.lifted)
        + one_if(by.widened)
        + one_if(by.turned)
        + one_if(by.again)
}

// How many nodes a start has.
fn start_size(from: Start) -> u8
    ensures size { result ≡ start_count from.replicated from.complemented }
    ensures most { result ≤ 3 }
{
    1 + one_if(from.replicated) + one_if(from.complemented)
}

// A set, and another one added to it or not.
fn with_added(is_added: bool, set: AttrSet, other: AttrSet) -> AttrSet
    ensures members { attributes result
        ≡ (if is_added then union (attributes set) (attributes other) else attributes set) }
{
    if is_added { set.union(other) } else { set }
}

// The derivation of two dependencies that coalescence joins.
pub fn coalescence_deriv(
    alloc: Global,
    merged: Merged,
    by: Coalescing,
) -> Result<Box<Deriv>, OutOfMemory>
    ensures tree { IfOk result (λ b. tree_of b.value
        ≡ tree_of_merged merged by.lifted by.cut by.again) }
{
    let Merged {
        lhs,
        rhs,
        first,
        number,
        right,
    } = merged;
    let begun = start_deriv(alloc, first)?;
    let given = Box::new(alloc, Deriv::Leaf(LeafRule::Given(number)))?;
    let lift = StepRule::MAugmentation {
        wide: lhs,
        narrow: AttrSet::empty(),
    };
    let shared = StepRule::Augmentation {
        by: lhs.intersection(rhs),
    };
    let lifted = stepped(alloc, by.lifted, lift, begun)?;
    let cut = cut_deriv(alloc, by.cut, right, rhs.difference(lhs), given)?;
    let joined = Box::new(alloc, Deriv::Pair(PairRule::Coalescence, lifted, cut))?;
    stepped(alloc, by.again, shared, joined)
}

/// How many nodes the derivation of two dependencies that coalescence joins has at least.
pub fn coalescence_size(merged: Merged, by: Coalescing) -> u8
    ensures size { result ≡ start_count merged.first.replicated merged.first.complemented + 2
        + count by.lifted + count by.again }
{
    start_size(merged.first) + 2 + one_if(by.lifted) + one_if(by.again)
}

// A derivation of `lhs -> right`, or of what it says of `part` alone.
fn cut_deriv(
    alloc: Global,
    is_cut: bool,
    right: AttrSet,
    part: AttrSet,
    from: Box<Deriv>,
) -> Result<Box<Deriv>, OutOfMemory>
    ensures tree { IfOk result (λ b. tree_of b.value
        ≡ cut_to is_cut (attributes right) (attributes part) (tree_of from.value)) }
{
    if !is_cut {
        return Ok(from);
    }
    let only = Box::new(
        alloc,
        Deriv::Leaf(LeafRule::Reflexivity {
            lhs: right,
            rhs: part,
        }),
    )?;
    Ok(Box::new(alloc, Deriv::Pair(PairRule::Transitivity, from, only))?)
}
