//! Shapes: a given dependency after a few steps.

ghost use Rattle.std.specs.Prelude.{◌≡◌, ◌⊎◌, ◌↔◌, ◌≤◌, ℕ, true, IsTrue, IfSome, IfOk};
ghost use Rattle.attr_sets.specs.Attributes.{union, intersection, difference, IsSubset};
ghost use Rattle.attr_sets.specs.Sets.{attributes};
ghost use Rattle.dep_model.specs.Dependencies.{mvd, left_of, right_of};
ghost use Rattle.dep_model.specs.Deps.{dependency_of};
ghost use Rattle.dep_model.specs.Theories.{universe_of};
ghost use Rattle.dep_model.specs.Theories.{Theory as Declared};
ghost use Rattle.derivation.specs.Trees.{Tree, leaf, given, maugmentation};
ghost use Rattle.derivation.specs.Derivs.{tree_of, step_of};
ghost use Rattle.derivation.specs.Conclusions.{Proves};
ghost use Rattle.derivation.specs.Shortened.{ConcludesOnly};
ghost use Rattle.short_proofs.specs.Short.{taken};
ghost use Rattle.short_proofs.specs.Shapes.{tree_of_shape, count, shape_nodes, Fits, HasAtMost, IsNoLarger};

use attr_sets::AttrSet;
use dep_model::{Dep, OutOfMemory, Theory, sides};
use derivation::{Deriv, LeafRule, StepRule, leaf_conclusion, step_conclusion};
use std::alloc::Global;

/// A given dependency, by its number from 0, and which steps are taken after it: replication,
/// complementation, augmentation by a wide and a narrow set, complementation, and augmentation again. It is
/// `turned` by the second complementation; the wide set is added on the left, the narrow one on the right.
#[derive(Clone, Copy, Debug)]
pub struct Shape {
    pub number: u16,
    pub replicated: bool,
    pub complemented: bool,
    pub augmented: bool,
    pub wide: AttrSet,
    pub narrow: AttrSet,
    pub turned: bool,
    pub again: bool,
    pub wide_again: AttrSet,
    pub narrow_again: AttrSet,
}

// Which steps are taken after a given dependency.
#[derive(Clone, Copy, Debug)]
pub struct Steps {
    pub replicated: bool,
    pub complemented: bool,
    pub augmented: bool,
    pub turned: bool,
    pub again: bool,
}

// Sets by which both sides of a dependency are augmented.
#[derive(Clone, Copy)]
struct Sides {
    wide: AttrSet,
    narrow: AttrSet,
}

// The shape with these steps, where it proves `lhs ->> rhs`. Its augmentations add what is missing of both
// sides, and no more.
pub fn try_shape(
    theory: &Theory,
    lhs: AttrSet,
    rhs: AttrSet,
    number: u16,
    steps: Steps,
) -> Option<Shape>
    requires lhs { IsSubset (attributes lhs) (universe_of theory.now) }
    requires rhs { IsSubset (attributes rhs) (universe_of theory.now) }
    ensures fits { IfSome result (Fits theory.now (attributes lhs) (attributes rhs)) }
    ensures no_larger { IsNoLarger theory.now (attributes lhs) (attributes rhs)
        number steps.replicated steps.complemented steps.augmented steps.turned steps.again result }
{
    let given = given_dep(theory, number);
    let replica = step_taken(theory, steps.replicated, StepRule::Replication, given);
    let start = step_taken(
        theory,
        steps.complemented,
        StepRule::Complementation,
        replica,
    );
    let first = missing_sides(lhs, rhs, start);
    let rule = augmentation(first);
    let middle = step_taken(theory, steps.augmented, rule, start);
    let turn = step_taken(theory, steps.turned, StepRule::Complementation, middle);
    let second = missing_sides(lhs, rhs, turn);
    let last = augmentation(second);
    let end = step_taken(theory, steps.again, last, turn);
    if !is_mvd(end, lhs, rhs) {
        return None;
    }
    Some(Shape {
        number,
        replicated: steps.replicated,
        complemented: steps.complemented,
        augmented: steps.augmented,
        wide: first.wide,
        narrow: first.narrow,
        turned: steps.turned,
        again: steps.again,
        wide_again: second.wide,
        narrow_again: second.narrow,
    })
}

// By what a dependency is augmented, so that it has just what it lacks of both sides of `lhs ->> rhs`.
fn missing_sides(lhs: AttrSet, rhs: AttrSet, dep: Option<Dep>) -> Sides
    ensures narrow { IfSome dep (λ from. attributes result.narrow
        ≡ difference (intersection (attributes lhs) (attributes rhs)) (right_of (dependency_of from))) }
    ensures wide { IfSome dep (λ from. attributes result.wide
        ≡ union (difference (attributes lhs) (left_of (dependency_of from))) (attributes result.narrow)) }
{
    match dep {
        Some(from) => {
            let (left, right) = sides(from);
            let narrow = lhs.intersection(rhs).difference(right);
            let wide = lhs.difference(left).union(narrow);
            Sides { wide, narrow }
        }
        None => Sides {
            wide: lhs,
            narrow: lhs,
        },
    }
}

// The augmentation of a multivalued dependency by these sides.
fn augmentation(by: Sides) -> StepRule
    ensures rule { step_of result ≡ maugmentation (attributes by.wide) (attributes by.narrow) }
{
    StepRule::MAugmentation {
        wide: by.wide,
        narrow: by.narrow,
    }
}

// What a given dependency concludes, if there is one of this number.
pub fn given_dep(theory: &Theory, number: u16) -> Option<Dep>
    ensures only { ConcludesOnly theory.now (leaf (given number)) result }
{
    match leaf_conclusion(theory, LeafRule::Given(number)) {
        Ok(dep) => Some(dep),
        Err(_) => None,
    }
}

// What a step concludes, if it is taken and concludes anything.
pub fn step_taken(theory: &Theory, is_taken: bool, rule: StepRule, from: Option<Dep>) -> Option<Dep>
    ensures only { (t : Tree) → ConcludesOnly theory.now t from
        → ConcludesOnly theory.now (taken is_taken (step_of rule) t) result }
{
    if is_taken {
        step_dep(theory, rule, from)
    } else {
        from
    }
}

// What a step concludes, if anything.
fn step_dep(theory: &Theory, rule: StepRule, from: Option<Dep>) -> Option<Dep>
    ensures only { (t : Tree) → ConcludesOnly theory.now t from
        → ConcludesOnly theory.now (taken true (step_of rule) t) result }
{
    match from {
        Some(premise) => match step_conclusion(theory, rule, premise) {
            Ok(dep) => Some(dep),
            Err(_) => None,
        },
        None => None,
    }
}

// Whether this is a dependency, and `lhs ->> rhs`.
fn is_mvd(dep: Option<Dep>, lhs: AttrSet, rhs: AttrSet) -> bool
    ensures is_mvd { (s : Declared) (t : Tree) → ConcludesOnly s t dep
        → IsTrue result ↔ Proves s t (mvd (attributes lhs) (attributes rhs)) }
{
    match dep {
        Some(found) => is_same(found, lhs, rhs),
        None => false,
    }
}

// Whether a dependency is `lhs ->> rhs`.
fn is_same(dep: Dep, lhs: AttrSet, rhs: AttrSet) -> bool
    ensures same { IsTrue result ↔ (dependency_of dep ≡ mvd (attributes lhs) (attributes rhs)) }
{
    match dep {
        Dep::Fd { .. } => false,
        Dep::Mvd { lhs: x, rhs: y } => x == lhs && y == rhs,
    }
}

// The smaller of two shapes that were found, the first of two that are as large.
pub fn smaller(one: Option<Shape>, other: Option<Shape>) -> Option<Shape>
    ensures either { (result ≡ one) ⊎ (result ≡ other) }
    ensures than_one { (n : ℕ) → HasAtMost one n → HasAtMost result n }
    ensures than_other { (n : ℕ) → HasAtMost other n → HasAtMost result n }
{
    match (one, other) {
        (Some(first), Some(second)) => {
            if node_count(second) < node_count(first) {
                other
            } else {
                one
            }
        }
        (Some(_), None) => one,
        (None, _) => other,
    }
}

// How many nodes the derivation of a shape has.
fn node_count(shape: Shape) -> u8
    ensures nodes { result ≡ shape_nodes shape.replicated shape.complemented shape.augmented shape.turned
        shape.again }
{
    1 + one_if(shape.replicated)
        + one_if(shape.complemented)
        + one_if(shape.augmented)
        + one_if(shape.turned)
        + one_if(shape.again)
}

/// One step, or none.
pub fn one_if(is_taken: bool) -> u8
    ensures count { result ≡ count is_taken }
    ensures least { result ≤ 1 }
{
    if is_taken { 1 } else { 0 }
}

/// The derivation of a shape.
pub fn shape_deriv(alloc: Global, shape: Shape) -> Result<Box<Deriv>, OutOfMemory>
    ensures tree { IfOk result (λ b. tree_of b.value ≡ tree_of_shape shape) }
{
    let given = Box::new(alloc, Deriv::Leaf(LeafRule::Given(shape.number)))?;
    let replica = stepped(alloc, shape.replicated, StepRule::Replication, given)?;
    let start = stepped(
        alloc,
        shape.complemented,
        StepRule::Complementation,
        replica,
    )?;
    let first = Sides {
        wide: shape.wide,
        narrow: shape.narrow,
    };
    let rule = augmentation(first);
    let middle = stepped(alloc, shape.augmented, rule, start)?;
    let turn = stepped(alloc, shape.turned, StepRule::Complementation, middle)?;
    let second = Sides {
        wide: shape.wide_again,
        narrow: shape.narrow_again,
    };
    let last = augmentation(second);
    stepped(alloc, shape.again, last, turn)
}

// A derivation with a step more, if it is taken.
pub fn stepped(
    alloc: Global,
    is_taken: bool,
    rule: StepRule,
    from: Box<Deriv>,
) -> Result<Box<Deriv>, OutOfMemory>
    ensures tree { IfOk result (λ b. tree_of b.value ≡ taken is_taken (step_of rule) (tree_of from.value)) }
{
    if is_taken {
        Ok(Box::new(alloc, Deriv::Step(rule, from))?)
    } else {
        Ok(from)
    }
}
