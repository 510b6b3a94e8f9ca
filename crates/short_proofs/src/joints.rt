//! Joints: two dependencies that are joined to a derivation of a goal, by transitivity or by coalescence,
//! each pair in turn.

ghost use Rattle.std.specs.Prelude.{ℕ, Bool, IfOk};
ghost use Rattle.attr_sets.specs.Attributes.{IsSubset};
ghost use Rattle.attr_sets.specs.Sets.{attributes};
ghost use Rattle.dep_model.specs.Dependencies.{left_of};
ghost use Rattle.dep_model.specs.Deps.{dependency_of};
ghost use Rattle.derivation.specs.Derivs.{tree_of};
ghost use Rattle.basis_proofs.specs.JoinedProofs.{IsProofOf};
ghost use Rattle.short_proofs.specs.Short.{start, SetsFit, IsJoinedTree, IsJoined, IsJoinedBy, IsJoinedFrom, IsNoLongerThan};
ghost use Rattle.short_proofs.specs.Shapes.{IsSameOrShorter};

use crate::coalescences::unless_coalescence;
use crate::differences::unless_difference;
use crate::fitting::{beyond, fits, may_begin};
use crate::pairs::{Half, Merged};
use crate::shapes::given_dep;
use crate::starts::{Start, start_dep};
use attr_sets::AttrSet;
use dep_model::{Dep, OutOfMemory, Theory, sides};
use derivation::Deriv;
use std::alloc::Global;

/// A derivation, unless one of two joined dependencies is shorter.
pub fn unless_joined(
    alloc: Global,
    theory: &Theory,
    goal: Dep,
    deriv: Box<Deriv>,
) -> Result<Box<Deriv>, OutOfMemory>
    requires proof { IsProofOf theory.now (dependency_of goal) (tree_of deriv.value) }
    ensures kept { IfOk result (λ b. IsSameOrShorter theory.now (dependency_of goal)
        (tree_of deriv.value) (tree_of b.value)) }
    ensures short { IfOk result (λ b. IsNoLongerThan theory.now (dependency_of goal)
        (IsJoined theory.now (dependency_of goal)) (tree_of b.value)) }
{
    let mut best = deriv;
    for number in 0..theory.deps().len() {
        best = unless_begun(alloc, theory, goal, number as u16, best)?;
    }
    Ok(best)
}

// The same of one dependency that begins, replicated and complemented or not.
fn unless_begun(
    alloc: Global,
    theory: &Theory,
    goal: Dep,
    number: u16,
    deriv: Box<Deriv>,
) -> Result<Box<Deriv>, OutOfMemory>
    requires proof { IsProofOf theory.now (dependency_of goal) (tree_of deriv.value) }
    ensures kept { IfOk result (λ b. IsSameOrShorter theory.now (dependency_of goal)
        (tree_of deriv.value) (tree_of b.value)) }
    ensures short { IfOk result (λ b. IsNoLongerThan theory.now (dependency_of goal)
        (λ u. (r c : Bool) × IsJoinedFrom theory.now (dependency_of goal) (start number r c) u)
        (tree_of b.value)) }
{
    let one = unless_start(alloc, theory, goal, number, false, false, deriv)?;
    let two = unless_start(alloc, theory, goal, number, false, true, one)?;
    let three = unless_start(alloc, theory, goal, number, true, false, two)?;
    let four = unless_start(alloc, theory, goal, number, true, true, three)?;
    Ok(four)
}

// The same of what begins.
fn unless_start(
    alloc: Global,
    theory: &Theory,
    goal: Dep,
    number: u16,
    replicated: bool,
    complemented: bool,
    deriv: Box<Deriv>,
) -> Result<Box<Deriv>, OutOfMemory>
    requires proof { IsProofOf theory.now (dependency_of goal) (tree_of deriv.value) }
    ensures kept { IfOk result (λ b. IsSameOrShorter theory.now (dependency_of goal)
        (tree_of deriv.value) (tree_of b.value)) }
    ensures short { IfOk result (λ b. IsNoLongerThan theory.now (dependency_of goal)
        (IsJoinedFrom theory.now (dependency_of goal) (start number replicated complemented))
        (tree_of b.value)) }
{
    let first = Start {
        number,
        replicated,
        complemented,
    };
    match start_dep(theory, first) {
        Some(Dep::Mvd { lhs, rhs }) => {
            let after = unless_after(alloc, theory, goal, first, lhs, rhs, deriv)?;
            Ok(after)
        }
        _ => Ok(deriv),
    }
}

// The same of what begins and concludes `left ->> middle`.
fn unless_after(
    alloc: Global,
    theory: &Theory,
    goal: Dep,
    first: Start,
    left: AttrSet,
    middle: AttrSet,
    deriv: Box<Deriv>,
) -> Result<Box<Deriv>, OutOfMemory>
    requires proof { IsProofOf theory.now (dependency_of goal) (tree_of deriv.value) }
    ensures kept { IfOk result (λ b. IsSameOrShorter theory.now (dependency_of goal)
        (tree_of deriv.value) (tree_of b.value)) }
    ensures short { IfOk result (λ b. IsNoLongerThan theory.now (dependency_of goal)
        (λ u. IsSubset (attributes left) (left_of (dependency_of goal))
        × ((j : ℕ) × IsJoinedBy theory.now (dependency_of goal)
        (start first.number first.replicated first.complemented) (attributes middle) j u))
        (tree_of b.value)) }
{
    if !may_begin(theory, goal, left, middle) {
        return Ok(deriv);
    }
    let mut best = deriv;
    for number in 0..theory.deps().len() {
        best = unless_pair(alloc, theory, goal, first, middle, number as u16, best)?;
    }
    Ok(best)
}

// The same of two dependencies, where their sets fit.
fn unless_pair(
    alloc: Global,
    theory: &Theory,
    goal: Dep,
    first: Start,
    middle: AttrSet,
    number: u16,
    deriv: Box<Deriv>,
) -> Result<Box<Deriv>, OutOfMemory>
    requires proof { IsProofOf theory.now (dependency_of goal) (tree_of deriv.value) }
    ensures kept { IfOk result (λ b. IsSameOrShorter theory.now (dependency_of goal)
        (tree_of deriv.value) (tree_of b.value)) }
    ensures short { IfOk result (λ b. IsNoLongerThan theory.now (dependency_of goal)
        (IsJoinedBy theory.now (dependency_of goal)
        (start first.number first.replicated first.complemented) (attributes middle) number)
        (tree_of b.value)) }
{
    match given_dep(theory, number) {
        Some(dep) => {
            let after = unless_given(alloc, theory, goal, first, middle, number, dep, deriv)?;
            Ok(after)
        }
        None => Ok(deriv),
    }
}

// The same where `dep` is the second one.
fn unless_given(
    alloc: Global,
    theory: &Theory,
    goal: Dep,
    first: Start,
    middle: AttrSet,
    number: u16,
    dep: Dep,
    deriv: Box<Deriv>,
) -> Result<Box<Deriv>, OutOfMemory>
    requires proof { IsProofOf theory.now (dependency_of goal) (tree_of deriv.value) }
    ensures kept { IfOk result (λ b. IsSameOrShorter theory.now (dependency_of goal)
        (tree_of deriv.value) (tree_of b.value)) }
    ensures short { IfOk result (λ b. IsNoLongerThan theory.now (dependency_of goal)
        (λ u. SetsFit theory.now (dependency_of goal) (attributes middle) (dependency_of dep)
        × IsJoinedTree (dependency_of goal) (start first.number first.replicated first.complemented)
        (attributes middle) number (dependency_of dep) u) (tree_of b.value)) }
{
    let (whole, _) = sides(goal);
    if !fits(goal, middle, beyond(theory, whole, middle), dep) {
        return Ok(deriv);
    }
    let (_, right) = sides(dep);
    match goal {
        Dep::Mvd { lhs, rhs } => {
            let half = Half {
                lhs,
                rhs,
                first,
                middle,
            };
            let joined = unless_difference(alloc, theory, half, number, deriv)?;
            Ok(joined)
        }
        Dep::Fd { lhs, rhs } => {
            let merged = Merged {
                lhs,
                rhs,
                first,
                number,
                right,
            };
            let joined = unless_coalescence(alloc, theory, merged, deriv)?;
            Ok(joined)
        }
    }
}
