//! A derivation, or a shorter one of two dependencies that transitivity joins.

ghost use Rattle.std.specs.Prelude.{◌≡◌, Bool, IfOk};
ghost use Rattle.attr_sets.specs.Sets.{attributes};
ghost use Rattle.dep_model.specs.Dependencies.{mvd};
ghost use Rattle.derivation.specs.Derivs.{tree_of};
ghost use Rattle.basis_proofs.specs.JoinedProofs.{IsProofOf};
ghost use Rattle.short_proofs.specs.Short.{start, transitivity_of, IsTransitivity, IsNoLongerThan};
ghost use Rattle.short_proofs.specs.Shapes.{IsSameOrShorter, tree_of_halves};

use crate::keeping::{is_no_longer, unless_other};
use crate::pairs::{Half, Halves, Transit, difference_deriv, difference_size};
use crate::starts::Start;
use dep_model::{Dep, OutOfMemory, Theory};
use derivation::Deriv;
use std::alloc::Global;

/// A derivation of a multivalued goal, unless one of these with dependency `number` is shorter.
pub fn unless_difference(
    alloc: Global,
    theory: &Theory,
    half: Half,
    number: u16,
    deriv: Box<Deriv>,
) -> Result<Box<Deriv>, OutOfMemory>
    requires proof { IsProofOf theory.now (mvd (attributes half.lhs) (attributes half.rhs))
        (tree_of deriv.value) }
    ensures kept { IfOk result (λ b. IsSameOrShorter theory.now (mvd (attributes half.lhs) (attributes half.rhs))
        (tree_of deriv.value) (tree_of b.value)) }
    ensures short { IfOk result (λ b. IsNoLongerThan theory.now
        (mvd (attributes half.lhs) (attributes half.rhs))
        (IsTransitivity (attributes half.lhs) (attributes half.rhs)
        (start half.first.number half.first.replicated half.first.complemented)
        (attributes half.middle) number) (tree_of b.value)) }
{
    let one = unless_second(alloc, theory, half, number, false, false, deriv)?;
    let two = unless_second(alloc, theory, half, number, false, true, one)?;
    let three = unless_second(alloc, theory, half, number, true, false, two)?;
    let four = unless_second(alloc, theory, half, number, true, true, three)?;
    Ok(four)
}

// The same where this dependency is replicated or complemented, or not.
fn unless_second(
    alloc: Global,
    theory: &Theory,
    half: Half,
    number: u16,
    replicated: bool,
    complemented: bool,
    deriv: Box<Deriv>,
) -> Result<Box<Deriv>, OutOfMemory>
    requires proof { IsProofOf theory.now (mvd (attributes half.lhs) (attributes half.rhs))
        (tree_of deriv.value) }
    ensures kept { IfOk result (λ b. IsSameOrShorter theory.now (mvd (attributes half.lhs) (attributes half.rhs))
        (tree_of deriv.value) (tree_of b.value)) }
    ensures short { IfOk result (λ b. IsNoLongerThan theory.now
        (mvd (attributes half.lhs) (attributes half.rhs))
        (λ u. (lifted widened : Bool) × ((turned again : Bool)
        × (u ≡ transitivity_of (attributes half.lhs) (attributes half.rhs) (attributes half.middle)
        (start half.first.number half.first.replicated half.first.complemented)
        (start number replicated complemented) lifted widened turned again))) (tree_of b.value)) }
{
    let second = Start {
        number,
        replicated,
        complemented,
    };
    unless_halves(alloc, theory, Halves { half, second }, deriv)
}

// The same of two halves: what is added to the first, and to the second.
fn unless_halves(
    alloc: Global,
    theory: &Theory,
    halves: Halves,
    deriv: Box<Deriv>,
) -> Result<Box<Deriv>, OutOfMemory>
    requires proof { IsProofOf theory.now (mvd (attributes halves.half.lhs) (attributes halves.half.rhs))
        (tree_of deriv.value) }
    ensures kept { IfOk result (λ b. IsSameOrShorter theory.now
        (mvd (attributes halves.half.lhs) (attributes halves.half.rhs))
        (tree_of deriv.value) (tree_of b.value)) }
    ensures short { IfOk result (λ b. IsNoLongerThan theory.now
        (mvd (attributes halves.half.lhs) (attributes halves.half.rhs))
        (λ u. (lifted widened : Bool) × ((turned again : Bool)
        × (u ≡ tree_of_halves halves lifted widened turned again))) (tree_of b.value)) }
{
    let one = unless_ended(alloc, theory, halves, false, false, deriv)?;
    let two = unless_ended(alloc, theory, halves, false, true, one)?;
    let three = unless_ended(alloc, theory, halves, true, false, two)?;
    let four = unless_ended(alloc, theory, halves, true, true, three)?;
    Ok(four)
}

// The same where these are added: what comes last.
fn unless_ended(
    alloc: Global,
    theory: &Theory,
    halves: Halves,
    lifted: bool,
    widened: bool,
    deriv: Box<Deriv>,
) -> Result<Box<Deriv>, OutOfMemory>
    requires proof { IsProofOf theory.now (mvd (attributes halves.half.lhs) (attributes halves.half.rhs))
        (tree_of deriv.value) }
    ensures kept { IfOk result (λ b. IsSameOrShorter theory.now
        (mvd (attributes halves.half.lhs) (attributes halves.half.rhs))
        (tree_of deriv.value) (tree_of b.value)) }
    ensures short { IfOk result (λ b. IsNoLongerThan theory.now
        (mvd (attributes halves.half.lhs) (attributes halves.half.rhs))
        (λ u. (turned again : Bool) × (u ≡ tree_of_halves halves lifted widened turned again))
        (tree_of b.value)) }
{
    let one = unless_transit(alloc, theory, halves, lifted, widened, false, false, deriv)?;
    let two = unless_transit(alloc, theory, halves, lifted, widened, false, true, one)?;
    let three = unless_transit(alloc, theory, halves, lifted, widened, true, false, two)?;
    let four = unless_transit(alloc, theory, halves, lifted, widened, true, true, three)?;
    Ok(four)
}

// The same of one way to join them.
fn unless_transit(
    alloc: Global,
    theory: &Theory,
    halves: Halves,
    lifted: bool,
    widened: bool,
    turned: bool,
    again: bool,
    deriv: Box<Deriv>,
) -> Result<Box<Deriv>, OutOfMemory>
    requires proof { IsProofOf theory.now (mvd (attributes halves.half.lhs) (attributes halves.half.rhs))
        (tree_of deriv.value) }
    ensures kept { IfOk result (λ b. IsSameOrShorter theory.now
        (mvd (attributes halves.half.lhs) (attributes halves.half.rhs))
        (tree_of deriv.value) (tree_of b.value)) }
    ensures short { IfOk result (λ b. IsNoLongerThan theory.now
        (mvd (attributes halves.half.lhs) (attributes halves.half.rhs))
        (λ u. u ≡ tree_of_halves halves lifted widened turned again) (tree_of b.value)) }
{
    let Half { lhs, rhs, .. } = halves.half;
    let by = Transit {
        lifted,
        widened,
        turned,
        again,
    };
    if is_no_longer(&deriv, difference_size(halves, by)) {
        return Ok(deriv);
    }
    let other = difference_deriv(alloc, halves, by)?;
    Ok(unless_other(theory, Dep::Mvd { lhs, rhs }, deriv, other))
}
