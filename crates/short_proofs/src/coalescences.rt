//! A derivation, or a shorter one of two dependencies that coalescence joins.

ghost use Rattle.std.specs.Prelude.{◌≡◌, Bool, IfOk};
ghost use Rattle.attr_sets.specs.Sets.{attributes};
ghost use Rattle.dep_model.specs.Dependencies.{fd};
ghost use Rattle.derivation.specs.Derivs.{tree_of};
ghost use Rattle.basis_proofs.specs.JoinedProofs.{IsProofOf};
ghost use Rattle.short_proofs.specs.Short.{start, IsCoalescence, IsNoLongerThan};
ghost use Rattle.short_proofs.specs.Shapes.{IsSameOrShorter, tree_of_merged};

use crate::keeping::{is_no_longer, unless_other};
use crate::pairs::{Coalescing, Merged, coalescence_deriv, coalescence_size};
use dep_model::{Dep, OutOfMemory, Theory};
use derivation::Deriv;
use std::alloc::Global;

/// A derivation of a functional goal, unless one of these two that coalescence joins is shorter.
pub fn unless_coalescence(
    alloc: Global,
    theory: &Theory,
    merged: Merged,
    deriv: Box<Deriv>,
) -> Result<Box<Deriv>, OutOfMemory>
    requires proof { IsProofOf theory.now (fd (attributes merged.lhs) (attributes merged.rhs))
        (tree_of deriv.value) }
    ensures kept { IfOk result (λ b. IsSameOrShorter theory.now (fd (attributes merged.lhs) (attributes merged.rhs))
        (tree_of deriv.value) (tree_of b.value)) }
    ensures short { IfOk result (λ b. IsNoLongerThan theory.now
        (fd (attributes merged.lhs) (attributes merged.rhs))
        (λ u. (lifted : Bool) × ((cut again : Bool)
        × (u ≡ tree_of_merged merged lifted cut again)))
        (tree_of b.value)) }
{
    let plain = unless_merged(alloc, theory, merged, false, deriv)?;
    let lifted = unless_merged(alloc, theory, merged, true, plain)?;
    Ok(lifted)
}

// The same where the left side is added to the first, or not.
fn unless_merged(
    alloc: Global,
    theory: &Theory,
    merged: Merged,
    lifted: bool,
    deriv: Box<Deriv>,
) -> Result<Box<Deriv>, OutOfMemory>
    requires proof { IsProofOf theory.now (fd (attributes merged.lhs) (attributes merged.rhs))
        (tree_of deriv.value) }
    ensures kept { IfOk result (λ b. IsSameOrShorter theory.now (fd (attributes merged.lhs) (attributes merged.rhs))
        (tree_of deriv.value) (tree_of b.value)) }
    ensures short { IfOk result (λ b. IsNoLongerThan theory.now
        (fd (attributes merged.lhs) (attributes merged.rhs))
        (λ u. (cut again : Bool) × (u ≡ tree_of_merged merged lifted cut again))
        (tree_of b.value)) }
{
    let one = unless_coalescing(alloc, theory, merged, lifted, false, false, deriv)?;
    let two = unless_coalescing(alloc, theory, merged, lifted, false, true, one)?;
    let three = unless_coalescing(alloc, theory, merged, lifted, true, false, two)?;
    let four = unless_coalescing(alloc, theory, merged, lifted, true, true, three)?;
    Ok(four)
}

// The same of one way to join them.
fn unless_coalescing(
    alloc: Global,
    theory: &Theory,
    merged: Merged,
    lifted: bool,
    cut: bool,
    again: bool,
    deriv: Box<Deriv>,
) -> Result<Box<Deriv>, OutOfMemory>
    requires proof { IsProofOf theory.now (fd (attributes merged.lhs) (attributes merged.rhs))
        (tree_of deriv.value) }
    ensures kept { IfOk result (λ b. IsSameOrShorter theory.now (fd (attributes merged.lhs) (attributes merged.rhs))
        (tree_of deriv.value) (tree_of b.value)) }
    ensures short { IfOk result (λ b. IsNoLongerThan theory.now
        (fd (attributes merged.lhs) (attributes merged.rhs))
        (λ u. u ≡ tree_of_merged merged lifted cut again)
        (tree_of b.value)) }
{
    let Merged { lhs, rhs, .. } = merged;
    let by = Coalescing { lifted, cut, again };
    if is_no_longer(&deriv, coalescence_size(merged, by)) {
        return Ok(deriv);
    }
    let other = coalescence_deriv(alloc, merged, by)?;
    Ok(unless_other(theory, Dep::Fd { lhs, rhs }, deriv, other))
}
