//! Derivations that are trees, written as lines.

ghost use Rattle.std.specs.Prelude.{◌≡◌, ◌≤◌, ◌<◌, ◌+◌, ◌^◌, [], ◌∷◌, ◌++◌, OnOk, IfOk, IfSome, IsNone, Some, slice_get, length, All};
ghost use Rattle.dep_model.specs.Dependencies.{Dependency};
ghost use Rattle.dep_model.specs.Deps.{dependency_of};
ghost use Rattle.derivation.specs.Conclusions.{Proves};
ghost use Rattle.derivation.specs.Direct.{IsDirect};
ghost use Rattle.derivation.specs.Trees.{nodes};
ghost use Rattle.derivation.specs.Derivs.{tree_of};
ghost use Rattle.short_derivations.specs.Emitted.{AreWritten, AreEmitted, IsEmission};
ghost use Rattle.short_derivations.specs.Inferences.{stated_by};
ghost use Rattle.short_derivations.specs.Views.{why_of, lines_of};

use crate::lines::add_line;
use crate::{Inference, Reason};
use dep_model::{Dep, OutOfMemory, Theory};
use derivation::{Deriv, conclude, same_dep};
use std::alloc::Global;

// The lines of a direct derivation, what it concludes twice only once.
pub fn emitted(
    alloc: Global,
    theory: &Theory,
    deriv: &Deriv,
    goal: Dep,
) -> Result<Vec<Inference>, OutOfMemory>
    requires proof { Proves theory.now (tree_of deriv.now) (dependency_of goal) }
    requires direct { IsDirect theory.now (tree_of deriv.now) }
    requires fits_u32 { nodes (tree_of deriv.now) < 2 ^ 32 }
    ensures emission { IfOk result (λ lines. IsEmission theory.now (dependency_of goal)
        (nodes (tree_of deriv.now)) (lines_of lines.items)) }
{
    let mut lines = Vec::new(alloc);
    emit(theory, &mut lines, deriv)?;
    Ok(lines)
}

// Adds the lines of a derivation that are not there yet, and gives the one that states what it concludes.
fn emit(theory: &Theory, lines: &mut Vec<Inference>, deriv: &Deriv) -> Result<u32, OutOfMemory>
    requires proof { (d : Dependency) × Proves theory.now (tree_of deriv.now) d }
    requires direct { IsDirect theory.now (tree_of deriv.now) }
    requires written { AreWritten theory.now (lines_of lines.old.items) }
    requires fits_u32 { length lines.old.items + nodes (tree_of deriv.now) < 2 ^ 32 }
    ensures emitted { IfOk result (λ at. AreEmitted theory.now (tree_of deriv.now)
        (lines_of lines.old.items) at (lines_of lines.new.items)) }
{
    let stated = concluded(theory, deriv);
    if let Some(at) = line_stating(lines, stated) {
        return Ok(at);
    }
    match deriv {
        Deriv::Leaf(rule) => emit_line(lines, stated, Reason::Leaf(*rule)),
        Deriv::Step(rule, premise) => {
            let p = emit(theory, lines, premise)?;
            emit_line(lines, stated, Reason::Step(*rule, p))
        }
        Deriv::Pair(rule, first, second) => {
            let p = emit(theory, lines, first)?;
            let q = emit(theory, lines, second)?;
            emit_line(lines, stated, Reason::Pair(*rule, p, q))
        }
    }
}

// What a derivation concludes.
fn concluded(theory: &Theory, deriv: &Deriv) -> Dep
    requires proof { (d : Dependency) × Proves theory.now (tree_of deriv.now) d }
    requires fits_u32 { nodes (tree_of deriv.now) < 2 ^ 32 }
    ensures proves { Proves theory.now (tree_of deriv.now) (dependency_of result) }
{
    match conclude(theory, deriv) {
        Ok(dep) => dep,
        Err(_) => unreachable!(),
    }
}

// Adds a line, and gives its number.
fn emit_line(lines: &mut Vec<Inference>, stated: Dep, reason: Reason) -> Result<u32, OutOfMemory>
    requires fits_u32 { length lines.old.items < 2 ^ 32 }
    ensures added { IfOk result (λ at. (at ≡ length lines.old.items)
        × (lines_of lines.new.items ≡ lines_of lines.old.items
        ++ record { stated = dependency_of stated; why = why_of reason } ∷ [])) }
{
    let at = lines.len() as u32;
    add_line(lines, stated, reason)?;
    Ok(at)
}

// The first line that states a dependency.
fn line_stating(lines: &[Inference], dep: Dep) -> Option<u32>
    requires fits_u32 { length lines.now < 2 ^ 32 }
    ensures none { IsNone result → All (λ l. l.stated ≡ dependency_of dep → ⊥) (lines_of lines.now) }
    ensures states { IfSome result (λ at. slice_get (stated_by (lines_of lines.now)) at ≡ Some (dependency_of dep)) }
{
    for (k, line) in lines.iter().enumerate() {
        if same_dep(line.stated, dep) {
            return Some(k as u32);
        }
    }
    None
}
