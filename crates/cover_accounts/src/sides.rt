ghost use Rattle.std.specs.Prelude.{◌≡◌, ◌↔◌, ◌<◌, ℕ, length, IsTrue, IsNone, IfSome, IfOk};
ghost use Rattle.dep_model.specs.Deps.{dependency_of};
ghost use Rattle.dep_model.specs.Theories.{deps_of, width_of, theory_of};
ghost use Rattle.cover_accounts.specs.declared.diagnostic.CoverForm.TheVariants.{Minimal, Canonical};
ghost use Rattle.cover_accounts.specs.CoverDiagnostics.{HasLeftOf, HasSeveralOnRight};
ghost use Rattle.cover_accounts.specs.CheckGathering.{AreCoverDiagnosticsBefore};

use crate::diagnostic::{CoverDiagnostic, CoverForm};
use canonical_cover::have_same_left;
use dep_model::{Dep, OutOfMemory, Theory};

// Adds the diagnostic that a dependency has more than one attribute on the right, or that it has the left
// side of an earlier one, as the form asks.
pub fn add_side(
    theory: &Theory,
    form: CoverForm,
    k: usize,
    found: &mut Vec<CoverDiagnostic>,
) -> Result<(), OutOfMemory>
    requires position { k < length (deps_of theory.now) }
    requires before { AreCoverDiagnosticsBefore form (width_of theory.now) (theory_of theory.now) k 0
        found.old.items }
    ensures before { IfOk result (λ _. AreCoverDiagnosticsBefore form (width_of theory.now)
        (theory_of theory.now) k 1 found.new.items) }
{
    match form {
        CoverForm::Minimal => add_several_on_right(theory, k, found),
        CoverForm::Canonical => add_same_left(theory, k, found),
    }
}

// Adds the diagnostic that a dependency has more than one attribute on the right.
fn add_several_on_right(
    theory: &Theory,
    k: usize,
    found: &mut Vec<CoverDiagnostic>,
) -> Result<(), OutOfMemory>
    requires position { k < length (deps_of theory.now) }
    requires before { AreCoverDiagnosticsBefore Minimal (width_of theory.now) (theory_of theory.now) k 0
        found.old.items }
    ensures before { IfOk result (λ _. AreCoverDiagnosticsBefore Minimal (width_of theory.now)
        (theory_of theory.now) k 1 found.new.items) }
{
    if !has_several_on_right(theory.deps()[k]) {
        return Ok(());
    }
    found.push(CoverDiagnostic::SeveralOnRight { dep: k as u16 })?;
    Ok(())
}

// Whether a functional dependency has more than one attribute on the right.
fn has_several_on_right(dep: Dep) -> bool
    ensures wide { IsTrue result ↔ HasSeveralOnRight (dependency_of dep) }
{
    match dep {
        Dep::Fd { rhs, .. } => rhs.len() > 1,
        Dep::Mvd { .. } => false,
    }
}

// Adds the diagnostic that a dependency has the left side of an earlier one.
fn add_same_left(
    theory: &Theory,
    k: usize,
    found: &mut Vec<CoverDiagnostic>,
) -> Result<(), OutOfMemory>
    requires position { k < length (deps_of theory.now) }
    requires before { AreCoverDiagnosticsBefore Canonical (width_of theory.now) (theory_of theory.now) k 0
        found.old.items }
    ensures before { IfOk result (λ _. AreCoverDiagnosticsBefore Canonical (width_of theory.now)
        (theory_of theory.now) k 1 found.new.items) }
{
    match first_with_left(theory, k) {
        Some(first) => {
            found.push(CoverDiagnostic::SameLeft {
                dep: k as u16,
                first: first as u16,
            })?;
            Ok(())
        }
        None => Ok(()),
    }
}

// The first position before one at which a functional dependency has the left side of the one there.
fn first_with_left(theory: &Theory, k: usize) -> Option<usize>
    requires position { k < length (deps_of theory.now) }
    ensures first { IfSome result (HasLeftOf (theory_of theory.now) k) }
    ensures none { IsNone result → (j : ℕ) → HasLeftOf (theory_of theory.now) k j → ⊥ }
{
    let deps = theory.deps();
    for j in 0..k {
        if have_same_left(deps[j], deps[k]) {
            return Some(j);
        }
    }
    None
}
