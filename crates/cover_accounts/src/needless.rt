ghost use Rattle.std.specs.Prelude.{◌≡◌, ◌↔◌, ◌+◌, ◌<◌, length, slice_get, Some, IsTrue, IfOk};
ghost use Rattle.attr_sets.specs.Sets.{attributes};
ghost use Rattle.attr_sets.specs.declared.set.TheConstants.{MOST_ATTRIBUTES};
ghost use Rattle.dep_model.specs.Dependencies.{Dependency, fd};
ghost use Rattle.dep_model.specs.Deps.{dependency_of, IsDepWithin};
ghost use Rattle.dep_model.specs.Theories.{deps_of, width_of, universe_of, theory_of};
ghost use Rattle.cover_accounts.specs.declared.diagnostic.CoverForm.{CoverForm};
ghost use Rattle.cover_accounts.specs.declared.diagnostic.CoverForm.TheVariants.{Canonical};
ghost use Rattle.cover_accounts.specs.CoverDiagnostics.{IsNotNeededOnLeft, IsNotNeededOnRight};
ghost use Rattle.cover_accounts.specs.CheckGathering.{AreCoverDiagnosticsBefore};

use crate::diagnostic::{CoverDiagnostic, CoverForm};
use attr_sets::{AttrSet, MOST_ATTRIBUTES};
use dep_model::{Dep, OutOfMemory, Theory};
use fd_closure::follows;
use std::alloc::Global;

// Adds the diagnostics that attributes are not needed on the left of a dependency, which every form asks.
pub fn add_not_needed_on_left(
    theory: &Theory,
    k: usize,
    found: &mut Vec<CoverDiagnostic>,
) -> Result<(), OutOfMemory>
    requires position { k < length (deps_of theory.now) }
    ensures before { (form : CoverForm)
        → AreCoverDiagnosticsBefore form (width_of theory.now) (theory_of theory.now) k 1 found.old.items
        → IfOk result (λ _. AreCoverDiagnosticsBefore form (width_of theory.now) (theory_of theory.now)
        k (1 + MOST_ATTRIBUTES) found.new.items) }
{
    let dep = theory.deps()[k];
    for attribute in 0..MOST_ATTRIBUTES {
        if is_not_needed_on_left(theory, dep, attribute) {
            found.push(CoverDiagnostic::NotNeededOnLeft {
                dep: k as u16,
                attribute,
            })?;
        }
    }
    Ok(())
}

// Whether an attribute is not needed on the left of a functional dependency.
fn is_not_needed_on_left(theory: &Theory, dep: Dep, attribute: u8) -> bool
    requires within { IsDepWithin (universe_of theory.now) dep }
    requires attribute { attribute < MOST_ATTRIBUTES }
    ensures not_needed { IsTrue result ↔ IsNotNeededOnLeft (width_of theory.now) (theory_of theory.now)
        (dependency_of dep) attribute }
{
    match dep {
        Dep::Fd { lhs, rhs } => {
            lhs.contains(attribute) && follows(theory.deps(), lhs.without(attribute), rhs)
        }
        Dep::Mvd { .. } => false,
    }
}

// Adds the diagnostics that attributes are not needed on the right of a dependency, where the form asks that.
pub fn add_not_needed_on_right(
    alloc: Global,
    theory: &Theory,
    form: CoverForm,
    k: usize,
    found: &mut Vec<CoverDiagnostic>,
) -> Result<(), OutOfMemory>
    requires position { k < length (deps_of theory.now) }
    requires before { AreCoverDiagnosticsBefore form (width_of theory.now) (theory_of theory.now) k
        (1 + MOST_ATTRIBUTES) found.old.items }
    ensures before { IfOk result (λ _. AreCoverDiagnosticsBefore form (width_of theory.now)
        (theory_of theory.now) k (1 + (MOST_ATTRIBUTES + MOST_ATTRIBUTES)) found.new.items) }
{
    match form {
        CoverForm::Minimal => Ok(()),
        CoverForm::Canonical => add_spare_rights(alloc, theory, k, found),
    }
}

// Adds the diagnostics that attributes are not needed on the right of a dependency.
fn add_spare_rights(
    alloc: Global,
    theory: &Theory,
    k: usize,
    found: &mut Vec<CoverDiagnostic>,
) -> Result<(), OutOfMemory>
    requires position { k < length (deps_of theory.now) }
    requires before { AreCoverDiagnosticsBefore Canonical (width_of theory.now) (theory_of theory.now) k
        (1 + MOST_ATTRIBUTES) found.old.items }
    ensures before { IfOk result (λ _. AreCoverDiagnosticsBefore Canonical (width_of theory.now)
        (theory_of theory.now) k (1 + (MOST_ATTRIBUTES + MOST_ATTRIBUTES)) found.new.items) }
{
    for attribute in 0..MOST_ATTRIBUTES {
        if is_not_needed_on_right(alloc, theory, k, attribute)? {
            found.push(CoverDiagnostic::NotNeededOnRight {
                dep: k as u16,
                attribute,
            })?;
        }
    }
    Ok(())
}

// Whether an attribute is not needed on the right of the dependency at a position.
fn is_not_needed_on_right(
    alloc: Global,
    theory: &Theory,
    k: usize,
    attribute: u8,
) -> Result<bool, OutOfMemory>
    requires position { k < length (deps_of theory.now) }
    requires attribute { attribute < MOST_ATTRIBUTES }
    ensures not_needed { (d : Dependency) → slice_get (theory_of theory.now) k ≡ Some d
        → IfOk result (λ spare. IsTrue spare
        ↔ IsNotNeededOnRight (width_of theory.now) (theory_of theory.now) k d attribute) }
{
    match theory.deps()[k] {
        Dep::Fd { lhs, rhs } => is_spare(alloc, theory, k, lhs, rhs, attribute),
        Dep::Mvd { .. } => Ok(false),
    }
}

// Whether an attribute stands on the right of the functional dependency at a position, and its left side
// determines it also where it does not stand there.
fn is_spare(
    alloc: Global,
    theory: &Theory,
    k: usize,
    lhs: AttrSet,
    rhs: AttrSet,
    attribute: u8,
) -> Result<bool, OutOfMemory>
    requires position { slice_get (theory_of theory.now) k ≡ Some (fd (attributes lhs) (attributes rhs)) }
    requires attribute { attribute < MOST_ATTRIBUTES }
    ensures not_needed { IfOk result (λ spare. IsTrue spare
        ↔ IsNotNeededOnRight (width_of theory.now) (theory_of theory.now) k
        (fd (attributes lhs) (attributes rhs)) attribute) }
{
    if !rhs.contains(attribute) {
        return Ok(false);
    }
    let mut deps = Vec::from_slice(alloc, theory.deps())?;
    deps[k] = Dep::Fd {
        lhs,
        rhs: rhs.without(attribute),
    };
    Ok(follows(&deps, lhs, AttrSet::single(attribute)))
}
