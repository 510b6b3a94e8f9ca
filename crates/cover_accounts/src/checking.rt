ghost use Rattle.std.specs.Prelude.{◌≡◌, ◌↔◌, ◌+◌, ◌<◌, ◌≤◌, All, length, slice_get, Some, IsTrue, IfOk};
ghost use Rattle.std.specs.List.{remove};
ghost use Rattle.attr_sets.specs.Attributes.{below};
ghost use Rattle.attr_sets.specs.declared.set.TheConstants.{MOST_ATTRIBUTES};
ghost use Rattle.dep_model.specs.Dependencies.{Dependency};
ghost use Rattle.dep_model.specs.Deps.{dependency_of, dependencies_of, IsDepWithin};
ghost use Rattle.dep_model.specs.Theories.{deps_of, width_of, theory_of};
ghost use Rattle.cover_accounts.specs.CoverDiagnostics.{AreCoverDiagnostics, FollowsFrom, IsAskedToFollow, NamesAttribute};
ghost use Rattle.cover_accounts.specs.CheckGathering.{AreCoverDiagnosticsBefore};

use crate::diagnostic::{CoverDiagnostic, CoverForm};
use crate::needless::{add_not_needed_on_left, add_not_needed_on_right};
use crate::others::dependency_and_others;
use crate::sides::add_side;
use attr_sets::MOST_ATTRIBUTES;
use dep_basis::is_implied_by;
use dep_model::{Dep, OutOfMemory, Theory};
use fd_closure::follows;
use std::alloc::Global;

/// What keeps the dependencies of a schema from being a cover of a form, in the order of the file; of one
/// dependency first its right side, or whether it has the left side of an earlier one, then its left side,
/// ascending, then its right side, ascending, then whether it follows from the others. Multivalued ones are
/// asked the last alone.
pub fn diagnostics(
    alloc: Global,
    theory: &Theory,
    form: CoverForm,
) -> Result<Vec<CoverDiagnostic>, OutOfMemory>
    ensures diagnostics { IfOk result (λ found.
        AreCoverDiagnostics form (width_of theory.now) (theory_of theory.now) found.items) }
    ensures attributes { IfOk result (λ found. All NamesAttribute found.items) }
{
    let mut found = Vec::new(alloc);
    for k in 0..theory.deps().len() {
        add_side(theory, form, k, &mut found)?;
        add_not_needed_on_left(theory, k, &mut found)?;
        add_not_needed_on_right(alloc, theory, form, k, &mut found)?;
        add_following(alloc, theory, form, k, &mut found)?;
    }
    Ok(found)
}

// Adds the diagnostic that a dependency follows from the others, where the form asks that.
fn add_following(
    alloc: Global,
    theory: &Theory,
    form: CoverForm,
    k: usize,
    found: &mut Vec<CoverDiagnostic>,
) -> Result<(), OutOfMemory>
    requires position { k < length (deps_of theory.now) }
    requires before { AreCoverDiagnosticsBefore form (width_of theory.now) (theory_of theory.now) k
        (1 + (MOST_ATTRIBUTES + MOST_ATTRIBUTES)) found.old.items }
    ensures before { IfOk result (λ _. AreCoverDiagnosticsBefore form (width_of theory.now)
        (theory_of theory.now) (k + 1) 0 found.new.items) }
{
    if !is_told_to_follow(alloc, theory, form, k)? {
        return Ok(());
    }
    found.push(CoverDiagnostic::Follows { dep: k as u16 })?;
    Ok(())
}

// Whether the dependency at a position follows from the others, where the form asks that.
fn is_told_to_follow(
    alloc: Global,
    theory: &Theory,
    form: CoverForm,
    k: usize,
) -> Result<bool, OutOfMemory>
    requires position { k < length (deps_of theory.now) }
    ensures follows { (d : Dependency) → slice_get (theory_of theory.now) k ≡ Some d
        → IfOk result (λ told. IsTrue told
        ↔ (IsAskedToFollow form d × FollowsFrom (width_of theory.now) (remove (theory_of theory.now) k) d)) }
{
    let (dep, others) = dependency_and_others(alloc, theory, k)?;
    Ok(is_asked_to_follow(form, dep) && follows_from(&others, theory.width(), dep))
}

// Whether a form asks a dependency whether it follows from the others.
fn is_asked_to_follow(form: CoverForm, dep: Dep) -> bool
    ensures asked { IsTrue result ↔ IsAskedToFollow form (dependency_of dep) }
{
    match (form, dep) {
        (CoverForm::Canonical, Dep::Fd { rhs, .. }) => rhs.is_empty(),
        _ => true,
    }
}

// Whether a functional dependency follows from the functional ones of a list, or a multivalued one from
// all.
fn follows_from(deps: &[Dep], width: u8, dep: Dep) -> bool
    requires width { width ≤ MOST_ATTRIBUTES }
    requires deps { All (IsDepWithin (below width)) deps.now }
    requires within { IsDepWithin (below width) dep }
    ensures implied { IsTrue result ↔ FollowsFrom width (dependencies_of deps.now) (dependency_of dep) }
{
    match dep {
        Dep::Fd { lhs, rhs } => follows(deps, lhs, rhs),
        Dep::Mvd { .. } => is_implied_by(deps, width, dep),
    }
}
