ghost use Rattle.std.specs.Prelude.{◌≡◌, ◌-◌, ◌^◌, ◌<◌, ◌≤◌, IfOk, IfErr, All, Err};
ghost use Rattle.dep_model.specs.Failures.{RefusesAs};
ghost use Rattle.dep_model.specs.Plans.{schemes_of};
ghost use Rattle.dep_model.specs.Projections.{IsLossless};
ghost use Rattle.dep_model.specs.Theories.{width_of, theory_of};
ghost use Rattle.plans.specs.Containing.{without_contained};
ghost use Rattle.plans.specs.Plans.{scheme_sets, plan_of, IsPlanOver};
ghost use Rattle.normal_forms.specs.Chosen.{IsInForm};
ghost use Rattle.split_forms.specs.Splitting.{FinishedList, IsSplitPlan};
ghost use Rattle.split_forms.specs.Refusals.{IsRefusedSplit, IsWithinLimits};

use crate::refusal::SplitRefusal;
use crate::steps::{SplitSteps, split_steps};
use dep_model::{Failure, Form, OutOfMemory, Theory};
use plans::{Plan, drop_contained};
use std::alloc::Global;

/// A lossless plan of schemes in Boyce-Codd or fourth normal form (Codd 1974; Fagin 1977). The
/// universe is cut at violations: in a list of schemes, the first that is not in the form is
/// replaced, in its place, by both sides of its chosen violation and then by itself without the
/// right side. A scheme that is too wide to be searched is cut at its visible violation. Of the list
/// in which all are in the form, contained schemes are dropped. Functional dependencies may be
/// lost.
///
/// Where a list has more than `limit` schemes, the universe is not split. Over n attributes no list
/// has more than 2 to the power n - 1; so with a limit of 4,096, or 2 to the power 12, 13 attributes
/// never make too many.
///
/// The time is exponential at worst: each different scheme of the lists is tested once as `violation`
/// does it, and there may be `limit` schemes.
pub fn split(
    alloc: Global,
    theory: &Theory,
    form: Form,
    limit: u32,
) -> Result<Plan, Failure<SplitRefusal>>
    requires form { form ≡ Form.Third → ⊥ }
    requires limit { 0 < limit }
    ensures universe { IfOk result (λ plan. IsPlanOver theory.now plan) }
    ensures finished { IfOk result (λ plan.
        IsSplitPlan (width_of theory.now) (theory_of theory.now) form (scheme_sets plan)) }
    ensures lossless { IfOk result (λ plan.
        IsLossless (width_of theory.now) (theory_of theory.now) (plan_of plan)) }
    ensures in_form { IfOk result (λ plan.
        All (IsInForm (width_of theory.now) (theory_of theory.now) form) (plan_of plan)) }
    ensures within_limits { IfOk result (λ _.
        IsWithinLimits (width_of theory.now) (theory_of theory.now) form limit) }
    ensures refused { IfErr result
        (RefusesAs (IsRefusedSplit (width_of theory.now) (theory_of theory.now) form limit)) }
    ensures never_too_many { 2 ^ (width_of theory.now - 1) ≤ limit
        → result ≡ Err (Failure.Refused SplitRefusal.TooManySchemes) → ⊥ }
{
    match split_steps(alloc, theory, form, limit) {
        Ok(steps) => Ok(plan_of_steps(alloc, theory, &steps)?),
        Err(failure) => Err(failure),
    }
}

/// The plan that a split leads to: its last list without contained schemes.
pub fn plan_of_steps(
    alloc: Global,
    theory: &Theory,
    steps: &SplitSteps,
) -> Result<Plan, OutOfMemory>
    requires form { steps.now.form ≡ Form.Third → ⊥ }
    requires finished { FinishedList (width_of theory.now) (theory_of theory.now) steps.now.form
        (schemes_of steps.now.schemes.items) }
    ensures universe { IfOk result (IsPlanOver theory.now) }
    ensures kept { IfOk result (λ plan. scheme_sets plan ≡ without_contained steps.now.schemes.items) }
    ensures lossless { IfOk result (λ plan.
        IsLossless (width_of theory.now) (theory_of theory.now) (plan_of plan)) }
    ensures in_form { IfOk result (λ plan.
        All (IsInForm (width_of theory.now) (theory_of theory.now) steps.now.form) (plan_of plan)) }
{
    let schemes = Vec::from_slice(alloc, &steps.schemes)?;
    Ok(drop_contained(theory, Plan::new(theory, schemes)))
}
