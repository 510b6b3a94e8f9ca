ghost use Rattle.std.specs.Prelude.{◌≡◌, IfOk, All};
ghost use Rattle.attr_sets.specs.Attributes.{Attributes};
ghost use Rattle.attr_sets.specs.Sets.{attributes};
ghost use Rattle.dep_model.specs.Deps.{dependencies_of, IsDepWithin};
ghost use Rattle.dep_model.specs.Forms.{IsThird};
ghost use Rattle.dep_model.specs.Plans.{schemes_of};
ghost use Rattle.dep_model.specs.Preservation.{KeepsDependencies};
ghost use Rattle.dep_model.specs.Projections.{IsLossless};
ghost use Rattle.dep_model.specs.Theories.{width_of, theory_of, universe_of};
ghost use Rattle.min_cover.specs.Covers.{IsMinimalCover};
ghost use Rattle.plans.specs.Containing.{without_contained};
ghost use Rattle.plans.specs.Plans.{scheme_sets, plan_of, IsPlanOver};
ghost use Rattle.synthesis_3nf.specs.GroupedPlans.{AreSynthesisSteps, IsGroupedPlan};

use crate::steps::{SynthesisSteps, synthesis_steps};
use attr_sets::AttrSet;
use dep_model::{OutOfMemory, Theory};
use plans::{Plan, drop_contained};
use std::alloc::Global;

/// A lossless plan of schemes in third normal form that keeps the functional dependencies of a schema:
/// that of `synthesis_steps`.
pub fn synthesize(alloc: Global, theory: &Theory, nullable: AttrSet) -> Result<Plan, OutOfMemory>
    ensures universe { IfOk result (λ plan. IsPlanOver theory.now plan) }
    ensures grouped { IfOk result (λ plan. IsGroupedPlan (width_of theory.now) (theory_of theory.now)
        (attributes nullable) (scheme_sets plan)) }
    ensures lossless { IfOk result (λ plan.
        IsLossless (width_of theory.now) (theory_of theory.now) (plan_of plan)) }
    ensures third { IfOk result (λ plan.
        All (IsThird (width_of theory.now) (theory_of theory.now)) (plan_of plan)) }
    ensures keeps { IfOk result (λ plan.
        KeepsDependencies (width_of theory.now) (theory_of theory.now) (plan_of plan)) }
{
    let steps = synthesis_steps(alloc, theory, nullable)?;
    plan_of_steps(alloc, theory, &steps)
}

/// The plan that a synthesis leads to: its schemes without contained ones.
pub fn plan_of_steps(
    alloc: Global,
    theory: &Theory,
    steps: &SynthesisSteps,
) -> Result<Plan, OutOfMemory>
    requires steps { (nullable : Attributes) × AreSynthesisSteps (width_of theory.now) (theory_of theory.now)
        nullable (dependencies_of steps.now.cover.items) (schemes_of steps.now.schemes.items) }
    requires minimal { IsMinimalCover (width_of theory.now) (theory_of theory.now)
        (dependencies_of steps.now.cover.items) }
    requires within { All (IsDepWithin (universe_of theory.now)) steps.now.cover.items }
    ensures universe { IfOk result (IsPlanOver theory.now) }
    ensures kept { IfOk result (λ plan. scheme_sets plan ≡ without_contained steps.now.schemes.items) }
    ensures grouped { (nullable : Attributes) → AreSynthesisSteps (width_of theory.now) (theory_of theory.now)
        nullable (dependencies_of steps.now.cover.items) (schemes_of steps.now.schemes.items)
        → IfOk result (λ plan. IsGroupedPlan (width_of theory.now) (theory_of theory.now) nullable
        (scheme_sets plan)) }
    ensures lossless { IfOk result (λ plan.
        IsLossless (width_of theory.now) (theory_of theory.now) (plan_of plan)) }
    ensures third { IfOk result (λ plan.
        All (IsThird (width_of theory.now) (theory_of theory.now)) (plan_of plan)) }
    ensures keeps { IfOk result (λ plan.
        KeepsDependencies (width_of theory.now) (theory_of theory.now) (plan_of plan)) }
{
    let schemes = Vec::from_slice(alloc, &steps.schemes)?;
    Ok(drop_contained(theory, Plan::new(theory, schemes)))
}
