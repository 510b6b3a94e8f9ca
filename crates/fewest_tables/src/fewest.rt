ghost use Rattle.std.specs.Prelude.{◌≡◌, ◌⊎◌, IfOk, All};
ghost use Rattle.attr_sets.specs.Attributes.{Attributes};
ghost use Rattle.attr_sets.specs.Sets.{attributes};
ghost use Rattle.dep_model.specs.Forms.{IsThird};
ghost use Rattle.dep_model.specs.Preservation.{KeepsDependencies};
ghost use Rattle.dep_model.specs.Projections.{IsLossless};
ghost use Rattle.dep_model.specs.Theories.{width_of, theory_of};
ghost use Rattle.plans.specs.Containing.{without_contained};
ghost use Rattle.plans.specs.Plans.{scheme_sets, plan_of, IsPlanOver};
ghost use Rattle.fewest_tables.specs.FewestSteps.{AreFewestSteps};
ghost use Rattle.fewest_tables.specs.KeyedDesigns.{AreFewest};
ghost use Rattle.fewest_tables.specs.MergedPlans.{IsFewestPlan, smaller};

use crate::steps::{FewestSteps, fewest_steps};
use attr_sets::AttrSet;
use dep_model::{OutOfMemory, Theory};
use plans::{Plan, drop_contained};
use std::alloc::Global;
use synthesis_3nf::plan_of_steps;

/// A lossless plan of schemes in third normal form that keeps the functional dependencies of a
/// schema: that of `merged_plan`, or that of `synthesize` where it has fewer schemes.
pub fn fewest_plan(alloc: Global, theory: &Theory, nullable: AttrSet) -> Result<Plan, OutOfMemory>
    ensures universe { IfOk result (IsPlanOver theory.now) }
    ensures made { IfOk result (λ plan. IsFewestPlan (width_of theory.now) (theory_of theory.now)
        (attributes nullable) (scheme_sets plan)) }
    ensures lossless { IfOk result (λ plan.
        IsLossless (width_of theory.now) (theory_of theory.now) (plan_of plan)) }
    ensures third { IfOk result (λ plan.
        All (IsThird (width_of theory.now) (theory_of theory.now)) (plan_of plan)) }
    ensures keeps { IfOk result (λ plan.
        KeepsDependencies (width_of theory.now) (theory_of theory.now) (plan_of plan)) }
    ensures fewest { IfOk result (λ plan. (is : IsFewestPlan (width_of theory.now) (theory_of theory.now)
        (attributes nullable) (scheme_sets plan))
        → AreFewest (width_of theory.now) (theory_of theory.now) is.is_merged.groups) }
{
    let steps = fewest_steps(alloc, theory, nullable)?;
    let merged = merged_plan(alloc, theory, &steps)?;
    let plain = plan_of_steps(alloc, theory, &steps.plain)?;
    Ok(smaller_plan(merged, plain))
}

/// The second of two plans where it has fewer schemes, and else the first.
pub fn smaller_plan(first: Plan, second: Plan) -> Plan
    ensures chosen { scheme_sets result ≡ smaller (scheme_sets first) (scheme_sets second) }
    ensures either { (result ≡ first) ⊎ (result ≡ second) }
{
    if second.schemes().len() < first.schemes().len() {
        second
    } else {
        first
    }
}

/// The plan that the steps lead to: the schemes of the groups without contained ones.
pub fn merged_plan(alloc: Global, theory: &Theory, steps: &FewestSteps) -> Result<Plan, OutOfMemory>
    requires steps { (nullable : Attributes) × AreFewestSteps (width_of theory.now) (theory_of theory.now)
        nullable steps.now }
    ensures universe { IfOk result (IsPlanOver theory.now) }
    ensures left { IfOk result (λ plan. scheme_sets plan ≡ without_contained steps.now.schemes.items) }
    ensures lossless { IfOk result (λ plan.
        IsLossless (width_of theory.now) (theory_of theory.now) (plan_of plan)) }
    ensures third { IfOk result (λ plan.
        All (IsThird (width_of theory.now) (theory_of theory.now)) (plan_of plan)) }
    ensures keeps { IfOk result (λ plan.
        KeepsDependencies (width_of theory.now) (theory_of theory.now) (plan_of plan)) }
{
    let schemes = Vec::from_slice(alloc, &steps.schemes)?;
    Ok(drop_contained(theory, Plan::new(theory, schemes)))
}
