ghost use Rattle.std.specs.Prelude.{◌≡◌, ◌↔◌, All, IsNone, IfSome, IfOk};
ghost use Rattle.attr_sets.specs.Attributes.{difference, IsEmpty, IsSubset};
ghost use Rattle.attr_sets.specs.Sets.{attributes};
ghost use Rattle.dep_model.specs.Dependencies.{right_of};
ghost use Rattle.dep_model.specs.Deps.{dependency_of};
ghost use Rattle.dep_model.specs.Theories.{theory_of, universe_of};
ghost use Rattle.closure_steps.specs.Steps.{Adds, IsClosureStep, AreClosureSteps, reached, closure_step_value, closure_step_values};

use attr_sets::AttrSet;
use dep_model::{Dep, OutOfMemory, Theory};
use std::alloc::Global;

/// A step of a closure: dependency `dep` of the schema, from 0, adds these attributes.
#[derive(Clone, Copy, Debug)]
pub struct ClosureStep {
    pub dep: u16,
    pub added: AttrSet,
}

/// The steps of a closure, and the set that they reach.
#[derive(Debug, Drop)]
pub struct ClosureSteps {
    pub steps: Vec<ClosureStep>,
    pub reached: AttrSet,
}

/// The steps by which a set is closed under the functional dependencies of a schema: as long as there
/// is one, the first of the file that adds something to what is there by then.
pub fn closure_steps(
    alloc: Global,
    theory: &Theory,
    set: AttrSet,
) -> Result<ClosureSteps, OutOfMemory>
    ensures steps { IfOk result (λ found.
        AreClosureSteps (theory_of theory.now) (attributes set) (closure_step_values found.steps.items)) }
    ensures reached { IfOk result (λ found.
        attributes found.reached ≡ reached (attributes set) (closure_step_values found.steps.items)) }
    ensures within { IfOk result (λ found.
        All (λ step. IsSubset (attributes step.added) (universe_of theory.now)) found.steps.items) }
{
    let mut steps = Vec::new(alloc);
    let mut reached = set;
    while let Some(step) = next_step(theory, reached) {
        steps.push(step)?;
        reached = reached.union(step.added);
    }
    Ok(ClosureSteps { steps, reached })
}

// The first functional dependency of a schema that adds something to a set, with what it adds.
fn next_step(theory: &Theory, closed: AttrSet) -> Option<ClosureStep>
    ensures none { IsNone result
        → All (λ d. Adds (attributes closed) d → ⊥) (theory_of theory.now) }
    ensures step { IfSome result
        (λ step. IsClosureStep (theory_of theory.now) (attributes closed) (closure_step_value step)) }
    ensures within { IfSome result
        (λ step. IsSubset (attributes step.added) (universe_of theory.now)) }
{
    for (k, dep) in theory.deps().iter().enumerate() {
        let added = added_by(*dep, closed);
        if !added.is_empty() {
            return Some(ClosureStep {
                dep: k as u16,
                added,
            });
        }
    }
    None
}

// What a functional dependency adds to a set that holds its left side; nothing else adds any.
fn added_by(dep: Dep, closed: AttrSet) -> AttrSet
    ensures none { IsEmpty (attributes result) → Adds (attributes closed) (dependency_of dep) → ⊥ }
    ensures adds { (IsEmpty (attributes result) → ⊥) → Adds (attributes closed) (dependency_of dep) }
    ensures added { (IsEmpty (attributes result) → ⊥)
        → attributes result ≡ difference (right_of (dependency_of dep)) (attributes closed) }
{
    match dep {
        Dep::Fd { lhs, rhs } => {
            if lhs.is_subset(closed) {
                rhs.difference(closed)
            } else {
                AttrSet::empty()
            }
        }
        Dep::Mvd { .. } => AttrSet::empty(),
    }
}
