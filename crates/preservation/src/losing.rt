ghost use Rattle.std.specs.Prelude.{◌≡◌, [], ◌↔◌, All, IfOk, IfSome, IfNone};
ghost use Rattle.attr_sets.specs.Attributes.{IsSubset};
ghost use Rattle.attr_sets.specs.Sets.{attributes};
ghost use Rattle.dep_model.specs.Deps.{dependency_of, IsDepWithin};
ghost use Rattle.dep_model.specs.Plans.{schemes_of};
ghost use Rattle.dep_model.specs.Preservation.{KeepsDependencies};
ghost use Rattle.dep_model.specs.Theories.{width_of, deps_of, theory_of, universe_of};
ghost use Rattle.fd_closure.specs.Counting.{FitsList};
ghost use Rattle.preservation.specs.SchemeClosures.{IsSchemeClosure, schemes_of_closures, plan_of_closures};
ghost use Rattle.preservation.specs.Keeping.{IsPreserved, IsLostOn, LossesOf};
ghost use Rattle.preservation.specs.FunctionallyClosed.{TellsKeptClosure};

use crate::closing::{Closed, closure_after};
use crate::scheme_closure::{SchemeClosure, scheme_closures};
use attr_sets::AttrSet;
use dep_model::{Dep, OutOfMemory, Theory};
use fd_closure::Counters;
use std::alloc::Global;

/// A functional dependency that a plan loses.
#[derive(Clone, Copy, Debug, PartialEq, Eq)]
pub struct Loss {
    /// Its number among the dependencies, from 0.
    pub dep: u16,
    /// Two tuples that agree exactly here obey all that the plan keeps, and break the dependency.
    pub agreement: AttrSet,
}

/// The functional dependencies that a plan loses, in the order of the file.
pub fn losses(alloc: Global, theory: &Theory, schemes: &[AttrSet]) -> Result<Vec<Loss>, OutOfMemory>
    requires schemes { All (λ scheme. IsSubset (attributes scheme)
        (universe_of theory.now)) schemes.now }
    ensures losses { IfOk result (λ v. LossesOf (width_of theory.now) (theory_of theory.now)
        (schemes_of schemes.now) v.items) }
    ensures keeps { IfOk result (λ v. (v.items ≡ [])
        ↔ KeepsDependencies (width_of theory.now) (theory_of theory.now) (schemes_of schemes.now)) }
{
    let mut counters = Counters::new(alloc, theory.deps(), theory.width())?;
    let mut closures = scheme_closures(alloc, theory, &mut counters, schemes)?;
    let mut losses = Vec::new(alloc);
    let mut last = None;
    for k in 0..theory.deps().len() {
        let loss = loss_of(theory, &mut counters, &mut closures, last, theory.deps()[k]);
        match loss {
            Some(lost_on) => {
                losses.push(Loss {
                    dep: k as u16,
                    agreement: lost_on.closed,
                })?;
                last = Some(lost_on);
            }
            None => {}
        }
    }
    Ok(losses)
}

// All that follows from the left side of a dependency, if it is lost: two tuples that agree on it show this.
fn loss_of(
    theory: &Theory,
    counters: &mut Counters,
    closures: &mut [SchemeClosure],
    last: Option<Closed>,
    dep: Dep,
) -> Option<Closed>
    requires fits { FitsList counters.old (deps_of theory.now) }
    requires known { All (IsSchemeClosure (width_of theory.now) (theory_of theory.now)) closures.old }
    requires last { IfSome last
        (TellsKeptClosure (width_of theory.now) (theory_of theory.now) (plan_of_closures closures.old)) }
    requires dep { IsDepWithin (universe_of theory.now) dep }
    ensures lost { IfSome result (λ lost_on. IsLostOn (width_of theory.now) (theory_of theory.now)
        (plan_of_closures closures.old) (dependency_of dep) (attributes lost_on.closed)) }
    ensures all { IfSome result
        (TellsKeptClosure (width_of theory.now) (theory_of theory.now) (plan_of_closures closures.old)) }
    ensures kept { IfNone result (IsPreserved (width_of theory.now) (theory_of theory.now)
        (plan_of_closures closures.old) (dependency_of dep)) }
    ensures known { All (IsSchemeClosure (width_of theory.now) (theory_of theory.now)) closures.new }
    ensures schemes { schemes_of_closures closures.new ≡ schemes_of_closures closures.old }
    ensures fits { FitsList counters.new (deps_of theory.now) }
{
    match dep {
        Dep::Fd { lhs, rhs } => {
            let closed = closure_after(theory, counters, closures, last, lhs, rhs);
            if rhs.is_subset(closed) {
                None
            } else {
                Some(Closed { from: lhs, closed })
            }
        }
        Dep::Mvd { .. } => None,
    }
}
