ghost use Rattle.std.specs.Prelude.{◌≤◌, length, IfOk, All};
ghost use Rattle.attr_sets.specs.Attributes.{IsSubset};
ghost use Rattle.attr_sets.specs.Sets.{attributes};
ghost use Rattle.dep_model.specs.Forms.{IsBcnf};
ghost use Rattle.dep_model.specs.Plans.{schemes_of};
ghost use Rattle.dep_model.specs.Projections.{IsLossless};
ghost use Rattle.dep_model.specs.Theories.{width_of, universe_of, theory_of};
ghost use Rattle.plans.specs.Plans.{scheme_sets, plan_of, IsPlanOver};
ghost use Rattle.wide_bcnf.specs.Pairs.{IsFirstPair};
ghost use Rattle.wide_bcnf.specs.WideSplits.{IsCore, IsWideSplitOf, IsWideSplitPlan};

use crate::pairs::{Pair, first_pair};
use attr_sets::AttrSet;
use dep_model::{OutOfMemory, Theory};
use plans::{Plan, drop_contained};
use std::alloc::Global;

/// A lossless plan of schemes in Boyce-Codd form, at any width (Tsou and Fischer 1982): the wide split
/// of the universe, without contained schemes. Implied means by all dependencies, multivalued ones too.
/// A scheme that is in form may have been cut.
pub fn split_wide(alloc: Global, theory: &Theory) -> Result<Plan, OutOfMemory>
    ensures universe { IfOk result (λ plan. IsPlanOver theory.now plan) }
    ensures split { IfOk result (λ plan.
        IsWideSplitPlan (width_of theory.now) (theory_of theory.now) (scheme_sets plan)) }
    ensures lossless { IfOk result (λ plan.
        IsLossless (width_of theory.now) (theory_of theory.now) (plan_of plan)) }
    ensures bcnf { IfOk result (λ plan.
        All (IsBcnf (width_of theory.now) (theory_of theory.now)) (plan_of plan)) }
    ensures at_most_width { IfOk result (λ plan. length (scheme_sets plan) ≤ width_of theory.now) }
{
    let schemes = wide_split_schemes(alloc, theory)?;
    Ok(drop_contained(theory, Plan::new(theory, schemes)))
}

// The schemes of the wide split of the universe. What is left of a scheme has no pair before the
// first one of the scheme, so the search goes on there.
fn wide_split_schemes(alloc: Global, theory: &Theory) -> Result<Vec<AttrSet>, OutOfMemory>
    ensures split { IfOk result (λ schemes. IsWideSplitOf (width_of theory.now) (theory_of theory.now)
        (universe_of theory.now) (schemes_of schemes.items)) }
{
    let mut schemes = Vec::new(alloc);
    let mut rest = AttrSet::full(theory.width());
    let mut from = Pair {
        first: 0,
        second: 0,
    };
    while let Some(pair) = first_pair(theory, rest, from) {
        let core = core_of(theory, rest, pair);
        schemes.push(core.scheme)?;
        rest = rest.without(core.attribute);
        from = pair;
    }
    schemes.push(rest)?;
    Ok(schemes)
}

// The core of a scheme, and the first attribute of the last pair on the way to it.
#[derive(Clone, Copy)]
struct Core {
    scheme: AttrSet,
    attribute: u8,
}

// The core of a scheme with this first pair.
fn core_of(theory: &Theory, scheme: AttrSet, pair: Pair) -> Core
    requires scheme { IsSubset (attributes scheme) (universe_of theory.now) }
    requires pair { IsFirstPair (width_of theory.now) (theory_of theory.now) (attributes scheme)
        pair.first pair.second }
    ensures core { IsCore (width_of theory.now) (theory_of theory.now) (attributes scheme)
        (attributes result.scheme) result.attribute }
{
    let mut rest = scheme.without(pair.second);
    let mut last = pair;
    while let Some(next) = first_pair(theory, rest, last) {
        rest = rest.without(next.second);
        last = next;
    }
    Core {
        scheme: rest,
        attribute: last.first,
    }
}
