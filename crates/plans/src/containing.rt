ghost use Rattle.std.specs.Prelude.{◌≡◌, ◌<◌, ◌+◌, ℕ, true, List, All, Contains, take, drop, length, slice_index_or};
ghost use Rattle.std.specs.List.{list_any};
ghost use Rattle.attr_sets.specs.declared.set.AttrSet.{AttrSet};
ghost use Rattle.dep_model.specs.Dependencies.{Dependency};
ghost use Rattle.dep_model.specs.Projections.{IsLossless};
ghost use Rattle.dep_model.specs.Theories.{width_of};
ghost use Rattle.dep_model.specs.Plans.{schemes_of};
ghost use Rattle.plans.specs.Schemes.{AreSchemes};
ghost use Rattle.plans.specs.Plans.{scheme_sets, plan_of, IsPlanOver};
ghost use Rattle.plans.specs.Containing.{lies_within, lies_properly_within, is_contained, without_contained};

use crate::Plan;
use attr_sets::AttrSet;
use dep_model::Theory;

/// The plan without each scheme that lies within another different one or equals an earlier one: what
/// such a scheme says of a relation, the one that holds it says too.
pub fn drop_contained(theory: &Theory, plan: Plan) -> Plan
    requires universe { IsPlanOver theory.now plan }
    ensures schemes { scheme_sets result ≡ without_contained (scheme_sets plan) }
    ensures universe { IsPlanOver theory.now result }
    ensures among { All (λ kept. Contains (scheme_sets plan) kept) (scheme_sets result) }
    ensures held { All (λ old. list_any (lies_within old) (scheme_sets result) ≡ true) (scheme_sets plan) }
    ensures lossless { (ds : List Dependency) → IsLossless (width_of theory.now) ds (plan_of plan)
        → IsLossless (width_of theory.now) ds (plan_of result) }
{
    Plan::new(theory, without_contained(plan.into_schemes()))
}

// The schemes of a list without the contained ones.
fn without_contained(schemes: Vec<AttrSet>) -> Vec<AttrSet>
    ensures schemes { result.items ≡ without_contained schemes.items }
    ensures plan { (n : ℕ) → AreSchemes n schemes.items → AreSchemes n result.items }
    ensures lossless { (n : ℕ) (ds : List Dependency) → IsLossless n ds (schemes_of schemes.items)
        → IsLossless n ds (schemes_of result.items) }
{
    let mut kept = schemes;
    let mut i = 0;
    while i < kept.len() {
        if is_contained_at(&kept, i) {
            kept.remove(i);
        } else {
            i += 1;
        }
    }
    kept
}

/// Whether the scheme at a position of a list is contained in another.
pub fn is_contained_at(schemes: &[AttrSet], i: usize) -> bool
    requires position { i < length schemes.now }
    ensures contained { (scheme : AttrSet) → result
        ≡ is_contained (take i schemes.now) (slice_index_or schemes.now i scheme) (drop
        (i + 1) schemes.now) }
{
    let scheme = schemes[i];
    is_within_any(scheme, &schemes[..i]) || is_properly_within_any(scheme, &schemes[i + 1..])
}

// Whether a scheme lies within one of these.
fn is_within_any(scheme: AttrSet, others: &[AttrSet]) -> bool
    ensures within { result ≡ list_any (lies_within scheme) others.now }
{
    others.iter().any(|other| scheme.is_subset(*other))
}

// Whether a scheme lies within one of these that has more.
fn is_properly_within_any(scheme: AttrSet, others: &[AttrSet]) -> bool
    ensures within { result ≡ list_any (lies_properly_within scheme) others.now }
{
    others.iter().any(|other| scheme.is_subset(*other) && !other.is_subset(scheme))
}
