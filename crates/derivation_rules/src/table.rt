ghost use Rattle.std.specs.Prelude.{◌≡◌};
ghost use Rattle.attr_sets.specs.Sets.{attributes, is_same};
ghost use Rattle.dep_model.specs.Deps.{dependency_of};
ghost use Rattle.derivation.specs.Derivs.{outcome_of};
ghost use Rattle.derivation_rules.specs.Views.{further_of};
ghost use Rattle.derivation_rules.specs.FurtherTable.{where_middle, functional_conclusion, multivalued_conclusion, further_conclusion, decomposition_conclusion};

use crate::FurtherRule;
use attr_sets::AttrSet;
use dep_model::{Dep, sides};
use derivation::FaultKind;

// Whether two sets have the same members.
fn is_same(a: AttrSet, b: AttrSet) -> bool
    ensures same { result ≡ is_same (attributes a) (attributes b) }
{
    a.is_subset(b) && b.is_subset(a)
}

// A conclusion, where what is asked of the premises' sides holds.
fn where_middle(holds: bool, dep: Dep) -> Result<Dep, FaultKind>
    ensures exact { outcome_of result ≡ where_middle holds (dependency_of dep) }
{
    if holds {
        Ok(dep)
    } else {
        Err(FaultKind::MiddleDiffers)
    }
}

/// What a further rule concludes from two premises.
pub fn further_conclusion(rule: FurtherRule, first: Dep, second: Dep) -> Result<Dep, FaultKind>
    ensures exact { outcome_of result
        ≡ further_conclusion (further_of rule) (dependency_of first) (dependency_of second) }
{
    let (lhs, rhs) = sides(first);
    let (left, right) = sides(second);
    match (first, second) {
        (Dep::Fd { .. }, Dep::Fd { .. }) => functional_conclusion(rule, lhs, rhs, left, right),
        (Dep::Mvd { .. }, Dep::Mvd { .. }) => multivalued_conclusion(rule, lhs, rhs, left, right),
        _ => Err(FaultKind::WrongKind),
    }
}

// What a further rule concludes from two functional dependencies of these sides.
fn functional_conclusion(
    rule: FurtherRule,
    lhs: AttrSet,
    rhs: AttrSet,
    left: AttrSet,
    right: AttrSet,
) -> Result<Dep, FaultKind>
    ensures exact { outcome_of result
        ≡ functional_conclusion (further_of rule) (attributes lhs) (attributes rhs) (attributes left)
        (attributes right) }
{
    match rule {
        FurtherRule::Union => {
            let rhs = rhs.union(right);
            where_middle(is_same(lhs, left), Dep::Fd { lhs, rhs })
        }
        FurtherRule::Pseudotransitivity => {
            let lhs = lhs.union(left.difference(rhs));
            where_middle(rhs.is_subset(left), Dep::Fd { lhs, rhs: right })
        }
        _ => Err(FaultKind::WrongKind),
    }
}

// What a further rule concludes from two multivalued dependencies of these sides.
fn multivalued_conclusion(
    rule: FurtherRule,
    lhs: AttrSet,
    rhs: AttrSet,
    left: AttrSet,
    right: AttrSet,
) -> Result<Dep, FaultKind>
    ensures exact { outcome_of result
        ≡ multivalued_conclusion (further_of rule) (attributes lhs) (attributes rhs) (attributes left)
        (attributes right) }
{
    match rule {
        FurtherRule::Union => {
            let rhs = rhs.union(right);
            where_middle(is_same(lhs, left), Dep::Mvd { lhs, rhs })
        }
        FurtherRule::Intersection => {
            let rhs = rhs.intersection(right);
            where_middle(is_same(lhs, left), Dep::Mvd { lhs, rhs })
        }
        FurtherRule::Difference => {
            let rhs = rhs.difference(right);
            where_middle(is_same(lhs, left), Dep::Mvd { lhs, rhs })
        }
        FurtherRule::MPseudotransitivity => {
            let whole = lhs.union(left.difference(rhs));
            let rest = right.difference(left);
            where_middle(
                rhs.is_subset(left),
                Dep::Mvd {
                    lhs: whole,
                    rhs: rest,
                },
            )
        }
        FurtherRule::Pseudotransitivity => Err(FaultKind::WrongKind),
    }
}

/// What decomposition concludes from a premise: the stated right side, where it lies within the premise's
/// and the left sides are one.
pub fn decomposition_conclusion(stated: Dep, premise: Dep) -> Result<Dep, FaultKind>
    ensures exact { outcome_of result
        ≡ decomposition_conclusion (dependency_of stated) (dependency_of premise) }
{
    let (left, right) = sides(stated);
    match premise {
        Dep::Fd { lhs, rhs } => {
            if is_same(left, lhs) && right.is_subset(rhs) {
                Ok(Dep::Fd { lhs, rhs: right })
            } else {
                Err(FaultKind::NotWithin)
            }
        }
        Dep::Mvd { .. } => Err(FaultKind::WrongKind),
    }
}
