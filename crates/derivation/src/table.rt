ghost use Rattle.std.specs.Prelude.{◌≡◌, ℕ};
ghost use Rattle.attr_sets.specs.Sets.{attributes, is_same, is_disjoint};
ghost use Rattle.dep_model.specs.Deps.{dependency_of};
ghost use Rattle.derivation.specs.Table.{is_inside, leaf_conclusion, step_conclusion, pair_conclusion};
ghost use Rattle.derivation.specs.Derivs.{leaf_of, step_of, pair_of, outcome_of};

use crate::{FaultKind, LeafRule, PairRule, StepRule};
use attr_sets::AttrSet;
use dep_model::{Dep, Theory};

// Whether a set is within the universe.
fn is_inside(theory: &Theory, set: AttrSet) -> bool
    ensures inside { result ≡ is_inside theory.now (attributes set) }
{
    set.is_subset(AttrSet::full(theory.width()))
}

// Whether two sets have the same members.
fn is_same(a: AttrSet, b: AttrSet) -> bool
    ensures same { result ≡ is_same (attributes a) (attributes b) }
{
    a.is_subset(b) && b.is_subset(a)
}

// Whether two sets have no common member.
fn is_disjoint(a: AttrSet, b: AttrSet) -> bool
    ensures apart { result ≡ is_disjoint (attributes a) (attributes b) }
{
    a.intersection(b).first().is_none()
}

/// What a rule without premises concludes.
pub fn leaf_conclusion(theory: &Theory, rule: LeafRule) -> Result<Dep, FaultKind>
    ensures exact { outcome_of result ≡ leaf_conclusion theory.now (leaf_of rule) }
{
    match rule {
        LeafRule::Given(k) => match theory.deps().get(k as usize) {
            Some(dep) => Ok(*dep),
            None => Err(FaultKind::NoSuchGiven),
        },
        LeafRule::Reflexivity { lhs, rhs } => {
            if is_inside(theory, lhs) && rhs.is_subset(lhs) {
                Ok(Dep::Fd { lhs, rhs })
            } else {
                Err(FaultKind::NotWithin)
            }
        }
        LeafRule::MReflexivity { lhs, rhs } => {
            if is_inside(theory, lhs) && rhs.is_subset(lhs) {
                Ok(Dep::Mvd { lhs, rhs })
            } else {
                Err(FaultKind::NotWithin)
            }
        }
    }
}

/// What a rule concludes from one premise.
pub fn step_conclusion(theory: &Theory, rule: StepRule, premise: Dep) -> Result<Dep, FaultKind>
    ensures exact { outcome_of result ≡ step_conclusion theory.now (step_of rule) (dependency_of premise) }
{
    match (rule, premise) {
        (StepRule::Augmentation { by }, Dep::Fd { lhs, rhs }) => {
            if is_inside(theory, by) {
                Ok(Dep::Fd {
                    lhs: lhs.union(by),
                    rhs: rhs.union(by),
                })
            } else {
                Err(FaultKind::NotWithin)
            }
        }
        (StepRule::Complementation, Dep::Mvd { lhs, rhs }) => Ok(Dep::Mvd {
            lhs,
            rhs: AttrSet::full(theory.width()).difference(lhs.union(rhs)),
        }),
        (StepRule::MAugmentation { wide, narrow }, Dep::Mvd { lhs, rhs }) => {
            if is_inside(theory, wide) && narrow.is_subset(wide) {
                Ok(Dep::Mvd {
                    lhs: lhs.union(wide),
                    rhs: rhs.union(narrow),
                })
            } else {
                Err(FaultKind::NotWithin)
            }
        }
        (StepRule::Replication, Dep::Fd { lhs, rhs }) => Ok(Dep::Mvd { lhs, rhs }),
        _ => Err(FaultKind::WrongKind),
    }
}

/// What a rule concludes from two premises.
pub fn pair_conclusion(rule: PairRule, first: Dep, second: Dep) -> Result<Dep, FaultKind>
    ensures exact { outcome_of result
        ≡ pair_conclusion (pair_of rule) (dependency_of first) (dependency_of second) }
{
    match (rule, first, second) {
        (
            PairRule::Transitivity,
            Dep::Fd { lhs, rhs },
            Dep::Fd {
                lhs: middle,
                rhs: last,
            },
        ) => {
            if is_same(rhs, middle) {
                Ok(Dep::Fd { lhs, rhs: last })
            } else {
                Err(FaultKind::MiddleDiffers)
            }
        }
        (
            PairRule::MTransitivity,
            Dep::Mvd { lhs, rhs },
            Dep::Mvd {
                lhs: middle,
                rhs: last,
            },
        ) => {
            if is_same(rhs, middle) {
                Ok(Dep::Mvd {
                    lhs,
                    rhs: last.difference(rhs),
                })
            } else {
                Err(FaultKind::MiddleDiffers)
            }
        }
        (
            PairRule::Coalescence,
            Dep::Mvd { lhs, rhs },
            Dep::Fd {
                lhs: left,
                rhs: right,
            },
        ) => {
            if !right.is_subset(rhs) {
                Err(FaultKind::NotWithin)
            } else if is_disjoint(left, rhs) {
                Ok(Dep::Fd { lhs, rhs: right })
            } else {
                Err(FaultKind::NotDisjoint)
            }
        }
        _ => Err(FaultKind::WrongKind),
    }
}
