ghost use Rattle.std.specs.Prelude.{◌≡◌, Some, Err, option_map};
ghost use Rattle.dep_model.specs.Deps.{dependency_of, dependencies_of};
ghost use Rattle.schema_model.specs.Schemas.{Schema};
ghost use Rattle.derivation.specs.Derivs.{pair_of};
ghost use Rattle.derivation_rules.specs.Views.{further_of};
ghost use Rattle.derivation_grammar.specs.Derivations.{outcome_of_line};
ghost use Rattle.derivation_text.specs.Views.{body_of_line};
ghost use Rattle.derivation_mistakes.specs.FaultReasons.{is_functional_at, is_multivalued_at, misuse_of, pair_misuse};
ghost use Rattle.derivation_mistakes.specs.FaultReasons.{part_misuse, further_misuse, second_if, side_misuse};
ghost use Rattle.derivation_mistakes.specs.FaultReasons.{sides_misuse, step_misuse, takes_first, takes_first_of};
ghost use Rattle.derivation_mistakes.specs.Misuses.{IsMisuse};

use crate::Misuse;
use crate::outcome::stated_at;
use dep_model::{Dep, sides};
use derivation::{FaultKind, PairRule};
use derivation_rules::FurtherRule;
use derivation_text::DerivationBody;
use proof_text::Body;

/// The first reason why a rule does not apply, which has a fault of this kind.
pub fn misuse_of(before: &[Dep], stated: Dep, body: DerivationBody, kind: FaultKind) -> Misuse
    ensures first { (s : Schema) → outcome_of_line s (dependencies_of before.now) (dependency_of stated)
        (body_of_line body) ≡ Some (Err kind)
        → IsMisuse s (dependencies_of before.now) (dependency_of stated) (body_of_line body) result }
{
    named_misuse(before, stated, body, kind)
}

/// The reason by which a fault is named.
fn named_misuse(before: &[Dep], stated: Dep, body: DerivationBody, kind: FaultKind) -> Misuse
    ensures exact { result
        ≡ misuse_of (dependencies_of before.now) (dependency_of stated) (body_of_line body) kind }
{
    match body {
        DerivationBody::Rule(Body::Step(_, p)) => step_misuse(p, kind),
        DerivationBody::Rule(Body::Pair(rule, p, q)) => pair_misuse(before, rule, p, q, kind),
        DerivationBody::Rule(_) => Misuse::Fault(kind),
        DerivationBody::Decomposition(p) => part_misuse(before, stated, p, kind),
        DerivationBody::Further(rule, p, q) => further_misuse(before, rule, p, q, kind),
    }
}

fn step_misuse(p: u32, kind: FaultKind) -> Misuse
    ensures exact { result ≡ step_misuse p kind }
{
    match kind {
        FaultKind::WrongKind => Misuse::AnotherKind(p),
        _ => Misuse::Fault(kind),
    }
}

fn pair_misuse(before: &[Dep], rule: PairRule, p: u32, q: u32, kind: FaultKind) -> Misuse
    ensures exact { result ≡ pair_misuse (dependencies_of before.now) (pair_of rule) p q kind }
{
    match kind {
        FaultKind::WrongKind => second_if(takes_first(rule, stated_at(before, p)), p, q),
        FaultKind::MiddleDiffers => Misuse::NotTheLeftSide(p, q),
        _ => Misuse::Fault(kind),
    }
}

/// That the second premise is of another kind where the first is of the kind that the rule takes; else
/// that the first is.
fn second_if(first_right: bool, p: u32, q: u32) -> Misuse
    ensures exact { result ≡ second_if first_right p q }
{
    if first_right {
        Misuse::AnotherKind(q)
    } else {
        Misuse::AnotherKind(p)
    }
}

/// Whether a rule takes the first of its premises, by its kind.
fn takes_first(rule: PairRule, first: Option<Dep>) -> bool
    ensures exact { result ≡ takes_first (pair_of rule) (option_map dependency_of first) }
{
    match rule {
        PairRule::Transitivity => is_functional(first),
        PairRule::MTransitivity | PairRule::Coalescence => is_multivalued(first),
    }
}

fn is_functional(dep: Option<Dep>) -> bool
    ensures exact { result ≡ is_functional_at (option_map dependency_of dep) }
{
    match dep {
        Some(Dep::Fd { .. }) => true,
        _ => false,
    }
}

fn is_multivalued(dep: Option<Dep>) -> bool
    ensures exact { result ≡ is_multivalued_at (option_map dependency_of dep) }
{
    match dep {
        Some(Dep::Mvd { .. }) => true,
        _ => false,
    }
}

/// Decomposition: the left side that is stated is compared first.
fn part_misuse(before: &[Dep], stated: Dep, p: u32, kind: FaultKind) -> Misuse
    ensures exact { result ≡ part_misuse (dependencies_of before.now) (dependency_of stated) p kind }
{
    match kind {
        FaultKind::WrongKind => Misuse::AnotherKind(p),
        FaultKind::NotWithin => side_misuse(stated, p, stated_at(before, p)),
        _ => Misuse::Fault(kind),
    }
}

fn side_misuse(stated: Dep, p: u32, premise: Option<Dep>) -> Misuse
    ensures exact { result ≡ side_misuse (dependency_of stated) p (option_map dependency_of premise) }
{
    match premise {
        None => Misuse::NotWithinRightSide(p),
        Some(dep) => {
            let (lhs, _) = sides(stated);
            let (left, _) = sides(dep);
            if lhs.is_subset(left) && left.is_subset(lhs) {
                Misuse::NotWithinRightSide(p)
            } else {
                Misuse::AnotherLeftSide(p)
            }
        }
    }
}

fn further_misuse(before: &[Dep], rule: FurtherRule, p: u32, q: u32, kind: FaultKind) -> Misuse
    ensures exact { result ≡ further_misuse (dependencies_of before.now) (further_of rule) p q kind }
{
    match kind {
        FaultKind::WrongKind => second_if(takes_first_of(rule, stated_at(before, p)), p, q),
        FaultKind::MiddleDiffers => sides_misuse(rule, p, q),
        _ => Misuse::Fault(kind),
    }
}

/// Whether a further rule takes the first of its premises, by its kind.
fn takes_first_of(rule: FurtherRule, first: Option<Dep>) -> bool
    ensures exact { result ≡ takes_first_of (further_of rule) (option_map dependency_of first) }
{
    match rule {
        FurtherRule::Union => true,
        FurtherRule::Pseudotransitivity => is_functional(first),
        FurtherRule::Intersection | FurtherRule::Difference | FurtherRule::MPseudotransitivity => {
            is_multivalued(first)
        }
    }
}

/// What two premises of one kind lack.
fn sides_misuse(rule: FurtherRule, p: u32, q: u32) -> Misuse
    ensures exact { result ≡ sides_misuse (further_of rule) p q }
{
    match rule {
        FurtherRule::Pseudotransitivity | FurtherRule::MPseudotransitivity => {
            Misuse::NotWithinLeftSide(p, q)
        }
        _ => Misuse::LeftSidesDiffer(p, q),
    }
}
