ghost use Rattle.std.specs.Prelude.{◌≡◌, option_map};
ghost use Rattle.dep_model.specs.Deps.{dependency_of, dependencies_of};
ghost use Rattle.derivation.specs.Derivs.{outcome_of};
ghost use Rattle.proof_text.specs.Views.{body_of};
ghost use Rattle.derivation_grammar.specs.Derivations.{stated_at, given_conclusion, outcome_of_rule, outcome_of_line};
ghost use Rattle.derivation_text.specs.Views.{body_of_line};
ghost use Rattle.derivation_mistakes.specs.Views.{maybe_outcome};

use dep_model::{Dep, sides};
use derivation::{FaultKind, LeafRule, leaf_conclusion, pair_conclusion, step_conclusion};
use derivation_rules::{decomposition_conclusion, further_conclusion};
use derivation_text::DerivationBody;
use proof_text::Body;
use schema_model::Schema;

/// What the line of this number states.
pub fn stated_at(before: &[Dep], p: u32) -> Option<Dep>
    ensures stated { option_map dependency_of result ≡ stated_at (dependencies_of before.now) p }
{
    if p == 0 {
        None
    } else {
        before.get(p as usize - 1).copied()
    }
}

/// The dependency of this number, from 1.
fn given_conclusion(schema: &Schema, k: u32) -> Result<Dep, FaultKind>
    ensures exact { outcome_of result ≡ given_conclusion schema.now k }
{
    if k == 0 || k as usize > schema.deps().len() {
        return Err(FaultKind::NoSuchGiven);
    }
    leaf_conclusion(&schema.theory(), LeafRule::Given((k - 1) as u16))
}

/// What a rule of certificates gives, over what the lines before state.
#[tactic(auto, unfolding(derivation_grammar::specs::Derivations::outcome_of_rule))]
fn outcome_of_rule(
    schema: &Schema,
    before: &[Dep],
    stated: Dep,
    body: Body,
) -> Option<Result<Dep, FaultKind>>
    ensures exact { maybe_outcome result
        ≡ outcome_of_rule schema.now (dependencies_of before.now) (dependency_of stated) (body_of body) }
{
    let (lhs, rhs) = sides(stated);
    match body {
        Body::Given(k) => Some(given_conclusion(schema, k)),
        Body::Reflexivity => Some(leaf_conclusion(
            &schema.theory(),
            LeafRule::Reflexivity { lhs, rhs },
        )),
        Body::MReflexivity => Some(leaf_conclusion(
            &schema.theory(),
            LeafRule::MReflexivity { lhs, rhs },
        )),
        Body::Step(rule, p) => match stated_at(before, p) {
            Some(premise) => Some(step_conclusion(&schema.theory(), rule, premise)),
            None => None,
        },
        Body::Pair(rule, p, q) => match (stated_at(before, p), stated_at(before, q)) {
            (Some(first), Some(second)) => Some(pair_conclusion(rule, first, second)),
            _ => None,
        },
    }
}

/// What the rule of a line gives, over what the lines before state; nothing where a premise is none of
/// them.
#[tactic(auto, unfolding(derivation_grammar::specs::Derivations::outcome_of_line))]
pub fn outcome_of_line(
    schema: &Schema,
    before: &[Dep],
    stated: Dep,
    body: DerivationBody,
) -> Option<Result<Dep, FaultKind>>
    ensures exact { maybe_outcome result
        ≡ outcome_of_line schema.now (dependencies_of before.now) (dependency_of stated)
        (body_of_line body) }
{
    match body {
        DerivationBody::Rule(body) => outcome_of_rule(schema, before, stated, body),
        DerivationBody::Decomposition(p) => match stated_at(before, p) {
            Some(premise) => Some(decomposition_conclusion(stated, premise)),
            None => None,
        },
        DerivationBody::Further(rule, p, q) => match (stated_at(before, p), stated_at(before, q)) {
            (Some(first), Some(second)) => Some(further_conclusion(rule, first, second)),
            _ => None,
        },
    }
}
