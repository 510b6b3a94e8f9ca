ghost use Rattle.std.specs.Prelude.{◌≡◌, ◌+◌, ◌<◌, ◌≤◌, ◌^◌, length, IfOk, IfErr, Ok, Err};
ghost use Rattle.attr_sets.specs.Attributes.{below};
ghost use Rattle.dep_model.specs.Deps.{dependency_of, IsDepWithin};
ghost use Rattle.derivation.specs.Derivs.{step_of, pair_of};
ghost use Rattle.tokens.specs.Views.{names_in, rest_of};
ghost use Rattle.lexer.specs.Tokens.{bytes_of};
ghost use Rattle.schema_grammar.specs.Declarations.{mark_of};
ghost use Rattle.proof_grammar.specs.Lines.{body, certificate_line_from, stated_dependency, one_premise};
ghost use Rattle.proof_grammar.specs.Lines.{two_premises, augmentation_body, maugmentation_body};
ghost use Rattle.proof_text.specs.Views.{body_of, line_of};

use crate::words::{colon, rule_name, with_word};
use attr_sets::MOST_ATTRIBUTES;
use dep_model::Dep;
use derivation::{PairRule, StepRule};
use lexer::{Token, TokenKind, Word};
use proof_grammar::RuleName;
use schema_grammar::{SchemaRefusal, Sign, What};
use tokens::{Cursor, Names};

/// What a line says of its dependency: the rule, and the lines of its premises.
#[derive(Clone, Copy, Debug)]
pub enum Body {
    /// A dependency of the schema, counted from 1.
    Given(u32),
    Reflexivity,
    MReflexivity,
    Step(StepRule, u32),
    Pair(PairRule, u32, u32),
}

/// A line of a certificate.
#[derive(Clone, Copy, Debug)]
pub struct Line {
    pub number: u32,
    pub stated: Dep,
    pub body: Body,
}

/// A line of which this is the first token, and what is left after it.
#[tactic(auto, unfolding(proof_grammar::specs::Lines::line_by_from))]
pub fn read_line(
    names: &Names<'_>,
    first: Token,
    word: &Word<'_>,
    rest: Cursor<'_>,
) -> Result<Line, SchemaRefusal>
    requires within_limit { length (names_in names.now) ≤ MOST_ATTRIBUTES }
    ensures ok { IfOk result
        (λ x. certificate_line_from (names_in names.now) (mark_of first (bytes_of word.now)) (rest_of rest.entry)
        ≡ Ok (line_of x)) }
    ensures within { IfOk result (λ x. IsDepWithin (below (length (names_in names.now))) x.stated) }
    ensures err { IfErr result
        (λ e. certificate_line_from (names_in names.now) (mark_of first (bytes_of word.now)) (rest_of rest.entry)
        ≡ Err e) }
{
    let TokenKind::Number(number) = first.kind else {
        return Err(rest.refusal_of_token(first, What::Number));
    };
    let (stated, rest) = stated_dependency(names, colon(rest)?)?;
    let (name, rest) = rule_name(colon(rest)?)?;
    let (body, rest) = read_body(names, name, rest)?;
    rest.end()?;
    Ok(Line {
        number,
        stated,
        body,
    })
}

/// The dependency that a line states.
#[tactic(auto, unfolding(proof_grammar::specs::Lines::stated_dependency))]
pub fn stated_dependency<'a>(
    names: &Names<'_>,
    start: Cursor<'a>,
) -> Result<(Dep, Cursor<'a>), SchemaRefusal>
    requires within_limit { length (names_in names.now) ≤ MOST_ATTRIBUTES }
    ensures ok { IfOk result
        (λ x. stated_dependency (names_in names.now) (rest_of start.entry)
        ≡ Ok (dependency_of x.0, rest_of x.1)) }
    ensures within { IfOk result (λ x. IsDepWithin (below (length (names_in names.now))) x.0) }
    ensures err { IfErr result (λ e. stated_dependency (names_in names.now) (rest_of start.entry) ≡ Err e) }
{
    let (lhs, rest) = start.side(names)?;
    let (arrow, rest) = rest.arrow()?;
    let (rhs, rest) = rest.side(names)?;
    let dep = match arrow {
        Sign::Functional => Dep::Fd { lhs, rhs },
        Sign::Multivalued => Dep::Mvd { lhs, rhs },
    };
    Ok((dep, rest))
}

/// What stands after the name of a rule.
#[tactic(auto, unfolding(proof_grammar::specs::Lines::body))]
pub fn read_body<'a>(
    names: &Names<'_>,
    name: RuleName,
    start: Cursor<'a>,
) -> Result<(Body, Cursor<'a>), SchemaRefusal>
    requires within_limit { length (names_in names.now) ≤ MOST_ATTRIBUTES }
    ensures ok { IfOk result
        (λ x. body (names_in names.now) name (rest_of start.entry) ≡ Ok (body_of x.0, rest_of x.1)) }
    ensures err { IfErr result (λ e. body (names_in names.now) name (rest_of start.entry) ≡ Err e) }
{
    match name {
        RuleName::Given => {
            let (k, rest) = start.number()?;
            Ok((Body::Given(k), rest))
        }
        RuleName::Reflexivity => Ok((Body::Reflexivity, start)),
        RuleName::MReflexivity => Ok((Body::MReflexivity, start)),
        RuleName::Augmentation => augmentation_body(names, start),
        RuleName::MAugmentation => maugmentation_body(names, start),
        RuleName::Complementation => one_premise(StepRule::Complementation, start),
        RuleName::Replication => one_premise(StepRule::Replication, start),
        RuleName::Transitivity => two_premises(PairRule::Transitivity, start),
        RuleName::MTransitivity => two_premises(PairRule::MTransitivity, start),
        RuleName::Coalescence => two_premises(PairRule::Coalescence, start),
    }
}

/// One premise, of a rule without sets.
#[tactic(auto, unfolding(proof_grammar::specs::Lines::one_premise))]
fn one_premise(rule: StepRule, start: Cursor<'_>) -> Result<(Body, Cursor<'_>), SchemaRefusal>
    ensures ok { IfOk result (λ x. one_premise (step_of rule) (rest_of start.entry)
        ≡ Ok (body_of x.0, rest_of x.1)) }
    ensures err { IfErr result (λ e. one_premise (step_of rule) (rest_of start.entry) ≡ Err e) }
{
    let (premise, rest) = start.number()?;
    Ok((Body::Step(rule, premise), rest))
}

/// Two premises.
#[tactic(auto, unfolding(proof_grammar::specs::Lines::two_premises))]
fn two_premises(rule: PairRule, start: Cursor<'_>) -> Result<(Body, Cursor<'_>), SchemaRefusal>
    ensures ok { IfOk result (λ x. two_premises (pair_of rule) (rest_of start.entry)
        ≡ Ok (body_of x.0, rest_of x.1)) }
    ensures err { IfErr result (λ e. two_premises (pair_of rule) (rest_of start.entry) ≡ Err e) }
{
    let (first, rest) = start.number()?;
    let (second, rest) = rest.number()?;
    Ok((Body::Pair(rule, first, second), rest))
}

/// `P with SIDE`
#[tactic(auto, unfolding(proof_grammar::specs::Lines::augmentation_body))]
fn augmentation_body<'a>(
    names: &Names<'_>,
    start: Cursor<'a>,
) -> Result<(Body, Cursor<'a>), SchemaRefusal>
    requires within_limit { length (names_in names.now) ≤ MOST_ATTRIBUTES }
    ensures ok { IfOk result
        (λ x. augmentation_body (names_in names.now) (rest_of start.entry)
        ≡ Ok (body_of x.0, rest_of x.1)) }
    ensures err { IfErr result (λ e. augmentation_body (names_in names.now) (rest_of start.entry)
        ≡ Err e) }
{
    let (premise, rest) = start.number()?;
    let (by, rest) = with_word(rest)?.side(names)?;
    Ok((Body::Step(StepRule::Augmentation { by }, premise), rest))
}

/// `P with SIDE : SIDE`
#[tactic(auto, unfolding(proof_grammar::specs::Lines::maugmentation_body))]
fn maugmentation_body<'a>(
    names: &Names<'_>,
    start: Cursor<'a>,
) -> Result<(Body, Cursor<'a>), SchemaRefusal>
    requires within_limit { length (names_in names.now) ≤ MOST_ATTRIBUTES }
    ensures ok { IfOk result
        (λ x. maugmentation_body (names_in names.now) (rest_of start.entry)
        ≡ Ok (body_of x.0, rest_of x.1)) }
    ensures err { IfErr result (λ e. maugmentation_body (names_in names.now) (rest_of start.entry)
        ≡ Err e) }
{
    let (premise, rest) = start.number()?;
    let (wide, rest) = with_word(rest)?.side(names)?;
    let (narrow, rest) = colon(rest)?.side(names)?;
    Ok((
        Body::Step(StepRule::MAugmentation { wide, narrow }, premise),
        rest,
    ))
}
