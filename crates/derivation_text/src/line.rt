ghost use Rattle.std.specs.Prelude.{◌≡◌, ◌≤◌, length, IfOk, IfErr, Ok, Err};
ghost use Rattle.attr_sets.specs.Attributes.{below};
ghost use Rattle.dep_model.specs.Deps.{IsDepWithin};
ghost use Rattle.tokens.specs.Views.{names_in, rest_of};
ghost use Rattle.lexer.specs.Tokens.{bytes_of};
ghost use Rattle.schema_grammar.specs.Declarations.{mark_of};
ghost use Rattle.proof_grammar.specs.Tokens.{named_by};
ghost use Rattle.derivation_grammar.specs.Lines.{line_rule_word, line_rule_name, derivation_body, derivation_line_from};
ghost use Rattle.derivation_text.specs.Views.{body_of_line, derivation_line_of};

use attr_sets::MOST_ATTRIBUTES;
use dep_model::Dep;
use derivation_grammar::LineRule;
use derivation_rules::FurtherRule;
use lexer::{Token, TokenKind, Word};
use proof_text::{Body, colon, read_body, rule_word, stated_dependency};
use schema_grammar::{SchemaRefusal, What};
use tokens::{Cursor, Names};

/// What a line says of its dependency: a rule of certificates, or a further one with the lines of its
/// premises.
#[derive(Clone, Copy, Debug)]
pub enum DerivationBody {
    Rule(Body),
    Decomposition(u32),
    Further(FurtherRule, u32, u32),
}

/// A line of a derivation.
#[derive(Clone, Copy, Debug)]
pub struct DerivationLine {
    pub number: u32,
    pub stated: Dep,
    pub body: DerivationBody,
}

/// A line of which this is the first token, and what is left after it.
#[tactic(auto, unfolding(proof_grammar::specs::Lines::line_by_from))]
pub fn read_line(
    names: &Names<'_>,
    first: Token,
    word: &Word<'_>,
    rest: Cursor<'_>,
) -> Result<DerivationLine, SchemaRefusal>
    requires within_limit { length (names_in names.now) ≤ MOST_ATTRIBUTES }
    ensures ok { IfOk result
        (λ x. derivation_line_from (names_in names.now) (mark_of first (bytes_of word.now)) (rest_of rest.entry)
        ≡ Ok (derivation_line_of x)) }
    ensures within { IfOk result (λ x. IsDepWithin (below (length (names_in names.now))) x.stated) }
    ensures err { IfErr result
        (λ e. derivation_line_from (names_in names.now) (mark_of first (bytes_of word.now)) (rest_of rest.entry)
        ≡ Err e) }
{
    let TokenKind::Number(number) = first.kind else {
        return Err(rest.refusal_of_token(first, What::Number));
    };
    let (stated, rest) = stated_dependency(names, colon(rest)?)?;
    let (rule, rest) = line_rule_name(colon(rest)?)?;
    let (body, rest) = derivation_body(names, rule, rest)?;
    rest.end()?;
    Ok(DerivationLine {
        number,
        stated,
        body,
    })
}

/// What stands after the name of a rule.
#[tactic(auto, unfolding(derivation_grammar::specs::Lines::derivation_body))]
fn derivation_body<'a>(
    names: &Names<'_>,
    rule: LineRule,
    start: Cursor<'a>,
) -> Result<(DerivationBody, Cursor<'a>), SchemaRefusal>
    requires within_limit { length (names_in names.now) ≤ MOST_ATTRIBUTES }
    ensures ok { IfOk result
        (λ x. derivation_body (names_in names.now) rule (rest_of start.entry)
        ≡ Ok (body_of_line x.0, rest_of x.1)) }
    ensures err { IfErr result
        (λ e. derivation_body (names_in names.now) rule (rest_of start.entry) ≡ Err e) }
{
    match rule {
        LineRule::Certificate(name) => {
            let (body, rest) = read_body(names, name, start)?;
            Ok((DerivationBody::Rule(body), rest))
        }
        LineRule::Decomposition => {
            let (premise, rest) = start.number()?;
            Ok((DerivationBody::Decomposition(premise), rest))
        }
        LineRule::Further(name) => {
            let (first, rest) = start.number()?;
            let (second, rest) = rest.number()?;
            Ok((DerivationBody::Further(name, first, second), rest))
        }
    }
}

/// The name of a rule.
#[tactic(auto, unfolding(proof_grammar::specs::Readers::rule_by))]
fn line_rule_name(start: Cursor<'_>) -> Result<(LineRule, Cursor<'_>), SchemaRefusal>
    ensures ok { IfOk result (λ x. line_rule_name (rest_of start.entry) ≡ Ok (x.0, rest_of x.1)) }
    ensures err { IfErr result (λ e. line_rule_name (rest_of start.entry) ≡ Err e) }
{
    match start.take(What::Rule) {
        Err(refusal) => Err(refusal),
        Ok((token, word, rest)) => match line_rule_named(token.kind, &word) {
            Some(rule) => Ok((rule, rest)),
            None => Err(rest.refusal_of_token(token, What::Rule)),
        },
    }
}

/// The rule whose name a token is, in lower case.
#[tactic(auto, unfolding(proof_grammar::specs::Tokens::named_by))]
fn line_rule_named(kind: TokenKind, word: &Word<'_>) -> Option<LineRule>
    ensures exact { result ≡ named_by line_rule_word kind (bytes_of word.now) }
{
    match kind {
        TokenKind::Identifier => line_rule_word(word.bytes().as_slice()),
        _ => None,
    }
}

#[tactic(auto, unfolding(derivation_grammar::specs::Lines::line_rule_word))]
fn line_rule_word(word: &[u8]) -> Option<LineRule>
    ensures exact { result ≡ line_rule_word word.now }
{
    if word == b"union".as_slice() {
        Some(LineRule::Further(FurtherRule::Union))
    } else if word == b"decomposition".as_slice() {
        Some(LineRule::Decomposition)
    } else if word == b"pseudotransitivity".as_slice() {
        Some(LineRule::Further(FurtherRule::Pseudotransitivity))
    } else if word == b"intersection".as_slice() {
        Some(LineRule::Further(FurtherRule::Intersection))
    } else if word == b"difference".as_slice() {
        Some(LineRule::Further(FurtherRule::Difference))
    } else if word == b"mpseudotransitivity".as_slice() {
        Some(LineRule::Further(FurtherRule::MPseudotransitivity))
    } else {
        match rule_word(word) {
            Some(name) => Some(LineRule::Certificate(name)),
            None => None,
        }
    }
}
