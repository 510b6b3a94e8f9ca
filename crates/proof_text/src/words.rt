ghost use Rattle.lexer.specs.Tokens.{bytes_of, is_colon};
ghost use Rattle.std.specs.Prelude.{◌≡◌, IfOk, IfErr, Ok, Err};
ghost use Rattle.tokens.specs.Views.{rest_of};
ghost use Rattle.proof_grammar.specs.Readers.{colon, with_word, rule_name};
ghost use Rattle.proof_grammar.specs.Tokens.{is_with, named_by, rule_word};

use lexer::{TokenKind, Word};
use proof_grammar::RuleName;
use schema_grammar::{SchemaRefusal, What};
use tokens::Cursor;

/// `:`
#[tactic(auto, unfolding(proof_grammar::specs::Readers::colon))]
pub fn colon(start: Cursor<'_>) -> Result<Cursor<'_>, SchemaRefusal>
    ensures ok { IfOk result (λ x. colon (rest_of start.entry) ≡ Ok (rest_of x)) }
    ensures err { IfErr result (λ e. colon (rest_of start.entry) ≡ Err e) }
{
    match start.take(What::Colon) {
        Err(refusal) => Err(refusal),
        Ok((token, _, rest)) => {
            if is_colon(token.kind) {
                Ok(rest)
            } else {
                Err(rest.refusal_of_token(token, What::Colon))
            }
        }
    }
}

/// The word `with`.
#[tactic(auto, unfolding(proof_grammar::specs::Readers::with_word))]
pub fn with_word(start: Cursor<'_>) -> Result<Cursor<'_>, SchemaRefusal>
    ensures ok { IfOk result (λ x. with_word (rest_of start.entry) ≡ Ok (rest_of x)) }
    ensures err { IfErr result (λ e. with_word (rest_of start.entry) ≡ Err e) }
{
    match start.take(What::With) {
        Err(refusal) => Err(refusal),
        Ok((token, word, rest)) => {
            if is_with(token.kind, &word) {
                Ok(rest)
            } else {
                Err(rest.refusal_of_token(token, What::With))
            }
        }
    }
}

/// The name of a rule.
#[tactic(auto, unfolding(proof_grammar::specs::Readers::rule_by))]
pub fn rule_name(start: Cursor<'_>) -> Result<(RuleName, Cursor<'_>), SchemaRefusal>
    ensures ok { IfOk result (λ x. rule_name (rest_of start.entry) ≡ Ok (x.0, rest_of x.1)) }
    ensures err { IfErr result (λ e. rule_name (rest_of start.entry) ≡ Err e) }
{
    match start.take(What::Rule) {
        Err(refusal) => Err(refusal),
        Ok((token, word, rest)) => match rule_named(token.kind, &word) {
            Some(name) => Ok((name, rest)),
            None => Err(rest.refusal_of_token(token, What::Rule)),
        },
    }
}

/// Whether a token is `:`.
fn is_colon(kind: TokenKind) -> bool
    ensures exact { result ≡ is_colon kind }
{
    matches!(kind, TokenKind::Colon)
}

/// Whether a token is the word `with`, in lower case.
#[tactic(auto, unfolding(proof_grammar::specs::Tokens::is_with))]
fn is_with(kind: TokenKind, word: &Word<'_>) -> bool
    ensures exact { result ≡ is_with kind (bytes_of word.now) }
{
    match kind {
        TokenKind::Identifier => word.bytes().as_slice() == b"with".as_slice(),
        _ => false,
    }
}

/// The rule whose name a token is, in lower case.
#[tactic(auto, unfolding(proof_grammar::specs::Tokens::named_by))]
fn rule_named(kind: TokenKind, word: &Word<'_>) -> Option<RuleName>
    ensures exact { result ≡ named_by rule_word kind (bytes_of word.now) }
{
    match kind {
        TokenKind::Identifier => rule_word(word.bytes().as_slice()),
        _ => None,
    }
}

/// The rule whose name a word is.
#[tactic(auto, unfolding(proof_grammar::specs::Tokens::rule_word))]
pub fn rule_word(word: &[u8]) -> Option<RuleName>
    ensures exact { result ≡ rule_word word.now }
{
    if word == b"given".as_slice() {
        Some(RuleName::Given)
    } else if word == b"reflexivity".as_slice() {
        Some(RuleName::Reflexivity)
    } else if word == b"augmentation".as_slice() {
        Some(RuleName::Augmentation)
    } else if word == b"transitivity".as_slice() {
        Some(RuleName::Transitivity)
    } else if word == b"complementation".as_slice() {
        Some(RuleName::Complementation)
    } else if word == b"mreflexivity".as_slice() {
        Some(RuleName::MReflexivity)
    } else if word == b"maugmentation".as_slice() {
        Some(RuleName::MAugmentation)
    } else if word == b"mtransitivity".as_slice() {
        Some(RuleName::MTransitivity)
    } else if word == b"replication".as_slice() {
        Some(RuleName::Replication)
    } else if word == b"coalescence".as_slice() {
        Some(RuleName::Coalescence)
    } else {
        None
    }
}
