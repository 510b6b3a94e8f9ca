//! The name that a line gives to its table, and the `:` after it.

ghost use Rattle.std.specs.Prelude.{◌≡◌, ◌≤◌, ◌||◌, true, length, IfOk, IfErr, Ok, Err};
ghost use Rattle.schema_model.specs.Names.{is_bare_name};
ghost use Rattle.lexer.specs.Tokens.{bytes_of};
ghost use Rattle.lexer.specs.declared.token.TokenKind.TheVariants as kinds;
ghost use Rattle.tokens.specs.Views.{names_in, rest_of};
ghost use Rattle.schema_grammar.specs.Declarations.{mark_of};
ghost use Rattle.plan_grammar.specs.Meanings.{is_kept_word};
ghost use Rattle.plan_grammar.specs.Reading.{name_of_token, name_of_word, read_colon_rest, read_named_rest};
ghost use Rattle.plan_reader.specs.Drafts.{table_read};

use crate::reading::{read_attributes, refusal_of_token};
use attr_sets::{AttrSet, MOST_ATTRIBUTES};
use lexer::{Token, TokenKind, Word};
use plan_grammar::PlanRefusal;
use schema_grammar::{Format, SchemaRefusalKind, What};
use schema_model::Name;
use table_names::{is_given, is_taken};
use tokens::{Cursor, Names, NextToken, is_reserved};

// What stands after the word `table`, where earlier lines give these names.
#[tactic(auto, unfolding(plan_grammar::specs::Reading::read_named))]
pub fn read_named(
    names: &Names<'_>,
    earlier: &[Option<Name>],
    start: Cursor<'_>,
) -> Result<(Option<Name>, AttrSet), PlanRefusal>
    requires within_limit { length (names_in names.now) ≤ MOST_ATTRIBUTES }
    ensures ok { IfOk result (λ table. read_named_rest (names_in names.now) earlier.now (rest_of start.entry)
        ≡ Ok (table_read table.0 table.1)) }
    ensures err { IfErr result (λ refusal. read_named_rest (names_in names.now) earlier.now (rest_of start.entry)
        ≡ Err refusal) }
{
    match start.next() {
        NextToken::End => Err(PlanRefusal::Text(start.refusal_of_end(What::Name))),
        NextToken::Refusal(refusal) => Err(PlanRefusal::Text(refusal)),
        NextToken::Token(token, word, rest) => match name_of_token(earlier, token.kind, &word) {
            Err(kind) => Err(refusal_of_token(rest.line(), token, kind)),
            Ok(name) => read_colon(names, name, rest),
        },
    }
}

// The name that a token gives to a table, where earlier lines give these names.
fn name_of_token(
    earlier: &[Option<Name>],
    kind: TokenKind,
    word: &Word<'_>,
) -> Result<Name, SchemaRefusalKind>
    requires is_a_word { kind ≡ kinds.Identifier → is_bare_name (bytes_of word.now) ≡ true }
    ensures ok { (token : Token) → IfOk result (λ name.
        name_of_token earlier.now (mark_of token (bytes_of word.now)) kind ≡ Ok name) }
    ensures err { (token : Token) → IfErr result (λ why.
        name_of_token earlier.now (mark_of token (bytes_of word.now)) kind ≡ Err why) }
{
    match kind {
        TokenKind::Identifier => name_of_word(earlier, word.bytes().as_slice()),
        _ => Err(SchemaRefusalKind::Expected(What::Name)),
    }
}

// The name that a word gives to a table, where earlier lines give these names.
fn name_of_word(earlier: &[Option<Name>], word: &[u8]) -> Result<Name, SchemaRefusalKind>
    requires is_a_word { is_bare_name word.now ≡ true }
    ensures ok { IfOk result (λ name. name_of_word earlier.now word.now ≡ Ok name) }
    ensures err { IfErr result (λ why. name_of_word earlier.now word.now ≡ Err why) }
{
    if is_kept_word(word) {
        return Err(SchemaRefusalKind::ReservedName);
    }
    if is_given(earlier, word) {
        return Err(SchemaRefusalKind::DoubleName);
    }
    Ok(own_name(word))
}

// The name of these bytes.
fn own_name(word: &[u8]) -> Name
    requires { is_bare_name word.now ≡ true }
    ensures name { result ≡ word.now }
{
    Name::new(word).unwrap()
}

// Whether a word names no table.
fn is_kept_word(word: &[u8]) -> bool
    ensures exact { result ≡ is_kept_word word.now }
{
    is_reserved(Format::Plain, word) || is_taken(word)
}

// `:`, and the attributes of a table of this name.
#[tactic(auto, unfolding(plan_grammar::specs::Reading::read_colon))]
fn read_colon(
    names: &Names<'_>,
    name: Name,
    start: Cursor<'_>,
) -> Result<(Option<Name>, AttrSet), PlanRefusal>
    requires within_limit { length (names_in names.now) ≤ MOST_ATTRIBUTES }
    ensures ok { IfOk result (λ table. read_colon_rest (names_in names.now) name (rest_of start.entry)
        ≡ Ok (table_read table.0 table.1)) }
    ensures err { IfErr result (λ refusal. read_colon_rest (names_in names.now) name (rest_of start.entry)
        ≡ Err refusal) }
{
    match start.next() {
        NextToken::End => Err(PlanRefusal::Text(start.refusal_of_end(What::Colon))),
        NextToken::Refusal(refusal) => Err(PlanRefusal::Text(refusal)),
        NextToken::Token(token, _, rest) => match token.kind {
            TokenKind::Colon => read_attributes(names, Some(name), rest),
            _ => {
                let kind = SchemaRefusalKind::Expected(What::Colon);
                Err(refusal_of_token(rest.line(), token, kind))
            }
        },
    }
}
