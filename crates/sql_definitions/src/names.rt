ghost use Rattle.std.specs.Prelude.{◌≡◌, false, if◌then◌else◌, IfOk};
ghost use Rattle.sql_lexemes.specs.Pieces.{is_postgres};
ghost use Rattle.sql_definitions.specs.Names.{inner, is_name, is_named, lower, lower_text, name_of_lexeme, undoubled, unquoted};

use dep_model::OutOfMemory;
use sql_lexemes::{Dialect, Lexeme, LexemeKind, is_postgres};
use std::alloc::Global;

/// The name that a word or a quoted name stands for.
pub fn name_of_lexeme(
    alloc: Global,
    dialect: Dialect,
    lexeme: &Lexeme<'_>,
) -> Result<Vec<u8>, OutOfMemory>
    ensures name { IfOk result (λ text. text.items ≡ name_of_lexeme dialect lexeme.now) }
{
    match lexeme.kind() {
        LexemeKind::Quoted => unquoted(alloc, lexeme.text()),
        _ => word_text(alloc, dialect, lexeme.text()),
    }
}

// A word as it names itself.
fn word_text(alloc: Global, dialect: Dialect, text: &[u8]) -> Result<Vec<u8>, OutOfMemory>
    ensures name { IfOk result (λ name. name.items
        ≡ (if is_postgres dialect then lower_text text.now else text.now)) }
{
    if is_postgres(dialect) {
        lower_text(alloc, text)
    } else {
        Ok(Vec::from_slice(alloc, text)?)
    }
}

/// The bytes, each letter of ASCII in lower case.
pub fn lower_text(alloc: Global, text: &[u8]) -> Result<Vec<u8>, OutOfMemory>
    ensures text { IfOk result (λ lower. lower.items ≡ lower_text text.now) }
{
    let mut name = Vec::new(alloc);
    let mut rest = text;
    while let [byte, left @ ..] = rest {
        name.push(lower(*byte))?;
        rest = left;
    }
    Ok(name)
}

fn lower(byte: u8) -> u8
    ensures exact { result ≡ lower byte }
{
    if byte.is_ascii_uppercase() {
        byte + 32
    } else {
        byte
    }
}

// The name in a text between quotes.
fn unquoted(alloc: Global, text: &[u8]) -> Result<Vec<u8>, OutOfMemory>
    ensures name { IfOk result (λ name. name.items ≡ unquoted text.now) }
{
    match text {
        [] => Ok(Vec::new(alloc)),
        [b'[', ..] => Ok(Vec::from_slice(alloc, inner(text))?),
        [quote, ..] => undoubled(alloc, *quote, inner(text)),
    }
}

// What stands between the first byte and the last one.
fn inner(text: &[u8]) -> &[u8]
    ensures inner { result.now ≡ inner text.now }
{
    let Some((_, rest)) = text.split_first() else {
        return text;
    };
    rest.split_at(text.len().saturating_sub(2)).0
}

// The bytes with each quote that doubles one left out.
#[tactic(auto, unfolding(crate::specs::Names::undoubled))]
fn undoubled(alloc: Global, quote: u8, text: &[u8]) -> Result<Vec<u8>, OutOfMemory>
    ensures name { IfOk result (λ name. name.items ≡ undoubled quote false text.now) }
{
    let mut name = Vec::new(alloc);
    let mut after = false;
    let mut rest = text;
    while let [byte, left @ ..] = rest {
        if after && *byte == quote {
            after = false;
        } else {
            after = *byte == quote;
            name.push(*byte)?;
        }
        rest = left;
    }
    Ok(name)
}

/// Whether a lexeme may be a name: a word or a quoted name.
pub fn is_name(lexeme: &Lexeme<'_>) -> bool
    ensures exact { result ≡ is_name lexeme.now }
{
    is_named(lexeme.kind())
}

fn is_named(kind: LexemeKind) -> bool
    ensures exact { result ≡ is_named kind }
{
    match kind {
        LexemeKind::Word | LexemeKind::Quoted => true,
        _ => false,
    }
}
