ghost use Rattle.std.specs.Prelude.{◌≡◌};
ghost use Rattle.lexer.specs.Tokens.{bytes_of};
ghost use Rattle.schema_grammar.specs.Declarations.{decimal_type, is_scale, mark_of, other_type, type_after, wanted_after};
ghost use Rattle.schema_grammar.specs.Rests.{number_in};

use lexer::{Token, TokenKind, Word};
use schema_grammar::{LineKind, SchemaRefusalKind, What};
use schema_model::{ColumnType, MOST_SCALE, TypeName};
use tokens::number_in;

/// What is wanted after the word that begins a line of this kind.
pub fn wanted_after(kind: LineKind) -> What
    ensures exact { result ≡ wanted_after kind }
{
    match kind {
        LineKind::Decimal => What::Number,
        LineKind::Other => What::Type,
        _ => What::Name,
    }
}

/// The type of the columns that a line declares, by the token after its first one.
#[tactic(auto, unfolding(schema_grammar::specs::Declarations::type_after))]
pub fn type_after(
    kind: LineKind,
    token: Token,
    word: &Word<'_>,
) -> Result<ColumnType, SchemaRefusalKind>
    ensures exact { result ≡ type_after kind (mark_of token (bytes_of word.now)) }
{
    match kind {
        LineKind::Decimal => decimal_type(token, word),
        LineKind::Other => other_type(token.kind, word.bytes().as_slice()),
        _ => Err(SchemaRefusalKind::Expected(wanted_after(kind))),
    }
}

// A type of decimal columns, where the token is its scale.
fn decimal_type(token: Token, word: &Word<'_>) -> Result<ColumnType, SchemaRefusalKind>
    ensures exact { result ≡ decimal_type (mark_of token (bytes_of word.now)) (number_in token.kind) }
{
    match number_in(token.kind) {
        None => Err(SchemaRefusalKind::Expected(What::Number)),
        Some(number) => {
            if number <= u32::from(MOST_SCALE) && token.length == 1 {
                Ok(ColumnType::Decimal(number as u8))
            } else {
                Err(SchemaRefusalKind::NoScale)
            }
        }
    }
}

// A type of SQL, where the token is its text between quotes.
fn other_type(kind: TokenKind, text: &[u8]) -> Result<ColumnType, SchemaRefusalKind>
    ensures exact { result ≡ other_type text.now kind }
{
    match kind {
        TokenKind::Quoted => match TypeName::new(text) {
            Some(name) => Ok(ColumnType::Other(name)),
            None => Err(SchemaRefusalKind::NoType),
        },
        _ => Err(SchemaRefusalKind::Expected(What::Type)),
    }
}
