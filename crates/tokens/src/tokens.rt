ghost use Rattle.std.specs.Prelude.{◌≡◌};
ghost use Rattle.schema_grammar.specs.Rests.{number_in, arrow_in};
ghost use Rattle.schema_grammar.specs.Words.{is_word_token};

use lexer::TokenKind;
use schema_grammar::Sign;

/// Whether a token is a word or a quoted name.
pub fn is_word(kind: TokenKind) -> bool
    ensures exact { result ≡ is_word_token kind }
{
    matches!(kind, TokenKind::Identifier | TokenKind::Quoted)
}

/// The value of a number.
pub fn number_in(kind: TokenKind) -> Option<u32>
    ensures exact { result ≡ number_in kind }
{
    match kind {
        TokenKind::Number(value) => Some(value),
        _ => None,
    }
}

/// The arrow that a token is.
pub fn arrow_in(kind: TokenKind) -> Option<Sign>
    ensures exact { result ≡ arrow_in kind }
{
    match kind {
        TokenKind::Arrow => Some(Sign::Functional),
        TokenKind::DoubleArrow => Some(Sign::Multivalued),
        _ => None,
    }
}
