ghost use Rattle.std.specs.Prelude.{◌≡◌};
ghost use Rattle.lexer.specs.Quotes.{IsQuoted};
ghost use Rattle.lexer.specs.Tokens.{bytes_in, bytes_of, word_of};

use crate::quotes::QuotedName;
use crate::token::TokenKind;
use schema_model::Name;

/// The bytes that a token stands for, as its text has them.
#[derive(Clone, Copy, Debug)]
pub enum Word<'a> {
    /// Those of its text.
    Bare(&'a [u8]),
    /// Those of the name that its text has between quotes.
    Quoted(QuotedName<'a>),
}

/// The bytes that a token stands for.
#[derive(Clone, Copy, Debug)]
pub enum WordBytes<'a> {
    Text(&'a [u8]),
    Name(Name),
}

impl<'a> Word<'a> {
    /// The word of a token with this text.
    pub fn of(kind: TokenKind, text: &'a [u8]) -> Word<'a>
        requires quoted { kind ≡ TokenKind.Quoted → IsQuoted text.now }
        ensures bytes { bytes_of result ≡ word_of kind text.now }
    {
        match kind {
            TokenKind::Quoted => Word::Quoted(QuotedName::of(text)),
            TokenKind::Identifier
            | TokenKind::Number(_)
            | TokenKind::Arrow
            | TokenKind::DoubleArrow
            | TokenKind::Empty
            | TokenKind::Colon => Word::Bare(text),
        }
    }

    /// The bytes, for those who do not ask whether they were quoted. A name takes room of its own here.
    pub fn bytes(&self) -> WordBytes<'a>
        ensures bytes { bytes_in result ≡ bytes_of self.now }
    {
        match self {
            Word::Bare(text) => WordBytes::Text(text),
            Word::Quoted(quoted) => WordBytes::Name(quoted.name()),
        }
    }
}

impl WordBytes<'_> {
    pub fn as_slice(&self) -> &[u8]
        ensures bytes { result.now ≡ bytes_in self.now }
    {
        match self {
            WordBytes::Text(text) => text,
            WordBytes::Name(name) => name.bytes(),
        }
    }
}
