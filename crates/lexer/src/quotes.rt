ghost use Rattle.std.specs.Prelude.{◌≡◌, ◌<◌, ◌≤◌, ◌↔◌, length, drop, IsTrue, IsSome, IfSome};
ghost use Rattle.lexer.specs.Pieces.{quoted_piece};
ghost use Rattle.lexer.specs.Quotes.{is_name, closing_quote, undoubled, between, IsQuoted};

use crate::piece::Piece;
use crate::token::{Flaw, TokenKind};
use schema_model::{MOST_NAME_BYTES, Name};

/// A name as it stands between quotes, where a quote in it is doubled.
#[derive(Clone, Copy, Debug)]
pub struct QuotedName<'a> {
    text: &'a [u8],
    pub ghost name: { IsTrue (is_name (undoubled text.now)) },
}

impl<'a> QuotedName<'a> {
    /// The name in a text with its quotes.
    pub fn of(quoted: &'a [u8]) -> QuotedName<'a>
        requires { IsQuoted quoted.now }
        ensures text { result.text.now ≡ between quoted.now }
    {
        let rest = quoted.split_at(1).1;
        QuotedName {
            text: rest.split_at(quoted.len() - 2).0,
        }
    }

    /// The name, each doubled quote once.
    pub fn name(&self) -> Name
        ensures name { result ≡ undoubled self.now.text.now }
    {
        match name_between(self.text) {
            Some(name) => name,
            None => unreachable!(),
        }
    }
}

/// What begins with a quote: a quoted name, or a flaw.
#[tactic(auto, unfolding(crate::specs::Pieces::quoted_piece))]
#[inline(never)]
pub fn quoted_piece(text: &[u8]) -> Piece
    requires { 0 < length text.now }
    ensures exact { result ≡ quoted_piece text.now }
{
    let rest = text.split_at(1).1;
    match closing_quote(rest) {
        None => Piece::Flaw(Flaw::BadName, text.len()),
        Some(end) => match name_between(rest.split_at(end).0) {
            Some(_) => Piece::Token(TokenKind::Quoted, end + 2),
            None => Piece::Flaw(Flaw::BadName, end + 2),
        },
    }
}

/// How many bytes stand before the quote that closes.
pub fn closing_quote(text: &[u8]) -> Option<usize>
    ensures end { result ≡ closing_quote text.now }
    ensures within { IfSome result (λ end. end < length text.now) }
{
    let mut end = 0;
    let mut rest = text;
    while !rest.is_empty() {
        let step = if rest.starts_with(b"\"\"") {
            2
        } else if rest.starts_with(b"\"") {
            return Some(end);
        } else {
            1
        };
        rest = rest.split_at(step).1;
        end += step;
    }
    None
}

/// The name that these bytes spell, a quote by two.
pub fn name_between(text: &[u8]) -> Option<Name>
    ensures name { IsSome result ↔ IsTrue (is_name (undoubled text.now)) }
    ensures value { IfSome result (λ name. name ≡ undoubled text.now) }
{
    let mut bytes = [0; MOST_NAME_BYTES];
    let mut length = 0;
    let mut rest = text;
    while !rest.is_empty() {
        if length == MOST_NAME_BYTES {
            return None;
        }
        bytes[length] = rest[0];
        length += 1;
        let step = if rest.starts_with(b"\"\"") { 2 } else { 1 };
        rest = rest.split_at(step).1;
    }
    Name::new(&bytes[..length])
}
