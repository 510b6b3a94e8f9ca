ghost use Rattle.std.specs.Prelude.{◌≡◌, ◌+◌, ◌^◌, ◌<◌, length};
ghost use Rattle.lexer.specs.Tokens.{tokens_after, GoesOn, Advances};

use crate::mode::Mode;
use crate::piece::{Piece, front_piece};
use crate::word::Word;

/// What a token is.
#[derive(Clone, Copy, Debug, PartialEq, Eq)]
pub enum TokenKind {
    /// A letter, then letters, digits and `_`; 1 to 31 bytes.
    Identifier,
    /// A name between double quotes, each double quote in it doubled.
    Quoted,
    /// 1 to 9 digits, and their value.
    Number(u32),
    /// `->`
    Arrow,
    /// `->>`
    DoubleArrow,
    /// `()`
    Empty,
    /// `:`
    Colon,
}

/// A token of a line: what it is, the column of its first byte, from 1, and how many bytes it has. What these
/// are is read in the line: a token together with it is a `Mark` of the definitions.
#[derive(Clone, Copy, Debug, PartialEq, Eq)]
pub struct Token {
    pub kind: TokenKind,
    pub column: u32,
    pub length: u32,
}

/// Why bytes are no token.
#[derive(Clone, Copy, Debug, PartialEq, Eq)]
pub enum Flaw {
    /// A byte that begins no token.
    StrangeByte,
    /// A run of letters, digits and `_` that is no word, nor a number where numbers are taken; a quoted
    /// text that is no name, or a quote that none closes.
    BadName,
}

/// Where the tokens of a line stop before its end, and why.
#[derive(Clone, Copy, Debug, PartialEq, Eq)]
pub struct LexError {
    pub flaw: Flaw,
    pub column: u32,
    pub length: u32,
}

/// What comes next in a line.
#[derive(Clone, Copy, Debug)]
pub enum Next<'a> {
    /// No token: the line ends, but for blanks and a comment.
    End,
    /// A token, the bytes that it stands for, and what stands after it.
    Token(Token, Word<'a>, &'a [u8]),
    /// Bytes that are no token.
    Error(LexError),
}

/// The next token of a line of which `text` is what is left, from `column` on.
pub fn next_token(mode: Mode, column: u32, text: &[u8]) -> Next<'_>
    requires { column + length text.now < 2 ^ 32 }
    ensures exact { GoesOn mode result (tokens_after mode 0 column text.now) }
    ensures advances { Advances column text.now result }
{
    let mut column = column;
    let mut rest = text;
    'pieces: while !rest.is_empty() {
        match front_piece(mode, rest) {
            Piece::Gap => {
                rest = rest.split_at(1).1;
                column += 1;
            }
            Piece::Comment => return Next::End,
            Piece::Token(kind, length) => {
                let (text, after) = rest.split_at(length);
                let token = Token {
                    kind,
                    column,
                    length: length as u32,
                };
                return Next::Token(token, Word::of(kind, text), after);
            }
            Piece::Flaw(flaw, length) => {
                return Next::Error(LexError {
                    flaw,
                    column,
                    length: length as u32,
                });
            }
        }
    }
    Next::End
}
