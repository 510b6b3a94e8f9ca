ghost use Rattle.std.specs.Prelude.{◌≡◌, length};

use std::marker::Model;

/// What a lexeme is.
#[derive(Clone, Copy, Debug, PartialEq, Eq)]
pub enum LexemeKind {
    /// A letter, `_` or a byte above 127, then these, digits and `$`.
    Word,
    /// A name between quotes; for SQLite also what stands between single ones, a string or a name.
    Quoted,
    /// A string that is no name.
    Text,
    /// A digit, then letters, digits, `_` and `.`.
    Number,
    /// One other byte.
    Mark,
}

/// A piece of SQL: what it is, how many bytes of the text stand before it, how many round brackets stand
/// around it, which are not those that it is, and its text.
#[derive(Drop)]
pub struct Lexeme<'a> {
    kind: LexemeKind,
    place: usize,
    depth: usize,
    text: &'a [u8],
}

impl<'a> Model for Lexeme<'a> {
    ghost use Rattle.sql_lexemes.specs.Lexemes.{Lexed};

    ghost Value = { Lexed };

    ghost view = { λ l. record { kind = l.kind; place = l.place; depth = l.depth; text = l.text.now } };
}

impl<'a> Lexeme<'a> {
    /// A lexeme of these.
    pub fn new(kind: LexemeKind, place: usize, depth: usize, text: &'a [u8]) -> Lexeme<'a>
        ensures lexeme { result ≡ record { kind = kind; place = place; depth = depth; text = text.now } }
    {
        Lexeme {
            kind,
            place,
            depth,
            text,
        }
    }

    /// What it is.
    pub fn kind(&self) -> LexemeKind
        ensures kind { result ≡ self.now.kind }
    {
        self.kind
    }

    /// How many bytes stand before it.
    pub fn place(&self) -> usize
        ensures place { result ≡ self.now.place }
    {
        self.place
    }

    /// How many round brackets stand around it.
    pub fn depth(&self) -> usize
        ensures depth { result ≡ self.now.depth }
    {
        self.depth
    }

    /// Its bytes, with its quotes.
    pub fn text(&self) -> &'a [u8]
        ensures text { result.now ≡ self.now.text }
    {
        self.text
    }
}
