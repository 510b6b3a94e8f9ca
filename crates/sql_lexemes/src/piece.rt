ghost use Rattle.std.specs.Prelude.{◌≡◌, ◌≤◌, ◌&&◌, ◌||◌, ◌==◌, ◌∷◌, [], drop, length, nat_eq};
ghost use Rattle.std.specs.List.{starts_with};
ghost use Rattle.sql_lexemes.specs.Bytes.{is_blank, is_strange};
ghost use Rattle.sql_lexemes.specs.Pieces.{is_postgres, is_sqlite, is_line_start, is_after_e, front_piece, comment_piece, between_quotes, bracketed_piece, dollar_piece, plain_piece, single_kind, FitsPiece};

use crate::dialect::Dialect;
use crate::lexeme::LexemeKind;
use crate::scan::{
    begins_word, bracket_end, comment_end, line_length, number_length, quote_end, tag_end,
    tag_length, word_length,
};

/// Why a text ends before its end.
#[derive(Clone, Copy, Debug, PartialEq, Eq)]
pub enum Flaw {
    /// A byte that begins no lexeme.
    StrangeByte,
    /// A quote that is never closed.
    OpenQuote,
    /// A comment that is never closed.
    OpenComment,
}

/// What stands right before a piece.
#[derive(Clone, Copy, Debug, PartialEq, Eq)]
pub enum Before {
    /// The beginning of a line.
    LineStart,
    /// The word `E` or `e`.
    WordE,
    /// Anything else.
    Other,
}

/// What stands at the front of a text.
#[derive(Clone, Copy, Debug)]
pub enum Piece {
    /// A byte that is passed over, with so many after it.
    Gap(usize),
    /// A lexeme of a byte and so many after it.
    Lexeme(LexemeKind, usize),
    /// What ends the text.
    Flaw(Flaw),
}

pub fn is_postgres(dialect: Dialect) -> bool
    ensures exact { result ≡ is_postgres dialect }
{
    match dialect {
        Dialect::Postgres => true,
        Dialect::Sqlite => false,
    }
}

fn is_sqlite(dialect: Dialect) -> bool
    ensures exact { result ≡ is_sqlite dialect }
{
    match dialect {
        Dialect::Postgres => false,
        Dialect::Sqlite => true,
    }
}

fn is_line_start(before: Before) -> bool
    ensures exact { result ≡ is_line_start before }
{
    match before {
        Before::LineStart => true,
        _ => false,
    }
}

fn is_after_e(before: Before) -> bool
    ensures exact { result ≡ is_after_e before }
{
    match before {
        Before::WordE => true,
        _ => false,
    }
}

fn is_blank(byte: u8) -> bool
    ensures exact { result ≡ is_blank byte }
{
    matches!(byte, b' ' | b'\t' | b'\r' | b'\x0C' | b'\n')
}

/// The piece at the front of a text, after what stands before it.
#[tactic(auto, unfolding(crate::specs::Pieces::front_piece))]
pub fn front_piece(dialect: Dialect, before: Before, text: &[u8]) -> Piece
    ensures exact { result ≡ front_piece dialect before text.now }
    ensures fits { FitsPiece (length (drop 1 text.now)) result }
{
    let [first, rest @ ..] = text else {
        return Piece::Gap(0);
    };
    if is_blank(*first) {
        Piece::Gap(0)
    } else if *first == b'\\' && is_postgres(dialect) && is_line_start(before) {
        Piece::Gap(line_length(rest))
    } else if *first == b'-' && rest.starts_with(b"-") {
        Piece::Gap(line_length(rest))
    } else if *first == b'/' && rest.starts_with(b"*") {
        comment_piece(dialect, rest)
    } else if *first == b'\'' {
        let escapes = is_postgres(dialect) && is_after_e(before);
        between_quotes(single_kind(dialect), b'\'', escapes, rest)
    } else if *first == b'$' && is_postgres(dialect) {
        dollar_piece(rest)
    } else {
        plain_piece(dialect, *first, rest)
    }
}

// A comment, after its slash.
fn comment_piece(dialect: Dialect, rest: &[u8]) -> Piece
    ensures exact { result ≡ comment_piece dialect rest.now }
    ensures fits { FitsPiece (length rest.now) result }
{
    let [_, inner @ ..] = rest else {
        return Piece::Flaw(Flaw::OpenComment);
    };
    match comment_end(is_postgres(dialect), inner) {
        Some(end) => Piece::Gap(end + 1),
        None => Piece::Flaw(Flaw::OpenComment),
    }
}

// What stands between single quotes: for SQLite it may also be a name.
fn single_kind(dialect: Dialect) -> LexemeKind
    ensures exact { result ≡ single_kind dialect }
{
    match dialect {
        Dialect::Postgres => LexemeKind::Text,
        Dialect::Sqlite => LexemeKind::Quoted,
    }
}

// What stands between quotes, after the first one.
fn between_quotes(kind: LexemeKind, quote: u8, escapes: bool, rest: &[u8]) -> Piece
    ensures exact { result ≡ between_quotes kind quote escapes rest.now }
    ensures fits { FitsPiece (length rest.now) result }
{
    match quote_end(quote, escapes, rest) {
        Some(end) => Piece::Lexeme(kind, end),
        None => Piece::Flaw(Flaw::OpenQuote),
    }
}

// A text between marks of dollars, or a dollar, after the first byte.
fn dollar_piece(rest: &[u8]) -> Piece
    ensures exact { result ≡ dollar_piece rest.now }
    ensures fits { FitsPiece (length rest.now) result }
{
    let Some(count) = tag_length(rest) else {
        return Piece::Lexeme(LexemeKind::Mark, 0);
    };
    let (tag, inner) = rest.split_at(count);
    match tag_end(tag, inner) {
        Some(end) => Piece::Lexeme(LexemeKind::Text, count + end),
        None => Piece::Flaw(Flaw::OpenQuote),
    }
}

// A quoted name, a word, a number or a mark, after the first byte.
fn plain_piece(dialect: Dialect, first: u8, rest: &[u8]) -> Piece
    ensures exact { result ≡ plain_piece dialect first rest.now }
    ensures fits { FitsPiece (length rest.now) result }
{
    if first == b'"' {
        between_quotes(LexemeKind::Quoted, b'"', false, rest)
    } else if first == b'`' && is_sqlite(dialect) {
        between_quotes(LexemeKind::Quoted, b'`', false, rest)
    } else if first == b'[' && is_sqlite(dialect) {
        bracketed_piece(rest)
    } else if begins_word(first) {
        Piece::Lexeme(LexemeKind::Word, word_length(rest))
    } else if first.is_ascii_digit() {
        Piece::Lexeme(LexemeKind::Number, number_length(rest))
    } else if first < 32 || first == 127 {
        Piece::Flaw(Flaw::StrangeByte)
    } else {
        Piece::Lexeme(LexemeKind::Mark, 0)
    }
}

// A name between square brackets, after the first one.
fn bracketed_piece(rest: &[u8]) -> Piece
    ensures exact { result ≡ bracketed_piece rest.now }
    ensures fits { FitsPiece (length rest.now) result }
{
    match bracket_end(rest) {
        Some(passed) => Piece::Lexeme(LexemeKind::Quoted, passed + 1),
        None => Piece::Flaw(Flaw::OpenQuote),
    }
}
