ghost use Rattle.std.specs.Prelude.{◌≡◌, ◌<◌, ◌≤◌, length, IsTrue};
ghost use Rattle.std.specs.List.{list_all};
ghost use Rattle.schema_model.specs.Names.{is_name_byte};
ghost use Rattle.lexer.specs.Pieces.{front_piece, run_piece};

use crate::bytes::{is_bare_name, is_gap, is_number, is_run, number_of, run_length};
use crate::mode::Mode;
use crate::quotes::quoted_piece;
use crate::token::{Flaw, TokenKind};

/// What stands at the front of a text.
#[derive(Clone, Copy)]
pub enum Piece {
    /// A byte that only separates tokens.
    Gap,
    /// The beginning of a comment, which reaches to the line's end.
    Comment,
    /// A token of this many bytes.
    Token(TokenKind, usize),
    /// Bytes, this many, that are no token.
    Flaw(Flaw, usize),
}

/// The longest piece at the front of a text that is not empty.
#[tactic(auto, unfolding(crate::specs::Pieces::front_piece))]
pub fn front_piece(mode: Mode, text: &[u8]) -> Piece
    requires { 0 < length text.now }
    ensures exact { result ≡ front_piece mode text.now }
{
    let first = text[0];
    if is_gap(first) {
        Piece::Gap
    } else if first == b'#' && mode.comments {
        Piece::Comment
    } else if is_run(first) {
        run_piece(mode, text.split_at(run_length(text)).0)
    } else if text.starts_with(b"->>") {
        Piece::Token(TokenKind::DoubleArrow, 3)
    } else if text.starts_with(b"->") {
        Piece::Token(TokenKind::Arrow, 2)
    } else if text.starts_with(b"()") {
        Piece::Token(TokenKind::Empty, 2)
    } else if first == b'"' && mode.quotes {
        quoted_piece(text)
    } else if first == b':' && mode.colon {
        Piece::Token(TokenKind::Colon, 1)
    } else {
        Piece::Flaw(Flaw::StrangeByte, 1)
    }
}

/// What a whole run of letters, digits and `_` is.
#[tactic(auto, unfolding(crate::specs::Pieces::run_piece))]
fn run_piece(mode: Mode, run: &[u8]) -> Piece
    requires run { IsTrue (list_all is_name_byte run.now) }
    ensures exact { result ≡ run_piece mode run.now }
{
    if is_bare_name(run) {
        Piece::Token(TokenKind::Identifier, run.len())
    } else if mode.numbers && is_number(run) {
        Piece::Token(TokenKind::Number(number_of(run)), run.len())
    } else {
        Piece::Flaw(Flaw::BadName, run.len())
    }
}
