ghost use Rattle.std.specs.Prelude.{◌≡◌, ◌+◌, ◌<◌, ◌^◌, length};
ghost use Rattle.lexer.specs.Tokens.{bytes_of};
ghost use Rattle.schema_grammar.specs.LineTokens.{line_mode, mode_of_kind, naming_in};
ghost use Rattle.schema_grammar.specs.Words.{begun_by, line_kind, opening_words};

use lexer::{Mode, TokenKind, Word};
use schema_grammar::{Format, LineKind, Purpose};
use schema_model::{ColumnType, Naming};
use tokens::{Cursor, NextToken};

/// Which names the texts of a format declare.
pub fn naming_in(format: Format) -> Naming
    ensures exact { result ≡ naming_in format }
{
    match format {
        Format::Plain | Format::Typed => Naming::Bare,
        Format::Full => Naming::Any,
    }
}

/// Which tokens a line may have, by its first one.
#[tactic(auto, unfolding(schema_grammar::specs::LineTokens::line_mode))]
pub fn line_mode(format: Format, text: &[u8]) -> Mode
    requires { 1 + length text.now < 2 ^ 32 }
    ensures exact { result ≡ line_mode format text.now }
{
    let plain = Mode::plain(naming_in(format));
    match Cursor::start(1, plain, text).next() {
        NextToken::End => plain,
        NextToken::Refusal(_) => plain,
        NextToken::Token(token, word, _) => mode_of_kind(
            format,
            line_kind(format, token.kind, &word),
        ),
    }
}

// Which tokens a line of this kind may have.
fn mode_of_kind(format: Format, kind: LineKind) -> Mode
    ensures exact { result ≡ mode_of_kind format kind }
{
    match kind {
        LineKind::Decimal => Mode::scaled(naming_in(format)),
        _ => Mode::plain(naming_in(format)),
    }
}

/// What a line is, by its first token.
#[tactic(auto, unfolding(schema_grammar::specs::Words::line_kind))]
pub fn line_kind(format: Format, kind: TokenKind, word: &Word<'_>) -> LineKind
    ensures exact { result ≡ line_kind format kind (bytes_of word.now) }
{
    match kind {
        TokenKind::Identifier => begun_by(format, word.bytes().as_slice()),
        _ => LineKind::Dependency,
    }
}

// What a word begins.
fn begun_by(format: Format, word: &[u8]) -> LineKind
    ensures exact { result ≡ begun_by (opening_words format) word.now }
{
    match format {
        Format::Plain => begun_by_attributes(word),
        Format::Typed => begun_in_typed_texts(word),
        Format::Full => begun_in_full_texts(word),
    }
}

fn begun_by_attributes(word: &[u8]) -> LineKind
    ensures exact { result ≡ begun_by (opening_words Format.Plain) word.now }
{
    if word == b"attributes".as_slice() {
        columns_of(ColumnType::Text)
    } else {
        LineKind::Dependency
    }
}

fn begun_in_typed_texts(word: &[u8]) -> LineKind
    ensures exact { result ≡ begun_by (opening_words Format.Typed) word.now }
{
    if word == b"attributes".as_slice() {
        columns_of(ColumnType::Text)
    } else if word == b"text".as_slice() {
        columns_of(ColumnType::Text)
    } else if word == b"integer".as_slice() {
        columns_of(ColumnType::Integer)
    } else {
        LineKind::Dependency
    }
}

fn begun_in_full_texts(word: &[u8]) -> LineKind
    ensures exact { result ≡ begun_by (opening_words Format.Full) word.now }
{
    if word == b"attributes".as_slice() {
        columns_of(ColumnType::Text)
    } else if word == b"text".as_slice() {
        columns_of(ColumnType::Text)
    } else if word == b"integer".as_slice() {
        columns_of(ColumnType::Integer)
    } else if word == b"date".as_slice() {
        columns_of(ColumnType::Date)
    } else if word == b"timestamp".as_slice() {
        columns_of(ColumnType::Timestamp)
    } else if word == b"uuid".as_slice() {
        columns_of(ColumnType::Uuid)
    } else if word == b"decimal".as_slice() {
        LineKind::Decimal
    } else if word == b"other".as_slice() {
        LineKind::Other
    } else if word == b"nullable".as_slice() {
        LineKind::Names(Purpose::Nullable)
    } else {
        LineKind::Dependency
    }
}

fn columns_of(column: ColumnType) -> LineKind
    ensures kind { result ≡ LineKind.Names (Purpose.Columns column) }
{
    LineKind::Names(Purpose::Columns(column))
}
