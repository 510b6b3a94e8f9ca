//! The types of columns.

ghost use Rattle.std.specs.Prelude.{◌≡◌, ◌++◌, ◌||◌, ◌∷◌, [], true, bytes_eq, codes, unwrap_or, if◌then◌else◌, IfOk, IfSome, IsTrue, OnOk};
ghost use Rattle.std.specs.List.{list_all, list_any};
ghost use Rattle.schema_model.specs.Columns.{is_column_type};
ghost use Rattle.sql_lexemes.specs.Statements.{is_a_word};
ghost use Rattle.sql_definitions.specs.Types as types;
ghost use Rattle.sql_definitions.specs.Types.{written_lexeme};

use crate::names::lower_text;
use dep_model::OutOfMemory;
use schema_model::{ColumnType, TypeName};
use sql_lexemes::{Dialect, Lexeme, LexemeKind, is_mark, is_postgres};
use std::alloc::Global;

/// The type that lexemes state, and the words that they have outside brackets, with one blank between.
pub fn column_type(
    alloc: Global,
    dialect: Dialect,
    lexemes: &[Lexeme<'_>],
    text: &[u8],
) -> Result<ColumnType, OutOfMemory>
    requires text { text.now ≡ types.type_text true lexemes.now }
    ensures exact { IfOk result (λ kind. kind ≡ types.column_type dialect lexemes.now) }
    ensures valid { IfOk result (λ kind. IsTrue (is_column_type kind)) }
{
    if lexemes.is_empty() {
        Ok(no_type(dialect))
    } else if are_words_or_within(lexemes) {
        type_by_text(alloc, dialect, text, lexemes)
    } else {
        other_type(alloc, lexemes)
    }
}

// The type of a column that states none.
fn no_type(dialect: Dialect) -> ColumnType
    ensures exact { result ≡ types.no_type dialect }
    ensures valid { IsTrue (is_column_type result) }
{
    if is_postgres(dialect) {
        return ColumnType::Text;
    }
    match TypeName::new(b"blob") {
        Some(name) => ColumnType::Other(name),
        None => ColumnType::Text,
    }
}

// A type, by its text.
fn type_by_text(
    alloc: Global,
    dialect: Dialect,
    text: &[u8],
    lexemes: &[Lexeme<'_>],
) -> Result<ColumnType, OutOfMemory>
    ensures exact { IfOk result (λ kind. kind ≡ types.type_by_text dialect text.now lexemes.now) }
    ensures valid { IfOk result (λ kind. IsTrue (is_column_type kind)) }
{
    if text == b"".as_slice() || text == b"text".as_slice() {
        Ok(ColumnType::Text)
    } else if is_integer_type(text) {
        Ok(ColumnType::Integer)
    } else if is_postgres(dialect) {
        postgres_type(alloc, text, lexemes)
    } else {
        other_type(alloc, lexemes)
    }
}

// A type of PostgreSQL, by its text.
fn postgres_type(
    alloc: Global,
    text: &[u8],
    lexemes: &[Lexeme<'_>],
) -> Result<ColumnType, OutOfMemory>
    ensures exact { IfOk result (λ kind. kind ≡ types.postgres_type text.now lexemes.now) }
    ensures valid { IfOk result (λ kind. IsTrue (is_column_type kind)) }
{
    if is_serial_text(text) {
        Ok(ColumnType::Integer)
    } else if text == b"date".as_slice() {
        Ok(ColumnType::Date)
    } else if text == b"uuid".as_slice() {
        Ok(ColumnType::Uuid)
    } else if is_timestamp_text(text) {
        Ok(ColumnType::Timestamp)
    } else if text == b"numeric".as_slice() || text == b"decimal".as_slice() {
        decimal_or_other(alloc, lexemes)
    } else {
        other_type(alloc, lexemes)
    }
}

fn is_timestamp_text(text: &[u8]) -> bool
    ensures exact { result ≡ (bytes_eq text.now (codes "timestamp")
        || bytes_eq text.now (codes "timestamp without time zone")) }
{
    text == b"timestamp".as_slice() || text == b"timestamp without time zone".as_slice()
}

// Integers of both engines.
fn is_integer_type(text: &[u8]) -> bool
    ensures exact { result ≡ list_any (bytes_eq text.now) types.integer_words }
{
    text == b"int".as_slice()
        || text == b"integer".as_slice()
        || text == b"smallint".as_slice()
        || text == b"bigint".as_slice()
        || text == b"int2".as_slice()
        || text == b"int4".as_slice()
        || text == b"int8".as_slice()
        || text == b"tinyint".as_slice()
        || text == b"mediumint".as_slice()
}

// Integers of PostgreSQL that count themselves.
fn is_serial_text(text: &[u8]) -> bool
    ensures exact { result ≡ list_any (bytes_eq text.now) types.serial_words }
{
    text == b"serial".as_slice()
        || text == b"bigserial".as_slice()
        || text == b"smallserial".as_slice()
        || text == b"serial2".as_slice()
        || text == b"serial4".as_slice()
        || text == b"serial8".as_slice()
}

/// Whether a type is an integer of PostgreSQL that counts itself.
pub fn is_serial(dialect: Dialect, text: &[u8]) -> bool
    ensures exact { result ≡ types.is_serial dialect text.now }
{
    is_postgres(dialect) && is_serial_text(text)
}

fn decimal_or_other(alloc: Global, lexemes: &[Lexeme<'_>]) -> Result<ColumnType, OutOfMemory>
    ensures exact { IfOk result (λ kind.
        kind ≡ unwrap_or (types.decimal_type lexemes.now) (types.other_type lexemes.now)) }
    ensures valid { IfOk result (λ kind. IsTrue (is_column_type kind)) }
{
    match decimal_type(lexemes) {
        Some(kind) => Ok(kind),
        None => other_type(alloc, lexemes),
    }
}

// The type of one word with `(P)` or `(P, S)` after it.
fn decimal_type(lexemes: &[Lexeme<'_>]) -> Option<ColumnType>
    ensures exact { result ≡ types.decimal_type lexemes.now }
    ensures valid { IfSome result (λ kind. IsTrue (is_column_type kind)) }
{
    match lexemes {
        [_, _, precision, _] => scaled(number_in(precision), Some(0)),
        [_, _, precision, comma, scale, _] => {
            if is_mark(comma, b',') {
                scaled(number_in(precision), number_in(scale))
            } else {
                None
            }
        }
        _ => None,
    }
}

fn scaled(precision: Option<u8>, scale: Option<u8>) -> Option<ColumnType>
    ensures exact { result ≡ types.scaled precision scale }
    ensures valid { IfSome result (λ kind. IsTrue (is_column_type kind)) }
{
    let scale = scale?;
    let precision = precision?;
    if precision <= 15 && scale <= 9 {
        Some(ColumnType::Decimal(scale))
    } else {
        None
    }
}

// A number of one or two digits.
fn number_in(lexeme: &Lexeme<'_>) -> Option<u8>
    ensures exact { result ≡ types.number_in lexeme.now.kind lexeme.now.text }
{
    match lexeme.kind() {
        LexemeKind::Number => small_number(lexeme.text()),
        _ => None,
    }
}

fn small_number(text: &[u8]) -> Option<u8>
    ensures exact { result ≡ types.small_number text.now }
{
    match text {
        [digit] => {
            if digit.is_ascii_digit() {
                Some(*digit - b'0')
            } else {
                None
            }
        }
        [ten, digit] => {
            if ten.is_ascii_digit() && digit.is_ascii_digit() {
                Some((*ten - b'0') * 10 + (*digit - b'0'))
            } else {
                None
            }
        }
        _ => None,
    }
}

// A type that is kept as it is written, or text.
fn other_type(alloc: Global, lexemes: &[Lexeme<'_>]) -> Result<ColumnType, OutOfMemory>
    ensures exact { IfOk result (λ kind. kind ≡ types.other_type lexemes.now) }
    ensures valid { IfOk result (λ kind. IsTrue (is_column_type kind)) }
{
    if have_quotes(lexemes) {
        return Ok(ColumnType::Text);
    }
    let text = written(alloc, lexemes)?;
    match TypeName::new(&text) {
        Some(name) => Ok(ColumnType::Other(name)),
        None => Ok(ColumnType::Text),
    }
}

// A type as it is written.
#[tactic(auto, unfolding(crate::specs::Types::written))]
fn written(alloc: Global, lexemes: &[Lexeme<'_>]) -> Result<Vec<u8>, OutOfMemory>
    ensures text { IfOk result (λ text. text.items ≡ types.written true lexemes.now) }
{
    let mut text = Vec::new(alloc);
    let mut joined = true;
    let mut rest = lexemes;
    while let [lexeme, after @ ..] = rest {
        add_lexeme(&mut text, alloc, joined, lexeme)?;
        joined = joins(lexeme);
        rest = after;
    }
    Ok(text)
}

// Adds a lexeme as it is written in a type.
fn add_lexeme(
    text: &mut Vec<u8>,
    alloc: Global,
    joined: bool,
    lexeme: &Lexeme<'_>,
) -> Result<(), OutOfMemory>
    ensures added { OnOk result (text.new.items
        ≡ text.old.items ++ written_lexeme joined lexeme.now.kind lexeme.now.text) }
{
    match lexeme.kind() {
        LexemeKind::Word => add_type_word(text, alloc, joined, lexeme.text()),
        LexemeKind::Number => add_number(text, joined, lexeme.text()),
        _ => Ok(text.extend_from_slice(lexeme.text())?),
    }
}

fn add_number(text: &mut Vec<u8>, joined: bool, number: &[u8]) -> Result<(), OutOfMemory>
    ensures added { OnOk result (text.new.items
        ≡ text.old.items ++ (if joined then number.now else 32 ∷ number.now)) }
{
    if !joined {
        text.push(b' ')?;
    }
    text.extend_from_slice(number)?;
    Ok(())
}

// Adds a word in lower case, after a blank where another one stands before it.
fn add_type_word(
    text: &mut Vec<u8>,
    alloc: Global,
    first: bool,
    word: &[u8],
) -> Result<(), OutOfMemory>
    ensures added { OnOk result (text.new.items ≡ text.old.items ++ types.type_word first word.now) }
{
    let lower = lower_text(alloc, word)?;
    add_number(text, first, &lower)
}

/// The words of a type outside brackets in lower case, one blank between.
#[tactic(auto, unfolding(crate::specs::Types::type_text))]
pub fn type_text(alloc: Global, lexemes: &[Lexeme<'_>]) -> Result<Vec<u8>, OutOfMemory>
    ensures text { IfOk result (λ text. text.items ≡ types.type_text true lexemes.now) }
{
    let mut text = Vec::new(alloc);
    let mut first = true;
    let mut rest = lexemes;
    while let [lexeme, after @ ..] = rest {
        if is_outside(lexeme) && is_a_word(lexeme) {
            add_type_word(&mut text, alloc, first, lexeme.text())?;
            first = false;
        }
        rest = after;
    }
    Ok(text)
}

fn are_words_or_within(lexemes: &[Lexeme<'_>]) -> bool
    ensures exact { result ≡ list_all types.is_word_or_within lexemes.now }
{
    lexemes.iter().all(|lexeme| is_word_or_within(lexeme))
}

fn is_word_or_within(lexeme: &Lexeme<'_>) -> bool
    ensures exact { result ≡ types.is_word_or_within lexeme.now }
{
    !is_outside(lexeme) || is_a_word(lexeme) || is_round(lexeme)
}

fn is_round(lexeme: &Lexeme<'_>) -> bool
    ensures exact { result ≡ types.is_round lexeme.now }
{
    is_mark(lexeme, b'(') || is_mark(lexeme, b')')
}

fn joins(lexeme: &Lexeme<'_>) -> bool
    ensures exact { result ≡ types.joins lexeme.now }
{
    is_mark(lexeme, b'(') || is_mark(lexeme, b'[') || is_mark(lexeme, b'.')
}

fn have_quotes(lexemes: &[Lexeme<'_>]) -> bool
    ensures exact { result ≡ list_any types.has_quotes lexemes.now }
{
    lexemes.iter().any(|lexeme| has_quotes(lexeme))
}

fn has_quotes(lexeme: &Lexeme<'_>) -> bool
    ensures exact { result ≡ types.has_quotes lexeme.now }
{
    match lexeme.kind() {
        LexemeKind::Quoted | LexemeKind::Text => true,
        _ => false,
    }
}

fn is_a_word(lexeme: &Lexeme<'_>) -> bool
    ensures exact { result ≡ is_a_word lexeme.now.kind }
{
    match lexeme.kind() {
        LexemeKind::Word => true,
        _ => false,
    }
}

/// Whether a lexeme stands outside the brackets within an element.
pub fn is_outside(lexeme: &Lexeme<'_>) -> bool
    ensures exact { result ≡ types.is_outside lexeme.now }
{
    lexeme.depth() == 1
}
