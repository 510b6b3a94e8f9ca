ghost use Rattle.std.specs.Prelude.{◌≡◌, ◌+◌, ◌<◌, ◌^◌, ◌≤◌, drop, length, IfOk};
ghost use Rattle.sql_lexemes.specs.Statements.{CutsStatement, before_after_gap, before_next, before_statement, data_after, depth_after, depth_around, ends_from_stdin, ends_statement, is_before_data, begins_with, is_mark, is_word, is_a_mark, is_a_word, statement_value};

use crate::data::data_end;
use crate::dialect::Dialect;
use crate::lexeme::{Lexeme, LexemeKind};
use crate::piece::{Before, Flaw, Piece, front_piece, is_postgres};
use dep_model::OutOfMemory;
use std::alloc::Global;

/// What is left of a text: what stands before it, how many bytes, and its bytes.
#[derive(Clone, Copy, Debug)]
pub struct Rest<'a> {
    pub before: Before,
    pub place: usize,
    pub text: &'a [u8],
}

/// The lexemes of a statement, how many bytes of the text stand before its end, and why the text ends
/// there, if it ends before its end.
#[derive(Drop)]
pub struct Statement<'a> {
    pub lexemes: Vec<Lexeme<'a>>,
    pub end: usize,
    pub flaw: Option<Flaw>,
}

/// A statement, and what is left after it.
#[derive(Drop)]
pub struct Cut<'a> {
    pub statement: Statement<'a>,
    pub rest: Option<Rest<'a>>,
}

/// The first statement of a text.
pub fn cut_statement<'a>(
    alloc: Global,
    dialect: Dialect,
    text: Rest<'a>,
) -> Result<Cut<'a>, OutOfMemory>
    requires { text.place + length text.text.now < 2 ^ 63 }
    ensures cut { IfOk result (CutsStatement dialect text.entry) }
{
    let mut before = text.before;
    let mut place = text.place;
    let mut end = text.place;
    let mut depth = 0;
    let mut lexemes = Vec::new(alloc);
    let mut rest = text.text;
    'pieces: while let [first, ..] = rest {
        match front_piece(dialect, before, rest) {
            Piece::Gap(more) => {
                before = before_after_gap(*first);
                place += more + 1;
                rest = rest.split_at(more + 1).1;
            }
            Piece::Flaw(flaw) => {
                return Ok(Cut {
                    statement: Statement {
                        lexemes,
                        end: place,
                        flaw: Some(flaw),
                    },
                    rest: None,
                });
            }
            Piece::Lexeme(kind, more) => {
                let (own, left) = rest.split_at(more + 1);
                let lexeme = Lexeme::new(kind, place, depth_around(depth, kind, own), own);
                place += more + 1;
                rest = left;
                if ends_statement(&lexeme) {
                    let after = rest_after(dialect, &lexemes, place, left);
                    return Ok(Cut {
                        statement: Statement {
                            lexemes,
                            end,
                            flaw: None,
                        },
                        rest: Some(after),
                    });
                }
                before = before_next(&lexeme);
                end = place;
                depth = depth_after(&lexeme);
                lexemes.push(lexeme)?;
            }
        }
    }
    Ok(Cut {
        statement: Statement {
            lexemes,
            end,
            flaw: None,
        },
        rest: None,
    })
}

// What is left after the `;` of a statement and the data that belong to it.
fn rest_after<'a>(
    dialect: Dialect,
    lexemes: &[Lexeme<'_>],
    place: usize,
    left: &'a [u8],
) -> Rest<'a>
    requires { place + length left.now < 2 ^ 63 }
    ensures text { result.text.now ≡ drop (data_after dialect lexemes.now left.now) left.now }
    ensures before { result.before ≡ before_statement (data_after dialect lexemes.now left.now) }
    ensures place { result.place ≡ place + data_after dialect lexemes.now left.now }
    ensures fits { data_after dialect lexemes.now left.now ≤ length left.now }
{
    let passed = data_after(dialect, lexemes, left);
    Rest {
        before: before_statement(passed),
        place: place + passed,
        text: left.split_at(passed).1,
    }
}

// How many bytes after a statement are passed over.
fn data_after(dialect: Dialect, lexemes: &[Lexeme<'_>], left: &[u8]) -> usize
    ensures exact { result ≡ data_after dialect lexemes.now left.now }
    ensures within { result ≤ length left.now }
{
    if is_postgres(dialect) && begins_with(lexemes, b"copy") && ends_from_stdin(lexemes) {
        data_end(left)
    } else {
        0
    }
}

fn before_statement(passed: usize) -> Before
    ensures exact { result ≡ before_statement passed }
{
    if passed == 0 {
        Before::Other
    } else {
        Before::LineStart
    }
}

// Whether the words FROM STDIN stand last.
fn ends_from_stdin(lexemes: &[Lexeme<'_>]) -> bool
    ensures exact { result ≡ ends_from_stdin lexemes.now }
{
    let (_, end) = lexemes.split_at(lexemes.len().saturating_sub(2));
    match end {
        [first, second] => is_word(first, b"from") && is_word(second, b"stdin"),
        _ => false,
    }
}

/// Whether lexemes begin with this word, ASCII case aside.
pub fn begins_with(lexemes: &[Lexeme<'_>], word: &[u8]) -> bool
    ensures exact { result ≡ begins_with word.now lexemes.now }
{
    match lexemes {
        [] => false,
        [first, ..] => is_word(first, word),
    }
}

/// Whether a lexeme is this word, ASCII case aside.
pub fn is_word(lexeme: &Lexeme<'_>, word: &[u8]) -> bool
    ensures exact { result ≡ is_word word.now lexeme.now }
{
    is_a_word(lexeme.kind()) && lexeme.text().eq_ignore_ascii_case(word)
}

/// Whether a lexeme is a mark of this byte.
pub fn is_mark(lexeme: &Lexeme<'_>, byte: u8) -> bool
    ensures exact { result ≡ is_mark byte lexeme.now }
{
    is_a_mark(lexeme.kind()) && lexeme.text() == [byte].as_slice()
}

fn is_a_word(kind: LexemeKind) -> bool
    ensures exact { result ≡ is_a_word kind }
{
    match kind {
        LexemeKind::Word => true,
        _ => false,
    }
}

fn is_a_mark(kind: LexemeKind) -> bool
    ensures exact { result ≡ is_a_mark kind }
{
    match kind {
        LexemeKind::Mark => true,
        _ => false,
    }
}

fn before_after_gap(byte: u8) -> Before
    ensures exact { result ≡ before_after_gap byte }
{
    if byte == b'\n' {
        Before::LineStart
    } else {
        Before::Other
    }
}

fn before_next(lexeme: &Lexeme<'_>) -> Before
    ensures exact { result ≡ before_next lexeme.now }
{
    if is_word(lexeme, b"e") {
        Before::WordE
    } else {
        Before::Other
    }
}

// A `;` outside brackets.
fn ends_statement(lexeme: &Lexeme<'_>) -> bool
    ensures exact { result ≡ ends_statement lexeme.now }
{
    is_mark(lexeme, b';') && lexeme.depth() == 0
}

// How many brackets are open around a lexeme; a bracket that closes none counts as nothing.
fn depth_around(depth: usize, kind: LexemeKind, text: &[u8]) -> usize
    ensures exact { result ≡ depth_around depth kind text.now }
{
    if is_a_mark(kind) && text == b")".as_slice() {
        depth.saturating_sub(1)
    } else {
        depth
    }
}

fn depth_after(lexeme: &Lexeme<'_>) -> usize
    requires { lexeme.now.depth < 2 ^ 63 }
    ensures exact { result ≡ depth_after lexeme.now }
{
    if is_mark(lexeme, b'(') {
        lexeme.depth() + 1
    } else {
        lexeme.depth()
    }
}
