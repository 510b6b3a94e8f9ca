//! The table that is wanted.

ghost use Rattle.std.specs.Prelude.{◌≡◌, drop, option_map, IfOk};
ghost use Rattle.lexer.specs.Tokens.{bytes_in};
ghost use Rattle.sql_definitions.specs.Names.{goes_on, name_length};
ghost use Rattle.sql_definitions.specs.Tables.{is_meant, is_meant_by, is_named_so, is_wanted_part, part_from_end};
ghost use Rattle.sql_definitions.specs.Wanted.{wanted_table};

use crate::names::{is_name, name_of_lexeme};
use dep_model::OutOfMemory;
use lexer::WordBytes;
use sql_lexemes::{Dialect, Lexeme, is_mark};
use std::alloc::Global;
use std::marker::Model;
use table_words::{TableParts, table_parts};

/// The parts of a table's name that are wanted, from the last on.
#[derive(Drop)]
pub struct Wanted<'a> {
    last: WordBytes<'a>,
    middle: Option<WordBytes<'a>>,
    outer: Option<WordBytes<'a>>,
}

impl<'a> Model for Wanted<'a> {
    ghost use Rattle.std.specs.Prelude.{option_map};
    ghost use Rattle.lexer.specs.Tokens.{bytes_in};
    ghost use Rattle.sql_definitions.specs.Wanted.{TableName};

    ghost Value = { TableName };

    ghost view = { λ w. record {
      last = bytes_in w.last;
      middle = option_map bytes_in w.middle;
      outer = option_map bytes_in w.outer;
    } };
}

/// The table that a word wants, by its parts.
pub fn wanted_table(bytes: &[u8]) -> Option<Wanted<'_>>
    ensures wanted { result ≡ wanted_table bytes.now }
{
    match table_parts(bytes) {
        None => None,
        Some(TableParts::One(last)) => Some(Wanted {
            last,
            middle: None,
            outer: None,
        }),
        Some(TableParts::Two(middle, last)) => Some(Wanted {
            last,
            middle: Some(middle),
            outer: None,
        }),
        Some(TableParts::Three(outer, middle, last)) => Some(Wanted {
            last,
            middle: Some(middle),
            outer: Some(outer),
        }),
    }
}

// Whether a dot and a name stand at the front.
fn goes_on(lexemes: &[Lexeme<'_>]) -> bool
    ensures exact { result ≡ goes_on lexemes.now }
{
    match lexemes {
        [dot, name, ..] => is_mark(dot, b'.') && is_name(name),
        _ => false,
    }
}

/// How many lexemes the name of a table has at the front.
pub fn name_length(lexemes: &[Lexeme<'_>]) -> usize
    ensures length { result ≡ name_length lexemes.now }
{
    if !goes_on(from(lexemes, 1)) {
        1
    } else if !goes_on(from(lexemes, 3)) {
        3
    } else {
        5
    }
}

/// The lexemes after so many.
pub fn from<'s, 'a>(lexemes: &'s [Lexeme<'a>], count: usize) -> &'s [Lexeme<'a>]
    ensures rest { result.now ≡ drop count lexemes.now }
{
    if count <= lexemes.len() {
        lexemes.split_at(count).1
    } else {
        lexemes.split_at(lexemes.len()).1
    }
}

/// Whether the name at the front is meant: its parts end with those that are wanted.
pub fn is_meant(
    alloc: Global,
    dialect: Dialect,
    wanted: &Wanted<'_>,
    lexemes: &[Lexeme<'_>],
) -> Result<bool, OutOfMemory>
    ensures exact { IfOk result (λ meant. meant ≡ is_meant dialect wanted.now lexemes.now) }
{
    let count = name_length(lexemes);
    let last = is_named_so(
        alloc,
        dialect,
        wanted.last.as_slice(),
        part_from_end(lexemes, count, 1),
    )?;
    let middle = is_wanted_part(
        alloc,
        dialect,
        &wanted.middle,
        part_from_end(lexemes, count, 3),
    )?;
    let outer = is_wanted_part(
        alloc,
        dialect,
        &wanted.outer,
        part_from_end(lexemes, count, 5),
    )?;
    Ok(last && middle && outer)
}

// The lexeme that stands so many before the end of a name.
fn part_from_end<'s, 'a>(
    lexemes: &'s [Lexeme<'a>],
    count: usize,
    back: usize,
) -> Option<&'s Lexeme<'a>>
    ensures part { option_map (λ l. l.now) result ≡ part_from_end lexemes.now count back }
{
    if back <= count {
        lexemes.get(count - back)
    } else {
        None
    }
}

// Whether a part of a name is this one, or none is wanted.
fn is_wanted_part(
    alloc: Global,
    dialect: Dialect,
    wanted: &Option<WordBytes<'_>>,
    lexeme: Option<&Lexeme<'_>>,
) -> Result<bool, OutOfMemory>
    ensures exact { IfOk result (λ is. is ≡ is_wanted_part dialect
        (option_map bytes_in wanted.now) (option_map (λ l. l.now) lexeme.entry)) }
{
    match wanted {
        None => Ok(true),
        Some(wanted) => is_named_so(alloc, dialect, wanted.as_slice(), lexeme),
    }
}

// Whether a part of a name is this one, ASCII case aside.
fn is_named_so(
    alloc: Global,
    dialect: Dialect,
    wanted: &[u8],
    lexeme: Option<&Lexeme<'_>>,
) -> Result<bool, OutOfMemory>
    ensures exact { IfOk result (λ is. is ≡ is_named_so dialect wanted.now (option_map (λ l. l.now) lexeme.entry)) }
{
    let Some(lexeme) = lexeme else {
        return Ok(false);
    };
    if !is_name(lexeme) {
        return Ok(false);
    }
    let text = name_of_lexeme(alloc, dialect, lexeme)?;
    Ok(text.as_slice().eq_ignore_ascii_case(wanted))
}
