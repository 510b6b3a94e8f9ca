//! The statement that creates the table.

ghost use Rattle.std.specs.Prelude.{◌≡◌, ◌≤◌, ◌<◌, ◌+◌, ◌^◌, length, option_map, IfErr, Ok, OnOk};
ghost use Rattle.sql_definitions.specs.Facts.{Fails};
ghost use Rattle.sql_definitions.specs.Lists.{is_one_of};
ghost use Rattle.sql_definitions.specs.Tables.{after_create, after_word, closed_table, closes_table, create_table, element_length, elements, ends_element, open_after, open_table, past_if_not_exists, past_temporary, place_of, temporary_words};

use crate::definition::Definition;
use crate::elements::element;
use crate::lists::refused;
use crate::refusal::{Reason, Refusal};
use crate::wanted::{from, name_length};
use dep_model::Failure;
use sql_lexemes::{Dialect, Lexeme, is_mark, is_word};
use std::alloc::Global;

/// The rest of a statement from the name of the table on that it creates.
pub fn after_create<'s, 'a>(lexemes: &'s [Lexeme<'a>]) -> Option<&'s [Lexeme<'a>]>
    ensures rest { option_map (λ rest. rest.now) result ≡ after_create lexemes.now }
{
    let rest = after_word(lexemes, b"create")?;
    let rest = after_word(past_temporary(rest), b"table")?;
    Some(past_if_not_exists(rest))
}

/// What follows a word, where the lexemes begin with it.
pub fn after_word<'s, 'a>(lexemes: &'s [Lexeme<'a>], word: &[u8]) -> Option<&'s [Lexeme<'a>]>
    ensures rest { option_map (λ rest. rest.now) result ≡ after_word word.now lexemes.now }
{
    let [first, rest @ ..] = lexemes else {
        return None;
    };
    if is_word(first, word) {
        Some(rest)
    } else {
        None
    }
}

fn past_temporary<'s, 'a>(lexemes: &'s [Lexeme<'a>]) -> &'s [Lexeme<'a>]
    ensures rest { result.now ≡ past_temporary lexemes.now }
{
    let [first, rest @ ..] = lexemes else {
        return lexemes;
    };
    if is_temporary(first) { rest } else { lexemes }
}

fn is_temporary(lexeme: &Lexeme<'_>) -> bool
    ensures exact { result ≡ is_one_of temporary_words lexeme.now }
{
    is_word(lexeme, b"temp") || is_word(lexeme, b"temporary") || is_word(lexeme, b"unlogged")
}

// IF NOT EXISTS is left off.
fn past_if_not_exists<'s, 'a>(lexemes: &'s [Lexeme<'a>]) -> &'s [Lexeme<'a>]
    ensures rest { result.now ≡ past_if_not_exists lexemes.now }
{
    let [first, second, third, rest @ ..] = lexemes else {
        return lexemes;
    };
    if is_word(first, b"if") && is_word(second, b"not") && is_word(third, b"exists") {
        rest
    } else {
        lexemes
    }
}

/// Reads the creation of a table that is meant, from its name on; the statement ends at this place.
pub fn create_table(
    alloc: Global,
    dialect: Dialect,
    end: usize,
    lexemes: &[Lexeme<'_>],
    definition: &mut Definition,
) -> Result<(), Failure<Refusal>>
    ensures ok { OnOk result (create_table dialect end lexemes.now definition.old ≡ Ok definition.new) }
    ensures err { IfErr result (λ failure. Fails failure (create_table dialect end lexemes.now definition.old)) }
{
    if definition.is_found() {
        return Err(refused(Reason::TableDefinedTwice, place_of(end, lexemes)));
    }
    definition.set_found();
    open_table(
        alloc,
        dialect,
        end,
        from(lexemes, name_length(lexemes)),
        definition,
    )
}

// Where the first lexeme stands, or the end.
fn place_of(end: usize, lexemes: &[Lexeme<'_>]) -> usize
    ensures place { result ≡ place_of end lexemes.now }
{
    match lexemes {
        [] => end,
        [first, ..] => first.place(),
    }
}

// Reads what follows the name of a table that is created.
fn open_table(
    alloc: Global,
    dialect: Dialect,
    end: usize,
    lexemes: &[Lexeme<'_>],
    definition: &mut Definition,
) -> Result<(), Failure<Refusal>>
    ensures ok { OnOk result (open_table dialect end lexemes.now definition.old ≡ Ok definition.new) }
    ensures err { IfErr result (λ failure. Fails failure (open_table dialect end lexemes.now definition.old)) }
{
    let [first, rest @ ..] = lexemes else {
        return Err(refused(Reason::ExpectedBracket, end));
    };
    if !is_mark(first, b'(') {
        return Err(refused(Reason::ExpectedBracket, first.place()));
    }
    elements(alloc, dialect, end, rest, definition)
}

// Reads the elements of a table.
fn elements(
    alloc: Global,
    dialect: Dialect,
    end: usize,
    lexemes: &[Lexeme<'_>],
    definition: &mut Definition,
) -> Result<(), Failure<Refusal>>
    ensures ok { OnOk result (elements dialect end 0 lexemes.now definition.old ≡ Ok definition.new) }
    ensures err { IfErr result (λ failure. Fails failure (elements dialect end 0 lexemes.now definition.old)) }
{
    let mut at = 0;
    'elements: while at < lexemes.len() {
        let rest = lexemes.split_at(at).1;
        let length = element_length(rest);
        let (own, after) = rest.split_at(length);
        match element(alloc, dialect, place_of(end, after), own, definition) {
            Ok(()) => {}
            Err(failure) => return Err(failure),
        }
        if after.is_empty() {
            return Err(refused(Reason::ExpectedCommaOrBracket, end));
        }
        if closes_table(after) {
            return close_table(place_of(end, after), definition);
        }
        at += length + 1;
    }
    Err(refused(Reason::ExpectedName, end))
}

// Whether the bracket that closes the table stands at the front.
fn closes_table(lexemes: &[Lexeme<'_>]) -> bool
    ensures exact { result ≡ closes_table lexemes.now }
{
    match lexemes {
        [] => false,
        [first, ..] => is_mark(first, b')'),
    }
}

// A table is closed at this place: a table without a column is none.
fn close_table(place: usize, definition: &mut Definition) -> Result<(), Failure<Refusal>>
    ensures ok { OnOk result (closed_table place definition.old ≡ Ok definition.new) }
    ensures err { IfErr result (λ failure. Fails failure (closed_table place definition.old)) }
{
    if definition.columns().is_empty() {
        return Err(refused(Reason::ExpectedName, place));
    }
    Ok(())
}

// How many lexemes the first element has.
#[tactic(auto, unfolding(crate::specs::Tables::length_left))]
fn element_length(lexemes: &[Lexeme<'_>]) -> usize
    ensures length { result ≡ element_length lexemes.now }
    ensures within { result ≤ length lexemes.now }
{
    let mut depth = 0;
    let mut passed = 0;
    let mut rest = lexemes;
    while let [lexeme, after @ ..] = rest {
        if ends_element(depth, lexeme) {
            return passed;
        }
        depth = open_after(depth, lexeme);
        passed += 1;
        rest = after;
    }
    passed
}

fn ends_element(depth: usize, lexeme: &Lexeme<'_>) -> bool
    ensures exact { result ≡ ends_element depth lexeme.now }
{
    depth == 0 && (is_mark(lexeme, b',') || is_mark(lexeme, b')'))
}

// How many brackets of an element are open after a lexeme.
fn open_after(depth: usize, lexeme: &Lexeme<'_>) -> usize
    requires { depth < 2 ^ 63 }
    ensures exact { result ≡ open_after depth lexeme.now }
    ensures one_more { result ≤ depth + 1 }
{
    if is_mark(lexeme, b'(') || is_mark(lexeme, b'[') {
        depth + 1
    } else if is_mark(lexeme, b')') || is_mark(lexeme, b']') {
        depth.saturating_sub(1)
    } else {
        depth
    }
}
