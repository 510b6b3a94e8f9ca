//! The statements that add a key to the table or make a unique index over it.

ghost use Rattle.std.specs.Prelude.{◌≡◌, ◌≤◌, ◌&&◌, length, option_map, codes, IfErr, Ok, OnOk};
ghost use Rattle.std.specs.List.{list_any, position_or_len};
ghost use Rattle.sql_lexemes.specs.Statements.{is_a_word, is_word};
ghost use Rattle.sql_definitions.specs.Facts.{Fails};
ghost use Rattle.sql_definitions.specs.Lists.{closes_list, is_one_of};
ghost use Rattle.sql_definitions.specs.Tables.{add_key, add_to_table, after_alter, after_list, alter_table, altering_words, before_on, index_kind, index_list, index_statement, is_on, is_where, past_if_exists, past_using, past_word, says_not_distinct, unique_index};

use crate::definition::{Definition, KeyKind};
use crate::elements::{begins_constraint, begins_not_distinct, key_constraint};
use crate::lists::{are_columns, closes_list, list_parts, refused};
use crate::names::is_name;
use crate::refusal::{Reason, Refusal};
use crate::tables::after_word;
use crate::wanted::{Wanted, from, is_meant, name_length};
use dep_model::Failure;
use sql_lexemes::{Dialect, Lexeme, LexemeKind, is_mark, is_word};
use std::alloc::Global;

/// The rest of a statement from the name of the table on that it alters.
pub fn after_alter<'s, 'a>(lexemes: &'s [Lexeme<'a>]) -> Option<&'s [Lexeme<'a>]>
    ensures rest { option_map (λ rest. rest.now) result ≡ after_alter lexemes.now }
{
    let rest = after_word(lexemes, b"alter")?;
    let rest = after_word(rest, b"table")?;
    Some(past_word(past_if_exists(rest), b"only"))
}

// A word at the front is left off.
fn past_word<'s, 'a>(lexemes: &'s [Lexeme<'a>], word: &[u8]) -> &'s [Lexeme<'a>]
    ensures rest { result.now ≡ past_word word.now lexemes.now }
{
    let [first, rest @ ..] = lexemes else {
        return lexemes;
    };
    if is_word(first, word) { rest } else { lexemes }
}

// IF EXISTS is left off.
fn past_if_exists<'s, 'a>(lexemes: &'s [Lexeme<'a>]) -> &'s [Lexeme<'a>]
    ensures rest { result.now ≡ past_if_exists lexemes.now }
{
    let [first, second, rest @ ..] = lexemes else {
        return lexemes;
    };
    if is_word(first, b"if") && is_word(second, b"exists") {
        rest
    } else {
        lexemes
    }
}

// USING and a word are left off.
fn past_using<'s, 'a>(lexemes: &'s [Lexeme<'a>]) -> &'s [Lexeme<'a>]
    ensures rest { result.now ≡ past_using lexemes.now }
{
    let [first, second, rest @ ..] = lexemes else {
        return lexemes;
    };
    if is_word(first, b"using") && is_any_word(second) {
        rest
    } else {
        lexemes
    }
}

fn is_any_word(lexeme: &Lexeme<'_>) -> bool
    ensures exact { result ≡ is_a_word lexeme.now.kind }
{
    match lexeme.kind() {
        LexemeKind::Word => true,
        _ => false,
    }
}

/// Reads what follows the name of a table that is altered.
pub fn alter_table(
    alloc: Global,
    dialect: Dialect,
    end: usize,
    lexemes: &[Lexeme<'_>],
    definition: &mut Definition,
) -> Result<(), Failure<Refusal>>
    ensures ok { OnOk result (alter_table dialect end lexemes.now definition.old ≡ Ok definition.new) }
    ensures err { IfErr result (λ failure. Fails failure (alter_table dialect end lexemes.now definition.old)) }
{
    let [first, rest @ ..] = lexemes else {
        return Ok(());
    };
    if is_word(first, b"add") {
        add_to_table(alloc, dialect, end, first.place(), rest, definition)
    } else if is_altering_word(first) {
        Err(refused(Reason::TableAltered, first.place()))
    } else {
        Ok(())
    }
}

fn is_altering_word(lexeme: &Lexeme<'_>) -> bool
    ensures exact { result ≡ is_one_of altering_words lexeme.now }
{
    is_word(lexeme, b"drop") || is_word(lexeme, b"rename")
}

// Reads what follows the word ADD, which stands at this place.
fn add_to_table(
    alloc: Global,
    dialect: Dialect,
    end: usize,
    place: usize,
    lexemes: &[Lexeme<'_>],
    definition: &mut Definition,
) -> Result<(), Failure<Refusal>>
    ensures ok { OnOk result (add_to_table dialect end place lexemes.now definition.old ≡ Ok definition.new) }
    ensures err { IfErr result (λ failure. Fails failure (add_to_table dialect end place lexemes.now definition.old)) }
{
    let [first, rest @ ..] = lexemes else {
        return Ok(());
    };
    if !is_word(first, b"constraint") && !begins_constraint(first, rest) {
        return Err(refused(Reason::TableAltered, place));
    }
    if uses(lexemes) {
        return Ok(());
    }
    add_key(alloc, dialect, end, lexemes, definition)
}

fn uses(lexemes: &[Lexeme<'_>]) -> bool
    ensures exact { result ≡ list_any (is_word (codes "using")) lexemes.now }
{
    lexemes.iter().any(|lexeme| is_word(lexeme, b"using"))
}

// Reads the key that is added to a table, after the word ADD.
fn add_key(
    alloc: Global,
    dialect: Dialect,
    end: usize,
    lexemes: &[Lexeme<'_>],
    definition: &mut Definition,
) -> Result<(), Failure<Refusal>>
    ensures ok { OnOk result (add_key dialect end lexemes.now definition.old ≡ Ok definition.new) }
    ensures err { IfErr result (λ failure. Fails failure (add_key dialect end lexemes.now definition.old)) }
{
    let [first, rest @ ..] = lexemes else {
        return Ok(());
    };
    if !is_word(first, b"constraint") {
        return key_constraint(alloc, dialect, end, lexemes, definition);
    }
    let [name, rest @ ..] = rest else {
        return Err(refused(Reason::ExpectedName, end));
    };
    if !is_name(name) {
        return Err(refused(Reason::ExpectedName, name.place()));
    }
    key_constraint(alloc, dialect, end, rest, definition)
}

/// Reads a statement that may make a unique index.
pub fn index_statement(
    alloc: Global,
    dialect: Dialect,
    wanted: &Wanted<'_>,
    end: usize,
    lexemes: &[Lexeme<'_>],
    definition: &mut Definition,
) -> Result<(), Failure<Refusal>>
    ensures ok { OnOk result
        (index_statement dialect wanted.now end lexemes.now definition.old ≡ Ok definition.new) }
    ensures err { IfErr result (λ failure.
        Fails failure (index_statement dialect wanted.now end lexemes.now definition.old)) }
{
    let [first, second, third, rest @ ..] = lexemes else {
        return Ok(());
    };
    if is_word(first, b"create") && is_word(second, b"unique") && is_word(third, b"index") {
        unique_index(
            alloc,
            dialect,
            wanted,
            end,
            second.place(),
            rest,
            definition,
        )
    } else {
        Ok(())
    }
}

// Reads a unique index, after the word INDEX; its word UNIQUE stands at this place.
fn unique_index(
    alloc: Global,
    dialect: Dialect,
    wanted: &Wanted<'_>,
    end: usize,
    place: usize,
    lexemes: &[Lexeme<'_>],
    definition: &mut Definition,
) -> Result<(), Failure<Refusal>>
    ensures ok { OnOk result
        (unique_index dialect wanted.now end place lexemes.now definition.old ≡ Ok definition.new) }
    ensures err { IfErr result (λ failure.
        Fails failure (unique_index dialect wanted.now end place lexemes.now definition.old)) }
{
    let before = before_on(lexemes);
    if before == lexemes.len() || has_where(lexemes) {
        return Ok(());
    }
    let table = past_word(from(lexemes, before + 1), b"only");
    if !is_meant(alloc, dialect, wanted, table)? {
        return Ok(());
    }
    let list = past_using(from(table, name_length(table)));
    index_list(alloc, dialect, end, place, list, definition)
}

// How many lexemes stand before ON.
fn before_on(lexemes: &[Lexeme<'_>]) -> usize
    ensures before { result ≡ before_on lexemes.now }
    ensures within { result ≤ length lexemes.now }
{
    lexemes.iter().take_while(|lexeme| !is_on(*lexeme)).count()
}

fn is_on(lexeme: &Lexeme<'_>) -> bool
    ensures exact { result ≡ is_on lexeme.now }
{
    lexeme.depth() == 0 && is_word(lexeme, b"on")
}

fn has_where(lexemes: &[Lexeme<'_>]) -> bool
    ensures exact { result ≡ list_any is_where lexemes.now }
{
    lexemes.iter().any(|lexeme| is_where(lexeme))
}

fn is_where(lexeme: &Lexeme<'_>) -> bool
    ensures exact { result ≡ is_where lexeme.now }
{
    lexeme.depth() == 0 && is_word(lexeme, b"where")
}

// Reads the list of a unique index.
fn index_list(
    alloc: Global,
    dialect: Dialect,
    end: usize,
    place: usize,
    lexemes: &[Lexeme<'_>],
    definition: &mut Definition,
) -> Result<(), Failure<Refusal>>
    ensures ok { OnOk result (index_list dialect end place lexemes.now definition.old ≡ Ok definition.new) }
    ensures err { IfErr result (λ failure.
        Fails failure (index_list dialect end place lexemes.now definition.old)) }
{
    let [open, rest @ ..] = lexemes else {
        return Ok(());
    };
    if !is_mark(open, b'(') || !are_columns(0, rest) {
        return Ok(());
    }
    let parts = match list_parts(alloc, dialect, end, 0, rest) {
        Ok(parts) => parts,
        Err(failure) => return Err(failure),
    };
    definition.state_key(index_kind(rest), place, parts)
}

// What a unique index states, by the lexemes after the bracket of its list.
fn index_kind(lexemes: &[Lexeme<'_>]) -> KeyKind
    ensures exact { result ≡ index_kind lexemes.now }
{
    if says_not_distinct(after_list(lexemes)) {
        KeyKind::UniqueMissing
    } else {
        KeyKind::Unique
    }
}

// What stands after the bracket that closes a list.
fn after_list<'s, 'a>(lexemes: &'s [Lexeme<'a>]) -> &'s [Lexeme<'a>]
    ensures rest { result.now ≡ after_list lexemes.now }
{
    lexemes.split_at(list_length(lexemes)).1
}

// How many lexemes a list has after its bracket, up to the one that closes it.
fn list_length(lexemes: &[Lexeme<'_>]) -> usize
    ensures length { result ≡ position_or_len (closes_list 0) lexemes.now }
    ensures within { result ≤ length lexemes.now }
{
    lexemes
        .iter()
        .take_while(|lexeme| !closes_list(0, *lexeme))
        .count()
}

// Whether NULLS NOT DISTINCT stands outside all brackets.
#[tactic(auto, unfolding(crate::specs::Tables::says_not_distinct))]
fn says_not_distinct(lexemes: &[Lexeme<'_>]) -> bool
    ensures exact { result ≡ says_not_distinct lexemes.now }
{
    let mut rest = lexemes;
    while let [lexeme, after @ ..] = rest {
        if lexeme.depth() == 0 && begins_not_distinct(rest) {
            return true;
        }
        rest = after;
    }
    false
}
