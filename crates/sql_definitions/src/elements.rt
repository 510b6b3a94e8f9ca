//! The elements of a table: constraints that state keys, and columns.

ghost use Rattle.std.specs.Prelude.{◌≡◌, IfErr, Ok, OnOk};
ghost use Rattle.std.specs.List.{list_any};
ghost use Rattle.sql_definitions.specs.Facts.{Fails};
ghost use Rattle.sql_definitions.specs.Elements.{begins_constraint, begins_not_distinct, constraint, constraint_words, element, follows_exclude, is_like, key_by_list, key_constraint, past_nulls, primary_key, unique_kind};
ghost use Rattle.sql_definitions.specs.Lists.{is_one_of};

use crate::columns::column;
use crate::definition::{Definition, KeyKind};
use crate::lists::{lists_columns, read_list, refused};
use crate::names::is_name;
use crate::refusal::{Reason, Refusal};
use dep_model::Failure;
use sql_lexemes::{Dialect, Lexeme, begins_with, is_mark, is_postgres, is_word};
use std::alloc::Global;

/// Reads an element, which ends at this place.
#[tactic(auto, unfolding(crate::specs::Elements::element))]
pub fn element(
    alloc: Global,
    dialect: Dialect,
    end: usize,
    lexemes: &[Lexeme<'_>],
    definition: &mut Definition,
) -> Result<(), Failure<Refusal>>
    ensures ok { OnOk result (element dialect end lexemes.now definition.old ≡ Ok definition.new) }
    ensures err { IfErr result (λ failure. Fails failure (element dialect end lexemes.now definition.old)) }
{
    let [first, rest @ ..] = lexemes else {
        return Err(refused(Reason::ExpectedName, end));
    };
    if is_word(first, b"constraint") {
        let [name, rest @ ..] = rest else {
            return Err(refused(Reason::ExpectedName, end));
        };
        if !is_name(name) {
            return Err(refused(Reason::ExpectedName, name.place()));
        }
        constraint(alloc, dialect, end, rest, definition)
    } else if begins_constraint(first, rest) || is_like(dialect, first) {
        constraint(alloc, dialect, end, lexemes, definition)
    } else {
        column(alloc, dialect, first, rest, definition)
    }
}

/// Whether a constraint begins with a lexeme, which others follow.
pub fn begins_constraint(lexeme: &Lexeme<'_>, rest: &[Lexeme<'_>]) -> bool
    ensures exact { result ≡ begins_constraint lexeme.now rest.now }
{
    is_constraint_word(lexeme) || (is_word(lexeme, b"exclude") && follows_exclude(rest))
}

fn is_constraint_word(lexeme: &Lexeme<'_>) -> bool
    ensures exact { result ≡ is_one_of constraint_words lexeme.now }
{
    is_word(lexeme, b"primary")
        || is_word(lexeme, b"unique")
        || is_word(lexeme, b"foreign")
        || is_word(lexeme, b"check")
}

// Whether USING or a bracket stands at the front.
fn follows_exclude(lexemes: &[Lexeme<'_>]) -> bool
    ensures exact { result ≡ follows_exclude lexemes.now }
{
    match lexemes {
        [] => false,
        [first, ..] => is_word(first, b"using") || is_mark(first, b'('),
    }
}

// Whether a lexeme is the word LIKE, where it names another table.
fn is_like(dialect: Dialect, lexeme: &Lexeme<'_>) -> bool
    ensures exact { result ≡ is_like dialect lexeme.now }
{
    is_word(lexeme, b"like") && is_postgres(dialect)
}

// Reads what is no column: LIKE stands where a name is expected.
fn constraint(
    alloc: Global,
    dialect: Dialect,
    end: usize,
    lexemes: &[Lexeme<'_>],
    definition: &mut Definition,
) -> Result<(), Failure<Refusal>>
    ensures ok { OnOk result (constraint dialect end lexemes.now definition.old ≡ Ok definition.new) }
    ensures err { IfErr result (λ failure. Fails failure (constraint dialect end lexemes.now definition.old)) }
{
    let [first, ..] = lexemes else {
        return Ok(());
    };
    if is_like(dialect, first) {
        return Err(refused(Reason::ExpectedName, first.place()));
    }
    key_constraint(alloc, dialect, end, lexemes, definition)
}

/// Reads PRIMARY KEY or UNIQUE with a list; anything else is passed over.
pub fn key_constraint(
    alloc: Global,
    dialect: Dialect,
    end: usize,
    lexemes: &[Lexeme<'_>],
    definition: &mut Definition,
) -> Result<(), Failure<Refusal>>
    ensures ok { OnOk result (key_constraint dialect end lexemes.now definition.old ≡ Ok definition.new) }
    ensures err { IfErr result (λ failure. Fails failure (key_constraint dialect end lexemes.now definition.old)) }
{
    let [first, rest @ ..] = lexemes else {
        return Ok(());
    };
    if is_word(first, b"primary") {
        primary_key(alloc, dialect, end, first.place(), rest, definition)
    } else if is_word(first, b"unique") {
        key_by_list(
            alloc,
            dialect,
            end,
            unique_kind(rest),
            first.place(),
            past_nulls(rest),
            definition,
        )
    } else {
        Ok(())
    }
}

// Reads what follows the word PRIMARY, which stands at this place.
fn primary_key(
    alloc: Global,
    dialect: Dialect,
    end: usize,
    place: usize,
    lexemes: &[Lexeme<'_>],
    definition: &mut Definition,
) -> Result<(), Failure<Refusal>>
    ensures ok { OnOk result (primary_key dialect end place lexemes.now definition.old ≡ Ok definition.new) }
    ensures err { IfErr result (λ failure. Fails failure (primary_key dialect end place lexemes.now definition.old)) }
{
    let [first, rest @ ..] = lexemes else {
        return Err(refused(Reason::ExpectedKey, end));
    };
    if !is_word(first, b"key") {
        return Err(refused(Reason::ExpectedKey, first.place()));
    }
    key_by_list(
        alloc,
        dialect,
        end,
        KeyKind::Primary,
        place,
        rest,
        definition,
    )
}

// Reads a key by its list: one in which an expression stands is passed over.
fn key_by_list(
    alloc: Global,
    dialect: Dialect,
    end: usize,
    kind: KeyKind,
    place: usize,
    lexemes: &[Lexeme<'_>],
    definition: &mut Definition,
) -> Result<(), Failure<Refusal>>
    ensures ok { OnOk result
        (key_by_list dialect end kind place lexemes.now definition.old ≡ Ok definition.new) }
    ensures err { IfErr result (λ failure.
        Fails failure (key_by_list dialect end kind place lexemes.now definition.old)) }
{
    let parts = match read_list(alloc, dialect, end, lexemes) {
        Ok(parts) => parts,
        Err(failure) => return Err(failure),
    };
    if lists_columns(lexemes) {
        definition.state_key(kind, place, parts)
    } else {
        Ok(())
    }
}

/// What UNIQUE states, by what follows it.
pub fn unique_kind(lexemes: &[Lexeme<'_>]) -> KeyKind
    ensures exact { result ≡ unique_kind lexemes.now }
{
    if begins_not_distinct(lexemes) {
        KeyKind::UniqueMissing
    } else {
        KeyKind::Unique
    }
}

/// Whether NULLS NOT DISTINCT stands at the front.
pub fn begins_not_distinct(lexemes: &[Lexeme<'_>]) -> bool
    ensures exact { result ≡ begins_not_distinct lexemes.now }
{
    match lexemes {
        [first, second, rest @ ..] => {
            is_word(first, b"nulls") && is_word(second, b"not") && begins_with(rest, b"distinct")
        }
        _ => false,
    }
}

// NULLS DISTINCT or NULLS NOT DISTINCT is left off.
fn past_nulls<'s, 'a>(lexemes: &'s [Lexeme<'a>]) -> &'s [Lexeme<'a>]
    ensures rest { result.now ≡ past_nulls lexemes.now }
{
    let [first, second, rest @ ..] = lexemes else {
        return lexemes;
    };
    if is_word(first, b"nulls") && is_word(second, b"distinct") {
        return rest;
    }
    if is_word(first, b"nulls") && is_word(second, b"not") && begins_with(rest, b"distinct") {
        return rest.split_at(1).1;
    }
    lexemes
}
