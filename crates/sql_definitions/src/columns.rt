//! The columns of a table.

ghost use Rattle.std.specs.Prelude.{◌≡◌, ◌≤◌, ◌∷◌, [], length, IfErr, IfOk, IsTrue, Ok, OnOk, Some};
ghost use Rattle.schema_model.specs.Columns.{is_column_type};
ghost use Rattle.schema_model.specs.Names.{IsName};
ghost use Rattle.std.specs.List.{list_any};
ghost use Rattle.sql_definitions.specs.Facts.{Fails};
ghost use Rattle.sql_definitions.specs.Elements.{column, column_keys, column_of, ending_words, ends_type, has_column_named, key_at, named_column, says_not_null, type_length};
ghost use Rattle.sql_definitions.specs.Lists.{is_one_of};

use crate::definition::{Column, Definition, KeyKind, Part};
use crate::elements::unique_kind;
use crate::lists::{name_of, refused};
use crate::names::{is_name, name_of_lexeme};
use crate::refusal::{Reason, Refusal};
use crate::types::{column_type, is_outside, is_serial, type_text};
use attr_sets::MOST_ATTRIBUTES;
use dep_model::{Failure, OutOfMemory};
use schema_model::Name;
use sql_lexemes::{Dialect, Lexeme, begins_with, is_word};
use std::alloc::Global;

/// Reads a column: the lexeme of its name, and what follows.
pub fn column(
    alloc: Global,
    dialect: Dialect,
    lexeme: &Lexeme<'_>,
    rest: &[Lexeme<'_>],
    definition: &mut Definition,
) -> Result<(), Failure<Refusal>>
    ensures ok { OnOk result (column dialect lexeme.now rest.now definition.old ≡ Ok definition.new) }
    ensures err { IfErr result (λ failure. Fails failure (column dialect lexeme.now rest.now definition.old)) }
{
    if !is_name(lexeme) {
        return Err(refused(Reason::ExpectedName, lexeme.place()));
    }
    let text = name_of_lexeme(alloc, dialect, lexeme)?;
    let Some(name) = name_of(&text) else {
        return Err(refused(Reason::BadName, lexeme.place()));
    };
    named_column(alloc, dialect, lexeme.place(), name, rest, definition)
}

// Reads a column of this name, which stands at this place.
fn named_column(
    alloc: Global,
    dialect: Dialect,
    place: usize,
    name: Name,
    rest: &[Lexeme<'_>],
    definition: &mut Definition,
) -> Result<(), Failure<Refusal>>
    ensures ok { OnOk result
        (named_column dialect place rest.now definition.old (Some name) ≡ Ok definition.new) }
    ensures err { IfErr result (λ failure.
        Fails failure (named_column dialect place rest.now definition.old (Some name))) }
{
    if has_column_named(definition.columns(), &name) {
        return Err(refused(Reason::NameDeclaredTwice, place));
    }
    if definition.columns().len() >= MOST_ATTRIBUTES as usize {
        return Err(refused(Reason::TooManyAttributes, place));
    }
    let (own, after) = rest.split_at(type_length(rest));
    let column = column_of(alloc, dialect, name, own, after)?;
    definition.add_column(column)?;
    column_keys(alloc, place, name, after, definition)
}

// Whether an earlier column has this name.
fn has_column_named(columns: &[Column], name: &Name) -> bool
    ensures taken { result ≡ has_column_named columns.now name.now }
{
    columns.iter().any(|column| column.name().is_same(name))
}

// How many lexemes the type has at the front.
fn type_length(lexemes: &[Lexeme<'_>]) -> usize
    ensures length { result ≡ type_length lexemes.now }
    ensures within { result ≤ length lexemes.now }
{
    lexemes
        .iter()
        .take_while(|lexeme| !ends_type(*lexeme))
        .count()
}

fn ends_type(lexeme: &Lexeme<'_>) -> bool
    ensures exact { result ≡ ends_type lexeme.now }
{
    is_outside(lexeme) && ends_type_word(lexeme)
}

fn ends_type_word(lexeme: &Lexeme<'_>) -> bool
    ensures exact { result ≡ is_one_of ending_words lexeme.now }
{
    is_word(lexeme, b"constraint")
        || is_word(lexeme, b"not")
        || is_word(lexeme, b"null")
        || is_word(lexeme, b"primary")
        || is_word(lexeme, b"unique")
        || is_word(lexeme, b"default")
        || is_word(lexeme, b"check")
        || is_word(lexeme, b"collate")
        || is_word(lexeme, b"references")
        || is_word(lexeme, b"generated")
        || is_word(lexeme, b"as")
}

// The column of this name, of the lexemes of its type and of what follows.
fn column_of(
    alloc: Global,
    dialect: Dialect,
    name: Name,
    own: &[Lexeme<'_>],
    after: &[Lexeme<'_>],
) -> Result<Column, OutOfMemory>
    ensures column { IfOk result (λ column. column ≡ column_of dialect name own.now after.now) }
    ensures kind { IfOk result (λ column. IsTrue (is_column_type column.kind)) }
    ensures name { IfOk result (λ column. IsName column.name) }
{
    let text = type_text(alloc, own)?;
    let kind = column_type(alloc, dialect, own, &text)?;
    let never_missing = is_serial(dialect, &text) || says_not_null(after);
    Ok(Column::new(name, kind, never_missing))
}

// Whether NOT and NULL stand next to each other outside brackets.
#[tactic(auto, unfolding(crate::specs::Elements::says_not_null))]
fn says_not_null(lexemes: &[Lexeme<'_>]) -> bool
    ensures exact { result ≡ says_not_null lexemes.now }
{
    let mut rest = lexemes;
    while let [lexeme, after @ ..] = rest {
        if is_outside(lexeme) && is_word(lexeme, b"not") && begins_with(after, b"null") {
            return true;
        }
        rest = after;
    }
    false
}

// States the keys that a column states of itself.
#[tactic(auto, unfolding(crate::specs::Elements::column_keys))]
fn column_keys(
    alloc: Global,
    place: usize,
    name: Name,
    lexemes: &[Lexeme<'_>],
    definition: &mut Definition,
) -> Result<(), Failure<Refusal>>
    ensures ok { OnOk result (column_keys (record { place = place; name = Some name }) lexemes.now definition.old
        ≡ Ok definition.new) }
    ensures err { IfErr result (λ failure. Fails failure
        (column_keys (record { place = place; name = Some name }) lexemes.now definition.old)) }
{
    let mut rest = lexemes;
    while let [lexeme, after @ ..] = rest {
        key_at(alloc, place, name, lexeme, after, definition)?;
        rest = after;
    }
    Ok(())
}

// States the key that a lexeme of a column states, if it states one.
fn key_at(
    alloc: Global,
    place: usize,
    name: Name,
    lexeme: &Lexeme<'_>,
    after: &[Lexeme<'_>],
    definition: &mut Definition,
) -> Result<(), Failure<Refusal>>
    ensures ok { OnOk result (key_at (record { place = place; name = Some name }) lexeme.now after.now definition.old
        ≡ Ok definition.new) }
    ensures err { IfErr result (λ failure. Fails failure
        (key_at (record { place = place; name = Some name }) lexeme.now after.now definition.old)) }
{
    if !is_outside(lexeme) {
        Ok(())
    } else if is_word(lexeme, b"unique") {
        let parts = single(alloc, place, name)?;
        definition.state_key(unique_kind(after), lexeme.place(), parts)
    } else if is_word(lexeme, b"primary") && begins_with(after, b"key") {
        let parts = single(alloc, place, name)?;
        definition.state_key(KeyKind::Primary, lexeme.place(), parts)
    } else {
        Ok(())
    }
}

// A key of one column.
fn single(alloc: Global, place: usize, name: Name) -> Result<Vec<Part>, OutOfMemory>
    ensures parts { IfOk result (λ parts. parts.items ≡ record { place = place; name = Some name } ∷ []) }
{
    let mut parts = Vec::new(alloc);
    parts.push(Part::new(place, Some(name)))?;
    Ok(parts)
}
