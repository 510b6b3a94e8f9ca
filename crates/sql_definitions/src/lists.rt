//! Lists of columns in brackets, and which of their parts are columns.

ghost use Rattle.std.specs.Prelude.{◌≡◌, ◌≤◌, ◌||◌, [], true, length, IfOk, IfErr, Ok};
ghost use Rattle.schema_model.specs.Names.{IsName};
ghost use Rattle.sql_definitions.specs.Facts.{Fails};
ghost use Rattle.sql_definitions.specs.Lists.{are_columns, closes_list, ends_column, is_one_of, list_parts, lists_columns, name_of, order_words, part_length, part_of, parts_list, past_class, past_collation, past_direction, past_nulls_order, read_list};

use crate::definition::Part;
use crate::names::{is_name, name_of_lexeme};
use crate::refusal::{Reason, Refusal};
use crate::wanted::{from, name_length};
use dep_model::{Failure, OutOfMemory};
use schema_model::Name;
use sql_lexemes::{Dialect, Lexeme, is_mark, is_word};
use std::alloc::Global;

/// The columns of a list. The statement ends at this place.
pub fn read_list(
    alloc: Global,
    dialect: Dialect,
    end: usize,
    lexemes: &[Lexeme<'_>],
) -> Result<Vec<Part>, Failure<Refusal>>
    ensures ok { IfOk result (λ parts. read_list dialect end lexemes.now ≡ Ok parts.items) }
    ensures err { IfErr result (λ failure. Fails failure (read_list dialect end lexemes.now)) }
{
    match lexemes {
        [] => Err(refused(Reason::ExpectedBracket, end)),
        [open, rest @ ..] => {
            if is_mark(open, b'(') {
                list_parts(alloc, dialect, end, open.depth(), rest)
            } else {
                Err(refused(Reason::ExpectedBracket, open.place()))
            }
        }
    }
}

/// A refusal at a place.
pub fn refused(reason: Reason, place: usize) -> Failure<Refusal>
    ensures refused { result ≡ Failure.Refused (record { reason = reason; place = place }) }
{
    Failure::Refused(Refusal { reason, place })
}

/// The columns of a list after its bracket, which stands in so many brackets.
#[tactic(auto, unfolding(crate::specs::Lists::list_parts))]
pub fn list_parts(
    alloc: Global,
    dialect: Dialect,
    end: usize,
    depth: usize,
    lexemes: &[Lexeme<'_>],
) -> Result<Vec<Part>, Failure<Refusal>>
    ensures ok { IfOk result (λ parts.
        list_parts dialect end depth true [] lexemes.now ≡ Ok parts.items) }
    ensures err { IfErr result (λ failure.
        Fails failure (list_parts dialect end depth true [] lexemes.now)) }
{
    let mut parts = Vec::new(alloc);
    let mut begins = true;
    let mut rest = lexemes;
    while let [lexeme, after @ ..] = rest {
        if begins {
            if !is_name(lexeme) {
                return Err(refused(Reason::ExpectedName, lexeme.place()));
            }
            parts.push(part_of(alloc, dialect, lexeme)?)?;
            begins = false;
        } else {
            if closes_list(depth, lexeme) {
                return Ok(parts);
            }
            begins = parts_list(depth, lexeme);
        }
        rest = after;
    }
    if begins {
        Err(refused(Reason::ExpectedName, end))
    } else {
        Err(refused(Reason::ExpectedCommaOrBracket, end))
    }
}

// The column that a lexeme names.
fn part_of(alloc: Global, dialect: Dialect, lexeme: &Lexeme<'_>) -> Result<Part, OutOfMemory>
    ensures part { IfOk result (λ part. part ≡ part_of dialect lexeme.now) }
{
    let text = name_of_lexeme(alloc, dialect, lexeme)?;
    Ok(Part::new(lexeme.place(), name_of(&text)))
}

/// Bytes, where they are the name of an attribute.
pub fn name_of(bytes: &[u8]) -> Option<Name>
    ensures name { result ≡ name_of bytes.now }
{
    Name::new(bytes)
}

/// Whether a lexeme is the bracket that closes a list, whose own bracket stands in so many.
pub fn closes_list(depth: usize, lexeme: &Lexeme<'_>) -> bool
    ensures exact { result ≡ closes_list depth lexeme.now }
{
    is_mark(lexeme, b')') && lexeme.depth() == depth
}

// Whether a lexeme is a comma between two parts of such a list.
fn parts_list(depth: usize, lexeme: &Lexeme<'_>) -> bool
    ensures exact { result ≡ parts_list depth lexeme.now }
{
    is_mark(lexeme, b',') && lexeme.depth() > 0 && lexeme.depth() - 1 == depth
}

/// Whether each part of a list, whose bracket is at the front, is a column and no expression.
pub fn lists_columns(lexemes: &[Lexeme<'_>]) -> bool
    ensures exact { result ≡ lists_columns lexemes.now }
{
    match lexemes {
        [] => false,
        [open, rest @ ..] => are_columns(open.depth(), rest),
    }
}

/// Whether each part of a list is a column, after its bracket, which stands in so many.
#[tactic(auto, unfolding(crate::specs::Lists::are_columns))]
pub fn are_columns(depth: usize, lexemes: &[Lexeme<'_>]) -> bool
    ensures exact { result ≡ are_columns depth true lexemes.now }
{
    let mut begins = true;
    let mut rest = lexemes;
    while let [lexeme, after @ ..] = rest {
        if begins {
            if !is_name(lexeme) || !ends_column(after.split_at(part_length(depth, after)).0) {
                return false;
            }
            begins = false;
        } else {
            if closes_list(depth, lexeme) {
                return true;
            }
            begins = parts_list(depth, lexeme);
        }
        rest = after;
    }
    !begins
}

// How many lexemes stand before the end of a part.
fn part_length(depth: usize, lexemes: &[Lexeme<'_>]) -> usize
    ensures length { result ≡ part_length depth lexemes.now }
    ensures within { result ≤ length lexemes.now }
{
    lexemes
        .iter()
        .take_while(|lexeme| !ends_part(depth, *lexeme))
        .count()
}

fn ends_part(depth: usize, lexeme: &Lexeme<'_>) -> bool
    ensures exact { result ≡ (parts_list depth lexeme.now || closes_list depth lexeme.now) }
{
    parts_list(depth, lexeme) || closes_list(depth, lexeme)
}

// Whether the name of a column is followed by nothing else than what may follow it.
fn ends_column(lexemes: &[Lexeme<'_>]) -> bool
    ensures exact { result ≡ ends_column lexemes.now }
{
    past_nulls_order(past_direction(past_class(past_collation(lexemes)))).is_empty()
}

// COLLATE and a name are left off.
fn past_collation<'s, 'a>(lexemes: &'s [Lexeme<'a>]) -> &'s [Lexeme<'a>]
    ensures rest { result.now ≡ past_collation lexemes.now }
{
    let [first, rest @ ..] = lexemes else {
        return lexemes;
    };
    let [second, ..] = rest else {
        return lexemes;
    };
    if is_word(first, b"collate") && is_name(second) {
        from(rest, name_length(rest))
    } else {
        lexemes
    }
}

// The name of a class of operators is left off.
fn past_class<'s, 'a>(lexemes: &'s [Lexeme<'a>]) -> &'s [Lexeme<'a>]
    ensures rest { result.now ≡ past_class lexemes.now }
{
    let [first, rest @ ..] = lexemes else {
        return lexemes;
    };
    if is_name(first) && !is_order_word(first) {
        rest
    } else {
        lexemes
    }
}

fn is_order_word(lexeme: &Lexeme<'_>) -> bool
    ensures exact { result ≡ is_one_of order_words lexeme.now }
{
    is_word(lexeme, b"collate")
        || is_word(lexeme, b"asc")
        || is_word(lexeme, b"desc")
        || is_word(lexeme, b"nulls")
}

// ASC or DESC is left off.
fn past_direction<'s, 'a>(lexemes: &'s [Lexeme<'a>]) -> &'s [Lexeme<'a>]
    ensures rest { result.now ≡ past_direction lexemes.now }
{
    let [first, rest @ ..] = lexemes else {
        return lexemes;
    };
    if is_word(first, b"asc") || is_word(first, b"desc") {
        rest
    } else {
        lexemes
    }
}

// NULLS FIRST or NULLS LAST is left off.
fn past_nulls_order<'s, 'a>(lexemes: &'s [Lexeme<'a>]) -> &'s [Lexeme<'a>]
    ensures rest { result.now ≡ past_nulls_order lexemes.now }
{
    let [first, second, rest @ ..] = lexemes else {
        return lexemes;
    };
    if is_word(first, b"nulls") && (is_word(second, b"first") || is_word(second, b"last")) {
        rest
    } else {
        lexemes
    }
}
