ghost use Rattle.std.specs.Prelude.{◌≡◌, ◌+◌, ◌<◌, ◌≤◌, ◌^◌, true, length, OnOk, IfOk, IfErr, Ok, Err};
ghost use Rattle.attr_sets.specs.Attributes.{none};
ghost use Rattle.attr_sets.specs.Sets.{attributes};
ghost use Rattle.dep_model.specs.Failures.{RefusesAs};
ghost use Rattle.schema_model.specs.Schemas.{naming_of, names_of, theory_in};
ghost use Rattle.lexer.specs.Lines.{line_texts};
ghost use Rattle.lexer.specs.Tokens.{bytes_of};
ghost use Rattle.tokens.specs.Views.{names_in, rest_of};
ghost use Rattle.schema_grammar.specs.Declarations.{mark_of};
ghost use Rattle.schema_grammar.specs.Refusals.{Refuses, refusal};
ghost use Rattle.plan_grammar.specs.Diagnostics.{RefusesPlan};
ghost use Rattle.plan_grammar.specs.LineTokens.{lex_line};
ghost use Rattle.plan_grammar.specs.Meanings.{MeansPlan};
ghost use Rattle.plan_grammar.specs.Reading.{attribute_of_token, no_scheme, read_opened, read_table, read_table_line, read_table_lines, read_words_rest, table_of};
ghost use Rattle.plan_printer.specs.NamedPlans.{named_schemes, no_tables};
ghost use Rattle.plans.specs.Plans.{IsPlanOver, scheme_sets};
ghost use Rattle.plan_reader.specs.Drafts.{drafted, table_read};

use crate::covering::first_uncovered;
use crate::draft::Draft;
use crate::labels::read_named;
use crate::words::{is_table, line_mode, opens_line};
use attr_sets::{AttrSet, MOST_ATTRIBUTES};
use dep_model::Failure;
use lexer::{Token, TokenKind, Word, cut_line, without_mark};
use plan_grammar::PlanRefusal;
use plan_printer::NamedPlan;
use plans::{MOST_SCHEMES, Plan};
use schema_grammar::{Format, SchemaRefusal, SchemaRefusalKind, What};
use schema_model::{Name, Schema};
use std::alloc::Global;
use tokens::{Cursor, Guide, Names, NextToken, is_reserved_token, look_up};

/// The most bytes of a plan text.
pub const MOST_PLAN_BYTES: usize = 1_048_576;

/// The plan that a text means over the names of a schema, with the names that it gives to tables, or its first
/// diagnostic. A byte-order mark at its very start is skipped.
pub fn read_plan(
    alloc: Global,
    schema: &Schema,
    text: &[u8],
) -> Result<NamedPlan, Failure<PlanRefusal>>
    requires { length text.now ≤ MOST_PLAN_BYTES }
    ensures universe { IfOk result (λ planned. IsPlanOver (theory_in schema.now) planned.plan) }
    ensures ok { IfOk result (λ planned.
        MeansPlan (naming_of schema.now) (names_of schema.now) text.now (named_schemes planned)) }
    ensures beside { IfOk result (λ planned. length planned.names.items ≡ length (scheme_sets planned.plan)) }
    ensures err { IfErr result (RefusesAs (RefusesPlan (naming_of schema.now) (names_of schema.now) text.now)) }
{
    let draft = match read_lines(alloc, schema, without_mark(text)) {
        Ok(draft) => draft,
        Err(failure) => return Err(failure),
    };
    match first_uncovered(schema, &draft.schemes) {
        Some(attribute) => Err(Failure::Refused(PlanRefusal::NotCovered { attribute })),
        None => Ok(NamedPlan {
            plan: Plan::new(&schema.theory(), draft.schemes),
            names: draft.names,
        }),
    }
}

// Reads the lines of a text.
fn read_lines(alloc: Global, schema: &Schema, text: &[u8]) -> Result<Draft, Failure<PlanRefusal>>
    requires { length text.now ≤ MOST_PLAN_BYTES }
    ensures ok { IfOk result (λ draft. read_table_lines (naming_of schema.now) (names_of schema.now) 1 no_tables
        (line_texts text.now)
        ≡ Ok (drafted draft)) }
    ensures err { IfErr result (λ failure. Refuses failure
        (read_table_lines (naming_of schema.now) (names_of schema.now) 1 no_tables (line_texts text.now))) }
{
    let guide = Guide::of(schema);
    let names = Names::Guided(schema, &guide);
    let mut draft = Draft::new(alloc);
    let mut number = 1;
    let mut rest = text;
    'lines: loop {
        let (line, after) = cut_line(rest);
        match read_line(schema, &names, number, line, &mut draft) {
            Err(failure) => return Err(failure),
            Ok(()) => match after {
                None => return Ok(draft),
                Some(lines) => {
                    rest = lines;
                    number += 1;
                }
            },
        }
    }
}

// Reads a line, and adds its table if it has tokens.
fn read_line(
    schema: &Schema,
    names: &Names<'_>,
    number: u32,
    line: &[u8],
    draft: &mut Draft,
) -> Result<(), Failure<PlanRefusal>>
    requires within_limit { length (names_in names.now) ≤ MOST_ATTRIBUTES }
    requires fits_u32 { 1 + length line.now < 2 ^ 32 }
    ensures ok { OnOk result (read_table_line (names_in names.now) number (drafted draft.old)
        (lex_line (naming_of schema.now) line.now).marks (lex_line (naming_of schema.now) line.now).stop
        ≡ Ok (drafted draft.new)) }
    ensures err { IfErr result (λ failure. Refuses failure (read_table_line (names_in names.now) number
        (drafted draft.old) (lex_line (naming_of schema.now) line.now).marks
        (lex_line (naming_of schema.now) line.now).stop)) }
{
    let start = Cursor::start(number, line_mode(schema.naming(), line), line);
    match start.next() {
        NextToken::End => Ok(()),
        NextToken::Refusal(refusal) => Err(Failure::Refused(PlanRefusal::Text(refusal))),
        NextToken::Token(token, word, rest) => {
            match read_table(names, &draft.names, token, &word, rest) {
                Err(refusal) => Err(Failure::Refused(refusal)),
                Ok((name, scheme)) => Ok(draft.add(name, scheme)?),
            }
        }
    }
}

// The table of a line of which the first token is taken, where earlier lines give these names.
fn read_table(
    names: &Names<'_>,
    earlier: &[Option<Name>],
    token: Token,
    word: &Word<'_>,
    rest: Cursor<'_>,
) -> Result<(Option<Name>, AttrSet), PlanRefusal>
    requires within_limit { length (names_in names.now) ≤ MOST_ATTRIBUTES }
    ensures ok { IfOk result (λ table. read_table (names_in names.now) earlier.now
        (mark_of token (bytes_of word.now)) (rest_of rest.entry) ≡ Ok (table_read table.0 table.1)) }
    ensures err { IfErr result (λ refusal. read_table (names_in names.now) earlier.now
        (mark_of token (bytes_of word.now)) (rest_of rest.entry) ≡ Err refusal) }
{
    if !opens_line(token.kind, word) {
        return Err(refusal_of_token(rest.line(), token, no_scheme(token.kind, word)));
    }
    if earlier.len() >= MOST_SCHEMES {
        return Err(PlanRefusal::TooManySchemes { line: rest.line() });
    }
    read_opened(names, earlier, is_table(token.kind, word), rest)
}

// What stands after the first token, by whether it is the word `table`.
fn read_opened(
    names: &Names<'_>,
    earlier: &[Option<Name>],
    is_named: bool,
    rest: Cursor<'_>,
) -> Result<(Option<Name>, AttrSet), PlanRefusal>
    requires within_limit { length (names_in names.now) ≤ MOST_ATTRIBUTES }
    ensures ok { IfOk result (λ table. read_opened is_named (names_in names.now) earlier.now (rest_of rest.entry)
        ≡ Ok (table_read table.0 table.1)) }
    ensures err { IfErr result (λ refusal. read_opened is_named (names_in names.now) earlier.now
        (rest_of rest.entry) ≡ Err refusal) }
{
    if is_named {
        read_named(names, earlier, rest)
    } else {
        read_attributes(names, None, rest)
    }
}

/// The attributes of a table of this name, if it has one.
pub fn read_attributes(
    names: &Names<'_>,
    name: Option<Name>,
    rest: Cursor<'_>,
) -> Result<(Option<Name>, AttrSet), PlanRefusal>
    requires within_limit { length (names_in names.now) ≤ MOST_ATTRIBUTES }
    ensures ok { IfOk result (λ table. table_of name (read_words_rest (names_in names.now) true none
        (rest_of rest.entry)) ≡ Ok (table_read table.0 table.1)) }
    ensures err { IfErr result (λ refusal. table_of name (read_words_rest (names_in names.now) true none
        (rest_of rest.entry)) ≡ Err refusal) }
{
    match read_words(names, rest) {
        Ok(scheme) => Ok((name, scheme)),
        Err(refusal) => Err(refusal),
    }
}

// Why a line can't begin with a token.
fn no_scheme(kind: TokenKind, word: &Word<'_>) -> SchemaRefusalKind
    ensures exact { result ≡ no_scheme kind (bytes_of word.now) }
{
    if is_reserved_token(Format::Plain, kind, word.bytes().as_slice()) {
        SchemaRefusalKind::ReservedName
    } else {
        SchemaRefusalKind::Expected(What::Scheme)
    }
}

// The attributes that the tokens stand for.
fn read_words(names: &Names<'_>, start: Cursor<'_>) -> Result<AttrSet, PlanRefusal>
    requires within_limit { length (names_in names.now) ≤ MOST_ATTRIBUTES }
    ensures ok { IfOk result (λ scheme. read_words_rest (names_in names.now) true none
        (rest_of start.entry) ≡ Ok (attributes scheme)) }
    ensures err { IfErr result (λ refusal. read_words_rest (names_in names.now) true none
        (rest_of start.entry) ≡ Err refusal) }
{
    let mut set = AttrSet::empty();
    let mut first = true;
    let mut rest = start;
    'words: loop {
        match rest.next() {
            NextToken::End => {
                return if first {
                    Err(PlanRefusal::EmptyScheme { line: rest.line() })
                } else {
                    Ok(set)
                };
            }
            NextToken::Refusal(refusal) => return Err(PlanRefusal::Text(refusal)),
            NextToken::Token(token, word, after) => {
                match attribute_of_token(names, rest.line(), first, token, &word) {
                    Err(refusal) => return Err(refusal),
                    Ok(attribute) => {
                        set = set.with(attribute);
                        first = false;
                        rest = after;
                    }
                }
            }
        }
    }
}

// The attribute that a token stands for; `first` is whether it is the first of the attributes.
fn attribute_of_token(
    names: &Names<'_>,
    line: u32,
    first: bool,
    token: Token,
    word: &Word<'_>,
) -> Result<u8, PlanRefusal>
    requires within_limit { length (names_in names.now) ≤ MOST_ATTRIBUTES }
    ensures ok { IfOk result (λ attribute.
        attribute_of_token (names_in names.now) line first (mark_of token (bytes_of word.now)) token.kind
        ≡ Ok attribute) }
    ensures inside { IfOk result (λ attribute. attribute < length (names_in names.now)) }
    ensures err { IfErr result (λ refusal.
        attribute_of_token (names_in names.now) line first (mark_of token (bytes_of word.now)) token.kind
        ≡ Err refusal) }
{
    match token.kind {
        TokenKind::Identifier | TokenKind::Quoted => match look_up(
            names,
            Format::Plain,
            token.kind,
            word,
        ) {
            Ok(attribute) => Ok(attribute),
            Err(kind) => Err(refusal_of_token(line, token, kind)),
        },
        TokenKind::Empty => {
            if first {
                Err(PlanRefusal::EmptyScheme { line })
            } else {
                let kind = SchemaRefusalKind::Expected(What::LineEnd);
                Err(refusal_of_token(line, token, kind))
            }
        }
        _ => {
            let want = if first { What::Name } else { What::LineEnd };
            Err(refusal_of_token(line, token, SchemaRefusalKind::Expected(want)))
        }
    }
}

/// The refusal of a token.
pub fn refusal_of_token(line: u32, token: Token, kind: SchemaRefusalKind) -> PlanRefusal
    ensures refusal { result ≡ PlanRefusal.Text (refusal line token.column token.length kind) }
{
    PlanRefusal::Text(SchemaRefusal::at(line, token.column, token.length, kind))
}
