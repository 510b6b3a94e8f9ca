ghost use Rattle.std.specs.Prelude.{All, false, ◌≡◌, ◌+◌, ◌<◌, ◌≤◌, ◌^◌, length, OnOk, IfOk, IfErr, Ok, Err};
ghost use Rattle.dep_model.specs.Failures.{RefusesAs};
ghost use Rattle.schema_model.specs.Schemas.{names_of, naming_of, deps_of};
ghost use Rattle.lexer.specs.Tokens.{bytes_of};
ghost use Rattle.schema_grammar.specs.declared.format.TheConstants.{MOST_DEPENDENCY_LINES};
ghost use Rattle.schema_grammar.specs.Words.{is_reserved};
ghost use Rattle.lexer.specs.Lines.{line_texts, lines_after};
ghost use Rattle.tokens.specs.Views.{rest_of};
ghost use Rattle.schema_reader.specs.Views.{declarations_of_draft, AreAtMostAll};
ghost use Rattle.schema_grammar.specs.Refusals.{Refuses};
ghost use Rattle.schema_grammar.specs.Schemas.{MeansSchema, RefusesSchema};
ghost use Rattle.schema_grammar.specs.Texts.{finish, format_of_version, is_version, read_all, read_version, read_versioned, read_opening, declarations_of};

use crate::draft::Draft;
use crate::words::naming_in;
use dep_model::Failure;
use lexer::{Mode, TokenKind, Word, cut_line, without_mark};
use schema_grammar::{FULL_VERSION, Format, SchemaRefusal, SchemaRefusalKind, TYPED_VERSION, What};
use schema_model::{Naming, Schema};
use std::alloc::Global;
use tokens::{Cursor, NextToken, number_in};

/// The most bytes of a schema text.
pub const MOST_TEXT_BYTES: usize = 1_048_576;

/// The schema that a text means, or its first diagnostic. A byte-order mark at its very start is
/// skipped.
pub fn read_schema(alloc: Global, text: &[u8]) -> Result<Schema, Failure<SchemaRefusal>>
    requires { length text.now ≤ MOST_TEXT_BYTES }
    ensures ok { IfOk result (λ schema. MeansSchema text.now (declarations_of schema)) }
    ensures err { IfErr result (RefusesAs (RefusesSchema text.now)) }
    ensures deps { IfOk result (λ schema. length (deps_of schema) ≤ MOST_DEPENDENCY_LINES) }
    ensures not_reserved { IfOk result
        (λ schema. naming_of schema ≡ Naming.Bare
        → All (λ name. is_reserved Format.Plain name ≡ false) (names_of schema)) }
{
    let draft = match read_opening(alloc, without_mark(text)) {
        Ok(draft) => draft,
        Err(failure) => return Err(failure),
    };
    let Draft {
        naming,
        names,
        columns,
        nullable,
        deps,
        lines,
    } = draft;
    Ok(Schema::with_columns(naming, names, columns, nullable, deps, lines))
}

/// Reads a text from its beginning: lines without tokens, and then a version line or any other.
fn read_opening(alloc: Global, text: &[u8]) -> Result<Draft, Failure<SchemaRefusal>>
    requires { length text.now ≤ MOST_TEXT_BYTES }
    ensures ok { IfOk result (λ draft. read_opening 1 (line_texts text.now)
        ≡ Ok (declarations_of_draft draft)) }
    ensures err { IfErr result (λ failure. Refuses failure (read_opening 1 (line_texts text.now))) }
{
    let mut number = 1;
    let mut rest = text;
    'lines: loop {
        let (line, after) = cut_line(rest);
        let start = Cursor::start(number, Mode::numbered(Naming::Bare), line);
        match start.next() {
            NextToken::Refusal(_) => return read_lines(alloc, Format::Plain, number, rest),
            NextToken::Token(token, word, others) => {
                return if is_version(token.kind, &word) {
                    read_versioned(alloc, others, after)
                } else {
                    read_lines(alloc, Format::Plain, number, rest)
                };
            }
            NextToken::End => match after {
                None => return finish(number, Draft::new(alloc, Naming::Bare)),
                Some(lines) => {
                    rest = lines;
                    number += 1;
                }
            },
        }
    }
}

/// Reads a text from after the word `version`, after whose line others may stand.
fn read_versioned(
    alloc: Global,
    version: Cursor<'_>,
    after: Option<&[u8]>,
) -> Result<Draft, Failure<SchemaRefusal>>
    requires lines { AreAtMostAll (rest_of version).line after }
    ensures ok { IfOk result (λ draft. read_versioned (lines_after after.entry) (rest_of version.entry)
        ≡ Ok (declarations_of_draft draft)) }
    ensures err { IfErr result (λ failure. Refuses failure
        (read_versioned (lines_after after.entry) (rest_of version.entry))) }
{
    let number = version.line();
    match read_version(version) {
        Err(refusal) => Err(Failure::Refused(refusal)),
        Ok(format) => match after {
            None => finish(number, Draft::new(alloc, naming_in(format))),
            Some(lines) => read_lines(alloc, format, number + 1, lines),
        },
    }
}

/// Reads a line from after the word `version`: the number of a version, and nothing more.
#[tactic(auto, unfolding(schema_grammar::specs::Texts::read_version))]
fn read_version(start: Cursor<'_>) -> Result<Format, SchemaRefusal>
    ensures ok { IfOk result (λ format. read_version (rest_of start.entry) ≡ Ok format) }
    ensures err { IfErr result (λ refusal. read_version (rest_of start.entry) ≡ Err refusal) }
{
    match start.take(What::Number) {
        Err(refusal) => Err(refusal),
        Ok((token, _, rest)) => match number_in(token.kind) {
            None => Err(rest.refusal_of_token(token, What::Number)),
            Some(version) => match format_of_version(version) {
                None => Err(rest.refusal_of(token, SchemaRefusalKind::UnknownVersion)),
                Some(format) => match rest.end() {
                    Ok(()) => Ok(format),
                    Err(refusal) => Err(refusal),
                },
            },
        },
    }
}

/// The format of the texts of a version, where they are read.
fn format_of_version(version: u32) -> Option<Format>
    ensures exact { result ≡ format_of_version version }
{
    if version == TYPED_VERSION {
        Some(Format::Typed)
    } else if version == FULL_VERSION {
        Some(Format::Full)
    } else {
        None
    }
}

/// Whether the first token of a text makes its line a version line.
#[tactic(auto, unfolding(schema_grammar::specs::Texts::is_version))]
fn is_version(kind: TokenKind, word: &Word<'_>) -> bool
    ensures exact { result ≡ is_version kind (bytes_of word.now) }
{
    match kind {
        TokenKind::Identifier => word.bytes().as_slice() == b"version".as_slice(),
        _ => false,
    }
}

/// Reads lines, of which the first has this number, with nothing declared before.
fn read_lines(
    alloc: Global,
    format: Format,
    number: u32,
    text: &[u8],
) -> Result<Draft, Failure<SchemaRefusal>>
    requires { number + length text.now < 2 ^ 31 }
    ensures ok { IfOk result
        (λ draft. read_all format number (line_texts text.now)
        ≡ Ok (declarations_of_draft draft)) }
    ensures err { IfErr result
        (λ failure. Refuses failure (read_all format number (line_texts text.now))) }
{
    let mut draft = Draft::new(alloc, naming_in(format));
    let mut number = number;
    let mut rest = text;
    'lines: loop {
        let (line, after) = cut_line(rest);
        match draft.read_line(format, number, line) {
            Err(failure) => return Err(failure),
            Ok(()) => match after {
                None => return finish(number, draft),
                Some(lines) => {
                    rest = lines;
                    number += 1;
                }
            },
        }
    }
}

/// A text ends with this line; it declares an attribute.
#[tactic(auto, unfolding(schema_grammar::specs::Texts::finish))]
fn finish(last: u32, draft: Draft) -> Result<Draft, Failure<SchemaRefusal>>
    ensures ok { IfOk result (λ whole. finish last (declarations_of_draft draft)
        ≡ Ok (declarations_of_draft whole)) }
    ensures err { IfErr result (λ failure. Refuses failure (finish last
        (declarations_of_draft draft))) }
{
    if draft.names.is_empty() {
        let refusal = SchemaRefusal::at(last, 1, 0, SchemaRefusalKind::NoAttributes);
        Err(Failure::Refused(refusal))
    } else {
        Ok(draft)
    }
}
