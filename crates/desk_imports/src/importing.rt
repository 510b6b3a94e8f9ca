ghost use Rattle.std.specs.Prelude.{◌≡◌, ◌<◌, ◌≤◌, ◌^◌, length, IfErr, IfOk, Ok, Err};
ghost use Rattle.lexer.specs.Lines.{without_mark};
ghost use Rattle.sql_definitions.specs.Facts.{Fails};
ghost use Rattle.sql_schemas.specs.Texts.{imported_text};
ghost use Rattle.desk_imports.specs.Imports.{ImportsTable, import_response};
ghost use Rattle.desk_responses.specs.Responses.{RespondsAs};

use crate::refusals::import_refusal_exit;
use arguments::Argument;
use dep_model::Failure;
use desk_responses::{EarlyExit, Response, Status, bad_table_exit};
use lexer::without_mark;
use sql_definitions::{Refusal, Wanted, read_definition, wanted_table};
use sql_lexemes::Dialect;
use sql_schemas::print_table;
use std::alloc::Global;

/// The schema of the table that a word wants, by the text of a file of this name.
pub fn import_table(
    alloc: Global,
    dialect: Dialect,
    table: &Argument,
    file: &Argument,
    text: Vec<u8>,
) -> Result<Response, EarlyExit>
    requires within_limit { length text.items < 2 ^ 31 }
    ensures response { RespondsAs (ImportsTable dialect table.now file.now text.items) result }
{
    match wanted_table(table.bytes()) {
        Some(wanted) => import_wanted(alloc, dialect, &wanted, file, text_after_mark(&text)),
        None => Err(bad_table_exit(alloc)),
    }
}

// The text without a byte-order mark.
fn text_after_mark(text: &[u8]) -> &[u8]
    ensures text { result.now ≡ without_mark text.now }
    ensures within { length result.now ≤ length text.now }
{
    without_mark(text)
}

// The schema of the table that is wanted.
fn import_wanted(
    alloc: Global,
    dialect: Dialect,
    wanted: &Wanted<'_>,
    file: &Argument,
    text: &[u8],
) -> Result<Response, EarlyExit>
    requires within_limit { length text.now < 2 ^ 31 }
    ensures response { RespondsAs
        (λ response. response ≡ import_response file.now text.now (imported_text dialect wanted.now text.now))
        result }
{
    match imported_text(alloc, dialect, wanted, text) {
        Ok(printed) => Ok(Response::with_text(Status::Yes, printed)),
        Err(Failure::Refused(refusal)) => Err(import_refusal_exit(alloc, file, text, refusal)),
        Err(Failure::OutOfMemory) => Err(EarlyExit::OutOfMemory),
    }
}

// The text of its schema.
fn imported_text(
    alloc: Global,
    dialect: Dialect,
    wanted: &Wanted<'_>,
    text: &[u8],
) -> Result<Vec<u8>, Failure<Refusal>>
    requires within_limit { length text.now < 2 ^ 31 }
    ensures ok { IfOk result (λ printed. imported_text dialect wanted.now text.now ≡ Ok printed.items) }
    ensures err { IfErr result (λ failure. Fails failure (imported_text dialect wanted.now text.now)) }
{
    let definition = read_definition(alloc, dialect, wanted, text)?;
    print_table(alloc, &definition)
}
