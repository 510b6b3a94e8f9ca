ghost use Rattle.std.specs.Prelude.{◌≡◌, ◌<◌, ◌^◌, length, Err, IfErr, IfOk, Ok, OnOk};
ghost use Rattle.sql_lexemes.specs.Statements.{statement_value};
ghost use Rattle.sql_definitions.specs.Definitions.{definition_of, reason_of, read_statement};
ghost use Rattle.sql_definitions.specs.Facts.{Fails};
ghost use Rattle.sql_definitions.specs.Tables.{read_lexemes};

use crate::changes::{after_alter, alter_table, index_statement};
use crate::definition::Definition;
use crate::lists::refused;
use crate::refusal::{Reason, Refusal};
use crate::tables::{after_create, create_table};
use crate::wanted::{Wanted, from, is_meant, name_length};
use dep_model::Failure;
use sql_lexemes::{Before, Dialect, Flaw, Lexeme, Rest, Statement, cut_statement};
use std::alloc::Global;

/// What the SQL of a text says of the table that is wanted.
pub fn read_definition(
    alloc: Global,
    dialect: Dialect,
    wanted: &Wanted<'_>,
    text: &[u8],
) -> Result<Definition, Failure<Refusal>>
    requires { length text.now < 2 ^ 63 }
    ensures ok { IfOk result (λ definition. definition_of dialect wanted.now text.now ≡ Ok definition) }
    ensures any_column { IfOk result (λ definition. 0 < length definition.columns) }
    ensures err { IfErr result (λ failure. Fails failure (definition_of dialect wanted.now text.now)) }
{
    let mut definition = Definition::new(alloc);
    let mut rest = Some(Rest {
        before: Before::LineStart,
        place: 0,
        text,
    });
    'statements: while let Some(left) = rest {
        let cut = cut_statement(alloc, dialect, left)?;
        match read_statement(alloc, dialect, wanted, &cut.statement, &mut definition) {
            Ok(()) => {}
            Err(failure) => return Err(failure),
        }
        rest = cut.rest;
    }
    if definition.columns().is_empty() {
        Err(refused(Reason::NoSuchTable, 0))
    } else {
        Ok(definition)
    }
}

// Reads a statement.
fn read_statement(
    alloc: Global,
    dialect: Dialect,
    wanted: &Wanted<'_>,
    statement: &Statement<'_>,
    definition: &mut Definition,
) -> Result<(), Failure<Refusal>>
    ensures ok { OnOk result (read_statement dialect wanted.now (statement_value statement.now) definition.old
        ≡ Ok definition.new) }
    ensures err { IfErr result (λ failure.
        Fails failure (read_statement dialect wanted.now (statement_value statement.now) definition.old)) }
{
    let read = read_lexemes(
        alloc,
        dialect,
        wanted,
        statement.end,
        &statement.lexemes,
        definition,
    );
    let Some(flaw) = statement.flaw else {
        return read;
    };
    match read {
        Ok(()) => Err(refused(reason_of(flaw), statement.end)),
        Err(Failure::OutOfMemory) => Err(Failure::OutOfMemory),
        Err(Failure::Refused(refusal)) => {
            if refusal.place < statement.end {
                Err(Failure::Refused(refusal))
            } else {
                Err(refused(reason_of(flaw), statement.end))
            }
        }
    }
}

fn reason_of(flaw: Flaw) -> Reason
    ensures exact { result ≡ reason_of flaw }
{
    match flaw {
        Flaw::StrangeByte => Reason::StrangeByte,
        Flaw::OpenQuote => Reason::OpenQuote,
        Flaw::OpenComment => Reason::OpenComment,
    }
}

// Reads a statement of these lexemes, which ends at this place.
#[tactic(auto, unfolding(crate::specs::Tables::read_lexemes))]
fn read_lexemes(
    alloc: Global,
    dialect: Dialect,
    wanted: &Wanted<'_>,
    end: usize,
    lexemes: &[Lexeme<'_>],
    definition: &mut Definition,
) -> Result<(), Failure<Refusal>>
    ensures ok { OnOk result (read_lexemes dialect wanted.now end lexemes.now definition.old ≡ Ok definition.new) }
    ensures err { IfErr result (λ failure.
        Fails failure (read_lexemes dialect wanted.now end lexemes.now definition.old)) }
{
    if let Some(table) = after_create(lexemes) {
        if !is_meant(alloc, dialect, wanted, table)? {
            return Ok(());
        }
        return create_table(alloc, dialect, end, table, definition);
    }
    let Some(table) = after_alter(lexemes) else {
        return index_statement(alloc, dialect, wanted, end, lexemes, definition);
    };
    if !is_meant(alloc, dialect, wanted, table)? {
        return Ok(());
    }
    let rest = from(table, name_length(table));
    alter_table(alloc, dialect, end, rest, definition)
}
