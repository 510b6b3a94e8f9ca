ghost use Rattle.std.specs.Prelude.{◌≡◌, ◌<◌, ◌^◌, length, IfOk, IfErr};
ghost use Rattle.schema_model.specs.Schemas.{width_of, LegalFor};
ghost use Rattle.dep_model.specs.Tuples.{IsOver};
ghost use Rattle.desk_tables.specs.Legality.{JudgesRows, OffenceStops, legal_text, offence_text, offences_text};
ghost use Rattle.desk_responses.specs.ResponseValues.{Says};
ghost use Rattle.desk_responses.specs.Responses.{response_value, RespondsAs, ExitsAs};

use byte_texts::{add, add_number};
use dep_model::OutOfMemory;
use desk_responses::{EarlyExit, Response, Status, put_dep, put_line};
use desk_texts::line_of;
use legality::{Offence, offences, offences_of_own_rows};
use row_store::{Hashing, Rows};
use schema_model::Schema;
use std::alloc::Global;

/// Whether rows are legal for a schema. They are let go as soon as their values have numbers, which are much smaller.
pub fn check_rows(
    alloc: Global,
    hashing: Hashing,
    schema: &Schema,
    rows: Rows,
) -> Result<Response, EarlyExit>
    requires over { IsOver (width_of schema.now) rows }
    requires fits_u32 { length rows < 2 ^ 32 }
    ensures response { RespondsAs (JudgesRows schema.now rows) result }
{
    match test_own_rows(alloc, hashing, schema, rows) {
        Ok(()) => {}
        Err(exit) => return Err(exit),
    }
    Ok(legal_response(alloc)?)
}

// The test that rows are legal, of rows that nobody wants any more.
fn test_own_rows(
    alloc: Global,
    hashing: Hashing,
    schema: &Schema,
    rows: Rows,
) -> Result<(), EarlyExit>
    requires over { IsOver (width_of schema.now) rows }
    requires fits_u32 { length rows < 2 ^ 32 }
    ensures ok { IfOk result (λ _. LegalFor schema.now rows) }
    ensures exit { IfErr result (ExitsAs (OffenceStops schema.now rows)) }
{
    let found = offences_of_own_rows(alloc, hashing, &schema.theory(), rows)?;
    if found.is_empty() {
        return Ok(());
    }
    Err(offences_exit(alloc, schema, &found))
}

/// The test that rows are legal.
pub fn test_rows(
    alloc: Global,
    hashing: Hashing,
    schema: &Schema,
    rows: &Rows,
) -> Result<(), EarlyExit>
    requires over { IsOver (width_of schema.now) rows.now }
    requires fits_u32 { length rows.now < 2 ^ 32 }
    ensures ok { IfOk result (λ _. LegalFor schema.now rows.now) }
    ensures exit { IfErr result (ExitsAs (OffenceStops schema.now rows.now)) }
{
    let found = offences(alloc, hashing, &schema.theory(), rows)?;
    if found.is_empty() {
        return Ok(());
    }
    Err(offences_exit(alloc, schema, &found))
}

// Rows break dependencies.
fn offences_exit(alloc: Global, schema: &Schema, found: &[Offence]) -> EarlyExit
    ensures says { ExitsAs (Says Status.No (offences_text schema.now found.now)) result }
{
    EarlyExit::with_text(Status::No, offence_lines(alloc, schema, found))
}

// The rows obey every dependency.
fn legal_response(alloc: Global) -> Result<Response, OutOfMemory>
    ensures says { IfOk result (λ response. Says Status.Yes legal_text (response_value response)) }
{
    Ok(Response::with_text(Status::Yes, line_of(alloc, b"legal", b"", b"")?))
}

fn offence_lines(
    alloc: Global,
    schema: &Schema,
    offences: &[Offence],
) -> Result<Vec<u8>, OutOfMemory>
    ensures text { IfOk result (λ text. text.items ≡ offences_text schema.now offences.now) }
{
    let mut text = Vec::new(alloc);
    for offence in offences {
        add(&mut text, &offence_line(alloc, schema, *offence)?)?;
    }
    Ok(text)
}

fn offence_line(alloc: Global, schema: &Schema, offence: Offence) -> Result<Vec<u8>, OutOfMemory>
    ensures text { IfOk result (λ text. text.items ≡ offence_text schema.now offence) }
{
    let mut text = Vec::new(alloc);
    add(&mut text, b"line ")?;
    put_line(alloc, &mut text, schema, offence.dep as usize)?;
    add(&mut text, b": ")?;
    put_dep(&mut text, schema, offence.dep as usize)?;
    add(&mut text, b" broken by rows ")?;
    add_number(&mut text, alloc, offence.first)?;
    add(&mut text, b" and ")?;
    add_number(&mut text, alloc, offence.second)?;
    add(&mut text, b"\n")?;
    Ok(text)
}
