ghost use Rattle.std.specs.Prelude.{◌≡◌, ◌<◌, ◌^◌, ◌++◌, [], length, if◌then◌else◌, IfOk, OnOk};
ghost use Rattle.armstrong_rel.specs.Refusals.{IsFunctional};
ghost use Rattle.csv_text.specs.Rows.{csv_row, rows_text};
ghost use Rattle.schema_model.specs.Schemas.{names_of, width_of, theory_in};
ghost use Rattle.dep_model.specs.Tuples.{IsOver, Relation};
ghost use Rattle.legality.specs.Parts.{flag_at};
ghost use Rattle.removal_laws.specs.Removals.{rows_at};
ghost use Rattle.row_store.specs.Rows.{row_at};
ghost use Rattle.desk_responses.specs.ResponseValues.{Says};
ghost use Rattle.desk_responses.specs.Responses.{response_value, RespondsAs};
ghost use Rattle.desk_measures.specs.Keeping.{AreKeptRows, KeepsRows};

use crate::fields::{push_names, value_of};
use armstrong_rel::first_mvd;
use csv_text::add_row;
use dep_model::OutOfMemory;
use desk_responses::{EarlyExit, Response, Status, multivalued_exit};
use row_groups::Interned;
use row_measures::kept_rows;
use row_store::{FlatValues, Hashing, Rows};
use schema_model::Schema;
use std::alloc::Global;

/// The rows that no dependency removes, which are legal, where all dependencies are functional.
pub fn keep_rows(
    alloc: Global,
    hashing: Hashing,
    schema: &Schema,
    rows: &Rows,
) -> Result<Response, EarlyExit>
    requires over { IsOver (width_of schema.now) rows.now }
    requires fits_u32 { length rows.now < 2 ^ 32 }
    ensures response { RespondsAs (KeepsRows schema.now rows.now) result }
{
    match first_mvd(schema.deps()) {
        Some(k) => Err(multivalued_exit(alloc, schema, k as u16)),
        None => Ok(kept_response(alloc, hashing, schema, rows)?),
    }
}

fn kept_response(
    alloc: Global,
    hashing: Hashing,
    schema: &Schema,
    rows: &Rows,
) -> Result<Response, OutOfMemory>
    requires over { IsOver (width_of schema.now) rows.now }
    requires fits_u32 { length rows.now < 2 ^ 32 }
    requires functional { IsFunctional (theory_in schema.now) }
    ensures response { IfOk result (λ response. (kept : Relation)
        × AreKeptRows schema.now rows.now kept
        × Says Status.Yes (rows_text (names_of schema.now) kept) (response_value response)) }
{
    let codes = Interned::intern(alloc, hashing, schema.width(), rows)?;
    let kept = kept_rows(alloc, rows, schema.width(), &codes, schema.deps())?;
    let text = kept_text(alloc, schema, rows, &kept)?;
    Ok(Response::with_text(Status::Yes, text))
}

// A header of the declared names, and then the rows that have a flag, in their order.
#[tactic(auto, using(crate::proofs::KeepingLemmas::text_steps))]
fn kept_text(
    alloc: Global,
    schema: &Schema,
    rows: &Rows,
    kept: &[bool],
) -> Result<Vec<u8>, OutOfMemory>
    requires one_each { length kept.now ≡ length rows.now }
    ensures text { IfOk result (λ text. text.items
        ≡ rows_text (names_of schema.now) (rows_at (flag_at kept.now) rows.now)) }
{
    let mut fields = FlatValues::new(alloc);
    let mut text = Vec::new(alloc);
    push_names(&mut fields, schema)?;
    add_row(&mut text, &fields)?;
    for row in 0..rows.len() {
        put_kept(&mut text, &mut fields, rows, row, kept[row])?;
    }
    Ok(text)
}

// The line of a row, where it is kept.
fn put_kept(
    text: &mut Vec<u8>,
    fields: &mut FlatValues,
    rows: &Rows,
    row: usize,
    is_kept: bool,
) -> Result<(), OutOfMemory>
    requires row { row < length rows.now }
    ensures added { OnOk result (text.new.items ≡ text.old.items
        ++ (if is_kept then csv_row (row_at rows.now row) else [])) }
{
    if is_kept {
        take_values(fields, rows, row)?;
        add_row(text, fields)?;
    }
    Ok(())
}

// The fields become the values of a row.
#[tactic(auto, using(dep_model::proofs::ListLemmas::take_next))]
fn take_values(fields: &mut FlatValues, rows: &Rows, row: usize) -> Result<(), OutOfMemory>
    requires row { row < length rows.now }
    ensures values { OnOk result (fields.new ≡ row_at rows.now row) }
{
    fields.clear();
    for i in 0..rows.width(row) {
        fields.push(value_of(rows, row, i))?;
    }
    Ok(())
}
