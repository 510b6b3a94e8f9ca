ghost use Rattle.std.specs.Prelude.{◌≡◌, ◌<◌, ◌^◌, ◌++◌, length, codes, All, IfOk, OnOk};
ghost use Rattle.std.specs.Fmt.{decimal};
ghost use Rattle.csv_text.specs.Rows.{rows_text};
ghost use Rattle.schema_model.specs.Schemas.{names_of, nullable_of, width_of};
ghost use Rattle.dep_model.specs.Tuples.{IsOver};
ghost use Rattle.schema_printer.specs.Spelling.{printed_names_of};
ghost use Rattle.table_join.specs.RefusalTexts.{join_reason_text};
ghost use Rattle.table_join.specs.Tables.{IsTable, tables_of};
ghost use Rattle.desk_tables.specs.declared.rejoining.TheConstants.{MOST_JOINED_ROWS};
ghost use Rattle.desk_responses.specs.ResponseValues.{Says};
ghost use Rattle.desk_tables.specs.Rejoining.{JoinsAll, JoinsTables, LooksUp, join_refusal_text, joined_tables};
ghost use Rattle.optional_tables.specs.Order.{look_up_order, members_at};
ghost use Rattle.desk_responses.specs.Responses.{response_value, RespondsAs, ExitsAs};

use crate::designing::{design_order, has_look_ups, keyed_parts, numbers_at, parts_at, tables_at};
use byte_texts::{add, add_number};
use csv_rows::{PartialRows, print_rows};
use dep_model::{Failure, OutOfMemory};
use desk_responses::{EarlyExit, Response, Status, put_name};
use optional_tables::{KeyedScheme, always_filled, look_up_order};
use row_store::{Hashing, Rows};
use schema_model::Schema;
use std::alloc::Global;
use table_join::{JoinRefusal, join, join_and_look_up};

/// The most rows of a join.
pub const MOST_JOINED_ROWS: u32 = 10_000_000;

/// The natural join of tables; where they are a readable design that has an optional table, the join of the others, in
/// which the optional ones are looked up.
pub fn rejoin(
    alloc: Global,
    hashing: Hashing,
    schema: &Schema,
    parts: Vec<PartialRows>,
) -> Result<Response, EarlyExit>
    requires fits_u32 { length parts.items < 2 ^ 32 }
    requires tables { All (IsTable (width_of schema.now)) (tables_of parts.items) }
    ensures response { RespondsAs (JoinsTables schema.now (tables_of parts.items)) result }
{
    let keyed = keyed_parts(alloc, schema, &parts)?;
    let order = design_order(alloc, schema, &keyed)?;
    let design = tables_at(alloc, &keyed, &order)?;
    if has_look_ups(schema.nullable(), &design) {
        rejoin_design(alloc, hashing, schema, &parts, &keyed, &order)
    } else {
        rejoin_all(alloc, hashing, schema, parts)
    }
}

// The natural join of tables.
fn rejoin_all(
    alloc: Global,
    hashing: Hashing,
    schema: &Schema,
    parts: Vec<PartialRows>,
) -> Result<Response, EarlyExit>
    requires fits_u32 { length parts.items < 2 ^ 32 }
    requires tables { All (IsTable (width_of schema.now)) (tables_of parts.items) }
    ensures response { RespondsAs (JoinsAll schema.now (tables_of parts.items)) result }
{
    match join(alloc, hashing, schema, parts, MOST_JOINED_ROWS) {
        Ok(rows) => Ok(response_of(alloc, schema, &rows)?),
        Err(Failure::Refused(refusal)) => Err(join_refusal_exit(alloc, schema, refusal)),
        Err(Failure::OutOfMemory) => Err(EarlyExit::OutOfMemory),
    }
}

// The join of the tables of a design that are not optional, in which the others are looked up.
fn rejoin_design(
    alloc: Global,
    hashing: Hashing,
    schema: &Schema,
    parts: &[PartialRows],
    keyed: &[KeyedScheme],
    order: &[usize],
) -> Result<Response, EarlyExit>
    requires tables { All (IsTable (width_of schema.now)) (tables_of parts.now) }
    requires one_each { length keyed.now ≡ length parts.now }
    requires order { All (λ k. k < length parts.now) order.now }
    ensures response { RespondsAs (LooksUp schema.now (joined_tables schema.now (tables_of parts.now) keyed.now)
        (members_at (members_at (tables_of parts.now) order.now)
        (look_up_order (nullable_of schema.now) (members_at keyed.now order.now)))) result }
{
    let filled = always_filled(alloc, schema.nullable(), keyed)?;
    let design = tables_at(alloc, keyed, order)?;
    let looked_up = look_up_order(alloc, schema.nullable(), &design)?;
    let files = numbers_at(alloc, order, &looked_up)?;
    join_files(alloc, hashing, schema, parts, &filled, &files)
}

// The join of parts at some positions, in which those at others are looked up.
fn join_files(
    alloc: Global,
    hashing: Hashing,
    schema: &Schema,
    parts: &[PartialRows],
    filled: &[usize],
    looked_up: &[usize],
) -> Result<Response, EarlyExit>
    requires tables { All (IsTable (width_of schema.now)) (tables_of parts.now) }
    requires filled { All (λ k. k < length parts.now) filled.now }
    requires looked_up { All (λ k. k < length parts.now) looked_up.now }
    ensures response { RespondsAs (LooksUp schema.now (members_at (tables_of parts.now) filled.now)
        (members_at (tables_of parts.now) looked_up.now)) result }
{
    let joined = parts_at(alloc, parts, filled)?;
    let others = parts_at(alloc, parts, looked_up)?;
    match join_and_look_up(alloc, hashing, schema, &joined, &others, MOST_JOINED_ROWS) {
        Ok(rows) => Ok(response_of(alloc, schema, &rows)?),
        Err(Failure::Refused(refusal)) => Err(join_refusal_exit(alloc, schema, refusal)),
        Err(Failure::OutOfMemory) => Err(EarlyExit::OutOfMemory),
    }
}

// Rows as CSV.
fn response_of(alloc: Global, schema: &Schema, rows: &Rows) -> Result<Response, OutOfMemory>
    requires over { IsOver (width_of schema.now) rows.now }
    ensures says { IfOk result
        (λ response. Says Status.Yes (rows_text (names_of schema.now) rows.now)
        (response_value response)) }
{
    Ok(Response::with_text(Status::Yes, print_rows(alloc, schema, rows)?))
}

// A command that ends with the refusal of a join.
fn join_refusal_exit(alloc: Global, schema: &Schema, refusal: JoinRefusal) -> EarlyExit
    ensures says { ExitsAs (Says Status.Refused
        (join_refusal_text (printed_names_of schema.now) refusal)) result }
{
    EarlyExit::with_text(Status::Refused, join_refusal_line(alloc, schema, refusal))
}

// The line that words a refusal of a join.
fn join_refusal_line(
    alloc: Global,
    schema: &Schema,
    refusal: JoinRefusal,
) -> Result<Vec<u8>, OutOfMemory>
    ensures line { IfOk result (λ text. text.items ≡ join_refusal_text (printed_names_of schema.now) refusal) }
{
    let mut text = Vec::new(alloc);
    add(&mut text, b"refused: join ")?;
    add_number(&mut text, alloc, refusal.number())?;
    add(&mut text, b": ")?;
    put_reason(alloc, &mut text, schema, refusal)?;
    add(&mut text, b"\n")?;
    Ok(text)
}

// A refusal in words, at the end of a text.
fn put_reason(
    alloc: Global,
    text: &mut Vec<u8>,
    schema: &Schema,
    refusal: JoinRefusal,
) -> Result<(), OutOfMemory>
    ensures added { OnOk result (text.new.items
        ≡ text.old.items ++ join_reason_text (printed_names_of schema.now) MOST_JOINED_ROWS refusal) }
{
    match refusal {
        JoinRefusal::NotCovered { attribute } => {
            put_name(text, schema, attribute)?;
            add(text, b" is in no file")
        }
        JoinRefusal::TooManyRows { after } => put_too_many(alloc, text, after),
    }
}

// That the join of so many files is too large, at the end of a text.
fn put_too_many(alloc: Global, text: &mut Vec<u8>, after: u32) -> Result<(), OutOfMemory>
    ensures added { OnOk result (text.new.items
        ≡ text.old.items ++ (codes "more than " ++ decimal MOST_JOINED_ROWS ++ codes " rows after file "
        ++ decimal after)) }
{
    let mut reason = Vec::new(alloc);
    add(&mut reason, b"more than ")?;
    add_number(&mut reason, alloc, MOST_JOINED_ROWS)?;
    add(&mut reason, b" rows after file ")?;
    add_number(&mut reason, alloc, after)?;
    add(text, &reason)
}
