ghost use Rattle.std.specs.Prelude.{◌≡◌, ◌≤◌, length, IfOk, IfErr};
ghost use Rattle.dep_model.specs.Plans.{schemes_of};
ghost use Rattle.dep_model.specs.Projections.{Covers};
ghost use Rattle.schema_model.specs.Schemas.{width_of};
ghost use Rattle.dep_model.specs.Tuples.{IsOver};
ghost use Rattle.typed_rows.specs.Typed.{HoldsNumerals};
ghost use Rattle.plans.specs.Plans.{plan_of};
ghost use Rattle.desk_responses.specs.ResponseValues.{Says};
ghost use Rattle.desk_designs.specs.Joins.{IsShownLossless, JudgesJoin, LossStops, lossless_text, lossy_text};
ghost use Rattle.desk_designs.specs.Joins.{too_many_rows_text};
ghost use Rattle.desk_responses.specs.Responses.{response_value, RespondsAs, ExitsAs};

use attr_sets::AttrSet;
use byte_texts::add;
use dep_model::{Failure, OutOfMemory, Row};
use desk_responses::{EarlyExit, Response, Status};
use desk_texts::line_of;
use plans::{MOST_SCHEMES, Plan};
use schema_model::Schema;
use std::alloc::Global;
use tableau_chase::{ChaseRefusal, Chased, chase};
use typed_rows::{print_made_up, print_zeros};

/// The most rows of a tableau.
pub const MOST_TABLEAU_ROWS: u32 = 1_024;

/// Whether a plan loses nothing.
pub fn check_join(alloc: Global, schema: &Schema, plan: &Plan) -> Result<Response, EarlyExit>
    requires within_limit { length (plan_of plan.now) ≤ MOST_SCHEMES }
    requires covers { Covers (width_of schema.now) (plan_of plan.now) }
    ensures response { RespondsAs (JudgesJoin schema.now (plan_of plan.now)) result }
{
    match test_loss(alloc, schema, plan) {
        Ok(()) => {}
        Err(exit) => return Err(exit),
    }
    Ok(lossless_response(alloc)?)
}

/// Whether no legal relation loses by a plan.
pub fn test_loss(alloc: Global, schema: &Schema, plan: &Plan) -> Result<(), EarlyExit>
    requires within_limit { length (plan_of plan.now) ≤ MOST_SCHEMES }
    requires covers { Covers (width_of schema.now) (plan_of plan.now) }
    ensures ok { IfOk result (λ _. IsShownLossless schema.now (plan_of plan.now)) }
    ensures exit { IfErr result (ExitsAs (LossStops schema.now (plan_of plan.now))) }
{
    test_schemes(alloc, schema, plan.schemes())
}

// The same of schemes.
fn test_schemes(alloc: Global, schema: &Schema, schemes: &[AttrSet]) -> Result<(), EarlyExit>
    requires within_limit { length schemes.now ≤ MOST_SCHEMES }
    requires covers { Covers (width_of schema.now) (schemes_of schemes.now) }
    ensures ok { IfOk result (λ _. IsShownLossless schema.now (schemes_of schemes.now)) }
    ensures exit { IfErr result (ExitsAs (LossStops schema.now (schemes_of schemes.now))) }
{
    match chase(alloc, &schema.theory(), schemes, MOST_TABLEAU_ROWS) {
        Ok(Chased::Lossless) => Ok(()),
        Ok(Chased::Lossy(rows)) => Err(lossy_exit(alloc, schema, &rows)),
        Err(Failure::Refused(ChaseRefusal::TooManyRows)) => Err(too_many_rows_exit(alloc)),
        Err(Failure::OutOfMemory) => Err(EarlyExit::OutOfMemory),
    }
}

// Nothing is lost.
fn lossless_response(alloc: Global) -> Result<Response, OutOfMemory>
    ensures says { IfOk result (λ response. Says Status.Yes lossless_text (response_value response)) }
{
    Ok(Response::with_text(Status::Yes, line_of(alloc, b"lossless", b"", b"")?))
}

// A relation of numbers, as it is shown, gains the tuple that stands for all `0`.
fn lossy_exit(alloc: Global, schema: &Schema, rows: &[Row]) -> EarlyExit
    requires over { IsOver (width_of schema.now) rows.now }
    requires numerals { HoldsNumerals rows.now }
    ensures says { ExitsAs (Says Status.No (lossy_text schema.now rows.now)) result }
{
    EarlyExit::with_text(Status::No, lossy_lines(alloc, schema, rows))
}

fn lossy_lines(alloc: Global, schema: &Schema, rows: &[Row]) -> Result<Vec<u8>, OutOfMemory>
    requires over { IsOver (width_of schema.now) rows.now }
    requires numerals { HoldsNumerals rows.now }
    ensures text { IfOk result (λ text. text.items ≡ lossy_text schema.now rows.now) }
{
    let mut text = line_of(alloc, b"lossy", b"", b"")?;
    add(&mut text, &print_made_up(alloc, schema, rows)?)?;
    add(&mut text, b"gains\n")?;
    add(&mut text, &print_zeros(alloc, schema)?)?;
    Ok(text)
}

// The chase comes to too many rows.
fn too_many_rows_exit(alloc: Global) -> EarlyExit
    ensures says { ExitsAs (Says Status.Refused too_many_rows_text) result }
{
    EarlyExit::with_text(Status::Refused, too_many_rows_line(alloc))
}

fn too_many_rows_line(alloc: Global) -> Result<Vec<u8>, OutOfMemory>
    ensures line { IfOk result (λ text. text.items ≡ too_many_rows_text) }
{
    let refusal = ChaseRefusal::TooManyRows;
    line_of(
        alloc,
        b"refused: ",
        refusal.to_string(alloc)?.as_bytes(),
        b"",
    )
}
