ghost use Rattle.std.specs.Prelude.{◌≡◌, ◌++◌, All, IfOk};
ghost use Rattle.std.specs.List.{flat_map};
ghost use Rattle.attr_sets.specs.Attributes.{IsSubset};
ghost use Rattle.attr_sets.specs.Sets.{attributes};
ghost use Rattle.dep_model.specs.Plans.{schemes_of};
ghost use Rattle.schema_model.specs.Schemas.{universe_of, theory_in};
ghost use Rattle.plans.specs.Plans.{IsPlanOver, plan_of};
ghost use Rattle.desk_designs.specs.Keeping.{JudgesKeeping, loss_text, two_tuples_text};
ghost use Rattle.desk_responses.specs.Responses.{response_value, RespondsAs};

use attr_sets::AttrSet;
use byte_texts::add;
use dep_model::OutOfMemory;
use desk_responses::{EarlyExit, Response, Status, put_dep, put_line};
use desk_texts::line_of;
use plans::Plan;
use preservation::{Loss, losses};
use schema_model::Schema;
use std::alloc::Global;
use typed_rows::print_two_rows;

/// Whether a plan keeps the functional dependencies.
pub fn check_keeps(alloc: Global, schema: &Schema, plan: &Plan) -> Result<Response, EarlyExit>
    requires universe { IsPlanOver (theory_in schema.now) plan.now }
    ensures response { RespondsAs (JudgesKeeping schema.now (plan_of plan.now)) result }
{
    Ok(judge_keeping(alloc, schema, plan.schemes())?)
}

// Whether these schemes keep the functional dependencies.
fn judge_keeping(
    alloc: Global,
    schema: &Schema,
    schemes: &[AttrSet],
) -> Result<Response, OutOfMemory>
    requires within { All (λ scheme. IsSubset (attributes scheme)
        (universe_of schema.now)) schemes.now }
    ensures response { IfOk result
        (λ response. JudgesKeeping schema.now (schemes_of schemes.now) (response_value response)) }
{
    let losses = losses(alloc, &schema.theory(), schemes)?;
    match losses.as_slice() {
        [] => Ok(Response::with_text(
            Status::Yes,
            line_of(alloc, b"every functional dependency is kept", b"", b"")?,
        )),
        [first, ..] => Ok(Response::with_text(
            Status::No,
            losses_lines(alloc, schema, *first, &losses)?,
        )),
    }
}

// Each dependency that is lost, and two tuples that show the first.
fn losses_lines(
    alloc: Global,
    schema: &Schema,
    first: Loss,
    losses: &[Loss],
) -> Result<Vec<u8>, OutOfMemory>
    requires within { IsSubset (attributes first.agreement) (universe_of schema.now) }
    ensures text { IfOk result
        (λ text. text.items ≡ flat_map (loss_text schema.now) losses.now ++ two_tuples_text schema.now first) }
{
    let mut text = Vec::new(alloc);
    for loss in losses {
        add(&mut text, &loss_line(alloc, schema, *loss)?)?;
    }
    add(&mut text, &two_tuples_lines(alloc, schema, first)?)?;
    Ok(text)
}

// A dependency that is lost, with its line.
fn loss_line(alloc: Global, schema: &Schema, loss: Loss) -> Result<Vec<u8>, OutOfMemory>
    ensures text { IfOk result (λ text. text.items ≡ loss_text schema.now loss) }
{
    let mut text = Vec::new(alloc);
    add(&mut text, b"line ")?;
    put_line(alloc, &mut text, schema, loss.dep as usize)?;
    add(&mut text, b": ")?;
    put_dep(&mut text, schema, loss.dep as usize)?;
    add(&mut text, b" is lost")?;
    add(&mut text, b"\n")?;
    Ok(text)
}

// The two tuples that show a loss.
fn two_tuples_lines(alloc: Global, schema: &Schema, loss: Loss) -> Result<Vec<u8>, OutOfMemory>
    requires within { IsSubset (attributes loss.agreement) (universe_of schema.now) }
    ensures text { IfOk result (λ text. text.items ≡ two_tuples_text schema.now loss) }
{
    let mut text = line_of(alloc, b"shown by", b"", b"")?;
    add(&mut text, &print_two_rows(alloc, schema, loss.agreement)?)?;
    Ok(text)
}
