ghost use Rattle.std.specs.Prelude.{IfOk};
ghost use Rattle.plans.specs.Plans.{IsPlanOver, plan_of, scheme_sets};
ghost use Rattle.desk_designs.specs.Drawings.{DrawsForm, DrawsSchemes, DrawsTables};
ghost use Rattle.schema_model.specs.Schemas.{theory_in};
ghost use Rattle.desk_responses.specs.Responses.{response_value, RespondsAs};

use crate::decomposition::plan_in_form;
use crate::designs::design_of_plan;
use dep_model::{Form, OutOfMemory};
use desk_responses::{EarlyExit, Response, Status};
use plans::Plan;
use schema_model::{Name, Schema};
use std::alloc::Global;
use table_drawing::draw;

/// The picture of the tables of a normal form.
pub fn draw_form(alloc: Global, schema: &Schema, form: Form) -> Result<Response, EarlyExit>
    ensures response { RespondsAs (DrawsForm schema.now form) result }
{
    let plan = match plan_in_form(alloc, schema, form) {
        Ok(plan) => plan,
        Err(exit) => return Err(exit),
    };
    Ok(drawing_response(alloc, schema, &plan, &[])?)
}

/// The picture of the tables of a plan, which may lose something.
pub fn draw_plan(
    alloc: Global,
    schema: &Schema,
    plan: &Plan,
    names: &[Option<Name>],
) -> Result<Response, EarlyExit>
    requires universe { IsPlanOver (theory_in schema.now) plan.now }
    ensures response { RespondsAs (DrawsSchemes schema.now names.now (plan_of plan.now)) result }
{
    Ok(drawing_response(alloc, schema, plan, names)?)
}

// The picture of the tables of a plan.
fn drawing_response(
    alloc: Global,
    schema: &Schema,
    plan: &Plan,
    names: &[Option<Name>],
) -> Result<Response, OutOfMemory>
    requires universe { IsPlanOver (theory_in schema.now) plan.now }
    ensures response { IfOk result (λ response. DrawsTables schema.now names.now (scheme_sets plan.now)
        (response_value response)) }
{
    let tables = design_of_plan(alloc, schema, plan, names)?;
    Ok(Response::with_text(Status::Yes, draw(alloc, schema, &tables)?))
}
