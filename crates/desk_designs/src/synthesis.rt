ghost use Rattle.std.specs.Prelude.{IfOk};
ghost use Rattle.desk_responses.specs.Responses.{response_value, RespondsAs};
ghost use Rattle.desk_designs.specs.Synthesis.{Synthesizes};

use crate::decomposition::third_form_plan;
use dep_model::OutOfMemory;
use desk_responses::{EarlyExit, Response, Status};
use plan_printer::print_plan;
use schema_model::Schema;
use std::alloc::Global;

/// A plan in third normal form that loses nothing and keeps the functional dependencies.
pub fn synthesize_plan(alloc: Global, schema: &Schema) -> Result<Response, EarlyExit>
    ensures response { RespondsAs (Synthesizes schema.now) result }
{
    Ok(synthesis_response(alloc, schema)?)
}

fn synthesis_response(alloc: Global, schema: &Schema) -> Result<Response, OutOfMemory>
    ensures response { IfOk result (λ response. Synthesizes schema.now (response_value response)) }
{
    let plan = third_form_plan(alloc, schema)?;
    Ok(Response::with_text(Status::Yes, print_plan(alloc, schema, &plan)?))
}
