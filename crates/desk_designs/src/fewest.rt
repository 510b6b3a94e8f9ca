ghost use Rattle.std.specs.Prelude.{IfOk};
ghost use Rattle.desk_responses.specs.Responses.{response_value, RespondsAs};
ghost use Rattle.desk_designs.specs.FewestTables.{SynthesizesFewest};

use dep_model::OutOfMemory;
use desk_responses::{EarlyExit, Response, Status};
use fewest_tables::fewest_plan;
use plan_printer::print_plan;
use schema_model::Schema;
use std::alloc::Global;

/// A plan in third normal form that loses nothing and keeps the functional dependencies, in which
/// left sides that determine each other share a scheme.
pub fn synthesize_fewest(alloc: Global, schema: &Schema) -> Result<Response, EarlyExit>
    ensures response { RespondsAs (SynthesizesFewest schema.now) result }
{
    Ok(fewest_response(alloc, schema)?)
}

fn fewest_response(alloc: Global, schema: &Schema) -> Result<Response, OutOfMemory>
    ensures response { IfOk result (λ response. SynthesizesFewest schema.now (response_value response)) }
{
    let plan = fewest_plan(alloc, &schema.theory(), schema.nullable())?;
    Ok(Response::with_text(Status::Yes, print_plan(alloc, schema, &plan)?))
}
