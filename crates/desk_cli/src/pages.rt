//! Pages of a schema and the plan of a file.

ghost use Rattle.std.specs.Prelude.{◌∷◌, []};
ghost use Rattle.desk_inputs.specs.FileCalls.{Reads};
ghost use Rattle.desk_inputs.specs.FileKinds.{WithFile};
ghost use Rattle.desk_inputs.specs.Plans.{plan_file};
ghost use Rattle.desk_reports.specs.Reports.{ReportsPlan};
ghost use Rattle.desk_responses.specs.Responses.{RespondsAs};

use arguments::Argument;
use desk_inputs::open_plan;
use desk_outside::FileSource;
use desk_reports::report_plan;
use desk_responses::{EarlyExit, Response};
use schema_model::Schema;
use std::alloc::Global;

/// The page of a schema, which is in its own file, and the plan of another.
pub fn of_page_and_plan<F: FileSource>(
    alloc: Global,
    source: &mut F,
    schema: &Schema,
    own: &Argument,
    planned: &Argument,
) -> Result<Response, EarlyExit>
    ensures reads { Reads F.FileSource source.old source.new (planned.now ∷ [])
        (λ r. RespondsAs (WithFile (plan_file schema.now) r planned.now
        (ReportsPlan own.now planned.now schema.now)) result) }
{
    let plan = match open_plan(alloc, source, schema, planned) {
        Ok(plan) => plan,
        Err(exit) => return Err(exit),
    };
    report_plan(alloc, schema, &plan, own, planned)
}
