ghost use Rattle.std.specs.Prelude.{◌≡◌, IfOk};
ghost use Rattle.dep_model.specs.Deps.{dependency_of, IsDepWithin};
ghost use Rattle.schema_model.specs.Schemas.{universe_of, theory_in};
ghost use Rattle.derivation.specs.Conclusions.{Proves};
ghost use Rattle.derivation.specs.Trees.{Tree};
ghost use Rattle.desk_implication.specs.Certificates.{Checked, ChecksProof};
ghost use Rattle.desk_responses.specs.Responses.{response_value, RespondsAs};

use crate::{checked_line, concludes_lines};
use arguments::Argument;
use dep_model::{Dep, OutOfMemory};
use desk_arguments::goal_of;
use desk_responses::{EarlyExit, Response, Status};
use proof_text::same_dependency;
use schema_model::Schema;
use std::alloc::Global;

/// Whether a certificate that concludes this dependency, by the rules alone, proves a goal over a schema.
pub fn check_proof(
    alloc: Global,
    schema: &Schema,
    concluded: Dep,
    goal: &Argument,
) -> Result<Response, EarlyExit>
    requires within { IsDepWithin (universe_of schema.now) concluded }
    ensures response { (tree : Tree) → Proves (theory_in schema.now) tree (dependency_of concluded)
        → RespondsAs (ChecksProof schema.now tree goal.now) result }
{
    let dep = match goal_of(alloc, schema, goal) {
        Ok(dep) => dep,
        Err(exit) => return Err(exit),
    };
    Ok(proof_response(alloc, schema, concluded, dep)?)
}

// The answer to what a certificate concludes and what is asked.
fn proof_response(
    alloc: Global,
    schema: &Schema,
    concluded: Dep,
    dep: Dep,
) -> Result<Response, OutOfMemory>
    requires concluded { IsDepWithin (universe_of schema.now) concluded }
    requires dep { IsDepWithin (universe_of schema.now) dep }
    ensures response { (tree : Tree) → Proves (theory_in schema.now) tree (dependency_of concluded)
        → IfOk result (λ response. Checked schema.now tree (dependency_of dep)
        (response_value response)) }
{
    if same_dependency(concluded, dep) {
        return Ok(Response::with_text(Status::Yes, checked_line(alloc, schema, dep)?));
    }
    Ok(Response::with_text(Status::No, concludes_lines(alloc, schema, concluded, dep)?))
}
