ghost use Rattle.std.specs.Prelude.{◌≡◌, All, IfOk};
ghost use Rattle.attr_sets.specs.Attributes.{IsSubset, IsEmpty};
ghost use Rattle.attr_sets.specs.Sets.{attributes};
ghost use Rattle.dep_model.specs.Deps.{dependencies_of, IsDepWithin};
ghost use Rattle.schema_model.specs.Schemas.{width_of, universe_of, theory_of};
ghost use Rattle.desk_implication.specs.Projections.{Projects, ProjectsSet, RefusesProjection, empty_set_text};
ghost use Rattle.desk_implication.specs.Projections.{too_many_dependencies_text, projection_text};
ghost use Rattle.fd_projection.specs.Refusals.{IsRefusedProjection};
ghost use Rattle.desk_responses.specs.ResponseValues.{Says};
ghost use Rattle.desk_responses.specs.Responses.{response_value, RespondsAs, ExitsAs};

use arguments::Argument;
use attr_sets::AttrSet;
use byte_texts::add;
use dep_model::{Dep, Failure, OutOfMemory};
use desk_arguments::set_of;
use desk_responses::{EarlyExit, Response, Status, too_wide_exit};
use desk_texts::{line_of, overlong_comment};
use fd_projection::{ProjectionRefusal, project};
use schema_model::Schema;
use schema_printer::print_part;
use std::alloc::Global;

/// The functional dependencies inside a set, as a schema of its attributes.
pub fn give_projection(
    alloc: Global,
    schema: &Schema,
    set: &Argument,
) -> Result<Response, EarlyExit>
    ensures response { RespondsAs (Projects schema.now set.now) result }
{
    let within = match set_of(alloc, schema, set) {
        Ok(within) => within,
        Err(exit) => return Err(exit),
    };
    project_set(alloc, schema, within)
}

// The functional dependencies inside a set of attributes.
fn project_set(alloc: Global, schema: &Schema, set: AttrSet) -> Result<Response, EarlyExit>
    requires within { IsSubset (attributes set) (universe_of schema.now) }
    ensures response { RespondsAs (ProjectsSet schema.now (attributes set)) result }
{
    if set.is_empty() {
        return Err(empty_set_exit(alloc));
    }
    match project(alloc, &schema.theory(), set) {
        Ok(rules) => Ok(projection_response(alloc, schema, set, &rules)?),
        Err(Failure::Refused(refusal)) => Err(refused_exit(alloc, schema, set, refusal)),
        Err(Failure::OutOfMemory) => Err(EarlyExit::OutOfMemory),
    }
}

// The attributes of a set and dependencies over them, as a schema text.
fn projection_response(
    alloc: Global,
    schema: &Schema,
    set: AttrSet,
    rules: &[Dep],
) -> Result<Response, OutOfMemory>
    requires within { IsSubset (attributes set) (universe_of schema.now) }
    requires not_empty { IsEmpty (attributes set) → ⊥ }
    requires rules { All (IsDepWithin (universe_of schema.now)) rules.now }
    ensures says { IfOk result (λ response. Says Status.Yes
        (projection_text schema.now (attributes set) (dependencies_of rules.now))
        (response_value response)) }
{
    let mut text = overlong_comment(alloc, rules)?;
    add(&mut text, &print_part(alloc, schema, set, rules)?)?;
    Ok(Response::with_text(Status::Yes, text))
}

// Why the dependencies inside a set are not listed.
fn refused_exit(
    alloc: Global,
    schema: &Schema,
    set: AttrSet,
    refusal: ProjectionRefusal,
) -> EarlyExit
    requires within { IsSubset (attributes set) (universe_of schema.now) }
    requires not_empty { IsEmpty (attributes set) → ⊥ }
    requires refused { IsRefusedProjection (width_of schema.now) (theory_of schema.now) (attributes set)
        refusal }
    ensures says { ExitsAs (RefusesProjection schema.now (attributes set)) result }
{
    match refusal {
        ProjectionRefusal::TooWide => too_wide_exit(alloc, schema, set),
        ProjectionRefusal::TooMany => too_many_exit(alloc),
    }
}

// The set has no attribute.
fn empty_set_exit(alloc: Global) -> EarlyExit
    ensures says { ExitsAs (Says Status.Refused empty_set_text) result }
{
    EarlyExit::with_text(
        Status::Refused,
        line_of(alloc, b"refused: set is empty", b"", b""),
    )
}

// More dependencies than are listed have a least left side.
fn too_many_exit(alloc: Global) -> EarlyExit
    ensures says { ExitsAs (Says Status.Refused too_many_dependencies_text) result }
{
    EarlyExit::with_text(
        Status::Refused,
        line_of(alloc, b"refused: too many dependencies", b"", b""),
    )
}
