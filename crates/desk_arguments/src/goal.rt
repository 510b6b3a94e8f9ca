ghost use Rattle.std.specs.Prelude.{IfOk, IfErr};
ghost use Rattle.dep_model.specs.Deps.{dependency_of, IsDepWithin};
ghost use Rattle.schema_model.specs.Schemas.{universe_of};
ghost use Rattle.desk_arguments.specs.Goals.{IsGoal, GoalStops};
ghost use Rattle.desk_responses.specs.Responses.{ExitsAs};

use arguments::Argument;
use dep_model::Dep;
use desk_refusals::refusal_exit;
use desk_responses::{EarlyExit, Status};
use desk_texts::line_of;
use schema_model::Schema;
use schema_reader::{MOST_GOAL_BYTES, read_goal};
use std::alloc::Global;

/// The dependency that a goal states.
pub fn goal_of(alloc: Global, schema: &Schema, goal: &Argument) -> Result<Dep, EarlyExit>
    ensures ok { IfOk result (λ dep. IsGoal schema.now goal.now (dependency_of dep)) }
    ensures within { IfOk result (IsDepWithin (universe_of schema.now)) }
    ensures exit { IfErr result (ExitsAs (GoalStops schema.now goal.now)) }
{
    let text = goal.bytes();
    if text.len() > MOST_GOAL_BYTES {
        return Err(EarlyExit::with_text(
            Status::Refused,
            line_of(alloc, b"refused: goal is too long", b"", b""),
        ));
    }
    match read_goal(schema, text) {
        Ok(dep) => Ok(dep),
        Err(refusal) => Err(refusal_exit(alloc, b"goal", b"goal", refusal)),
    }
}
