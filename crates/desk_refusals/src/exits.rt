ghost use Rattle.std.specs.Prelude.{◌≡◌, ◌++◌, ◌<◌, []};
ghost use Rattle.desk_refusals.specs.Refusals.{refusal_text};
ghost use Rattle.desk_responses.specs.ResponseValues.{Says};
ghost use Rattle.desk_responses.specs.Responses.{ExitsAs};

use crate::refusal_line;
use desk_responses::{EarlyExit, Status};
use schema_grammar::SchemaRefusal;
use std::alloc::Global;

/// A command that ends with the refusal of a text.
pub fn refusal_exit(alloc: Global, group: &[u8], name: &[u8], refusal: SchemaRefusal) -> EarlyExit
    ensures says { ExitsAs (Says Status.Refused (refusal_text group.now name.now refusal)) result }
{
    EarlyExit::with_text(Status::Refused, refusal_line(alloc, group, name, refusal))
}
