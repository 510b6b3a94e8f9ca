ghost use Rattle.std.specs.Prelude.{IfOk, IfErr};
ghost use Rattle.attr_sets.specs.Attributes.{IsSubset};
ghost use Rattle.attr_sets.specs.Sets.{attributes};
ghost use Rattle.schema_model.specs.Schemas.{universe_of};
ghost use Rattle.desk_arguments.specs.Goals.{IsSetText, SetStops};
ghost use Rattle.desk_responses.specs.Responses.{ExitsAs};

use arguments::Argument;
use attr_sets::AttrSet;
use desk_refusals::refusal_exit;
use desk_responses::{EarlyExit, Status};
use desk_texts::line_of;
use schema_model::Schema;
use schema_reader::{MOST_SET_BYTES, read_set};
use std::alloc::Global;

/// The set that a text states.
pub fn set_of(alloc: Global, schema: &Schema, set: &Argument) -> Result<AttrSet, EarlyExit>
    ensures ok { IfOk result (λ x. IsSetText schema.now set.now (attributes x)) }
    ensures within { IfOk result (λ x. IsSubset (attributes x) (universe_of schema.now)) }
    ensures exit { IfErr result (ExitsAs (SetStops schema.now set.now)) }
{
    let text = set.bytes();
    if text.len() > MOST_SET_BYTES {
        return Err(EarlyExit::with_text(
            Status::Refused,
            line_of(alloc, b"refused: set is too long", b"", b""),
        ));
    }
    match read_set(schema, text) {
        Ok(set) => Ok(set),
        Err(refusal) => Err(refusal_exit(alloc, b"set", b"set", refusal)),
    }
}
