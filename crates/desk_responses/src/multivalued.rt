ghost use Rattle.std.specs.Prelude.{◌≡◌, ◌<◌, IfOk};
ghost use Rattle.desk_responses.specs.ResponseValues.{Says};
ghost use Rattle.desk_responses.specs.Multivalued.{multivalued_text};
ghost use Rattle.desk_responses.specs.Responses.{ExitsAs};

use crate::{EarlyExit, Status, put_line};
use byte_texts::add;
use dep_model::OutOfMemory;
use schema_model::Schema;
use std::alloc::Global;

/// A multivalued dependency is given.
pub fn multivalued_exit(alloc: Global, schema: &Schema, dep: u16) -> EarlyExit
    ensures says { ExitsAs (Says Status.Refused (multivalued_text schema.now dep)) result }
{
    EarlyExit::with_text(Status::Refused, multivalued_line(alloc, schema, dep))
}

fn multivalued_line(alloc: Global, schema: &Schema, dep: u16) -> Result<Vec<u8>, OutOfMemory>
    ensures line { IfOk result (λ text. text.items ≡ multivalued_text schema.now dep) }
{
    let mut text = Vec::new(alloc);
    add(&mut text, b"refused: line ")?;
    put_line(alloc, &mut text, schema, dep as usize)?;
    add(&mut text, b" is multivalued")?;
    add(&mut text, b"\n")?;
    Ok(text)
}
