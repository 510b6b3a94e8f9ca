ghost use Rattle.std.specs.Prelude.{◌≡◌, All, IfOk};
ghost use Rattle.attr_sets.specs.Attributes.{IsSubset};
ghost use Rattle.attr_sets.specs.Sets.{attributes};
ghost use Rattle.schema_model.specs.Schemas.{universe_of, theory_in};
ghost use Rattle.schema_printer.specs.Spelling.{printed_names_of};
ghost use Rattle.dep_model.specs.declared.failure.Failure.TheVariants as failed;
ghost use Rattle.key_listing.specs.Refusals.{IsRefusedListing};
ghost use Rattle.desk_responses.specs.ResponseValues.{Says};
ghost use Rattle.desk_keys.specs.Keys.{ListsKeys, RefusesKeys, sets_text, too_many_keys_text};
ghost use Rattle.desk_responses.specs.Responses.{response_value, RespondsAs, ExitsAs};

use attr_sets::AttrSet;
use byte_texts::add;
use dep_model::{Failure, OutOfMemory};
use desk_responses::{EarlyExit, Response, Status, too_wide_exit};
use desk_texts::line_of;
use key_listing::{KeyRefusal, keys};
use schema_model::Schema;
use schema_printer::add_set;
use std::alloc::Global;

/// All keys of a schema's universe, each on a line.
pub fn list_keys(alloc: Global, schema: &Schema) -> Result<Response, EarlyExit>
    ensures response { RespondsAs (ListsKeys schema.now) result }
{
    match keys(alloc, &schema.theory()) {
        Ok(keys) => Ok(sets_response(alloc, schema, &keys)?),
        Err(Failure::Refused(refusal)) => Err(keys_exit(alloc, schema, &refusal)),
        Err(Failure::OutOfMemory) => Err(EarlyExit::OutOfMemory),
    }
}

/// The keys are not listed.
pub fn keys_exit(alloc: Global, schema: &Schema, refusal: &KeyRefusal) -> EarlyExit
    requires refused { IsRefusedListing (theory_in schema.now) (failed.Refused refusal.now) }
    ensures exits { ExitsAs (RefusesKeys schema.now) result }
{
    match refusal {
        KeyRefusal::TooManyKeys { .. } => too_many_keys_exit(alloc),
        KeyRefusal::TooWide => too_wide_exit(alloc, schema, AttrSet::full(schema.width())),
    }
}

/// Sets of attributes, each on a line.
pub fn sets_response(
    alloc: Global,
    schema: &Schema,
    sets: &[AttrSet],
) -> Result<Response, OutOfMemory>
    requires within { All (λ set. IsSubset (attributes set) (universe_of schema.now)) sets.now }
    ensures says { IfOk result
        (λ response. Says Status.Yes (sets_text (printed_names_of schema.now) sets.now)
        (response_value response)) }
{
    Ok(Response::with_text(Status::Yes, set_lines(alloc, schema, sets)?))
}

/// A line for each set.
pub fn set_lines(alloc: Global, schema: &Schema, sets: &[AttrSet]) -> Result<Vec<u8>, OutOfMemory>
    requires within { All (λ set. IsSubset (attributes set) (universe_of schema.now)) sets.now }
    ensures text { IfOk result (λ text. text.items ≡ sets_text (printed_names_of schema.now) sets.now) }
{
    let mut text = Vec::new(alloc);
    for set in sets {
        add_set(&mut text, schema, *set)?;
        add(&mut text, b"\n")?;
    }
    Ok(text)
}

// There are more keys than are listed.
fn too_many_keys_exit(alloc: Global) -> EarlyExit
    ensures says { ExitsAs (Says Status.Refused too_many_keys_text) result }
{
    EarlyExit::with_text(Status::Refused, too_many_keys_line(alloc))
}

fn too_many_keys_line(alloc: Global) -> Result<Vec<u8>, OutOfMemory>
    ensures line { IfOk result (λ text. text.items ≡ too_many_keys_text) }
{
    line_of(alloc, b"refused: too many keys", b"", b"")
}
