ghost use Rattle.std.specs.Prelude.{◌≡◌, ◌<◌, IfOk};
ghost use Rattle.schema_model.specs.Schemas.{names_of, width_of};
ghost use Rattle.dep_model.specs.Tuples.{IsOver};
ghost use Rattle.csv_text.specs.Rows.{rows_text};
ghost use Rattle.typed_rows.specs.Shown.{shown_relation};
ghost use Rattle.typed_rows.specs.Typed.{HoldsNumerals};
ghost use Rattle.desk_responses.specs.ResponseValues.{Says};
ghost use Rattle.desk_exhibits.specs.Exhibits.{Exhibits, too_many_rows_text};
ghost use Rattle.desk_responses.specs.Responses.{response_value, RespondsAs, ExitsAs};

use armstrong_rel::{ExhibitRefusal, exhibit};
use attr_sets::AttrSet;
use byte_texts::add;
use dep_model::{Failure, OutOfMemory, Row};
use desk_responses::{EarlyExit, Response, Status, multivalued_exit, too_wide_exit};
use schema_model::Schema;
use std::alloc::Global;
use typed_rows::print_made_up;

/// A relation that obeys just the functional dependencies that follow from a schema.
pub fn exhibit_relation(alloc: Global, schema: &Schema) -> Result<Response, EarlyExit>
    ensures response { RespondsAs (Exhibits schema.now) result }
{
    match exhibit(alloc, &schema.theory()) {
        Ok(rows) => Ok(response_of(alloc, schema, &rows)?),
        Err(Failure::Refused(refusal)) => match refusal {
            ExhibitRefusal::NotFunctional { dep } => Err(multivalued_exit(alloc, schema, dep)),
            ExhibitRefusal::TooWide => Err(too_wide_exit(
                alloc,
                schema,
                AttrSet::full(schema.width()),
            )),
            ExhibitRefusal::TooManyRows => Err(too_many_rows_exit(alloc)),
        },
        Err(Failure::OutOfMemory) => Err(EarlyExit::OutOfMemory),
    }
}

// Rows of numbers, as they are shown.
fn response_of(alloc: Global, schema: &Schema, rows: &[Row]) -> Result<Response, OutOfMemory>
    requires over { IsOver (width_of schema.now) rows.now }
    requires numerals { HoldsNumerals rows.now }
    ensures says { IfOk result
        (λ response. Says Status.Yes (rows_text (names_of schema.now) (shown_relation schema.now rows.now))
        (response_value response)) }
{
    Ok(Response::with_text(Status::Yes, print_made_up(alloc, schema, rows)?))
}

// The relation would have more rows than are printed.
fn too_many_rows_exit(alloc: Global) -> EarlyExit
    ensures says { ExitsAs (Says Status.Refused too_many_rows_text) result }
{
    EarlyExit::with_text(Status::Refused, too_many_rows_line(alloc))
}

fn too_many_rows_line(alloc: Global) -> Result<Vec<u8>, OutOfMemory>
    ensures line { IfOk result (λ text. text.items ≡ too_many_rows_text) }
{
    let mut text = Vec::new(alloc);
    add(&mut text, b"refused: too many rows\n")?;
    Ok(text)
}
