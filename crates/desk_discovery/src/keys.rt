ghost use Rattle.std.specs.Prelude.{◌≡◌, ◌≤◌, ◌<◌, length, flat_map, IfOk};
ghost use Rattle.attr_sets.specs.Sets.{attributes};
ghost use Rattle.dep_model.specs.Plans.{schemes_of};
ghost use Rattle.dep_model.specs.Tuples.{IsOver};
ghost use Rattle.headed_rows.specs.Headers.{IsColumnHeader};
ghost use Rattle.headed_rows.specs.Headings.{headed_of};
ghost use Rattle.row_store.specs.declared.limits.TheConstants.{MOST_HEADED_ROWS};
ghost use Rattle.schema_printer.specs.Printing.{set_text};
ghost use Rattle.schema_printer.specs.Spelling.{printed_names_of};
ghost use Rattle.desk_discovery.specs.KeyDiscoveries.{FindsRowKeys, row_keys_text, too_many_row_keys_text};
ghost use Rattle.desk_responses.specs.ResponseValues.{Says};
ghost use Rattle.desk_responses.specs.Responses.{response_value, ExitsAs, RespondsAs};
ghost use Rattle.desk_texts.specs.Texts.{line};

use crate::discovering::schema_of_columns;
use arguments::Argument;
use attr_sets::AttrSet;
use byte_texts::add;
use dep_model::{Failure, OutOfMemory};
use desk_responses::{EarlyExit, Response, Status};
use desk_texts::line_of;
use fd_search::row_keys;
use headed_rows::Headed;
use row_store::Hashing;
use schema_model::{Name, Schema};
use schema_printer::add_set;
use std::alloc::Global;

/// The minimal keys of rows, each on a line, by the names of their columns.
pub fn discover_keys(
    alloc: Global,
    hashing: Hashing,
    file: &Argument,
    headed: Headed,
) -> Result<Response, EarlyExit>
    requires header { IsColumnHeader headed.names.items }
    requires any_name { 0 < length headed.names.items }
    requires same_width { IsOver (length headed.names.items) headed.rows }
    requires within_limit { length headed.rows ≤ MOST_HEADED_ROWS }
    ensures response { RespondsAs (FindsRowKeys file.now (headed_of headed)) result }
{
    let Headed { names, rows } = headed;
    match row_keys(alloc, hashing, names.len() as u8, rows) {
        Ok(keys) => Ok(keys_response(alloc, names, &keys)?),
        Err(Failure::Refused(_)) => Err(too_many_keys_exit(alloc, file)),
        Err(Failure::OutOfMemory) => Err(EarlyExit::OutOfMemory),
    }
}

// Yes, with these sets of columns.
fn keys_response(alloc: Global, names: Vec<Name>, keys: &[AttrSet]) -> Result<Response, OutOfMemory>
    requires header { IsColumnHeader names.items }
    requires any_name { 0 < length names.items }
    ensures says { IfOk result (λ response.
        Says Status.Yes (row_keys_text names.items (schemes_of keys.now)) (response_value response)) }
{
    let schema = schema_of_columns(alloc, names)?;
    Ok(Response::with_text(Status::Yes, key_lines(alloc, &schema, keys)?))
}

// A line for each set.
fn key_lines(alloc: Global, schema: &Schema, keys: &[AttrSet]) -> Result<Vec<u8>, OutOfMemory>
    ensures text { IfOk result (λ text. text.items
        ≡ flat_map (λ key. line (set_text (printed_names_of schema.now) (attributes key))) keys.now) }
{
    let mut text = Vec::new(alloc);
    for key in keys {
        add_set(&mut text, schema, *key)?;
        add(&mut text, b"\n")?;
    }
    Ok(text)
}

// Some evidence of different rows has too many candidates.
fn too_many_keys_exit(alloc: Global, file: &Argument) -> EarlyExit
    ensures says { ExitsAs (Says Status.Refused (too_many_row_keys_text file.now)) result }
{
    EarlyExit::with_text(
        Status::Refused,
        line_of(
            alloc,
            b"refused: discover 7 at ",
            file.bytes(),
            b": too many keys",
        ),
    )
}
