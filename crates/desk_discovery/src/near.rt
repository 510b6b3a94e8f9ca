ghost use Rattle.std.specs.Prelude.{◌≡◌, ◌++◌, ◌≤◌, ◌<◌, length, IfOk, OnOk};
ghost use Rattle.dep_model.specs.Deps.{dependencies_of};
ghost use Rattle.dep_model.specs.Tuples.{IsOver};
ghost use Rattle.headed_rows.specs.Headers.{IsColumnHeader};
ghost use Rattle.headed_rows.specs.Headings.{headed_of};
ghost use Rattle.row_store.specs.declared.limits.TheConstants.{MOST_HEADED_ROWS};
ghost use Rattle.schema_printer.specs.Printing.{lines_text};
ghost use Rattle.schema_printer.specs.Spelling.{printed_names_of};
ghost use Rattle.desk_discovery.specs.NearDiscoveries.{FindsNearRules, change_text, near_lines, near_text};
ghost use Rattle.desk_responses.specs.ResponseValues.{Says};
ghost use Rattle.desk_responses.specs.Responses.{response_value, RespondsAs};

use crate::discovering::{left_sides_exit, schema_of_columns};
use arguments::Argument;
use byte_texts::{add, add_number};
use dep_model::{Dep, Failure, OutOfMemory};
use desk_responses::{EarlyExit, Response, Status};
use desk_texts::overlong_comment;
use headed_rows::Headed;
use near_rules::{NearRules, near_rules};
use row_store::Hashing;
use schema_model::{Name, Schema};
use schema_printer::{add_dep, print_deps};
use std::alloc::Global;

/// The minimal functional dependencies that rows obey but for at most `limit` of them, of at most `most` attributes
/// on the left, under the names of their columns, each with how many rows must change.
pub fn discover_near_rules(
    alloc: Global,
    hashing: Hashing,
    file: &Argument,
    headed: Headed,
    limit: u32,
    most: u8,
) -> Result<Response, EarlyExit>
    requires header { IsColumnHeader headed.names.items }
    requires any_name { 0 < length headed.names.items }
    requires same_width { IsOver (length headed.names.items) headed.rows }
    requires within_limit { length headed.rows ≤ MOST_HEADED_ROWS }
    ensures response { RespondsAs (FindsNearRules limit most file.now (headed_of headed)) result }
{
    let Headed { names, rows } = headed;
    match near_rules(alloc, hashing, names.len() as u8, &rows, limit, most) {
        Ok(found) => Ok(near_response(alloc, names, &found)?),
        Err(Failure::Refused(refusal)) => Err(left_sides_exit(alloc, file, &names, refusal.right)),
        Err(Failure::OutOfMemory) => Err(EarlyExit::OutOfMemory),
    }
}

// Yes, with names and what is found over them.
fn near_response(
    alloc: Global,
    names: Vec<Name>,
    found: &NearRules,
) -> Result<Response, OutOfMemory>
    requires header { IsColumnHeader names.items }
    requires one_each { length found.now.errors.items ≡ length found.now.deps.items }
    requires any_name { 0 < length names.items }
    ensures says { IfOk result (λ response.
        Says Status.Yes (near_text names.items (dependencies_of found.now.deps.items) found.now.errors.items)
        (response_value response)) }
{
    let mut text = overlong_comment(alloc, &found.deps)?;
    let schema = schema_of_columns(alloc, names)?;
    add(&mut text, &print_deps(alloc, &schema, &[])?)?;
    add_near_lines(alloc, &mut text, &schema, &found.deps, &found.errors)?;
    Ok(Response::with_text(Status::Yes, text))
}

// A line for each dependency, with how many rows must change.
fn add_near_lines(
    alloc: Global,
    text: &mut Vec<u8>,
    schema: &Schema,
    deps: &[Dep],
    errors: &[u32],
) -> Result<(), OutOfMemory>
    requires one_each { length errors.now ≡ length deps.now }
    ensures added { OnOk result (text.new.items ≡ text.old.items
        ++ lines_text (near_lines (printed_names_of schema.now) (dependencies_of deps.now) errors.now)) }
{
    for i in 0..deps.len() {
        add_dep(text, schema, deps[i])?;
        add_change(alloc, text, errors[i])?;
        add(text, b"\n")?;
    }
    Ok(())
}

// How many rows must change, where some must.
fn add_change(alloc: Global, text: &mut Vec<u8>, error: u32) -> Result<(), OutOfMemory>
    ensures added { OnOk result (text.new.items ≡ text.old.items ++ change_text error) }
{
    if error == 0 {
        return Ok(());
    }
    add(text, b" # ")?;
    add_number(text, alloc, error)?;
    add(text, b" must change")?;
    Ok(())
}
