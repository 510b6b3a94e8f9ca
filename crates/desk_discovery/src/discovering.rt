ghost use Rattle.std.specs.Prelude.{◌≡◌, ◌≤◌, ◌<◌, ◌↔◌, ◌++◌, length, replicate, All, IfOk, IfErr, OnOk};
ghost use Rattle.attr_sets.specs.Attributes.{Attributes, IsSubset, below};
ghost use Rattle.candidate_search.specs.Sides.{IsTooManyLeftSides};
ghost use Rattle.dep_model.specs.Dependencies.{fd, ObeysFd};
ghost use Rattle.dep_model.specs.Deps.{dependencies_of, IsDepWithin};
ghost use Rattle.dep_model.specs.Failures.{RefusesAs};
ghost use Rattle.dep_model.specs.Implication.{Implies};
ghost use Rattle.dep_model.specs.Tuples.{IsOver};
ghost use Rattle.headed_rows.specs.Headers.{IsColumnHeader};
ghost use Rattle.headed_rows.specs.Headings.{headed_of};
ghost use Rattle.fd_discovery.specs.Minimal.{AreAllMinimal};
ghost use Rattle.row_store.specs.declared.limits.TheConstants.{MOST_HEADED_ROWS, WIDEST_HEADED};
ghost use Rattle.desk_discovery.specs.Discoveries.{FindsRules, HasTextColumns, column_text, found_text, left_sides_text, rules_text};
ghost use Rattle.desk_responses.specs.ResponseValues.{Says};
ghost use Rattle.desk_responses.specs.Responses.{response_value, ExitsAs, RespondsAs};

use arguments::Argument;
use attr_sets::AttrSet;
use byte_texts::add;
use candidate_search::TooManyLeftSides;
use dep_model::{Dep, Failure, OutOfMemory};
use desk_responses::{EarlyExit, Response, Status};
use desk_texts::overlong_comment;
use fd_discovery::discover;
use fd_search::minimal_dependencies;
use headed_rows::{Headed, naming_under};
use row_store::{Hashing, Rows};
use schema_model::{ColumnType, Name, Schema};
use schema_printer::{add_name, print_deps};
use std::alloc::Global;

/// The most columns of which all sets are tried; of more columns the candidates are tried that the rows
/// still allow.
pub const WIDEST_TRIED: u8 = 12;

/// The minimal functional dependencies of rows, under the names of their columns.
pub fn discover_rules(
    alloc: Global,
    hashing: Hashing,
    file: &Argument,
    headed: Headed,
) -> Result<Response, EarlyExit>
    requires header { IsColumnHeader headed.names.items }
    requires any_name { 0 < length headed.names.items }
    requires same_width { IsOver (length headed.names.items) headed.rows }
    requires within_limit { length headed.rows ≤ MOST_HEADED_ROWS }
    ensures response { RespondsAs (FindsRules file.now (headed_of headed)) result }
{
    let Headed { names, rows } = headed;
    match rules_of(alloc, hashing, names.len() as u8, &rows) {
        Ok(deps) => Ok(rules_response(alloc, names, &deps)?),
        Err(Failure::Refused(refusal)) => Err(left_sides_exit(alloc, file, &names, refusal.right)),
        Err(Failure::OutOfMemory) => Err(EarlyExit::OutOfMemory),
    }
}

// The minimal functional dependencies of rows: of few columns all sets are tried.
fn rules_of(
    alloc: Global,
    hashing: Hashing,
    width: u8,
    rows: &Rows,
) -> Result<Vec<Dep>, Failure<TooManyLeftSides>>
    requires width { width ≤ WIDEST_HEADED }
    requires over { IsOver width rows.now }
    requires within_limit { length rows.now ≤ MOST_HEADED_ROWS }
    ensures minimal { IfOk result (λ found. AreAllMinimal width rows.now (dependencies_of found.items)) }
    ensures implied { (x y : Attributes) → IsSubset x (below width) → IsSubset y (below width)
        → IfOk result (λ found.
        Implies width (dependencies_of found.items) (fd x y) ↔ ObeysFd x y rows.now) }
    ensures within { IfOk result (λ found. All (IsDepWithin (below width)) found.items) }
    ensures wide { IfErr result (RefusesAs (λ _. WIDEST_TRIED < width)) }
    ensures refusal { IfErr result (RefusesAs (IsTooManyLeftSides width width rows.now)) }
{
    if width <= WIDEST_TRIED {
        return match discover(alloc, hashing, width, rows) {
            Ok(found) => Ok(found),
            Err(_) => Err(Failure::OutOfMemory),
        };
    }
    minimal_dependencies(alloc, hashing, width, rows)
}

// Yes, with names and dependencies over them.
pub fn rules_response(
    alloc: Global,
    names: Vec<Name>,
    deps: &[Dep],
) -> Result<Response, OutOfMemory>
    requires header { IsColumnHeader names.items }
    requires within { All (IsDepWithin (below (length names.items))) deps.now }
    requires any_name { 0 < length names.items }
    ensures says { IfOk result (λ response.
        Says Status.Yes (found_text names.items (dependencies_of deps.now)) (response_value response)) }
{
    let mut text = overlong_comment(alloc, deps)?;
    add(&mut text, &rule_lines(alloc, names, deps)?)?;
    Ok(Response::with_text(Status::Yes, text))
}

// Some evidence of the rows has too many candidates for a column.
pub fn left_sides_exit(alloc: Global, file: &Argument, names: &[Name], column: u8) -> EarlyExit
    requires column { column < length names.now }
    ensures says { ExitsAs (Says Status.Refused (left_sides_text file.now names.now column)) result }
{
    EarlyExit::with_text(
        Status::Refused,
        left_sides_line(alloc, file.bytes(), names, column),
    )
}

fn left_sides_line(
    alloc: Global,
    file: &[u8],
    names: &[Name],
    column: u8,
) -> Result<Vec<u8>, OutOfMemory>
    requires column { column < length names.now }
    ensures line { IfOk result (λ text. text.items ≡ left_sides_text file.now names.now column) }
{
    let mut text = Vec::new(alloc);
    add(&mut text, b"refused: discover 7 at ")?;
    add(&mut text, file)?;
    add(&mut text, b": too many left sides for ")?;
    add_column(&mut text, names, column)?;
    add(&mut text, b"\n")?;
    Ok(text)
}

// The name of a column as it is printed, at the end of a text.
fn add_column(text: &mut Vec<u8>, names: &[Name], column: u8) -> Result<(), OutOfMemory>
    requires column { column < length names.now }
    ensures added { OnOk result (text.new.items ≡ text.old.items ++ column_text names.now column) }
{
    add_name(text, naming_under(names), &names[column as usize])
}

// Names, and dependencies over them, as the lines of a schema text.
fn rule_lines(alloc: Global, names: Vec<Name>, deps: &[Dep]) -> Result<Vec<u8>, OutOfMemory>
    requires header { IsColumnHeader names.items }
    requires within { All (IsDepWithin (below (length names.items))) deps.now }
    requires any_name { 0 < length names.items }
    ensures text { IfOk result (λ text. text.items ≡ rules_text names.items (dependencies_of deps.now)) }
{
    let schema = schema_of_columns(alloc, names)?;
    print_deps(alloc, &schema, deps)
}

// Text columns of these names as a schema without dependencies.
pub fn schema_of_columns(alloc: Global, names: Vec<Name>) -> Result<Schema, OutOfMemory>
    requires header { IsColumnHeader names.items }
    requires any_name { 0 < length names.items }
    ensures columns { IfOk result (HasTextColumns names.items) }
{
    let naming = naming_under(&names);
    let columns = text_columns(alloc, names.len())?;
    let nullable = AttrSet::empty();
    let deps = Vec::new(alloc);
    let lines = Vec::new(alloc);
    Ok(Schema::with_columns(naming, names, columns, nullable, deps, lines))
}

// This many text columns.
fn text_columns(alloc: Global, count: usize) -> Result<Vec<ColumnType>, OutOfMemory>
    ensures columns { IfOk result (λ columns. columns.items ≡ replicate count ColumnType.Text) }
{
    let mut columns = Vec::new(alloc);
    columns.resize(count, ColumnType::Text)?;
    Ok(columns)
}
