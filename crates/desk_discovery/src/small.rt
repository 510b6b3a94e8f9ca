ghost use Rattle.std.specs.Prelude.{◌≤◌, ◌<◌, length, All, IfOk, IfErr};
ghost use Rattle.attr_sets.specs.Attributes.{below};
ghost use Rattle.attr_sets.specs.declared.set.TheConstants.{MOST_ATTRIBUTES};
ghost use Rattle.candidate_search.specs.Sides.{IsTooManyLeftSides};
ghost use Rattle.dep_model.specs.Deps.{dependencies_of, IsDepWithin};
ghost use Rattle.dep_model.specs.Failures.{RefusesAs};
ghost use Rattle.dep_model.specs.Tuples.{IsOver};
ghost use Rattle.headed_rows.specs.Headers.{IsColumnHeader};
ghost use Rattle.headed_rows.specs.Headings.{headed_of};
ghost use Rattle.row_store.specs.declared.limits.TheConstants.{MOST_HEADED_ROWS, WIDEST_HEADED};
ghost use Rattle.fd_search.specs.Small.{AreAllSmall};
ghost use Rattle.desk_discovery.specs.Discoveries.{FindsSmallRules};
ghost use Rattle.desk_discovery.specs.declared.discovering.TheConstants.{WIDEST_TRIED};
ghost use Rattle.desk_responses.specs.Responses.{RespondsAs};

use crate::discovering::{WIDEST_TRIED, left_sides_exit, rules_response};
use arguments::Argument;
use candidate_search::TooManyLeftSides;
use dep_model::{Dep, Failure, OutOfMemory};
use desk_responses::{EarlyExit, Response};
use fd_discovery::discover;
use fd_search::{few_on_the_left, small_dependencies};
use headed_rows::Headed;
use near_rules::near_rules;
use row_store::{Hashing, Rows};
use std::alloc::Global;

/// The minimal functional dependencies of rows that have at most `most` attributes on the left, under the
/// names of their columns.
pub fn discover_small_rules(
    alloc: Global,
    hashing: Hashing,
    file: &Argument,
    headed: Headed,
    most: u8,
) -> Result<Response, EarlyExit>
    requires most { most ≤ MOST_ATTRIBUTES }
    requires header { IsColumnHeader headed.names.items }
    requires any_name { 0 < length headed.names.items }
    requires same_width { IsOver (length headed.names.items) headed.rows }
    requires within_limit { length headed.rows ≤ MOST_HEADED_ROWS }
    ensures response { RespondsAs (FindsSmallRules most file.now (headed_of headed)) result }
{
    let Headed { names, rows } = headed;
    match small_rules_of(alloc, hashing, names.len() as u8, most, &rows) {
        Ok(deps) => Ok(rules_response(alloc, names, &deps)?),
        Err(Failure::Refused(refusal)) => Err(left_sides_exit(alloc, file, &names, refusal.right)),
        Err(Failure::OutOfMemory) => Err(EarlyExit::OutOfMemory),
    }
}

// Those dependencies.
fn small_rules_of(
    alloc: Global,
    hashing: Hashing,
    width: u8,
    most: u8,
    rows: &Rows,
) -> Result<Vec<Dep>, Failure<TooManyLeftSides>>
    requires width { width ≤ WIDEST_HEADED }
    requires most { most ≤ MOST_ATTRIBUTES }
    requires over { IsOver width rows.now }
    requires within_limit { length rows.now ≤ MOST_HEADED_ROWS }
    ensures small { IfOk result (λ found. AreAllSmall width most rows.now (dependencies_of found.items)) }
    ensures within { IfOk result (λ found. All (IsDepWithin (below width)) found.items) }
    ensures wide { IfErr result (RefusesAs (λ _. WIDEST_TRIED < width)) }
    ensures refusal { IfErr result (RefusesAs (IsTooManyLeftSides width most rows.now)) }
{
    if width <= WIDEST_TRIED {
        let found = rules_of_few_columns(alloc, hashing, width, most, rows)?;
        return Ok(found);
    }
    small_dependencies(alloc, hashing, width, most, rows)
}

// The most attributes on the left with which they are sought as those that nearly hold are, so that no larger set is
// tried. Which way is taken is a matter of speed alone.
const FEW_ON_THE_LEFT: u8 = 1;

// The same of few columns: with few attributes on the left as what nearly holds where no row may go, else from all sets.
fn rules_of_few_columns(
    alloc: Global,
    hashing: Hashing,
    width: u8,
    most: u8,
    rows: &Rows,
) -> Result<Vec<Dep>, OutOfMemory>
    requires width { width ≤ WIDEST_HEADED }
    requires over { IsOver width rows.now }
    requires within_limit { length rows.now ≤ MOST_HEADED_ROWS }
    ensures small { IfOk result (λ found. AreAllSmall width most rows.now (dependencies_of found.items)) }
    ensures within { IfOk result (λ found. All (IsDepWithin (below width)) found.items) }
{
    if most <= FEW_ON_THE_LEFT {
        match near_rules(alloc, hashing, width, rows, 0, most) {
            Ok(found) => return Ok(found.deps),
            Err(Failure::OutOfMemory) => return Err(OutOfMemory),
            Err(Failure::Refused(_)) => {}
        }
    }
    let all = discover(alloc, hashing, width, rows)?;
    few_on_the_left(alloc, most, &all)
}
