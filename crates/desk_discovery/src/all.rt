ghost use Rattle.std.specs.Prelude.{◌≤◌, ◌<◌, length};
ghost use Rattle.dep_model.specs.Tuples.{IsOver};
ghost use Rattle.headed_rows.specs.Headers.{IsHeaderWithin};
ghost use Rattle.headed_rows.specs.Headings.{headed_of};
ghost use Rattle.row_store.specs.declared.limits.TheConstants.{MOST_ROWS_WITH_ALL, WIDEST_WITH_ALL};
ghost use Rattle.desk_discovery.specs.AllDiscoveries.{FindsAllRules};
ghost use Rattle.desk_responses.specs.Responses.{RespondsAs};

use crate::discovering::rules_response;
use desk_responses::{EarlyExit, Response};
use headed_rows::Headed;
use mvd_discovery::discover_all;
use row_store::Hashing;
use std::alloc::Global;

/// All dependencies that rows obey, under the names of their columns.
pub fn discover_all_rules(
    alloc: Global,
    hashing: Hashing,
    headed: Headed,
) -> Result<Response, EarlyExit>
    requires header { IsHeaderWithin WIDEST_WITH_ALL headed.names.items }
    requires any_name { 0 < length headed.names.items }
    requires same_width { IsOver (length headed.names.items) headed.rows }
    requires within_limit { length headed.rows ≤ MOST_ROWS_WITH_ALL }
    ensures response { RespondsAs (FindsAllRules (headed_of headed)) result }
{
    let Headed { names, rows } = headed;
    let deps = discover_all(alloc, hashing, names.len() as u8, &rows)?;
    Ok(rules_response(alloc, names, &deps)?)
}
