ghost use Rattle.std.specs.Prelude.{◌≡◌, ◌+◌, ◌<◌, ◌^◌, length, slice_index_or, IfOk, IfErr};
ghost use Rattle.attr_sets.specs.declared.set.TheConstants.{MOST_ATTRIBUTES};
ghost use Rattle.candidate_search.specs.declared.side.Side.{Side};
ghost use Rattle.dep_model.specs.Failures.{RefusesAs};
ghost use Rattle.dep_model.specs.Plans.{schemes_of};
ghost use Rattle.dep_model.specs.Tuples.{IsOver, Relation};
ghost use Rattle.fd_discovery.specs.Leaders.{IsTableOfRows};
ghost use Rattle.fd_search.specs.Keys.{AreRowKeys, HasTooManyKeys};
ghost use Rattle.fd_search.specs.Numbered.{AreNumbered};

use crate::numbered::numbered;
use attr_sets::AttrSet;
use candidate_search::{Side, minimal_left_sides};
use dep_model::{Failure, OutOfMemory};
use fd_discovery::CodeColumns;
use row_store::{Hashing, Rows};
use std::alloc::Global;

/// Some evidence of the rows has more candidates for keys than are kept.
#[derive(Clone, Copy, Debug, PartialEq, Eq, Hash, Drop)]
pub struct TooManyKeys;

/// All minimal keys of rows of `width` columns, in the order of sets; or, where evidence of the rows has too
/// many candidates, a refusal. Rows that are equal count once. The rows are let go before the search.
pub fn row_keys(
    alloc: Global,
    hashing: Hashing,
    width: u8,
    rows: Rows,
) -> Result<Vec<AttrSet>, Failure<TooManyKeys>>
    requires width { width < MOST_ATTRIBUTES }
    requires over { IsOver width rows }
    requires fits_u32 { length rows < 2 ^ 32 }
    ensures keys { IfOk result (λ keys. AreRowKeys width rows (schemes_of keys.items)) }
    ensures refusal { IfErr result (RefusesAs (λ _. HasTooManyKeys width rows)) }
{
    let table = numbered_table(alloc, hashing, width, rows)?;
    let rights = [width];
    match minimal_left_sides(alloc, &table, width + 1, width, &rights, &[]) {
        Ok(sides) => Ok(lefts_of_first(sides)),
        Err(Failure::Refused(_)) => Err(Failure::Refused(TooManyKeys)),
        Err(Failure::OutOfMemory) => Err(Failure::OutOfMemory),
    }
}

// The numbers of rows with one column more, in which they agree exactly where they are equal.
fn numbered_table(
    alloc: Global,
    hashing: Hashing,
    width: u8,
    rows: Rows,
) -> Result<CodeColumns, OutOfMemory>
    requires width { width < MOST_ATTRIBUTES }
    requires over { IsOver width rows }
    requires fits_u32 { length rows < 2 ^ 32 }
    ensures table { IfOk result (λ table. (made : Relation) × AreNumbered width rows made
        × IsTableOfRows (width + 1) made table) }
{
    let made = numbered(alloc, hashing, width, rows)?;
    CodeColumns::new(alloc, hashing, width + 1, &made)
}

// The left sides of the first attribute.
fn lefts_of_first(sides: Vec<Side>) -> Vec<AttrSet>
    requires some { 0 < length sides.items }
    ensures lefts { (d : Side) → result ≡ (slice_index_or sides.items 0 d).lefts }
{
    let mut sides = sides;
    sides.swap_remove(0).lefts
}
