ghost use Rattle.std.specs.Prelude.{◌≡◌, ◌<◌, ◌≤◌, ◌^◌, ◌↔◌, All, length, IfOk, IfErr};
ghost use Rattle.std.specs.List.{range_with_len};
ghost use Rattle.attr_sets.specs.Attributes.{Attributes, IsSubset, below};
ghost use Rattle.attr_sets.specs.declared.set.TheConstants.{MOST_ATTRIBUTES};
ghost use Rattle.candidate_search.specs.Sides.{IsTooManyLeftSides};
ghost use Rattle.dep_model.specs.Dependencies.{fd, ObeysFd};
ghost use Rattle.dep_model.specs.Deps.{IsDepWithin, dependencies_of};
ghost use Rattle.dep_model.specs.Failures.{RefusesAs};
ghost use Rattle.dep_model.specs.Implication.{Implies};
ghost use Rattle.dep_model.specs.Tuples.{IsOver};
ghost use Rattle.fd_discovery.specs.Minimal.{AreAllMinimal};
ghost use Rattle.fd_search.specs.Small.{AreAllSmall};

use crate::listing::in_order;
use candidate_search::{TooManyLeftSides, minimal_left_sides};
use dep_model::{Dep, Failure, OutOfMemory};
use fd_discovery::CodeColumns;
use row_store::{Hashing, Rows};
use std::alloc::Global;

/// All minimal functional dependencies that rows of `width` columns obey, as `fd_discovery::discover`
/// gives them, found by candidates and evidence: for wide rows. Or a refusal, where evidence of the rows
/// has too many candidates for a column.
pub fn minimal_dependencies(
    alloc: Global,
    hashing: Hashing,
    width: u8,
    rows: &Rows,
) -> Result<Vec<Dep>, Failure<TooManyLeftSides>>
    requires width { width ≤ MOST_ATTRIBUTES }
    requires over { IsOver width rows.now }
    requires fits_u32 { length rows.now < 2 ^ 32 }
    ensures minimal { IfOk result (λ found. AreAllMinimal width rows.now (dependencies_of found.items)) }
    ensures implied { (x y : Attributes) → IsSubset x (below width) → IsSubset y (below width)
        → IfOk result (λ found.
        Implies width (dependencies_of found.items) (fd x y) ↔ ObeysFd x y rows.now) }
    ensures within { IfOk result (λ found. All (IsDepWithin (below width)) found.items) }
    ensures refusal { IfErr result (RefusesAs (IsTooManyLeftSides width width rows.now)) }
{
    let found = small_dependencies(alloc, hashing, width, width, rows)?;
    Ok(found)
}

/// Those of at most `most` attributes on the left.
pub fn small_dependencies(
    alloc: Global,
    hashing: Hashing,
    width: u8,
    most: u8,
    rows: &Rows,
) -> Result<Vec<Dep>, Failure<TooManyLeftSides>>
    requires width { width ≤ MOST_ATTRIBUTES }
    requires most { most ≤ MOST_ATTRIBUTES }
    requires over { IsOver width rows.now }
    requires fits_u32 { length rows.now < 2 ^ 32 }
    ensures small { IfOk result (λ found. AreAllSmall width most rows.now (dependencies_of found.items)) }
    ensures within { IfOk result (λ found. All (IsDepWithin (below width)) found.items) }
    ensures refusal { IfErr result (RefusesAs (IsTooManyLeftSides width most rows.now)) }
{
    let table = CodeColumns::new(alloc, hashing, width, rows)?;
    let rights = columns(alloc, width)?;
    let sides = minimal_left_sides(alloc, &table, width, most, &rights, &[])?;
    Ok(in_order(alloc, width, most, &sides)?)
}

// The columns below `width`, ascending.
fn columns(alloc: Global, width: u8) -> Result<Vec<u8>, OutOfMemory>
    ensures columns { IfOk result (λ columns. columns.items ≡ range_with_len 0 width) }
{
    let mut columns = Vec::with_capacity(alloc, width as usize)?;
    for column in 0..width {
        columns.push(column)?;
    }
    Ok(columns)
}
