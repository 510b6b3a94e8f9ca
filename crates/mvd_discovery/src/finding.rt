ghost use Rattle.std.specs.Prelude.{◌≡◌, ◌<◌, ◌≤◌, ◌^◌, ◌++◌, length, All, IfOk, OnOk};
ghost use Rattle.attr_sets.specs.Attributes.{below};
ghost use Rattle.dep_model.specs.Deps.{IsDepWithin, dependencies_of};
ghost use Rattle.dep_model.specs.Tuples.{IsOver};
ghost use Rattle.row_store.specs.declared.limits.TheConstants.{WIDEST_WITH_ALL};
ghost use Rattle.mvd_laws.specs.Covers.{IsCoverOfAll};
ghost use Rattle.mvd_discovery.specs.Finding.{AreAllRules};

use crate::counts::Counts;
use crate::reduced::reduced_dependencies;
use dep_model::{Dep, OutOfMemory};
use fd_discovery::discover;
use min_cover::nonredundant_from;
use row_store::{Hashing, Rows};
use std::alloc::Global;

/// All that rows of `width` columns obey: their minimal functional dependencies, then the reduced multivalued ones, by
/// left side ascending and for one left side by the first attribute of the right side, without those that the others
/// imply.
pub fn discover_all(
    alloc: Global,
    hashing: Hashing,
    width: u8,
    rows: &Rows,
) -> Result<Vec<Dep>, OutOfMemory>
    requires width { width ≤ WIDEST_WITH_ALL }
    requires over { IsOver width rows.now }
    requires fits_u32 { length rows.now < 2 ^ 32 }
    ensures rules { IfOk result (λ found. AreAllRules width rows.now (dependencies_of found.items)) }
    ensures cover { IfOk result (λ found. IsCoverOfAll width rows.now (dependencies_of found.items)) }
    ensures within { IfOk result (λ found. All (IsDepWithin (below width)) found.items) }
{
    let mut found = discover(alloc, hashing, width, rows)?;
    let from = found.len();
    let counts = Counts::count(alloc, hashing, width, rows)?;
    let reduced = reduced_dependencies(alloc, &counts)?;
    add_all(&mut found, &reduced)?;
    nonredundant_from(alloc, width, found, from)
}

// Adds dependencies at the end of a list.
fn add_all(found: &mut Vec<Dep>, more: &[Dep]) -> Result<(), OutOfMemory>
    ensures added { OnOk result (found.new.items ≡ found.old.items ++ more.now) }
{
    for dep in more {
        found.push(*dep)?;
    }
    Ok(())
}
