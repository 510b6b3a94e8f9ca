ghost use Rattle.std.specs.Prelude.{◌≡◌, ◌<◌, ◌≤◌, ◌^◌, ◌↔◌, All, length, IfOk};
ghost use Rattle.attr_sets.specs.Attributes.{Attributes, IsSubset, below};
ghost use Rattle.dep_model.specs.Dependencies.{fd, ObeysFd};
ghost use Rattle.dep_model.specs.Deps.{IsDepWithin, dependencies_of};
ghost use Rattle.dep_model.specs.Implication.{Implies};
ghost use Rattle.dep_model.specs.Tuples.{IsOver};
ghost use Rattle.fd_discovery.specs.Minimal.{AreAllMinimal};

use crate::searching::{add_minimal, search_above};
use crate::table::CodeColumns;
use attr_sets::AttrSet;
use dep_model::{Dep, OutOfMemory};
use row_store::{Hashing, Rows, WIDEST_HEADED};
use std::alloc::Global;

/// All minimal functional dependencies that rows of `width` columns obey, each with one attribute on
/// its right side: those whose left side no proper subset could replace. They stand by left side
/// ascending, and for one left side by attribute ascending.
///
/// Sets are tried from the empty one on, so that one from which an attribute follows is the first of
/// those that hold it (Huhtala, Kärkkäinen, Porkka and Toivonen 1999). It is meant for few columns: each
/// column more may double the sets that are tried.
pub fn discover(
    alloc: Global,
    hashing: Hashing,
    width: u8,
    rows: &Rows,
) -> Result<Vec<Dep>, OutOfMemory>
    requires width { width ≤ WIDEST_HEADED }
    requires over { IsOver width rows.now }
    requires fits_u32 { length rows.now < 2 ^ 32 }
    ensures minimal { IfOk result (λ found. AreAllMinimal width rows.now (dependencies_of found.items)) }
    ensures implied { (x y : Attributes) → IsSubset x (below width) → IsSubset y (below width)
        → IfOk result (λ found.
        Implies width (dependencies_of found.items) (fd x y) ↔ ObeysFd x y rows.now) }
    ensures within { IfOk result (λ found. All (IsDepWithin (below width)) found.items) }
{
    let table = CodeColumns::new(alloc, hashing, width, rows)?;
    let leaders = Vec::from_elem(alloc, 0, rows.len())?;
    let none = AttrSet::empty();
    let all = AttrSet::full(width);
    let mut found = Vec::new(alloc);
    add_minimal(&table, &leaders, none, all, &mut found)?;
    search_above(alloc, &table, &leaders, none, width, &mut found)?;
    Ok(found)
}
