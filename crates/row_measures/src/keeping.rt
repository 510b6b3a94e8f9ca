ghost use Rattle.std.specs.Prelude.{◌≡◌, ◌<◌, ◌≤◌, ◌&&◌, ℕ, All, true, length, replicate, IfOk};
ghost use Rattle.attr_sets.specs.Attributes.{below};
ghost use Rattle.row_groups.specs.Interning.{IsInterned};
ghost use Rattle.dep_model.specs.Deps.{IsDepWithin, dependencies_of};
ghost use Rattle.legality.specs.Parts.{AreBelow, flag_at};
ghost use Rattle.removal_laws.specs.Classes.{in_chosen};
ghost use Rattle.row_measures.specs.Answers.{AreKeptFlags};

use crate::by_class::sort_by_class;
use attr_sets::MOST_ATTRIBUTES;
use dep_model::{Dep, OutOfMemory};
use row_groups::Interned;
use row_store::Rows;
use std::alloc::Global;

/// For each row whether no functional dependency removes it: it is in the chosen class of its group for
/// each. Where all are functional, these rows alone obey them.
pub fn kept_rows(
    alloc: Global,
    rows: &Rows,
    width: u8,
    codes: &Interned,
    deps: &[Dep],
) -> Result<Vec<bool>, OutOfMemory>
    requires width { width ≤ MOST_ATTRIBUTES }
    requires codes { IsInterned width rows.now codes.now }
    requires deps { All (IsDepWithin (below width)) deps.now }
    ensures kept { IfOk result (λ v. AreKeptFlags (dependencies_of deps.now) rows.now v.items) }
{
    let mut kept = all_flags(alloc, rows.len())?;
    for dep in deps {
        match *dep {
            Dep::Fd { lhs, rhs } => {
                let sorted = sort_by_class(alloc, rows, width, codes, lhs, rhs)?;
                remove_outside(
                    &mut kept,
                    sorted.groups.numbers(),
                    sorted.classes.numbers(),
                    &sorted.chosen,
                );
            }
            Dep::Mvd { .. } => {}
        }
    }
    Ok(kept)
}

// This many flags, all of which are set.
fn all_flags(alloc: Global, count: usize) -> Result<Vec<bool>, OutOfMemory>
    ensures set { IfOk result (λ v. v.items ≡ replicate count true) }
{
    let mut flags = Vec::new(alloc);
    flags.resize(count, true)?;
    Ok(flags)
}

// The rows outside the chosen class of their group are kept no more.
fn remove_outside(kept: &mut Vec<bool>, groups: &[u32], classes: &[u32], chosen: &[u32])
    requires kept { length kept.old.items ≡ length groups.now }
    requires same_length { length classes.now ≡ length groups.now }
    requires groups { AreBelow groups.now (length chosen.now) }
    ensures count { length kept.new.items ≡ length kept.old.items }
    ensures kept { (i : ℕ) → i < length groups.now → flag_at kept.new.items i
        ≡ (flag_at kept.old.items i && in_chosen groups.now classes.now chosen.now i) }
{
    for row in 0..groups.len() {
        if classes[row] != chosen[groups[row] as usize] {
            kept[row] = false;
        }
    }
}
