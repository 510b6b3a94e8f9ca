ghost use Rattle.std.specs.Prelude.{◌≡◌, ◌<◌, ◌≤◌, ℕ, length, take, IsTrue, IfOk};
ghost use Rattle.attr_sets.specs.Attributes.{IsSubset, below};
ghost use Rattle.attr_sets.specs.Sets.{attributes};
ghost use Rattle.dep_model.specs.Tuples.{Relation};
ghost use Rattle.near_rules.specs.Searching.{AreSought, IsSoughtNear};

use crate::found::Sought;
use attr_sets::AttrSet;
use dep_model::OutOfMemory;
use row_groups::Groups;
use row_measures::error_within;
use row_store::{FlatValues, Rows, take_row};
use std::alloc::Global;

// How many rows are looked at first.
const FRONT: usize = 4_000;

// The first rows. Whatever must go of them must go of all rows too, so most of what is not near is seen by these few.
// How many they are is a matter of speed alone.
pub fn front_rows(alloc: Global, rows: &Rows) -> Result<Rows, OutOfMemory>
    ensures rows { IfOk result (λ front.
        (count : ℕ) × (count ≤ length rows.now) × (front ≡ take count rows.now)) }
{
    let mut front = Rows::new(alloc);
    let mut row = FlatValues::new(alloc);
    let count = rows.len().min(FRONT);
    for i in 0..count {
        take_row(&mut row, rows, i)?;
        front.push(&row)?;
    }
    Ok(front)
}

// Whether a set is not near for an attribute even among the first rows. It is a matter of speed alone: where the answer
// is no, all rows are asked.
pub fn is_far(
    alloc: Global,
    sought: &Sought,
    set: AttrSet,
    attribute: u8,
) -> Result<bool, OutOfMemory>
    requires rows { (r : Relation) × AreSought r sought.now }
    requires set { IsSubset (attributes set) (below sought.now.width) }
    requires attribute { attribute < sought.now.rights }
    ensures far { (r : Relation) → AreSought r sought.now
        → IfOk result (λ far. IsTrue far → IsSoughtNear sought.now r (attributes set) attribute → ⊥) }
{
    let groups = Groups::by_agreement(alloc, &sought.front, set)?;
    let error = error_within(alloc, &sought.front, &groups, attribute)?;
    Ok(error > sought.limit as u64)
}
