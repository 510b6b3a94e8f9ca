ghost use Rattle.std.specs.Prelude.{◌≡◌, ◌<◌, ℕ, if◌then◌else◌, List, length, not, filter, reverse, [], ◌∷◌, ◌++◌, get_or, All, IfOk, OnOk};
ghost use Rattle.std.specs.List.{remove};
ghost use Rattle.attr_sets.specs.Sets.{attributes};
ghost use Rattle.dep_model.specs.JoinOrders.{put_first};
ghost use Rattle.optional_tables.specs.Homes.{is_optional};
ghost use Rattle.optional_tables.specs.Order.{always_filled, optional_positions, members_at, is_ready_at, look_up_order};

use crate::KeyedScheme;
use crate::homes::{has_home, is_optional};
use attr_sets::AttrSet;
use dep_model::OutOfMemory;
use std::alloc::Global;

/// The positions of the tables that are not optional, ascending.
pub fn always_filled(
    alloc: Global,
    nullable: AttrSet,
    tables: &[KeyedScheme],
) -> Result<Vec<usize>, OutOfMemory>
    ensures positions { IfOk result (λ found. found.items ≡ always_filled (attributes nullable) tables.now) }
    ensures within { IfOk result (λ found. All (λ k. k < length tables.now) found.items) }
{
    let mut found = Vec::new(alloc);
    for k in 0..tables.len() {
        push_if(&mut found, !is_optional(nullable, tables[k]), k)?;
    }
    Ok(found)
}

// The positions of the optional tables, ascending.
fn optional_positions(
    alloc: Global,
    nullable: AttrSet,
    tables: &[KeyedScheme],
) -> Result<Vec<usize>, OutOfMemory>
    ensures positions { IfOk result (λ found. found.items ≡ optional_positions (attributes nullable) tables.now) }
{
    let mut found = Vec::new(alloc);
    for k in 0..tables.len() {
        push_if(&mut found, is_optional(nullable, tables[k]), k)?;
    }
    Ok(found)
}

// Adds a position, where it is wanted.
fn push_if(found: &mut Vec<usize>, wanted: bool, k: usize) -> Result<(), OutOfMemory>
    ensures added { OnOk result (found.new.items ≡ found.old.items ++ (if wanted then k ∷ [] else [])) }
{
    if wanted {
        found.push(k)?;
    }
    Ok(())
}

// The tables that are not optional.
fn filled_tables(
    alloc: Global,
    nullable: AttrSet,
    tables: &[KeyedScheme],
) -> Result<Vec<KeyedScheme>, OutOfMemory>
    ensures tables { IfOk result
        (λ filled. filled.items ≡ filter (λ table. not (is_optional (attributes nullable) table)) tables.now) }
{
    let mut filled = Vec::new(alloc);
    for table in tables {
        if !is_optional(nullable, *table) {
            filled.push(*table)?;
        }
    }
    Ok(filled)
}

/// The positions of the optional tables in the order in which they are looked up: each time the last that is left whose
/// home is joined.
pub fn look_up_order(
    alloc: Global,
    nullable: AttrSet,
    tables: &[KeyedScheme],
) -> Result<Vec<usize>, OutOfMemory>
    ensures order { IfOk result (λ order. order.items ≡ look_up_order (attributes nullable) tables.now) }
    ensures within { IfOk result (λ order. All (λ k. k < length tables.now) order.items) }
{
    let filled = filled_tables(alloc, nullable, tables)?;
    let waiting = optional_from_last(alloc, nullable, tables)?;
    looked_up(alloc, nullable, tables, filled, waiting)
}

// The positions of the optional tables from the last.
fn optional_from_last(
    alloc: Global,
    nullable: AttrSet,
    tables: &[KeyedScheme],
) -> Result<Vec<usize>, OutOfMemory>
    ensures positions { IfOk result
        (λ found. found.items ≡ reverse (optional_positions (attributes nullable) tables.now)) }
{
    let mut found = optional_positions(alloc, nullable, tables)?;
    found.reverse();
    Ok(found)
}

// The positions that wait, each time the first that is left whose home is joined to those that are filled.
fn looked_up(
    alloc: Global,
    nullable: AttrSet,
    tables: &[KeyedScheme],
    filled: Vec<KeyedScheme>,
    waiting: Vec<usize>,
) -> Result<Vec<usize>, OutOfMemory>
    requires filled { filled.items ≡ members_at tables.now (always_filled (attributes nullable) tables.now) }
    requires waiting { waiting.items ≡ reverse (optional_positions (attributes nullable) tables.now) }
    ensures order { IfOk result (λ order. order.items ≡ look_up_order (attributes nullable) tables.now) }
{
    let mut joined = filled;
    let mut left = waiting;
    let mut order = Vec::new(alloc);
    for _round in 0..left.len() {
        let k = left.remove(first_ready(nullable, tables, &joined, &left));
        joined.insert(0, tables[k])?;
        order.push(k)?;
    }
    Ok(order)
}

// The place of the first table that is left whose home is joined; of the first, where none is.
fn first_ready(
    nullable: AttrSet,
    tables: &[KeyedScheme],
    joined: &[KeyedScheme],
    left: &[usize],
) -> usize
    requires not_empty { 0 < length left.now }
    requires positions { All (λ k. k < length tables.now) left.now }
    ensures first { (positions : List ℕ) (k : ℕ) → members_at tables.now positions ≡ joined.now
        → get_or left.now result k ∷ remove left.now result
        ≡ put_first (is_ready_at (attributes nullable) tables.now positions) [] left.now }
    ensures within { result < length left.now }
{
    for i in 0..left.len() {
        if has_home(nullable, joined, tables[left[i]]) {
            return i;
        }
    }
    0
}
