//! The files of tables as those of a design: their keys, and the order of the design.

ghost use Rattle.std.specs.Prelude.{◌≡◌, ◌↔◌, ◌+◌, ◌++◌, ◌<◌, ◌≤◌, ◌^◌, true, ℕ, List, length, map, All, IfOk};
ghost use Rattle.std.specs.Prelude.{IsTrue, OnOk};
ghost use Rattle.std.specs.List.{AllZip, list_any};
ghost use Rattle.attr_sets.specs.Attributes.{IsSubset};
ghost use Rattle.attr_sets.specs.Sets.{attributes};
ghost use Rattle.dep_model.specs.Plans.{schemes_of};
ghost use Rattle.optional_tables.specs.LookUps.{schemes_of_tables};
ghost use Rattle.design_order.specs.Order.{DeterminesSoMany, grouped_below, with_number};
ghost use Rattle.optional_tables.specs.Homes.{is_optional};
ghost use Rattle.optional_tables.specs.Order.{members_at, positions_from};
ghost use Rattle.optional_tables.specs.Readable.{IsReadable};
ghost use Rattle.schema_model.specs.Schemas.{theory_of, universe_of, width_of};
ghost use Rattle.table_join.specs.Tables.{IsTable, plan_of_tables, tables_of, tables_of_lent};
ghost use Rattle.desk_tables.specs.Rejoining.{IsKeyedTable, in_order};

use crate::keyed::keyed_schemes;
use attr_sets::{AttrSet, MOST_ATTRIBUTES};
use csv_rows::PartialRows;
use dep_model::OutOfMemory;
use design_order::counts;
use optional_tables::{KeyedScheme, is_optional, is_readable};
use schema_model::Schema;
use std::alloc::Global;

/// The schemes of parts with their primary keys.
pub fn keyed_parts(
    alloc: Global,
    schema: &Schema,
    parts: &[PartialRows],
) -> Result<Vec<KeyedScheme>, OutOfMemory>
    requires tables { All (IsTable (width_of schema.now)) (tables_of parts.now) }
    ensures keys { IfOk result (λ keyed. AllZip (IsKeyedTable schema.now) (tables_of parts.now) keyed.items) }
{
    keyed_schemes(alloc, schema, &schemes_of(alloc, parts)?)
}

// The attributes of each part.
fn schemes_of(alloc: Global, parts: &[PartialRows]) -> Result<Vec<AttrSet>, OutOfMemory>
    ensures schemes { IfOk result (λ schemes. schemes_of schemes.items ≡ plan_of_tables (tables_of parts.now)) }
{
    let mut schemes = Vec::with_capacity(alloc, parts.len())?;
    for part in parts {
        schemes.push(part.scheme)?;
    }
    Ok(schemes)
}

/// Whether tables are a readable design that has an optional one.
pub fn has_look_ups(nullable: AttrSet, keyed: &[KeyedScheme]) -> bool
    ensures has { IsTrue result ↔ (IsReadable (attributes nullable) keyed.now
        × (list_any (is_optional (attributes nullable)) keyed.now ≡ true)) }
{
    any_is_optional(nullable, keyed) && is_readable(nullable, keyed)
}

// Whether one of some tables is optional.
fn any_is_optional(nullable: AttrSet, keyed: &[KeyedScheme]) -> bool
    ensures any { result ≡ list_any (is_optional (attributes nullable)) keyed.now }
{
    for k in 0..keyed.len() {
        if is_optional(nullable, keyed[k]) {
            return true;
        }
    }
    false
}

/// The positions of tables in the order of a design.
pub fn design_order(
    alloc: Global,
    schema: &Schema,
    tables: &[KeyedScheme],
) -> Result<Vec<usize>, OutOfMemory>
    requires schemes { All (λ table. IsSubset (attributes table.scheme) (universe_of schema.now)) tables.now }
    ensures order { IfOk result (λ order. (counts : List ℕ)
        × AllZip (DeterminesSoMany (width_of schema.now) (theory_of schema.now)) (schemes_of_tables tables.now) counts
        × (order.items ≡ in_order schema.now counts (positions_from (λ _. true) 0 counts))) }
    ensures within { IfOk result (λ order. All (λ k. k < length tables.now) order.items) }
{
    let counts = counts(alloc, &schema.theory(), &schemes_in(alloc, tables)?)?;
    in_order(alloc, schema.width(), &counts)
}

// The schemes of tables.
fn schemes_in(alloc: Global, tables: &[KeyedScheme]) -> Result<Vec<AttrSet>, OutOfMemory>
    ensures schemes { IfOk result (λ schemes. schemes.items ≡ map (λ table. table.scheme) tables.now) }
{
    let mut schemes = Vec::with_capacity(alloc, tables.len())?;
    for table in tables {
        schemes.push(table.scheme)?;
    }
    Ok(schemes)
}

// The positions of numbers, those of smaller ones first, where the greatest is at most this one.
fn in_order(alloc: Global, greatest: u8, numbers: &[u8]) -> Result<Vec<usize>, OutOfMemory>
    requires greatest { greatest ≤ MOST_ATTRIBUTES }
    ensures order { IfOk result (λ order. order.items
        ≡ grouped_below (greatest + 1) (positions_from (λ _. true) 0 numbers.now) numbers.now) }
{
    let mut order = Vec::with_capacity(alloc, numbers.len())?;
    for number in 0..greatest + 1 {
        add_group(&mut order, numbers, number)?;
    }
    Ok(order)
}

// Adds the positions at which a number stands.
fn add_group(order: &mut Vec<usize>, numbers: &[u8], number: u8) -> Result<(), OutOfMemory>
    ensures added { OnOk result (order.new.items ≡ order.old.items
        ++ with_number number (positions_from (λ _. true) 0 numbers.now) numbers.now) }
{
    for k in 0..numbers.len() {
        if numbers[k] == number {
            order.push(k)?;
        }
    }
    Ok(())
}

/// The tables at positions.
pub fn tables_at(
    alloc: Global,
    tables: &[KeyedScheme],
    positions: &[usize],
) -> Result<Vec<KeyedScheme>, OutOfMemory>
    requires within { All (λ k. k < length tables.now) positions.now }
    ensures members { IfOk result (λ v. v.items ≡ members_at tables.now positions.now) }
{
    let mut members = Vec::with_capacity(alloc, positions.len())?;
    for position in positions {
        members.push(tables[*position])?;
    }
    Ok(members)
}

/// The numbers at positions.
pub fn numbers_at(
    alloc: Global,
    numbers: &[usize],
    positions: &[usize],
) -> Result<Vec<usize>, OutOfMemory>
    requires within { All (λ k. k < length numbers.now) positions.now }
    ensures members { IfOk result (λ v. v.items ≡ members_at numbers.now positions.now) }
{
    let mut members = Vec::with_capacity(alloc, positions.len())?;
    for position in positions {
        members.push(numbers[*position])?;
    }
    Ok(members)
}

/// The parts at positions, each lent.
pub fn parts_at<'a>(
    alloc: Global,
    parts: &'a [PartialRows],
    positions: &[usize],
) -> Result<Vec<&'a PartialRows>, OutOfMemory>
    requires within { All (λ k. k < length parts.now) positions.now }
    ensures members { IfOk result (λ v. tables_of_lent v.items ≡ members_at (tables_of parts.now) positions.now) }
{
    let mut members = Vec::with_capacity(alloc, positions.len())?;
    for position in positions {
        members.push(&parts[*position])?;
    }
    Ok(members)
}
