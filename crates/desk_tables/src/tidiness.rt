//! Rows of which a table would lose a value, since it has no row for one that misses a value of its key.

ghost use Rattle.std.specs.Prelude.{◌≡◌, ◌+◌, ◌<◌, ◌≤◌, ◌^◌, ◌++◌, length, All, IfErr, IfOk, MatchOption, OnOk};
ghost use Rattle.std.specs.List.{flat_map};
ghost use Rattle.attr_sets.specs.Attributes.{Attributes, IsEmpty, IsFirstFrom, IsSubset, below};
ghost use Rattle.attr_sets.specs.Sets.{attributes};
ghost use Rattle.dep_model.specs.Tuples.{IsOver, value_at};
ghost use Rattle.optional_tables.specs.LookUps.{IsTidyFor, empty_values};
ghost use Rattle.optional_tables.specs.Order.{if_there};
ghost use Rattle.row_store.specs.Rows.{row_at};
ghost use Rattle.schema_model.specs.Schemas.{nullable_of, universe_of, width_of};
ghost use Rattle.desk_responses.specs.declared.status.Status.TheVariants.{No};
ghost use Rattle.desk_responses.specs.ResponseValues.{Says};
ghost use Rattle.desk_responses.specs.Responses.{ExitsAs};
ghost use Rattle.desk_tables.specs.Tidiness.{AreUntidy, FindsUntidy, HasPrimaryKey, IsTidyRow, IsUntidyAt};
ghost use Rattle.desk_tables.specs.Tidiness.{LosesValues, missing_among, present_among, untidy_text, untidy_texts};

use attr_sets::{AttrSet, MOST_ATTRIBUTES};
use byte_texts::{add, add_number};
use dep_model::OutOfMemory;
use desk_responses::{EarlyExit, Status, put_name};
use optional_tables::{KeyedScheme, is_optional};
use row_store::Rows;
use schema_model::Schema;
use std::alloc::Global;

/// A row of which a table would lose a value: its number, counted from 1; the first attribute of the table's key of
/// which it misses the value; and the first one beside the key of which it has one.
#[derive(Clone, Copy, Debug)]
pub struct Untidy {
    pub row: u32,
    pub missing: u8,
    pub present: u8,
}

/// The test that no table of a design would lose a value of some rows.
pub fn test_tidy(
    alloc: Global,
    schema: &Schema,
    design: &[KeyedScheme],
    rows: &Rows,
) -> Result<(), EarlyExit>
    requires over { IsOver (width_of schema.now) rows.now }
    requires fits_u32 { length rows.now < 2 ^ 32 }
    requires keys { All (HasPrimaryKey schema.now) design.now }
    requires schemes_within { All
        (λ table. IsSubset (attributes table.scheme) (universe_of schema.now)) design.now }
    ensures ok { IfOk result (λ _. All (IsTidyFor (empty_values (nullable_of schema.now)) rows.now) design.now) }
    ensures exit { IfErr result (ExitsAs (LosesValues schema.now design.now rows.now)) }
{
    let found = untidy_rows(alloc, schema, design, rows)?;
    if found.is_empty() {
        return Ok(());
    }
    Err(untidy_exit(alloc, schema, &found))
}

// What is found for tables, in their order.
fn untidy_rows(
    alloc: Global,
    schema: &Schema,
    design: &[KeyedScheme],
    rows: &Rows,
) -> Result<Vec<Untidy>, OutOfMemory>
    requires over { IsOver (width_of schema.now) rows.now }
    requires fits_u32 { length rows.now < 2 ^ 32 }
    requires keys { All (HasPrimaryKey schema.now) design.now }
    requires schemes_within { All
        (λ table. IsSubset (attributes table.scheme) (universe_of schema.now)) design.now }
    ensures found { IfOk result (λ found.
        AreUntidy (empty_values (nullable_of schema.now)) rows.now design.now found.items) }
{
    let mut found = Vec::new(alloc);
    for k in 0..design.len() {
        let first = first_untidy(schema.width(), schema.nullable(), design[k], rows);
        add_found(&mut found, first)?;
    }
    Ok(found)
}

// Adds what is found for a table, if there is something.
fn add_found(found: &mut Vec<Untidy>, first: Option<Untidy>) -> Result<(), OutOfMemory>
    ensures added { OnOk result (found.new.items ≡ found.old.items ++ if_there first) }
{
    match first {
        Some(untidy) => Ok(found.push(untidy)?),
        None => Ok(()),
    }
}

// What is found for a table.
fn first_untidy(width: u8, nullable: AttrSet, table: KeyedScheme, rows: &Rows) -> Option<Untidy>
    requires width { width ≤ MOST_ATTRIBUTES }
    requires over { IsOver width rows.now }
    requires fits_u32 { length rows.now < 2 ^ 32 }
    requires scheme { IsSubset (attributes table.scheme) (below width) }
    requires key { IsSubset (attributes table.key) (below width) }
    ensures found { FindsUntidy (empty_values (attributes nullable)) rows.now table result }
{
    if !is_optional(nullable, table) {
        return None;
    }
    for row in 0..rows.len() {
        match untidy_at(width, nullable, table, rows, row) {
            Some(found) => return Some(found),
            None => {}
        }
    }
    None
}

// What is found at a row, for a table.
fn untidy_at(
    width: u8,
    nullable: AttrSet,
    table: KeyedScheme,
    rows: &Rows,
    row: usize,
) -> Option<Untidy>
    requires width { width ≤ MOST_ATTRIBUTES }
    requires over { IsOver width rows.now }
    requires row { row < length rows.now }
    requires fits_u32 { length rows.now < 2 ^ 32 }
    requires scheme { IsSubset (attributes table.scheme) (below width) }
    requires key { IsSubset (attributes table.key) (below width) }
    ensures found { MatchOption result (IsTidyRow (empty_values (attributes nullable)) table (row_at rows.now row))
        (λ found. (found.row ≡ row + 1)
        × IsUntidyAt (empty_values (attributes nullable)) table (row_at rows.now row) found) }
{
    let beside = table.scheme.difference(table.key);
    let missing = match first_missing(width, nullable, table.key, rows, row) {
        Some(attribute) => attribute,
        None => return None,
    };
    match first_present(width, nullable, beside, rows, row) {
        Some(present) => Some(Untidy {
            row: row as u32 + 1,
            missing,
            present,
        }),
        None => None,
    }
}

// The first attribute of a set of which a row misses the value.
fn first_missing(width: u8, nullable: AttrSet, set: AttrSet, rows: &Rows, row: usize) -> Option<u8>
    requires width { width ≤ MOST_ATTRIBUTES }
    requires over { IsOver width rows.now }
    requires row { row < length rows.now }
    requires set { IsSubset (attributes set) (below width) }
    ensures first { MatchOption result
        (IsEmpty (missing_among (empty_values (attributes nullable)) (attributes set) (row_at rows.now row)))
        (λ a. IsFirstFrom (missing_among (empty_values (attributes nullable)) (attributes set)
        (row_at rows.now row)) 0 a) }
{
    for attribute in 0..width {
        if set.contains(attribute) && is_missing(nullable, rows, row, attribute) {
            return Some(attribute);
        }
    }
    None
}

// The first attribute of a set of which a row has a value.
fn first_present(width: u8, nullable: AttrSet, set: AttrSet, rows: &Rows, row: usize) -> Option<u8>
    requires width { width ≤ MOST_ATTRIBUTES }
    requires over { IsOver width rows.now }
    requires row { row < length rows.now }
    requires set { IsSubset (attributes set) (below width) }
    ensures first { MatchOption result
        (IsEmpty (present_among (empty_values (attributes nullable)) (attributes set) (row_at rows.now row)))
        (λ a. IsFirstFrom (present_among (empty_values (attributes nullable)) (attributes set)
        (row_at rows.now row)) 0 a) }
{
    for attribute in 0..width {
        if set.contains(attribute) && !is_missing(nullable, rows, row, attribute) {
            return Some(attribute);
        }
    }
    None
}

// Whether a row misses the value of an attribute.
fn is_missing(nullable: AttrSet, rows: &Rows, row: usize, attribute: u8) -> bool
    requires attribute { attribute < MOST_ATTRIBUTES }
    requires row { row < length rows.now }
    requires position { attribute < length (row_at rows.now row) }
    ensures missing { result
        ≡ empty_values (attributes nullable) attribute (value_at (row_at rows.now row) attribute) }
{
    nullable.contains(attribute) && rows.value(row, attribute as usize).is_empty()
}

// Tables would lose values of rows.
fn untidy_exit(alloc: Global, schema: &Schema, found: &[Untidy]) -> EarlyExit
    ensures says { ExitsAs (Says No (untidy_texts schema.now found.now)) result }
{
    EarlyExit::with_text(Status::No, untidy_lines(alloc, schema, found))
}

fn untidy_lines(alloc: Global, schema: &Schema, found: &[Untidy]) -> Result<Vec<u8>, OutOfMemory>
    ensures text { IfOk result (λ text. text.items ≡ untidy_texts schema.now found.now) }
{
    let mut text = Vec::new(alloc);
    for each in found {
        add(&mut text, &untidy_line(alloc, schema, *each)?)?;
    }
    Ok(text)
}

fn untidy_line(alloc: Global, schema: &Schema, found: Untidy) -> Result<Vec<u8>, OutOfMemory>
    ensures text { IfOk result (λ text. text.items ≡ untidy_text schema.now found) }
{
    let mut text = Vec::new(alloc);
    add(&mut text, b"row ")?;
    add_number(&mut text, alloc, found.row)?;
    add(&mut text, b": ")?;
    put_name(&mut text, schema, found.missing)?;
    add(&mut text, b" is missing and ")?;
    put_name(&mut text, schema, found.present)?;
    add(&mut text, b" is not\n")?;
    Ok(text)
}
