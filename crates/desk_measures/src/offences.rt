ghost use Rattle.std.specs.Prelude.{◌≡◌, ◌<◌, ◌^◌, ◌++◌, length, IfOk, OnOk};
ghost use Rattle.std.specs.List.{flat_map};
ghost use Rattle.attr_sets.specs.Sets.{attributes};
ghost use Rattle.row_groups.specs.Interning.{IsInterned};
ghost use Rattle.csv_text.specs.Rows.{csv_row};
ghost use Rattle.dep_model.specs.Deps.{IsDepWithin, dependency_of};
ghost use Rattle.schema_model.specs.Schemas.{universe_of, width_of};
ghost use Rattle.dep_model.specs.Tuples.{IsOver};
ghost use Rattle.desk_responses.specs.Responses.{response_value, RespondsAs};
ghost use Rattle.desk_measures.specs.Findings.{Adds};
ghost use Rattle.desk_measures.specs.Offences.{ArePartLines, AreRowLines, ListsBelow, ListsOffences};
ghost use Rattle.desk_measures.specs.Offences.{ListsOffencesByRow, part_fields, row_fields, shown_of};
ghost use Rattle.desk_measures.specs.BreachFindings.{Tells};

use crate::fields::{
    push_names, take_broken_row, take_part, take_part_headings, take_row_headings,
};
use crate::telling::{Told, put_each, status_of};
use attr_sets::AttrSet;
use csv_text::add_row;
use dep_model::{Dep, OutOfMemory};
use desk_responses::{EarlyExit, Response};
use row_groups::Interned;
use row_measures::{BrokenPart, BrokenRow, broken_parts, broken_rows};
use row_store::{FlatValues, Hashing, Rows};
use schema_model::Schema;
use std::alloc::Global;

/// The classes of the groups that break a functional dependency, and the groups that break a
/// multivalued one, as CSV.
pub fn list_offences(
    alloc: Global,
    hashing: Hashing,
    schema: &Schema,
    rows: &Rows,
) -> Result<Response, EarlyExit>
    requires over { IsOver (width_of schema.now) rows.now }
    requires fits_u32 { length rows.now < 2 ^ 32 }
    ensures response { RespondsAs (ListsOffences schema.now rows.now) result }
{
    Ok(parts_response(alloc, hashing, schema, rows)?)
}

/// The rows of the groups that break a dependency, as CSV.
pub fn list_offences_by_row(
    alloc: Global,
    hashing: Hashing,
    schema: &Schema,
    rows: &Rows,
) -> Result<Response, EarlyExit>
    requires over { IsOver (width_of schema.now) rows.now }
    requires fits_u32 { length rows.now < 2 ^ 32 }
    ensures response { RespondsAs (ListsOffencesByRow schema.now rows.now) result }
{
    Ok(rows_response(alloc, hashing, schema, rows)?)
}

fn parts_response(
    alloc: Global,
    hashing: Hashing,
    schema: &Schema,
    rows: &Rows,
) -> Result<Response, OutOfMemory>
    requires over { IsOver (width_of schema.now) rows.now }
    requires fits_u32 { length rows.now < 2 ^ 32 }
    ensures response { IfOk result
        (λ response. ListsOffences schema.now rows.now (response_value response)) }
{
    let mut fields = FlatValues::new(alloc);
    take_part_headings(&mut fields)?;
    list_below(alloc, hashing, schema, rows, &mut fields, Told::Classes)
}

fn rows_response(
    alloc: Global,
    hashing: Hashing,
    schema: &Schema,
    rows: &Rows,
) -> Result<Response, OutOfMemory>
    requires over { IsOver (width_of schema.now) rows.now }
    requires fits_u32 { length rows.now < 2 ^ 32 }
    ensures response { IfOk result
        (λ response. ListsOffencesByRow schema.now rows.now (response_value response)) }
{
    let mut fields = FlatValues::new(alloc);
    take_row_headings(&mut fields)?;
    list_below(alloc, hashing, schema, rows, &mut fields, Told::Rows)
}

// Headings and the names of the attributes, and below them what is told of each dependency.
fn list_below(
    alloc: Global,
    hashing: Hashing,
    schema: &Schema,
    rows: &Rows,
    headings: &mut FlatValues,
    told: Told,
) -> Result<Response, OutOfMemory>
    requires over { IsOver (width_of schema.now) rows.now }
    requires fits_u32 { length rows.now < 2 ^ 32 }
    ensures response { IfOk result (λ response.
        ListsBelow schema.now headings.old (Tells told schema.now rows.now)
        (response_value response)) }
{
    let codes = Interned::intern(alloc, hashing, schema.width(), rows)?;
    let mut text = Vec::new(alloc);
    push_names(headings, schema)?;
    add_row(&mut text, headings)?;
    let clean = put_each(alloc, &mut text, schema, rows, &codes, told)?;
    Ok(Response::with_text(status_of(clean), text))
}

// The lines of the classes and groups of one dependency.
pub fn put_parts_of(
    alloc: Global,
    text: &mut Vec<u8>,
    fields: &mut FlatValues,
    schema: &Schema,
    rows: &Rows,
    codes: &Interned,
    k: usize,
    dep: Dep,
) -> Result<bool, OutOfMemory>
    requires codes { IsInterned (width_of schema.now) rows.now codes.now }
    requires dep { IsDepWithin (universe_of schema.now) dep }
    ensures added { IfOk result (λ clean.
        Adds (ArePartLines schema.now rows.now k (dependency_of dep))
        text.old.items text.new.items clean) }
{
    let parts = broken_parts(alloc, rows, schema.width(), codes, dep)?;
    put_part_lines(text, fields, schema, rows, k, shown_of(dep), &parts)?;
    Ok(parts.len() == 0)
}

// The attributes whose values are shown of a class, or of a group.
fn shown_of(dep: Dep) -> AttrSet
    ensures shown { attributes result ≡ shown_of (dependency_of dep) }
{
    match dep {
        Dep::Fd { lhs, rhs } => lhs.union(rhs),
        Dep::Mvd { lhs, .. } => lhs,
    }
}

// A line for each class or group.
fn put_part_lines(
    text: &mut Vec<u8>,
    fields: &mut FlatValues,
    schema: &Schema,
    rows: &Rows,
    k: usize,
    shown: AttrSet,
    parts: &[BrokenPart],
) -> Result<(), OutOfMemory>
    ensures added { OnOk result (text.new.items ≡ text.old.items
        ++ flat_map (λ part. csv_row (part_fields schema.now rows.now k (attributes shown) part))
        parts.now) }
{
    for part in parts {
        take_part(fields, schema, rows, k, shown, *part)?;
        add_row(text, fields)?;
    }
    Ok(())
}

// The lines of the rows of one dependency.
pub fn put_rows_of(
    alloc: Global,
    text: &mut Vec<u8>,
    fields: &mut FlatValues,
    schema: &Schema,
    rows: &Rows,
    codes: &Interned,
    k: usize,
    dep: Dep,
) -> Result<bool, OutOfMemory>
    requires codes { IsInterned (width_of schema.now) rows.now codes.now }
    requires dep { IsDepWithin (universe_of schema.now) dep }
    ensures added { IfOk result (λ clean.
        Adds (AreRowLines schema.now rows.now k (dependency_of dep))
        text.old.items text.new.items clean) }
{
    let broken = broken_rows(alloc, rows, schema.width(), codes, dep)?;
    put_row_lines(text, fields, schema, rows, k, &broken)?;
    Ok(broken.len() == 0)
}

// A line for each row.
fn put_row_lines(
    text: &mut Vec<u8>,
    fields: &mut FlatValues,
    schema: &Schema,
    rows: &Rows,
    k: usize,
    broken: &[BrokenRow],
) -> Result<(), OutOfMemory>
    ensures added { OnOk result (text.new.items ≡ text.old.items
        ++ flat_map (λ row. csv_row (row_fields schema.now rows.now k row)) broken.now) }
{
    for row in broken {
        take_broken_row(fields, schema, rows, k, *row)?;
        add_row(text, fields)?;
    }
    Ok(())
}
