ghost use Rattle.std.specs.Prelude.{◌≡◌, ◌≤◌, ◌<◌, ◌^◌, ◌++◌, List, length, map, codes, All, IfOk, OnOk};
ghost use Rattle.std.specs.Fmt.{decimal};
ghost use Rattle.std.specs.List.{flat_map};
ghost use Rattle.named_tables.specs.Tables.{chosen_value, table_values};
ghost use Rattle.plans.specs.Plans.{IsPlanOver, plan_of};
ghost use Rattle.dep_model.specs.Projections.{Covers, IsLossless};
ghost use Rattle.attr_sets.specs.Attributes.{Attributes, IsSubset};
ghost use Rattle.attr_sets.specs.Sets.{attributes};
ghost use Rattle.schema_model.specs.Schemas.{LegalFor, nullable_of, theory_in, theory_of, universe_of, width_of};
ghost use Rattle.dep_model.specs.Tuples.{IsOver, Relation};
ghost use Rattle.schema_printer.specs.Printing.{words_text};
ghost use Rattle.schema_printer.specs.Spelling.{spelling};
ghost use Rattle.optional_tables.specs.LookUps.{IsTidyFor, empty_values, schemes_of_tables};
ghost use Rattle.desk_tables.specs.Migrations.{GivesTables, MigratesPlan, MigratesRows, migrated_text, table_line};
ghost use Rattle.desk_tables.specs.Tidiness.{HasPrimaryKey, IsKeyedDesign};
ghost use Rattle.desk_responses.specs.Responses.{response_value, RespondsAs};
ghost use Rattle.desk_texts.specs.Texts.{line};

use crate::keyed::keyed_design;
use crate::rows::test_rows;
use crate::tidiness::test_tidy;
use byte_texts::add;
use csv_migrate::tables;
use dep_model::OutOfMemory;
use desk_designs::test_loss;
use desk_responses::{EarlyExit, Response};
use desk_texts::line_of;
use itoa::Buffer;
use named_tables::{ChosenTable, ChosenTables};
use optional_tables::KeyedScheme;
use plans::{MOST_SCHEMES, Plan};
use row_store::{Hashing, Rows};
use schema_model::{Name, Naming, Schema};
use schema_printer::add_name;
use std::alloc::Global;
use table_names::MOST_TABLES;

/// Rows as tables of a plan, where it loses nothing.
pub fn migrate_by_plan(
    alloc: Global,
    hashing: Hashing,
    schema: &Schema,
    plan: &Plan,
    names: &[Option<Name>],
    rows: Rows,
) -> Result<Response, EarlyExit>
    requires universe { IsPlanOver (theory_in schema.now) plan.now }
    requires within_limit { length (plan_of plan.now) ≤ MOST_SCHEMES }
    requires covers { Covers (width_of schema.now) (plan_of plan.now) }
    requires over { IsOver (width_of schema.now) rows }
    requires fits_u32 { length rows < 2 ^ 32 }
    ensures response { RespondsAs (MigratesPlan schema.now names.now (plan_of plan.now) rows) result }
{
    match test_loss(alloc, schema, plan) {
        Ok(()) => {}
        Err(exit) => return Err(exit),
    }
    migrate_rows(alloc, hashing, schema, plan, names, rows)
}

/// Rows as tables of a plan that loses nothing, if they are legal.
pub fn migrate_rows(
    alloc: Global,
    hashing: Hashing,
    schema: &Schema,
    plan: &Plan,
    names: &[Option<Name>],
    rows: Rows,
) -> Result<Response, EarlyExit>
    requires over { IsOver (width_of schema.now) rows }
    requires fits_u32 { length rows < 2 ^ 32 }
    requires universe { IsPlanOver (theory_in schema.now) plan.now }
    requires lossless { IsLossless (width_of schema.now) (theory_of schema.now) (plan_of plan.now) }
    ensures response { RespondsAs (MigratesRows schema.now names.now (plan_of plan.now) rows) result }
{
    match test_rows(alloc, hashing, schema, &rows) {
        Ok(()) => {}
        Err(exit) => return Err(exit),
    }
    let design = keyed_design(alloc, schema, plan)?;
    match test_tidy(alloc, schema, &design, &rows) {
        Ok(()) => {}
        Err(exit) => return Err(exit),
    }
    Ok(tables_response(alloc, hashing, schema, &design, names, rows)?)
}

// Legal rows as the tables of a design.
fn tables_response(
    alloc: Global,
    hashing: Hashing,
    schema: &Schema,
    design: &[KeyedScheme],
    names: &[Option<Name>],
    rows: Rows,
) -> Result<Response, OutOfMemory>
    requires over { IsOver (width_of schema.now) rows }
    requires fits_u32 { length rows < 2 ^ 32 }
    requires legal { LegalFor schema.now rows }
    requires lossless { IsLossless (width_of schema.now) (theory_of schema.now) (schemes_of_tables design.now) }
    requires schemes_within { All (λ table. IsSubset (attributes table.scheme) (universe_of schema.now)) design.now }
    requires keys { All (HasPrimaryKey schema.now) design.now }
    requires within_limit { length design.now ≤ MOST_TABLES }
    requires tidy { All (IsTidyFor (empty_values (nullable_of schema.now)) rows) design.now }
    ensures response { (plan : List Attributes) → IsKeyedDesign schema.now plan design.now
        → IfOk result (λ response. GivesTables schema.now names.now plan rows (response_value response)) }
{
    let tables = tables(alloc, hashing, schema, design, names, rows)?;
    let text = migrated_lines(alloc, schema.naming(), &tables)?;
    Ok(Response::with_tables(text, tables))
}

// How many rows were read, and the tables that they became.
fn migrated_lines(
    alloc: Global,
    naming: Naming,
    tables: &ChosenTables,
) -> Result<Vec<u8>, OutOfMemory>
    ensures text { IfOk result
        (λ text. text.items ≡ migrated_text naming tables.now.rows (table_values tables.now)) }
{
    let mut text = read_line(alloc, tables.rows.len())?;
    put_tables(&mut text, naming, tables)?;
    Ok(text)
}

// How many rows were read.
fn read_line(alloc: Global, rows: usize) -> Result<Vec<u8>, OutOfMemory>
    ensures line { IfOk result (λ text. text.items ≡ line (codes "read " ++ decimal rows ++ codes " rows")) }
{
    line_of(
        alloc,
        b"read ",
        Buffer::new().format(rows).as_bytes(),
        b" rows",
    )
}

// A line for each table, at the end of a text.
fn put_tables(text: &mut Vec<u8>, naming: Naming, tables: &ChosenTables) -> Result<(), OutOfMemory>
    ensures added { OnOk result (text.new.items ≡ text.old.items
        ++ flat_map (λ table. table_line naming (chosen_value tables.now.rows table)) tables.now.tables.items) }
{
    for table in &tables.tables {
        put_table(text, naming, table)?;
    }
    Ok(())
}

// A table: its name, how many rows it has, and its columns.
fn put_table(text: &mut Vec<u8>, naming: Naming, table: &ChosenTable) -> Result<(), OutOfMemory>
    ensures added { (rows : Relation) → OnOk result (text.new.items ≡ text.old.items
        ++ table_line naming (chosen_value rows table.now)) }
{
    add(text, table.name.bytes())?;
    add(text, b" ")?;
    add(text, Buffer::new().format(table.chosen.len()).as_bytes())?;
    add(text, b" rows:")?;
    put_names(text, naming, &table.columns)?;
    add(text, b"\n")
}

// Names as they are printed, each after a blank, at the end of a text.
fn put_names(text: &mut Vec<u8>, naming: Naming, names: &[Name]) -> Result<(), OutOfMemory>
    ensures added { OnOk result (text.new.items
        ≡ text.old.items ++ words_text (map (spelling naming) names.now)) }
{
    for name in names {
        add(text, b" ")?;
        add_name(text, naming, name)?;
    }
    Ok(())
}
