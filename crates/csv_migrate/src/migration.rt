ghost use Rattle.std.specs.Prelude.{◌≡◌, ◌<◌, ◌≤◌, ◌^◌, false, length, map, All, IfOk};
ghost use Rattle.attr_sets.specs.Attributes.{IsSubset, below};
ghost use Rattle.attr_sets.specs.Sets.{attributes};
ghost use Rattle.csv_migrate.specs.Migration.{JoinIs, ReadsBack, column_names, nullable_columns, tables_of_migration};
ghost use Rattle.csv_migrate.specs.Migration.{schemes_in, table_of};
ghost use Rattle.named_tables.specs.Choices.{HasRows};
ghost use Rattle.named_tables.specs.Tables.{chosen_value, chosen_values, table_values};
ghost use Rattle.optional_tables.specs.Homes.{is_optional};
ghost use Rattle.optional_tables.specs.LookUps.{empty_values, schemes_of_tables, CanBeReadBack, IsTidyFor};
ghost use Rattle.row_groups.specs.Interning.{IsInterned};
ghost use Rattle.dep_model.specs.Projections.{IsLossless};
ghost use Rattle.schema_model.specs.Schemas.{LegalFor, nullable_of, theory_of, width_of};
ghost use Rattle.dep_model.specs.Tuples.{IsOver};

use crate::complete::complete_rows;
use attr_sets::AttrSet;
use dep_model::OutOfMemory;
use named_tables::{ChosenTable, ChosenTables};
use optional_tables::KeyedScheme;
use row_groups::{Groups, Interned};
use row_store::{Hashing, Rows};
use schema_model::{Name, Schema};
use std::alloc::Global;
use table_names::{MOST_TABLES, name_of_table};

/// For each scheme of a design, in order, the table of the distinct projections on it of the rows
/// that miss no value of its key, each at the position of its first occurrence. The tables have the
/// names that are given to them in order, and `t1`, `t2` and so on where none is; the columns of a
/// table are the attributes of its scheme, ascending. If the rows are legal, the design is lossless
/// and can be read back, and where a table lacks a row nothing is lost with it, then exactly the
/// rows are read back from the tables; where each row has its own in each table, this is their
/// natural join.
pub fn tables(
    alloc: Global,
    hashing: Hashing,
    schema: &Schema,
    design: &[KeyedScheme],
    names: &[Option<Name>],
    rows: Rows,
) -> Result<ChosenTables, OutOfMemory>
    requires over { IsOver (width_of schema.now) rows }
    requires fits_u32 { length rows < 2 ^ 32 }
    requires schemes_within { All
        (λ table. IsSubset (attributes table.scheme) (below (width_of schema.now))) design.now }
    requires keys_within { All (λ table. IsSubset (attributes table.key) (attributes table.scheme)) design.now }
    requires within_limit { length design.now ≤ MOST_TABLES }
    ensures rows { IfOk result (λ v. v.rows ≡ rows) }
    ensures tables { IfOk result (λ v.
        table_values v ≡ tables_of_migration schema.now names.now design.now rows) }
    ensures schemes { IfOk result (λ v. schemes_in v.tables.items ≡ map (λ table. table.scheme) design.now) }
    ensures reads_back { LegalFor schema.now rows
        → CanBeReadBack (width_of schema.now) (theory_of schema.now) (nullable_of schema.now) design.now
        → All (IsTidyFor (empty_values (nullable_of schema.now)) rows) design.now
        → IfOk result (λ v.
        ReadsBack (width_of schema.now) (nullable_of schema.now) design.now (table_values v) rows) }
    ensures joins { LegalFor schema.now rows
        → IsLossless (width_of schema.now) (theory_of schema.now) (schemes_of_tables design.now)
        → All (λ table. is_optional (nullable_of schema.now) table ≡ false) design.now
        → IfOk result (λ v.
        JoinIs (width_of schema.now) (schemes_of_tables design.now) (table_values v) rows) }
{
    let tables = tables_of(alloc, hashing, schema, design, names, &rows)?;
    Ok(ChosenTables { rows, tables })
}

// The same tables, of rows that stay where they are.
fn tables_of(
    alloc: Global,
    hashing: Hashing,
    schema: &Schema,
    design: &[KeyedScheme],
    names: &[Option<Name>],
    rows: &Rows,
) -> Result<Vec<ChosenTable>, OutOfMemory>
    requires over { IsOver (width_of schema.now) rows.now }
    requires fits_u32 { length rows.now < 2 ^ 32 }
    requires schemes_within { All
        (λ table. IsSubset (attributes table.scheme) (below (width_of schema.now))) design.now }
    requires keys_within { All (λ table. IsSubset (attributes table.key) (attributes table.scheme)) design.now }
    requires within_limit { length design.now ≤ MOST_TABLES }
    ensures tables { IfOk result (λ v.
        chosen_values rows.now v.items ≡ tables_of_migration schema.now names.now design.now rows.now) }
    ensures schemes { IfOk result (λ v. schemes_in v.items ≡ map (λ table. table.scheme) design.now) }
    ensures even { IfOk result (λ v. All (HasRows rows.now) v.items) }
{
    let codes = Interned::intern(alloc, hashing, schema.width(), rows)?;
    let mut tables = Vec::with_capacity(alloc, design.len())?;
    for k in 0..design.len() {
        let table = table(alloc, schema, names, rows, &codes, k as u32, design[k])?;
        tables.push(table)?;
    }
    Ok(tables)
}

// The table at this position, on a scheme with a key.
fn table(
    alloc: Global,
    schema: &Schema,
    names: &[Option<Name>],
    rows: &Rows,
    codes: &Interned,
    position: u32,
    keyed: KeyedScheme,
) -> Result<ChosenTable, OutOfMemory>
    requires over { IsOver (width_of schema.now) rows.now }
    requires codes { IsInterned (width_of schema.now) rows.now codes.now }
    requires scheme { IsSubset (attributes keyed.scheme) (below (width_of schema.now)) }
    requires key { IsSubset (attributes keyed.key) (attributes keyed.scheme) }
    requires within_limit { position < MOST_TABLES }
    ensures value { IfOk result (λ t. chosen_value rows.now t
        ≡ table_of schema.now names.now rows.now position keyed) }
    ensures scheme { IfOk result (λ t. t.scheme ≡ keyed.scheme) }
    ensures even { IfOk result (λ t. HasRows rows.now t) }
{
    let groups = Groups::by_agreement(alloc, codes, keyed.scheme)?;
    let columns = columns(alloc, schema, keyed.scheme)?;
    let nullable = nullable_columns(alloc, schema, keyed)?;
    let name = name_of_table(names, position);
    let chosen = complete_rows(
        alloc,
        rows,
        schema.width(),
        schema.nullable(),
        keyed.key,
        groups.into_firsts(),
    )?;
    Ok(ChosenTable {
        name,
        columns,
        nullable,
        scheme: keyed.scheme,
        chosen,
    })
}

// The names of the attributes of a scheme.
#[tactic(auto, using(crate::proofs::ProjectionLemmas::name_steps))]
fn columns(alloc: Global, schema: &Schema, scheme: AttrSet) -> Result<Vec<Name>, OutOfMemory>
    ensures names { IfOk result (λ v. v.items ≡ column_names schema.now (attributes scheme)) }
{
    let mut names = Vec::with_capacity(alloc, scheme.len() as usize)?;
    for attribute in 0..schema.width() {
        if scheme.contains(attribute) {
            names.push(*schema.name(attribute))?;
        }
    }
    Ok(names)
}

// Whether a value of each attribute of a table may be missing there.
fn nullable_columns(
    alloc: Global,
    schema: &Schema,
    keyed: KeyedScheme,
) -> Result<Vec<bool>, OutOfMemory>
    ensures flags { IfOk result (λ v. v.items ≡ nullable_columns schema.now keyed) }
{
    let nullable = schema.nullable().difference(keyed.key);
    let mut flags = Vec::with_capacity(alloc, keyed.scheme.len() as usize)?;
    for attribute in 0..schema.width() {
        if !keyed.scheme.contains(attribute) {
            continue;
        }
        let may_be_missing = nullable.contains(attribute);
        flags.push(may_be_missing)?;
    }
    Ok(flags)
}
