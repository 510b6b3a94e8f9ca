ghost use Rattle.std.specs.Prelude.{◌≡◌, ◌<◌, ◌++◌, length, All, IfOk, OnOk};
ghost use Rattle.std.specs.List.{flat_map};
ghost use Rattle.attr_sets.specs.Sets.{attributes};
ghost use Rattle.dep_model.specs.Plans.{schemes_of};
ghost use Rattle.ddl_text.specs.Designs.{ReferToEarlier};
ghost use Rattle.ddl_text.specs.Ddl.{left_out_keys, left_out_words, remarks_made, table_made, ddl_text};
ghost use Rattle.sql_syntax.specs.Statements.{remark, statement_text, script_text};

use crate::elements::add_elements;
use crate::other_keys::may_be_missing;
use crate::{DesignList, TableDesign};
use attr_sets::AttrSet;
use byte_texts::add;
use dep_model::OutOfMemory;
use schema_model::Schema;
use sql_syntax::{add_name_list, add_quoted};
use std::alloc::Global;

/// A `CREATE TABLE` statement for each table of a design, in order: its columns, its key, if this is not
/// empty, its other keys and its references. A table with an empty key has a comment before it, since SQL knows
/// no such key; so has one whose other keys are not looked for, and one for each other key of which a value
/// may be missing, which is not stated.
pub fn print_ddl(
    alloc: Global,
    schema: &Schema,
    design: &DesignList,
) -> Result<Vec<u8>, OutOfMemory>
    ensures text { IfOk result (λ text. text.items ≡ ddl_text schema.now design.now) }
{
    let mut text = Vec::new(alloc);
    add_tables(&mut text, schema, design.tables())?;
    Ok(text)
}

// Adds the statements that create these tables.
fn add_tables(
    text: &mut Vec<u8>,
    schema: &Schema,
    tables: &[TableDesign],
) -> Result<(), OutOfMemory>
    requires earlier { ReferToEarlier tables.now }
    ensures added { OnOk result (text.new.items ≡ text.old.items
        ++ flat_map (λ table. script_text (table_made schema.now tables.now table)) tables.now) }
{
    for table in tables {
        add_table(text, schema, tables, table)?;
    }
    Ok(())
}

// Adds the statement that creates a table.
fn add_table(
    text: &mut Vec<u8>,
    schema: &Schema,
    tables: &[TableDesign],
    table: &TableDesign,
) -> Result<(), OutOfMemory>
    requires refs { All (λ j. j < length tables.now) table.now.refs.items }
    ensures added { OnOk result (text.new.items
        ≡ text.old.items ++ script_text (table_made schema.now tables.now table.now)) }
{
    add_comment(text, schema, table)?;
    add(text, b"CREATE TABLE ")?;
    add_quoted(text, &table.name)?;
    add(text, b" (\n")?;
    add_elements(text, schema, tables, table)?;
    add(text, b"\n);\n")
}

// Adds what stands before the statement of a table.
fn add_comment(text: &mut Vec<u8>, schema: &Schema, table: &TableDesign) -> Result<(), OutOfMemory>
    ensures added { OnOk result
        (text.new.items ≡ text.old.items ++ script_text (remarks_made schema.now table.now)) }
{
    if table.key.is_empty() {
        return add(text, b"-- at most one row\n");
    }
    match &table.other_keys {
        Some(keys) => add_left_out_keys(text, schema, keys),
        None => add(text, b"-- further keys are not looked for\n"),
    }
}

// Adds a line for each key of which a value may be missing.
fn add_left_out_keys(
    text: &mut Vec<u8>,
    schema: &Schema,
    keys: &[AttrSet],
) -> Result<(), OutOfMemory>
    ensures added { OnOk result (text.new.items ≡ text.old.items
        ++ flat_map (λ key. statement_text (remark (left_out_words schema.now key)))
        (left_out_keys schema.now (schemes_of keys.now))) }
{
    for key in keys {
        if !may_be_missing(schema, *key) {
            continue;
        }
        add_left_out_key(text, schema, *key)?;
    }
    Ok(())
}

// Adds the line for such a key.
fn add_left_out_key(text: &mut Vec<u8>, schema: &Schema, key: AttrSet) -> Result<(), OutOfMemory>
    ensures added { OnOk result (text.new.items
        ≡ text.old.items ++ statement_text (remark (left_out_words schema.now (attributes key)))) }
{
    add(text, b"-- UNIQUE (")?;
    add_name_list(text, schema, key)?;
    add(text, b") is left out: missing values are not compared\n")
}
