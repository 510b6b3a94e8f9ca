//! The text of the schema of a table.

ghost use Rattle.std.specs.Prelude.{◌≡◌, ◌<◌, ◌++◌, ◌∷◌, [], length, map, IfErr, IfOk, Ok, OnOk};
ghost use Rattle.dep_model.specs.Deps.{dependency_of};
ghost use Rattle.schema_model.specs.Schemas.{naming_of, names_of, types_of, nullable_of, deps_of};
ghost use Rattle.schema_model.specs.declared.naming.Naming.TheVariants.{Any};
ghost use Rattle.schema_model.specs.Schemas.{Schema};
ghost use Rattle.schema_printer.specs.Printing.{lines_text};
ghost use Rattle.schema_printer.specs.Spelling.{printed_names_of};
ghost use Rattle.sql_definitions.specs.Facts.{AreColumns, Fails};
ghost use Rattle.sql_schemas.specs.KeyValues.{key_columns};
ghost use Rattle.sql_schemas.specs.Keys.{key_dependency, new_keys};
ghost use Rattle.sql_schemas.specs.Texts.{IsSchemaOf, column_names, column_types, comment_front, comment_text, key_line, table_text, text_of_facts};

use crate::keys::{TableKey, is_dependency, is_primary, keys_of, new_keys};
use crate::missing::columns_missing;
use attr_sets::AttrSet;
use byte_texts::add;
use dep_model::{Dep, Failure, OutOfMemory};
use schema_model::{ColumnType, Name, Naming, Schema};
use schema_printer::{add_dep, add_set, print_deps};
use sql_definitions::{Column, Definition, Refusal};
use std::alloc::Global;

/// The text of the schema of a table; or the refusal of the first part of a key that names no column.
pub fn print_table(alloc: Global, definition: &Definition) -> Result<Vec<u8>, Failure<Refusal>>
    requires any_column { 0 < length definition.now.columns }
    ensures ok { IfOk result (λ text. text_of_facts definition.now ≡ Ok text.items) }
    ensures err { IfErr result (λ failure. Fails failure (text_of_facts definition.now)) }
{
    let keys = keys_of(alloc, definition)?;
    let text = table_text(alloc, definition.columns(), &keys)?;
    Ok(text)
}

// The text of the schema of a table of these columns and keys.
#[tactic(auto, unfolding(crate::specs::Texts::table_text))]
fn table_text(alloc: Global, columns: &[Column], keys: &[TableKey]) -> Result<Vec<u8>, OutOfMemory>
    requires columns { AreColumns columns.now }
    requires any_column { 0 < length columns.now }
    ensures text { IfOk result (λ text. text.items ≡ table_text columns.now (map key_columns keys.now)) }
{
    let schema = schema_of_table(alloc, columns, keys)?;
    let mut text = print_deps(alloc, &schema, schema.deps())?;
    let kept = new_keys(alloc, schema.width(), schema.nullable(), keys)?;
    add_key_lines(&mut text, &schema, &kept)?;
    Ok(text)
}

// The schema of these columns, without dependencies.
fn schema_of_table(
    alloc: Global,
    columns: &[Column],
    keys: &[TableKey],
) -> Result<Schema, OutOfMemory>
    requires columns { AreColumns columns.now }
    requires any_column { 0 < length columns.now }
    ensures schema { IfOk result (IsSchemaOf columns.now (map key_columns keys.now)) }
{
    let names = column_names(alloc, columns)?;
    let types = column_types(alloc, columns)?;
    let nullable = columns_missing(columns, keys);
    let deps = Vec::new(alloc);
    let lines = Vec::new(alloc);
    Ok(Schema::with_columns(Naming::Any, names, types, nullable, deps, lines))
}

fn column_names(alloc: Global, columns: &[Column]) -> Result<Vec<Name>, OutOfMemory>
    ensures names { IfOk result (λ names. names.items ≡ column_names columns.now) }
{
    let mut names = Vec::new(alloc);
    for column in columns {
        names.push(*column.name())?;
    }
    Ok(names)
}

fn column_types(alloc: Global, columns: &[Column]) -> Result<Vec<ColumnType>, OutOfMemory>
    ensures types { IfOk result (λ types. types.items ≡ column_types columns.now) }
{
    let mut types = Vec::new(alloc);
    for column in columns {
        types.push(column.kind())?;
    }
    Ok(types)
}

// The lines of keys, at the end of a text.
fn add_key_lines(text: &mut Vec<u8>, schema: &Schema, keys: &[TableKey]) -> Result<(), OutOfMemory>
    ensures added { OnOk result (text.new.items ≡ text.old.items ++ lines_text
        (map (key_line (printed_names_of schema.now) (nullable_of schema.now)) (map key_columns keys.now))) }
{
    for key in keys {
        add_key_line(text, schema, key)?;
        add(text, b"\n")?;
    }
    Ok(())
}

// The line of a key, without its end.
#[tactic(auto, unfolding(crate::specs::Texts::key_line))]
fn add_key_line(text: &mut Vec<u8>, schema: &Schema, key: &TableKey) -> Result<(), OutOfMemory>
    ensures added { OnOk result (text.new.items ≡ text.old.items
        ++ key_line (printed_names_of schema.now) (nullable_of schema.now) (key_columns key.now)) }
{
    if is_dependency(schema.nullable(), key) {
        add_dep(text, schema, key_dependency(schema, key))
    } else {
        add_comment(text, schema, key)
    }
}

// A key determines all other columns.
fn key_dependency(schema: &Schema, key: &TableKey) -> Dep
    ensures dependency { dependency_of result
        ≡ key_dependency (length (printed_names_of schema.now)) (key_columns key.now) }
{
    Dep::Fd {
        lhs: key.columns,
        rhs: AttrSet::full(schema.width()).difference(key.columns),
    }
}

// The comment of a key that states no dependency.
fn add_comment(text: &mut Vec<u8>, schema: &Schema, key: &TableKey) -> Result<(), OutOfMemory>
    ensures added { OnOk result (text.new.items ≡ text.old.items
        ++ comment_text (printed_names_of schema.now) (key_columns key.now)) }
{
    add(text, comment_front(is_primary(key.kind)))?;
    add_set(text, schema, key.columns)?;
    add(text, b": missing values are not compared")
}

// By what a key is stated, in a comment.
fn comment_front(primary: bool) -> &'static [u8]
    ensures front { result.now ≡ comment_front primary }
{
    if primary {
        b"# PRIMARY KEY "
    } else {
        b"# UNIQUE "
    }
}
