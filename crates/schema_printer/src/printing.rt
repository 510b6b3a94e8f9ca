ghost use Rattle.std.specs.Prelude.{◌≡◌, ◌-◌, [], ◌∷◌, slice_index_or, codes, ◌++◌, if◌then◌else◌, ◌<◌, map, decimal, IfOk, IsTrue, OnOk, All};
ghost use Rattle.std.specs.List.{list_any};
ghost use Rattle.attr_sets.specs.Attributes.{IsSubset};
ghost use Rattle.attr_sets.specs.Sets.{attributes};
ghost use Rattle.dep_model.specs.Deps.{dependency_of, dependencies_of, IsDepWithin};
ghost use Rattle.schema_model.specs.Columns.{is_column_type};
ghost use Rattle.schema_model.specs.Schemas.{naming_of, width_of, types_of, nullable_of, universe_of};
ghost use Rattle.schema_printer.specs.Printing.{set_text, dependency_text, members_from, schema_text, schema_lines, nullable_lines, declaring_lines, lines_text, words_text, run_line, runs_of, type_word, same_column, is_integer};
ghost use Rattle.schema_printer.specs.Spelling.{spelling, printed_names_of};
ghost use Rattle.schema_model.specs.Names.{quoted};

use crate::spelling::{add_name, add_quoted};
use attr_sets::AttrSet;
use byte_texts::{add, add_digit};
use dep_model::{Dep, OutOfMemory};
use schema_model::{ColumnType, Name, Naming, Schema};
use std::alloc::Global;

/// The lines that declare the schema's attributes, and a line for each of these dependencies.
#[tactic(auto, unfolding(crate::specs::Printing::schema_text))]
pub fn print_deps(alloc: Global, schema: &Schema, deps: &[Dep]) -> Result<Vec<u8>, OutOfMemory>
    requires { All (IsDepWithin (universe_of schema.now)) deps.now }
    ensures text { IfOk result
        (λ text. text.items ≡ schema_text schema.now (dependencies_of deps.now)) }
{
    let mut text = Vec::new(alloc);
    add_declarations(&mut text, schema)?;
    add_deps(&mut text, schema, deps)?;
    Ok(text)
}

/// The dependency, without a line end.
pub fn print_dep(alloc: Global, schema: &Schema, dep: Dep) -> Result<Vec<u8>, OutOfMemory>
    requires { IsDepWithin (universe_of schema.now) dep }
    ensures text { IfOk result
        (λ text. text.items ≡ dependency_text (printed_names_of schema.now) (dependency_of dep)) }
{
    let mut text = Vec::new(alloc);
    add_dep(&mut text, schema, dep)?;
    Ok(text)
}

/// The names of the set's members in ascending order, one blank between, or `()` for the empty set.
pub fn print_set(alloc: Global, schema: &Schema, set: AttrSet) -> Result<Vec<u8>, OutOfMemory>
    requires { IsSubset (attributes set) (universe_of schema.now) }
    ensures text { IfOk result (λ text. text.items ≡ set_text (printed_names_of schema.now) (attributes set)) }
{
    let mut text = Vec::new(alloc);
    add_set(&mut text, schema, set)?;
    Ok(text)
}

/// Adds a dependency to a text, without a line end.
#[tactic(auto, unfolding(crate::specs::Printing::dependency_text))]
pub fn add_dep(text: &mut Vec<u8>, schema: &Schema, dep: Dep) -> Result<(), OutOfMemory>
    ensures added { OnOk result (text.new.items
        ≡ text.old.items ++ dependency_text (printed_names_of schema.now) (dependency_of dep)) }
{
    match dep {
        Dep::Fd { lhs, rhs } => add_sides(text, schema, lhs, b" -> ", rhs),
        Dep::Mvd { lhs, rhs } => add_sides(text, schema, lhs, b" ->> ", rhs),
    }
}

/// Adds a line for each dependency to a text.
pub fn add_deps(text: &mut Vec<u8>, schema: &Schema, deps: &[Dep]) -> Result<(), OutOfMemory>
    ensures added { OnOk result (text.new.items ≡ text.old.items
        ++ lines_text (map (dependency_text (printed_names_of schema.now)) (dependencies_of deps.now))) }
{
    for dep in deps {
        add_dep(text, schema, *dep)?;
        add(text, b"\n")?;
    }
    Ok(())
}

fn add_sides(
    text: &mut Vec<u8>,
    schema: &Schema,
    lhs: AttrSet,
    arrow: &[u8],
    rhs: AttrSet,
) -> Result<(), OutOfMemory>
    ensures added { OnOk result (text.new.items
        ≡ text.old.items ++ (set_text (printed_names_of schema.now) (attributes lhs) ++ arrow.now
        ++ set_text (printed_names_of schema.now) (attributes rhs))) }
{
    add_set(text, schema, lhs)?;
    add(text, arrow)?;
    add_set(text, schema, rhs)
}

/// Adds the names of a set's members to a text, or `()`.
pub fn add_set(text: &mut Vec<u8>, schema: &Schema, set: AttrSet) -> Result<(), OutOfMemory>
    ensures added { OnOk result (text.new.items
        ≡ text.old.items ++ set_text (printed_names_of schema.now) (attributes set)) }
{
    let mut any_written = false;
    for attribute in 0..schema.width() {
        if set.contains(attribute) {
            add_member(text, any_written, schema.naming(), schema.name(attribute))?;
            any_written = true;
        }
    }
    if any_written {
        Ok(())
    } else {
        add(text, b"()")
    }
}

/// A name; after a blank where another one stands before it.
fn add_member(
    text: &mut Vec<u8>,
    any_written: bool,
    naming: Naming,
    name: &Name,
) -> Result<(), OutOfMemory>
    ensures added { OnOk result (text.new.items
        ≡ text.old.items ++ (if any_written then 32 ∷ spelling naming name.now else spelling naming name.now)) }
{
    if any_written {
        add(text, b" ")?;
    }
    add_name(text, naming, name)
}

#[tactic(auto, unfolding(crate::specs::Printing::schema_lines))]
fn add_declarations(text: &mut Vec<u8>, schema: &Schema) -> Result<(), OutOfMemory>
    ensures added { OnOk result (text.new.items
        ≡ text.old.items ++ lines_text (schema_lines (naming_of schema.now) (types_of schema.now)
        (printed_names_of schema.now) (nullable_of schema.now))) }
{
    match schema.naming() {
        Naming::Bare => add_bare_declarations(text, schema),
        Naming::Any => {
            add(text, b"version 3\n")?;
            add_runs(text, schema)?;
            add_nullable(text, schema, schema.nullable())
        }
    }
}

/// Adds the line of the attributes of which a value may be missing to a text, where there are any.
pub fn add_nullable(
    text: &mut Vec<u8>,
    schema: &Schema,
    nullable: AttrSet,
) -> Result<(), OutOfMemory>
    requires within { IsSubset (attributes nullable) (universe_of schema.now) }
    ensures added { OnOk result (text.new.items ≡ text.old.items
        ++ lines_text (nullable_lines
        (members_from (attributes nullable) 0 (printed_names_of schema.now)))) }
{
    if nullable.is_empty() {
        Ok(())
    } else {
        add_nullable_line(text, schema, nullable)
    }
}

fn add_nullable_line(
    text: &mut Vec<u8>,
    schema: &Schema,
    nullable: AttrSet,
) -> Result<(), OutOfMemory>
    ensures added { OnOk result (text.new.items ≡ text.old.items
        ++ (codes "nullable " ++ set_text (printed_names_of schema.now) (attributes nullable)
        ++ 10 ∷ [])) }
{
    add(text, b"nullable ")?;
    add_set(text, schema, nullable)?;
    add(text, b"\n")
}

#[tactic(auto, unfolding(crate::specs::Printing::declaring_lines))]
fn add_bare_declarations(text: &mut Vec<u8>, schema: &Schema) -> Result<(), OutOfMemory>
    ensures added { OnOk result (text.new.items
        ≡ text.old.items ++ lines_text (declaring_lines (types_of schema.now) (printed_names_of schema.now))) }
{
    if has_integers(schema) {
        add(text, b"version 2\n")?;
        add_runs(text, schema)
    } else {
        add(text, b"attributes")?;
        add_names(text, schema)?;
        add(text, b"\n")
    }
}

fn has_integers(schema: &Schema) -> bool
    ensures any_integer { result ≡ list_any is_integer (types_of schema.now) }
{
    for attribute in 0..schema.width() {
        if is_integer(schema.column(attribute)) {
            return true;
        }
    }
    false
}

fn is_integer(column: ColumnType) -> bool
    ensures exact { result ≡ is_integer column }
{
    match column {
        ColumnType::Integer => true,
        _ => false,
    }
}

/// Each name after a blank.
fn add_names(text: &mut Vec<u8>, schema: &Schema) -> Result<(), OutOfMemory>
    ensures added { OnOk result (text.new.items ≡ text.old.items ++ words_text (printed_names_of schema.now)) }
{
    for attribute in 0..schema.width() {
        add(text, b" ")?;
        add_name(text, schema.naming(), schema.name(attribute))?;
    }
    Ok(())
}

/// A line for each run of neighbouring columns of one type.
fn add_runs(text: &mut Vec<u8>, schema: &Schema) -> Result<(), OutOfMemory>
    ensures added { OnOk result (text.new.items
        ≡ text.old.items ++ lines_text
        (map run_line (runs_of (types_of schema.now) (printed_names_of schema.now)))) }
{
    add_typed(text, schema, 0)?;
    for attribute in 1..schema.width() {
        add_after(text, schema, attribute)?;
    }
    add(text, b"\n")
}

/// An attribute after another one: in the same line where its column has the same type.
fn add_after(text: &mut Vec<u8>, schema: &Schema, attribute: u8) -> Result<(), OutOfMemory>
    requires after_another { 0 < attribute }
    requires attribute { attribute < width_of schema.now }
    ensures added { OnOk result (text.new.items ≡ text.old.items
        ++ (if same_column (slice_index_or (types_of schema.now) (attribute - 1) ColumnType.Text)
        (slice_index_or (types_of schema.now) attribute ColumnType.Text)
        then 32 ∷ slice_index_or (printed_names_of schema.now) attribute []
        else 10 ∷ (type_word (slice_index_or (types_of schema.now) attribute ColumnType.Text)
        ++ 32 ∷ slice_index_or (printed_names_of schema.now) attribute []))) }
{
    let last = schema.column(attribute - 1);
    let column = schema.column(attribute);
    if is_same_type(&last, &column) {
        add(text, b" ")?;
        add_name(text, schema.naming(), schema.name(attribute))
    } else {
        add(text, b"\n")?;
        add_typed(text, schema, attribute)
    }
}

fn is_same_type(column: &ColumnType, other: &ColumnType) -> bool
    ensures exact { result ≡ same_column column.now other.now }
{
    match column {
        ColumnType::Text => matches!(other, ColumnType::Text),
        ColumnType::Integer => matches!(other, ColumnType::Integer),
        ColumnType::Date => matches!(other, ColumnType::Date),
        ColumnType::Timestamp => matches!(other, ColumnType::Timestamp),
        ColumnType::Decimal(scale) => match other {
            ColumnType::Decimal(other) => *scale == *other,
            _ => false,
        },
        ColumnType::Uuid => matches!(other, ColumnType::Uuid),
        ColumnType::Other(text) => match other {
            ColumnType::Other(other) => text.bytes() == other.bytes(),
            _ => false,
        },
    }
}

/// The beginning of a line of a run.
fn add_typed(text: &mut Vec<u8>, schema: &Schema, attribute: u8) -> Result<(), OutOfMemory>
    requires attribute { attribute < width_of schema.now }
    ensures added { OnOk result (text.new.items ≡ text.old.items
        ++ (type_word (slice_index_or (types_of schema.now) attribute ColumnType.Text)
        ++ 32 ∷ slice_index_or (printed_names_of schema.now) attribute [])) }
{
    let column = schema.column(attribute);
    add_type_word(text, &column)?;
    add(text, b" ")?;
    add_name(text, schema.naming(), schema.name(attribute))
}

/// Adds the word, or the two words, that declare columns of a type.
pub fn add_type_word(text: &mut Vec<u8>, column: &ColumnType) -> Result<(), OutOfMemory>
    requires { IsTrue (is_column_type column.now) }
    ensures added { OnOk result (text.new.items ≡ text.old.items ++ type_word column.now) }
{
    match column {
        ColumnType::Text => add(text, b"text"),
        ColumnType::Integer => add(text, b"integer"),
        ColumnType::Date => add(text, b"date"),
        ColumnType::Timestamp => add(text, b"timestamp"),
        ColumnType::Decimal(scale) => add_decimal_word(text, *scale),
        ColumnType::Uuid => add(text, b"uuid"),
        ColumnType::Other(other) => add_other_word(text, other.bytes()),
    }
}

fn add_decimal_word(text: &mut Vec<u8>, scale: u8) -> Result<(), OutOfMemory>
    requires { scale < 10 }
    ensures added { OnOk result (text.new.items ≡ text.old.items ++ codes "decimal " ++ decimal scale) }
{
    add(text, b"decimal ")?;
    add_digit(text, scale)
}

fn add_other_word(text: &mut Vec<u8>, other: &[u8]) -> Result<(), OutOfMemory>
    ensures added { OnOk result (text.new.items ≡ text.old.items ++ codes "other " ++ quoted other.now) }
{
    add(text, b"other ")?;
    add_quoted(text, other)
}
