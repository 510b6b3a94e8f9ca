ghost use Rattle.std.specs.Prelude.{◌≡◌, ◌++◌, ◌<◌, false, if◌then◌else◌, codes, IfOk, OnOk};
ghost use Rattle.attr_sets.specs.Sets.{attributes};
ghost use Rattle.dep_model.specs.Projections.{members_below};
ghost use Rattle.schema_model.specs.Schemas.{width_of, universe_of};
ghost use Rattle.sql_syntax.specs.Names.{comma_list, quoted_name};
ghost use Rattle.sql_syntax.specs.Printing.{condition_text, selected_text, item_text};
ghost use Rattle.sql_check.specs.Columns.{items_on};
ghost use Rattle.sql_check.specs.Checks.{has_members, required_of};
ghost use Rattle.sql_scripts.specs.Listing.{between, test_at, test_with, tests_at};
ghost use Rattle.sql_scripts.specs.Checking.{missing_text};

use crate::listing::{Listed, column_text, has_members, items_text};
use crate::selecting::{line_of_query, selected_text};
use attr_sets::AttrSet;
use byte_texts::add;
use dep_model::OutOfMemory;
use schema_model::{Name, Schema};
use std::alloc::Global;

/// Which values of attributes are asked for.
#[derive(Clone, Copy)]
pub enum Asked {
    /// One that is missing in the user's table.
    Missing,
    /// All of them, in its copy.
    Present,
}

// The query for the rows in which a value is missing, where one may not be.
pub fn missing_text(alloc: Global, schema: &Schema, table: &[u8]) -> Result<Vec<u8>, OutOfMemory>
    ensures text { IfOk result (λ text. text.items
        ≡ missing_text schema.now table.now (members_below (width_of schema.now) (required_of schema.now))) }
{
    let required = AttrSet::full(schema.width()).difference(schema.nullable());
    if !has_members(schema, required) {
        return Ok(Vec::new(alloc));
    }
    let query = missing_query(alloc, schema, table, required)?;
    line_of_query(alloc, b"-- no value is missing\n", &query)
}

// The rows in which a value of a set is missing.
fn missing_query(
    alloc: Global,
    schema: &Schema,
    table: &[u8],
    set: AttrSet,
) -> Result<Vec<u8>, OutOfMemory>
    ensures text { IfOk result (λ text. text.items
        ≡ selected_text false (comma_list item_text (items_on schema.now (codes "r") (universe_of schema.now)))
        table.now (codes "r")
        (codes " WHERE " ++ tests_at schema.now Asked.Missing
        (members_below (width_of schema.now) (attributes set)))) }
{
    let items = items_text(alloc, schema, AttrSet::full(schema.width()), Listed::Read)?;
    let clause = rows_clause(alloc, schema, set, Asked::Missing)?;
    selected_text(alloc, false, &items, table, b"r", &clause)
}

// Which rows are taken, by the values of a set.
pub fn rows_clause(
    alloc: Global,
    schema: &Schema,
    set: AttrSet,
    asked: Asked,
) -> Result<Vec<u8>, OutOfMemory>
    ensures text { IfOk result (λ text. text.items ≡ codes " WHERE "
        ++ tests_at schema.now asked (members_below (width_of schema.now) (attributes set))) }
{
    let tests = tests_text(alloc, schema, set, asked)?;
    let mut clause = Vec::new(alloc);
    add(&mut clause, b" WHERE ")?;
    add(&mut clause, &tests)?;
    Ok(clause)
}

// The tests of these attributes.
fn tests_text(
    alloc: Global,
    schema: &Schema,
    set: AttrSet,
    asked: Asked,
) -> Result<Vec<u8>, OutOfMemory>
    ensures text { IfOk result (λ text. text.items
        ≡ tests_at schema.now asked (members_below (width_of schema.now) (attributes set))) }
{
    let mut text = Vec::new(alloc);
    let mut any_written = false;
    for attribute in 0..schema.width() {
        if set.contains(attribute) {
            let test = test_text(alloc, schema, attribute, asked)?;
            add_test(&mut text, any_written, asked, &test)?;
            any_written = true;
        }
    }
    Ok(text)
}

// Adds a test; after a word where another one stands before it.
fn add_test(
    text: &mut Vec<u8>,
    any_written: bool,
    asked: Asked,
    test: &[u8],
) -> Result<(), OutOfMemory>
    ensures added { OnOk result (text.new.items
        ≡ text.old.items ++ (if any_written then between asked ++ test.now else test.now)) }
{
    if any_written {
        add_between(text, asked)?;
    }
    add(text, test)
}

// Adds the word between two tests.
fn add_between(text: &mut Vec<u8>, asked: Asked) -> Result<(), OutOfMemory>
    ensures added { OnOk result (text.new.items ≡ text.old.items ++ between asked) }
{
    match asked {
        Asked::Missing => add(text, b" OR "),
        Asked::Present => add(text, b" AND "),
    }
}

// The test of an attribute.
#[tactic(auto, unfolding(crate::specs::Listing::test_at))]
fn test_text(
    alloc: Global,
    schema: &Schema,
    attribute: u8,
    asked: Asked,
) -> Result<Vec<u8>, OutOfMemory>
    requires attribute { attribute < width_of schema.now }
    ensures text { IfOk result (λ text. text.items ≡ test_at schema.now asked attribute) }
{
    null_test(alloc, schema.name(attribute), asked)
}

// The test of a name.
fn null_test(alloc: Global, name: &Name, asked: Asked) -> Result<Vec<u8>, OutOfMemory>
    ensures text { IfOk result (λ text. text.items ≡ condition_text (test_with asked name.now)) }
{
    match asked {
        Asked::Missing => column_test(alloc, b"r.", name, b" IS NULL"),
        Asked::Present => column_test(alloc, b"o.", name, b" IS NOT NULL"),
    }
}

// A column, and what is asked of it.
fn column_test(
    alloc: Global,
    alias: &[u8],
    name: &Name,
    question: &[u8],
) -> Result<Vec<u8>, OutOfMemory>
    ensures text { IfOk result
        (λ text. text.items ≡ alias.now ++ quoted_name name.now ++ question.now) }
{
    let mut text = column_text(alloc, alias, name)?;
    add(&mut text, question)?;
    Ok(text)
}
