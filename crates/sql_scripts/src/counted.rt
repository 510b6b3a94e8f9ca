ghost use Rattle.std.specs.Prelude.{◌≡◌, ◌++◌, codes, if◌then◌else◌, false, IfOk, OnOk, []};
ghost use Rattle.attr_sets.specs.Sets.{attributes};
ghost use Rattle.sql_syntax.specs.Names.{comma_list, separator};
ghost use Rattle.sql_syntax.specs.Printing.{group_text, item_text, query_text, selected_text, source_text};
ghost use Rattle.sql_check.specs.Checks.{has_members};
ghost use Rattle.sql_check.specs.Columns.{columns_on, groups_made};
ghost use Rattle.sql_measure.specs.Measures.{classes_query, counted_rows, four_counts, marks_query, rows_query};
ghost use Rattle.sql_scripts.specs.Listing.{items_of};

use crate::listing::{Listed, has_members, items_text};
use crate::selecting::{group_clause, grouped_text, in_brackets, selected_text, values_source};
use attr_sets::AttrSet;
use byte_texts::add;
use dep_model::OutOfMemory;
use schema_model::Schema;
use sql_syntax::add_listed;
use std::alloc::Global;

// For each value on both sides how many rows have it, beside that on the left side, as a source.
pub fn classes_text(
    alloc: Global,
    schema: &Schema,
    table: &[u8],
    lhs: AttrSet,
    both: AttrSet,
) -> Result<Vec<u8>, OutOfMemory>
    ensures text { IfOk result (λ text. text.items
        ≡ source_text (classes_query schema.now table.now (attributes lhs) (attributes both))) }
{
    let source = rows_source(alloc, schema, table, both)?;
    let query = counts_text(alloc, schema, lhs, both, &source, b"COUNT(*) AS n")?;
    in_brackets(alloc, &query)
}

// For each value on a set counts of the rows of a source that have it, beside that on another set.
fn counts_text(
    alloc: Global,
    schema: &Schema,
    shown: AttrSet,
    set: AttrSet,
    source: &[u8],
    counts: &[u8],
) -> Result<Vec<u8>, OutOfMemory>
    ensures text { IfOk result (λ text. text.items ≡ selected_text false
        (comma_list item_text (groups_made schema.now (attributes shown))
        ++ (if has_members schema.now (attributes shown) then separator ++ counts.now
        else counts.now))
        source.now (codes "d") (group_text (columns_on schema.now (codes "d") (attributes set)))) }
{
    let mut items = items_text(alloc, schema, shown, Listed::GroupMade)?;
    add_listed(&mut items, has_members(schema, shown), counts)?;
    let clause = group_clause(alloc, schema, set)?;
    selected_text(alloc, false, &items, source, b"d", &clause)
}

// By which of the counted attributes is grouped, if there are some.
pub fn keys_clause(
    alloc: Global,
    schema: &Schema,
    set: AttrSet,
    listed: Listed,
) -> Result<Vec<u8>, OutOfMemory>
    ensures text { IfOk result (λ text. text.items ≡ (if has_members schema.now (attributes set)
        then codes " GROUP BY "
        ++ comma_list item_text (items_of schema.now listed (attributes set)) else [])) }
{
    if !has_members(schema, set) {
        return Ok(Vec::new(alloc));
    }
    let columns = items_text(alloc, schema, set, listed)?;
    grouped_text(alloc, &columns, b"")
}

// The values of the table on a set, as often as they stand, as a source.
#[tactic(auto, unfolding(sql_measure::specs::Measures::rows_query))]
fn rows_source(
    alloc: Global,
    schema: &Schema,
    table: &[u8],
    set: AttrSet,
) -> Result<Vec<u8>, OutOfMemory>
    ensures text { IfOk result (λ text. text.items
        ≡ source_text (rows_query schema.now table.now (attributes set))) }
{
    let items = items_text(alloc, schema, set, Listed::Compared)?;
    let query = selected_text(alloc, false, &items, table, b"r", b"")?;
    in_brackets(alloc, &query)
}

// A number for each row of the table, as a source.
#[tactic(auto, unfolding(sql_measure::specs::Measures::marks_query))]
fn marks_source(alloc: Global, table: &[u8]) -> Result<Vec<u8>, OutOfMemory>
    ensures text { IfOk result (λ text. text.items ≡ source_text (marks_query table.now)) }
{
    let query = selected_text(alloc, false, b"0 AS n", table, b"r", b"")?;
    in_brackets(alloc, &query)
}

// One of the two, by whether the set has an attribute.
fn counted_rows(
    alloc: Global,
    schema: &Schema,
    table: &[u8],
    set: AttrSet,
) -> Result<Vec<u8>, OutOfMemory>
    ensures text { IfOk result (λ text. text.items
        ≡ source_text (counted_rows schema.now table.now (attributes set))) }
{
    if has_members(schema, set) {
        rows_source(alloc, schema, table, set)
    } else {
        marks_source(alloc, table)
    }
}

// The four counts, as a source.
pub fn four_counts(
    alloc: Global,
    schema: &Schema,
    table: &[u8],
    lhs: AttrSet,
    first: AttrSet,
    second: AttrSet,
) -> Result<Vec<u8>, OutOfMemory>
    ensures text { IfOk result (λ text. text.items
        ≡ source_text (four_counts schema.now table.now (attributes lhs) (attributes first)
        (attributes second))) }
{
    let lefts = values_source(alloc, schema, table, lhs.union(first))?;
    let rests = values_source(alloc, schema, table, lhs.union(second))?;
    let all = values_source(alloc, schema, table, lhs.union(first.union(second)))?;
    let rows = counted_rows(alloc, schema, table, lhs)?;
    let of_lefts = b"COUNT(*) AS y, 0 AS z, 0 AS n, 0 AS r";
    let mut text = counts_text(alloc, schema, lhs, lhs, &lefts, of_lefts)?;
    let of_rests = b"0 AS y, COUNT(*) AS z, 0 AS n, 0 AS r";
    add_counts(alloc, &mut text, schema, lhs, &rests, of_rests)?;
    let of_all = b"0 AS y, 0 AS z, COUNT(*) AS n, 0 AS r";
    add_counts(alloc, &mut text, schema, lhs, &all, of_all)?;
    let of_rows = b"0 AS y, 0 AS z, 0 AS n, COUNT(*) AS r";
    add_counts(alloc, &mut text, schema, lhs, &rows, of_rows)?;
    in_brackets(alloc, &text)
}

// Adds counts below those that stand there.
fn add_counts(
    alloc: Global,
    text: &mut Vec<u8>,
    schema: &Schema,
    lhs: AttrSet,
    source: &[u8],
    counts: &[u8],
) -> Result<(), OutOfMemory>
    ensures added { OnOk result (text.new.items ≡ text.old.items ++ codes " UNION ALL "
        ++ selected_text false
        (comma_list item_text (groups_made schema.now (attributes lhs))
        ++ (if has_members schema.now (attributes lhs) then separator ++ counts.now
        else counts.now))
        source.now (codes "d") (group_text (columns_on schema.now (codes "d") (attributes lhs)))) }
{
    add(text, b" UNION ALL ")?;
    add(text, &counts_text(alloc, schema, lhs, lhs, source, counts)?)
}
