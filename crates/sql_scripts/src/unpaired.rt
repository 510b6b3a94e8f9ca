ghost use Rattle.std.specs.Prelude.{◌≡◌, ◌++◌, ◌∷◌, codes, true, false, IfOk};
ghost use Rattle.attr_sets.specs.Sets.{attributes};
ghost use Rattle.sql_syntax.specs.Names.{comma_list};
ghost use Rattle.sql_syntax.specs.Printing.{selected_text, item_text, query_text, source_text, group_text};
ghost use Rattle.sql_check.specs.Columns.{groups_on, groups_shown};
ghost use Rattle.sql_check.specs.Checks.{line_item, unpaired_query, counts_query, three_counts, has_members};
ghost use Rattle.sql_scripts.specs.Listing.{counts_of};

use crate::listing::{Listed, has_members, items_text};
use crate::selecting::{
    after_line, counted_text, group_clause, grouped_text, in_brackets, selected_text, values_source,
};
use attr_sets::AttrSet;
use byte_texts::add;
use dep_model::OutOfMemory;
use schema_model::Schema;
use sql_syntax::add_listed;
use std::alloc::Global;

/// Which values are counted beside those on the left side.
#[derive(Clone, Copy)]
pub enum Counted {
    /// Those of the right side.
    First,
    /// Those of the rest.
    Second,
    /// Those of both.
    Both,
}

// The values on the left side beside which those on two other sets are not all paired.
#[tactic(auto, unfolding(sql_check::specs::Checks::groups_of_unpaired, sql_check::specs::Checks::count_of_unpaired))]
pub fn unpaired_text(
    alloc: Global,
    schema: &Schema,
    table: &[u8],
    line: u32,
    lhs: AttrSet,
    first: AttrSet,
    second: AttrSet,
) -> Result<Vec<u8>, OutOfMemory>
    ensures text { IfOk result (λ text. text.items
        ≡ query_text (unpaired_query schema.now table.now line (attributes lhs) (attributes first)
        (attributes second))) }
{
    let source = three_counts(alloc, schema, table, lhs, first, second)?;
    if has_members(schema, lhs) {
        groups_of_unpaired(alloc, schema, line, lhs, &source)
    } else {
        let product = b"SUM(e.y) * SUM(e.z) - SUM(e.n) AS n";
        counted_text(alloc, line, product, &source, b"e", b" WHERE c.n <> 0")
    }
}

// The groups of three counts of which the first two have another product than the third.
fn groups_of_unpaired(
    alloc: Global,
    schema: &Schema,
    line: u32,
    lhs: AttrSet,
    source: &[u8],
) -> Result<Vec<u8>, OutOfMemory>
    requires members { has_members schema.now (attributes lhs) ≡ true }
    ensures text { IfOk result (λ text. text.items
        ≡ selected_text false
        (comma_list item_text (line_item line ∷ groups_shown schema.now (attributes lhs)))
        source.now (codes "e") (group_text (groups_on schema.now (attributes lhs))
        ++ codes " HAVING SUM(e.y) * SUM(e.z) <> SUM(e.n)")) }
{
    let shown = items_text(alloc, schema, lhs, Listed::GroupShown)?;
    let items = after_line(alloc, line, &shown)?;
    let columns = items_text(alloc, schema, lhs, Listed::Group)?;
    let clause = grouped_text(alloc, &columns, b" HAVING SUM(e.y) * SUM(e.z) <> SUM(e.n)")?;
    selected_text(alloc, false, &items, source, b"e", &clause)
}

// The three counts, as a source.
#[tactic(auto, unfolding(sql_check::specs::Checks::three_counts))]
fn three_counts(
    alloc: Global,
    schema: &Schema,
    table: &[u8],
    lhs: AttrSet,
    first: AttrSet,
    second: AttrSet,
) -> Result<Vec<u8>, OutOfMemory>
    ensures text { IfOk result (λ text. text.items
        ≡ source_text (three_counts schema.now table.now (attributes lhs) (attributes first)
        (attributes second))) }
{
    let with_first = lhs.union(first);
    let with_second = lhs.union(second);
    let with_both = lhs.union(first.union(second));
    let mut text = counts_text(alloc, schema, table, lhs, with_first, Counted::First)?;
    add(&mut text, b" UNION ALL ")?;
    add(
        &mut text,
        &counts_text(alloc, schema, table, lhs, with_second, Counted::Second)?,
    )?;
    add(&mut text, b" UNION ALL ")?;
    add(
        &mut text,
        &counts_text(alloc, schema, table, lhs, with_both, Counted::Both)?,
    )?;
    in_brackets(alloc, &text)
}

// How many values on a set stand beside each of the left side, in one of three columns.
fn counts_text(
    alloc: Global,
    schema: &Schema,
    table: &[u8],
    lhs: AttrSet,
    set: AttrSet,
    counted: Counted,
) -> Result<Vec<u8>, OutOfMemory>
    ensures text { IfOk result (λ text. text.items
        ≡ query_text (counts_query schema.now table.now (attributes lhs) (attributes set)
        (counts_of counted))) }
{
    let source = values_source(alloc, schema, table, set)?;
    let mut items = items_text(alloc, schema, lhs, Listed::GroupMade)?;
    add_listed(&mut items, has_members(schema, lhs), count_items(counted))?;
    let clause = group_clause(alloc, schema, lhs)?;
    selected_text(alloc, false, &items, &source, b"d", &clause)
}

// The three columns of counts, of which two are empty.
fn count_items(counted: Counted) -> &'static [u8]
    ensures text { result.now ≡ comma_list item_text (counts_of counted) }
{
    match counted {
        Counted::First => b"COUNT(*) AS y, 0 AS z, 0 AS n",
        Counted::Second => b"0 AS y, COUNT(*) AS z, 0 AS n",
        Counted::Both => b"0 AS y, 0 AS z, COUNT(*) AS n",
    }
}
