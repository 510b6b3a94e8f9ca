ghost use Rattle.std.specs.Prelude.{◌≡◌, ◌++◌, codes, true, false, IfOk, OnOk, []};
ghost use Rattle.std.specs.Fmt.{decimal};
ghost use Rattle.attr_sets.specs.Sets.{attributes};
ghost use Rattle.sql_syntax.specs.Printing.{selected_text, distinct_text, in_brackets, source_text, group_text};
ghost use Rattle.sql_check.specs.Columns.{columns_on};
ghost use Rattle.sql_check.specs.Checks.{values_query};

use crate::listing::{Listed, has_members, items_text};
use attr_sets::AttrSet;
use byte_texts::{add, add_number};
use dep_model::OutOfMemory;
use schema_model::Schema;
use std::alloc::Global;

// What is selected from what.
#[tactic(auto, unfolding(sql_syntax::specs::Printing::selected_text))]
pub fn selected_text(
    alloc: Global,
    distinct: bool,
    items: &[u8],
    source: &[u8],
    alias: &[u8],
    clause: &[u8],
) -> Result<Vec<u8>, OutOfMemory>
    ensures text { IfOk result (λ text. text.items
        ≡ selected_text distinct items.now source.now alias.now clause.now) }
{
    let mut text = Vec::new(alloc);
    add(&mut text, b"SELECT ")?;
    add_distinct(&mut text, distinct)?;
    add(&mut text, items)?;
    add(&mut text, b" FROM ")?;
    add(&mut text, source)?;
    add(&mut text, b" AS ")?;
    add(&mut text, alias)?;
    add(&mut text, clause)?;
    Ok(text)
}

// Adds the word for rows that are each given once.
fn add_distinct(text: &mut Vec<u8>, distinct: bool) -> Result<(), OutOfMemory>
    ensures added { OnOk result (text.new.items ≡ text.old.items ++ distinct_text distinct) }
{
    if distinct {
        return add(text, b"DISTINCT ");
    }
    add(text, b"")
}

// A query as a source.
pub fn in_brackets(alloc: Global, query: &[u8]) -> Result<Vec<u8>, OutOfMemory>
    ensures text { IfOk result (λ text. text.items ≡ in_brackets true query.now) }
{
    let mut text = Vec::new(alloc);
    add(&mut text, b"(")?;
    add(&mut text, query)?;
    add(&mut text, b")")?;
    Ok(text)
}

// The values of the table on a set, each once, as a source.
#[tactic(auto, unfolding(sql_check::specs::Checks::values_query))]
pub fn values_source(
    alloc: Global,
    schema: &Schema,
    table: &[u8],
    set: AttrSet,
) -> Result<Vec<u8>, OutOfMemory>
    ensures text { IfOk result (λ text. text.items
        ≡ source_text (values_query schema.now table.now (attributes set))) }
{
    let items = items_text(alloc, schema, set, Listed::Compared)?;
    let query = selected_text(alloc, true, &items, table, b"r", b"")?;
    in_brackets(alloc, &query)
}

// By which columns is grouped, and which groups are taken.
pub fn grouped_text(alloc: Global, columns: &[u8], having: &[u8]) -> Result<Vec<u8>, OutOfMemory>
    ensures text { IfOk result
        (λ text. text.items ≡ codes " GROUP BY " ++ columns.now ++ having.now) }
{
    let mut text = Vec::new(alloc);
    add(&mut text, b" GROUP BY ")?;
    add(&mut text, columns)?;
    add(&mut text, having)?;
    Ok(text)
}

// By which attributes is grouped, if there are some.
pub fn group_clause(alloc: Global, schema: &Schema, set: AttrSet) -> Result<Vec<u8>, OutOfMemory>
    ensures text { IfOk result
        (λ text. text.items ≡ group_text (columns_on schema.now (codes "d") (attributes set))) }
{
    if !has_members(schema, set) {
        return Ok(Vec::new(alloc));
    }
    let columns = items_text(alloc, schema, set, Listed::Distinct)?;
    grouped_text(alloc, &columns, b"")
}

// Items after the line of a dependency.
pub fn after_line(alloc: Global, line: u32, items: &[u8]) -> Result<Vec<u8>, OutOfMemory>
    ensures text { IfOk result
        (λ text. text.items ≡ decimal line ++ codes " AS line, " ++ items.now) }
{
    let mut text = Vec::new(alloc);
    add_number(&mut text, alloc, line)?;
    add(&mut text, b" AS line, ")?;
    add(&mut text, items)?;
    Ok(text)
}

// After the line of a dependency a number that is counted, where it passes a test; the source has this alias.
#[tactic(auto, unfolding(sql_syntax::specs::Printing::selected_text))]
pub fn counted_text(
    alloc: Global,
    line: u32,
    item: &[u8],
    source: &[u8],
    alias: &[u8],
    test: &[u8],
) -> Result<Vec<u8>, OutOfMemory>
    ensures text { IfOk result (λ text. text.items
        ≡ selected_text false (decimal line ++ codes " AS line, " ++ codes "c.n") (in_brackets true
        (selected_text false item.now source.now alias.now [])) (codes "c") test.now) }
{
    let query = selected_text(alloc, false, item, source, alias, b"")?;
    let counts = in_brackets(alloc, &query)?;
    let items = after_line(alloc, line, b"c.n")?;
    selected_text(alloc, false, &items, &counts, b"c", test)
}

// A query as a statement, in a line below a comment.
pub fn line_of_query(alloc: Global, comment: &[u8], query: &[u8]) -> Result<Vec<u8>, OutOfMemory>
    ensures text { IfOk result
        (λ text. text.items ≡ comment.now ++ (query.now ++ codes ";\n")) }
{
    let mut line = Vec::new(alloc);
    add(&mut line, query)?;
    add(&mut line, b";\n")?;
    let mut text = Vec::new(alloc);
    add(&mut text, comment)?;
    add(&mut text, &line)?;
    Ok(text)
}
