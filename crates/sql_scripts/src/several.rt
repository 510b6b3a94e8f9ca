ghost use Rattle.std.specs.Prelude.{◌≡◌, ◌++◌, ◌∷◌, codes, true, false, IfOk};
ghost use Rattle.attr_sets.specs.Sets.{attributes};
ghost use Rattle.sql_syntax.specs.Names.{comma_list};
ghost use Rattle.sql_syntax.specs.Printing.{selected_text, item_text, query_text, group_text};
ghost use Rattle.sql_check.specs.Columns.{columns_on, items_on};
ghost use Rattle.sql_check.specs.Checks.{line_item, several_query, has_members};

use crate::listing::{Listed, has_members, items_text};
use crate::selecting::{after_line, counted_text, grouped_text, selected_text, values_source};
use attr_sets::AttrSet;
use dep_model::OutOfMemory;
use schema_model::Schema;
use std::alloc::Global;

// The values on the left side beside which more than one on both sides stands.
#[tactic(auto, unfolding(sql_check::specs::Checks::groups_of_several, sql_check::specs::Checks::count_of_several))]
pub fn several_text(
    alloc: Global,
    schema: &Schema,
    table: &[u8],
    line: u32,
    lhs: AttrSet,
    both: AttrSet,
) -> Result<Vec<u8>, OutOfMemory>
    ensures text { IfOk result (λ text. text.items
        ≡ query_text (several_query schema.now table.now line (attributes lhs) (attributes both))) }
{
    let source = values_source(alloc, schema, table, both)?;
    if has_members(schema, lhs) {
        groups_of_several(alloc, schema, line, lhs, &source)
    } else {
        counted_text(
            alloc,
            line,
            b"COUNT(*) AS n",
            &source,
            b"d",
            b" WHERE c.n > 1",
        )
    }
}

// The groups of a source that have more than one row.
fn groups_of_several(
    alloc: Global,
    schema: &Schema,
    line: u32,
    lhs: AttrSet,
    source: &[u8],
) -> Result<Vec<u8>, OutOfMemory>
    requires members { has_members schema.now (attributes lhs) ≡ true }
    ensures text { IfOk result (λ text. text.items
        ≡ selected_text false
        (comma_list item_text (line_item line ∷ items_on schema.now (codes "d") (attributes lhs)))
        source.now (codes "d")
        (group_text (columns_on schema.now (codes "d") (attributes lhs)) ++ codes " HAVING COUNT(*) > 1")) }
{
    let columns = items_text(alloc, schema, lhs, Listed::Distinct)?;
    let items = after_line(alloc, line, &columns)?;
    let clause = grouped_text(alloc, &columns, b" HAVING COUNT(*) > 1")?;
    selected_text(alloc, false, &items, source, b"d", &clause)
}
