ghost use Rattle.std.specs.Prelude.{◌≡◌, ◌<◌, length, not, [], ◌∷◌, get_or, IfOk};
ghost use Rattle.std.specs.List.{remove};
ghost use Rattle.attr_sets.specs.Attributes.{none};
ghost use Rattle.attr_sets.specs.Sets.{attributes, is_disjoint};
ghost use Rattle.dep_model.specs.JoinOrders.{put_first, joined_next};
ghost use Rattle.sql_migrate.specs.Script.{filled_tables, joined_tables, scheme_of_joined, view_order};
ghost use Rattle.sql_migrate.specs.declared.joining.JoinedTable.{JoinedTable};

use attr_sets::AttrSet;
use ddl_text::TableDesign;
use dep_model::OutOfMemory;
use optional_tables::is_optional;
use schema_model::Schema;
use sql_migrate::JoinedTable;
use std::alloc::Global;

// The tables of a design that are not optional.
pub fn filled_tables(
    alloc: Global,
    schema: &Schema,
    designs: &[TableDesign],
) -> Result<Vec<JoinedTable>, OutOfMemory>
    ensures tables { IfOk result
        (λ tables. tables.items ≡ joined_tables (filled_tables schema.now designs.now)) }
{
    let mut tables = Vec::new(alloc);
    for design in designs {
        let optional = is_optional(schema.nullable(), design.keyed());
        if !optional {
            tables.push(JoinedTable {
                name: design.name,
                scheme: design.scheme,
            })?;
        }
    }
    Ok(tables)
}

// Tables in the order of the view.
pub fn view_order(alloc: Global, tables: Vec<JoinedTable>) -> Result<Vec<JoinedTable>, OutOfMemory>
    ensures order { IfOk result (λ order. order.items ≡ view_order tables.items) }
{
    let mut left = tables;
    left.reverse();
    joined_next(alloc, left)
}

// The tables, each time the first of those left that shares an attribute with those before it.
fn joined_next(alloc: Global, tables: Vec<JoinedTable>) -> Result<Vec<JoinedTable>, OutOfMemory>
    ensures order { IfOk result
        (λ order. order.items ≡ joined_next scheme_of_joined (length tables.items) none tables.items) }
{
    let mut left = tables;
    let mut seen = AttrSet::empty();
    let mut order = Vec::new(alloc);
    for _round in 0..left.len() {
        let table = left.remove(first_sharing(&left, seen));
        seen = seen.union(table.scheme);
        order.push(table)?;
    }
    Ok(order)
}

// The place of the first table that shares an attribute with a set; of the first, where none does.
fn first_sharing(tables: &[JoinedTable], seen: AttrSet) -> usize
    requires not_empty { 0 < length tables.now }
    ensures first { (table : JoinedTable) → get_or tables.now result table ∷ remove tables.now result
        ≡ put_first (λ t. not (is_disjoint (attributes seen) (attributes t.scheme))) [] tables.now }
    ensures within { result < length tables.now }
{
    for i in 0..tables.len() {
        if seen.intersects(tables[i].scheme) {
            return i;
        }
    }
    0
}
