ghost use Rattle.std.specs.Prelude.{◌≡◌, ◌<◌, ◌++◌, length, All, IfOk, OnOk};
ghost use Rattle.std.specs.List.{flat_map};
ghost use Rattle.ddl_text.specs.Designs.{ReferToEarlier};
ghost use Rattle.table_drawing.specs.Drawing.{edge_text, edges_to, edges_text};

use crate::escapes::add_label;
use crate::nodes::add_id;
use byte_texts::add;
use ddl_text::TableDesign;
use dep_model::OutOfMemory;
use schema_model::Schema;
use schema_printer::add_set;
use std::alloc::Global;

// Adds the edges of these tables.
pub fn add_edges(
    alloc: Global,
    text: &mut Vec<u8>,
    schema: &Schema,
    tables: &[TableDesign],
) -> Result<(), OutOfMemory>
    requires earlier { ReferToEarlier tables.now }
    ensures added { OnOk result (text.new.items
        ≡ text.old.items ++ flat_map (edges_text schema.now tables.now) tables.now) }
{
    for table in tables {
        add_edges_to(alloc, text, schema, tables, table, &table.refs)?;
    }
    Ok(())
}

// Adds the edges from a table to those at these positions, in order.
fn add_edges_to(
    alloc: Global,
    text: &mut Vec<u8>,
    schema: &Schema,
    tables: &[TableDesign],
    table: &TableDesign,
    refs: &[u32],
) -> Result<(), OutOfMemory>
    requires refs { All (λ j. j < length tables.now) refs.now }
    ensures added { OnOk result (text.new.items
        ≡ text.old.items ++ edges_to schema.now tables.now table.now refs.now) }
{
    for j in refs {
        add(
            text,
            &edge_text(alloc, schema, table, &tables[*j as usize])?,
        )?;
    }
    Ok(())
}

// The edge from a table to another.
#[tactic(auto, unfolding(crate::specs::Drawing::edge_text))]
fn edge_text(
    alloc: Global,
    schema: &Schema,
    table: &TableDesign,
    other: &TableDesign,
) -> Result<Vec<u8>, OutOfMemory>
    ensures text { IfOk result (λ text. text.items ≡ edge_text schema.now table.now other.now) }
{
    let mut key = Vec::new(alloc);
    add_set(&mut key, schema, other.key)?;
    let mut text = Vec::new(alloc);
    add(&mut text, b"  ")?;
    add_id(&mut text, table)?;
    add(&mut text, b" -> ")?;
    add_id(&mut text, other)?;
    add(&mut text, b" [label=\"")?;
    add_label(&mut text, &key)?;
    add(&mut text, b"\"];\n")?;
    Ok(text)
}
