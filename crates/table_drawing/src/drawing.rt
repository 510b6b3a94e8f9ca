ghost use Rattle.std.specs.Prelude.{◌≡◌, IfOk};
ghost use Rattle.table_drawing.specs.Drawing.{drawing_text};

use crate::edges::add_edges;
use crate::nodes::add_nodes;
use byte_texts::add;
use ddl_text::DesignList;
use dep_model::OutOfMemory;
use schema_model::Schema;
use std::alloc::Global;

/// The Graphviz text of a design: a node for each table, named by its number, in order, and then for each table,
/// in order, an edge to each table that it refers to, with the key of that one.
pub fn draw(alloc: Global, schema: &Schema, design: &DesignList) -> Result<Vec<u8>, OutOfMemory>
    ensures text { IfOk result (λ text. text.items ≡ drawing_text schema.now design.now) }
{
    let mut text = Vec::new(alloc);
    add(
        &mut text,
        b"digraph tables {\n  rankdir=LR;\n  node [shape=plaintext];\n",
    )?;
    add_nodes(alloc, &mut text, schema, design.tables())?;
    add_edges(alloc, &mut text, schema, design.tables())?;
    add(&mut text, b"}\n")?;
    Ok(text)
}
