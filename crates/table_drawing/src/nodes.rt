ghost use Rattle.std.specs.Prelude.{◌≡◌, ◌<◌, ◌++◌, IfOk, OnOk};
ghost use Rattle.std.specs.List.{flat_map};
ghost use Rattle.attr_sets.specs.Sets.{attributes};
ghost use Rattle.schema_model.specs.Schemas.{width_of};
ghost use Rattle.table_names.specs.TableNames.{table_name};
ghost use Rattle.table_drawing.specs.Drawing.{marked_text, row_text, table_rows_text, node_head, node_text};

use attr_sets::AttrSet;
use byte_texts::add;
use ddl_text::TableDesign;
use dep_model::OutOfMemory;
use html_pages::add_html;
use schema_model::Schema;
use std::alloc::Global;
use table_names::table_name;

// Adds the nodes of these tables.
pub fn add_nodes(
    alloc: Global,
    text: &mut Vec<u8>,
    schema: &Schema,
    tables: &[TableDesign],
) -> Result<(), OutOfMemory>
    ensures added { OnOk result (text.new.items
        ≡ text.old.items ++ flat_map (node_text schema.now) tables.now) }
{
    for table in tables {
        add(text, &node_text(alloc, schema, table)?)?;
    }
    Ok(())
}

// The node of a table.
#[tactic(auto, unfolding(crate::specs::Drawing::node_text))]
fn node_text(alloc: Global, schema: &Schema, table: &TableDesign) -> Result<Vec<u8>, OutOfMemory>
    ensures text { IfOk result (λ text. text.items ≡ node_text schema.now table.now) }
{
    let mut text = node_head(alloc, table)?;
    add_rows(alloc, &mut text, schema, table.scheme, table.key)?;
    add(&mut text, b"</TABLE>>];\n")?;
    Ok(text)
}

// The node of a table, as far as the row of its name.
#[tactic(auto, unfolding(crate::specs::Drawing::node_head))]
fn node_head(alloc: Global, table: &TableDesign) -> Result<Vec<u8>, OutOfMemory>
    ensures text { IfOk result (λ text. text.items ≡ node_head table.now) }
{
    let mut text = Vec::new(alloc);
    add(&mut text, b"  ")?;
    add_id(&mut text, table)?;
    add(
        &mut text,
        b" [label=<<TABLE BORDER=\"0\" CELLBORDER=\"1\" CELLSPACING=\"0\"><TR><TD BGCOLOR=\"lightgrey\"><B>",
    )?;
    add(&mut text, table.name.bytes())?;
    add(&mut text, b"</B></TD></TR>")?;
    Ok(text)
}

/// Adds the name of a node: that of the table's number.
pub fn add_id(text: &mut Vec<u8>, table: &TableDesign) -> Result<(), OutOfMemory>
    ensures added { OnOk result (text.new.items ≡ text.old.items ++ table_name table.now.number) }
{
    add(text, table_name(table.number).bytes())
}

// Adds the rows of a scheme, ascending.
fn add_rows(
    alloc: Global,
    text: &mut Vec<u8>,
    schema: &Schema,
    scheme: AttrSet,
    key: AttrSet,
) -> Result<(), OutOfMemory>
    ensures added { OnOk result (text.new.items
        ≡ text.old.items ++ table_rows_text schema.now (attributes scheme) (attributes key)) }
{
    for attribute in 0..schema.width() {
        if scheme.contains(attribute) {
            add(text, &row_text(alloc, schema, key, attribute)?)?;
        }
    }
    Ok(())
}

// The row of an attribute.
#[tactic(auto, unfolding(crate::specs::Drawing::row_text))]
fn row_text(
    alloc: Global,
    schema: &Schema,
    key: AttrSet,
    attribute: u8,
) -> Result<Vec<u8>, OutOfMemory>
    requires attribute { attribute < width_of schema.now }
    ensures text { IfOk result (λ text. text.items ≡ row_text schema.now (attributes key) attribute) }
{
    let mut text = Vec::new(alloc);
    add(&mut text, b"<TR><TD ALIGN=\"LEFT\">")?;
    add_marked(
        &mut text,
        schema.name(attribute).bytes(),
        key.contains(attribute),
    )?;
    add(&mut text, b"</TD></TR>")?;
    Ok(text)
}

// Adds a name, underlined where it is in the key.
#[tactic(auto, unfolding(crate::specs::Drawing::marked_text))]
fn add_marked(text: &mut Vec<u8>, name: &[u8], in_key: bool) -> Result<(), OutOfMemory>
    ensures added { OnOk result (text.new.items ≡ text.old.items ++ marked_text in_key name.now) }
{
    if in_key {
        add(text, b"<U>")?;
        add_html(text, name)?;
        add(text, b"</U>")
    } else {
        add_html(text, name)
    }
}
