ghost use Rattle.std.specs.Prelude.{◌≡◌, ◌<◌, ◌++◌, length, All, OnOk};
ghost use Rattle.ddl_text.specs.Ddl.{reference_made, references_to};
ghost use Rattle.ddl_text.specs.declared.table.TableDesign.{TableDesign};
ghost use Rattle.sql_syntax.specs.Statements.{element_lines, element_text};

use crate::TableDesign;
use crate::elements::add_opening;
use byte_texts::add;
use dep_model::OutOfMemory;
use schema_model::Schema;
use sql_syntax::{add_name_list, add_quoted};

// Adds the references to the tables at these positions, in order, where other elements stand before or not.
pub fn add_references(
    text: &mut Vec<u8>,
    any_before: bool,
    schema: &Schema,
    tables: &[TableDesign],
    refs: &[u32],
) -> Result<(), OutOfMemory>
    requires refs { All (λ j. j < length tables.now) refs.now }
    ensures added { (table : TableDesign) → OnOk result (text.new.items
        ≡ text.old.items ++ element_lines any_before (references_to schema.now tables.now table refs.now)) }
{
    let mut any_before = any_before;
    for j in refs {
        add_opening(text, any_before)?;
        add_reference(text, schema, &tables[*j as usize])?;
        any_before = true;
    }
    Ok(())
}

// Adds a reference to a table by its key.
fn add_reference(
    text: &mut Vec<u8>,
    schema: &Schema,
    other: &TableDesign,
) -> Result<(), OutOfMemory>
    ensures added { OnOk result (text.new.items
        ≡ text.old.items ++ element_text (reference_made schema.now other.now)) }
{
    add(text, b"FOREIGN KEY (")?;
    add_name_list(text, schema, other.key)?;
    add(text, b") REFERENCES ")?;
    add_quoted(text, &other.name)?;
    add(text, b" (")?;
    add_name_list(text, schema, other.key)?;
    add(text, b")")
}
