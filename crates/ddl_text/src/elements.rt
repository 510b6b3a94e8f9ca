ghost use Rattle.std.specs.Prelude.{◌≡◌, ◌<◌, ◌++◌, ◌||◌, false, length, All, IfOk, OnOk};
ghost use Rattle.attr_sets.specs.Sets.{attributes};
ghost use Rattle.dep_model.specs.Plans.{schemes_of};
ghost use Rattle.ddl_text.specs.Ddl.{elements_made, key_made, keys_made, uniques_made};
ghost use Rattle.sql_syntax.specs.Names.{attribute_names, is_not_empty};
ghost use Rattle.sql_syntax.specs.Statements.{unique_key, opening, element_lines, element_text};

use crate::TableDesign;
use crate::columns::add_columns;
use crate::other_keys::may_be_missing;
use crate::references::add_references;
use attr_sets::AttrSet;
use byte_texts::add;
use dep_model::OutOfMemory;
use schema_model::Schema;
use sql_syntax::add_name_list;

// Adds the columns, the keys and the references of a table.
pub fn add_elements(
    text: &mut Vec<u8>,
    schema: &Schema,
    tables: &[TableDesign],
    table: &TableDesign,
) -> Result<(), OutOfMemory>
    requires refs { All (λ j. j < length tables.now) table.now.refs.items }
    ensures added { OnOk result (text.new.items
        ≡ text.old.items ++ element_lines false (elements_made schema.now tables.now table.now)) }
{
    let any_before = add_columns(text, schema, table)?;
    let any_before = add_keys(text, any_before, schema, table)?;
    add_references(text, any_before, schema, tables, &table.refs)
}

// Adds the key and the other keys of a table, and says whether there are some elements.
fn add_keys(
    text: &mut Vec<u8>,
    any_before: bool,
    schema: &Schema,
    table: &TableDesign,
) -> Result<bool, OutOfMemory>
    ensures added { OnOk result (text.new.items
        ≡ text.old.items ++ element_lines any_before (keys_made schema.now table.now)) }
    ensures any_written { IfOk result (λ more. more
        ≡ (any_before || is_not_empty (keys_made schema.now table.now))) }
{
    let any_before = add_key(text, any_before, schema, table.key)?;
    match &table.other_keys {
        Some(keys) => add_unique_keys(text, any_before, schema, keys),
        None => Ok(any_before),
    }
}

// Adds those of other keys of which no value may be missing, and says whether there are some elements.
fn add_unique_keys(
    text: &mut Vec<u8>,
    any_before: bool,
    schema: &Schema,
    keys: &[AttrSet],
) -> Result<bool, OutOfMemory>
    ensures added { OnOk result (text.new.items ≡ text.old.items
        ++ element_lines any_before (uniques_made schema.now (schemes_of keys.now))) }
    ensures any_written { IfOk result (λ more. more
        ≡ (any_before || is_not_empty (uniques_made schema.now (schemes_of keys.now)))) }
{
    let mut any_before = any_before;
    for key in keys {
        if may_be_missing(schema, *key) {
            continue;
        }
        add_opening(text, any_before)?;
        add_unique_key(text, schema, *key)?;
        any_before = true;
    }
    Ok(any_before)
}

// Adds another key.
fn add_unique_key(text: &mut Vec<u8>, schema: &Schema, key: AttrSet) -> Result<(), OutOfMemory>
    ensures added { OnOk result (text.new.items ≡ text.old.items
        ++ element_text (unique_key (attribute_names schema.now (attributes key)))) }
{
    add(text, b"UNIQUE (")?;
    add_name_list(text, schema, key)?;
    add(text, b")")
}

// Adds the key of a table, if it is not empty, and says whether there are some elements.
fn add_key(
    text: &mut Vec<u8>,
    any_before: bool,
    schema: &Schema,
    key: AttrSet,
) -> Result<bool, OutOfMemory>
    ensures added { OnOk result (text.new.items
        ≡ text.old.items ++ element_lines any_before (key_made schema.now (attributes key))) }
    ensures any_written { IfOk result (λ more. more
        ≡ (any_before || is_not_empty (key_made schema.now (attributes key)))) }
{
    if key.is_empty() {
        return Ok(any_before);
    }
    add_opening(text, any_before)?;
    add(text, b"PRIMARY KEY (")?;
    add_name_list(text, schema, key)?;
    add(text, b")")?;
    Ok(true)
}

// Adds what stands before an element on its line, and ends the line before, if there is one.
pub fn add_opening(text: &mut Vec<u8>, any_before: bool) -> Result<(), OutOfMemory>
    ensures added { OnOk result (text.new.items ≡ text.old.items ++ opening any_before) }
{
    if any_before {
        add(text, b",\n")?;
    }
    add(text, b"  ")
}
