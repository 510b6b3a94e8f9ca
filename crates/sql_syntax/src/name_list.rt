ghost use Rattle.std.specs.Prelude.{◌≡◌, ◌++◌, if◌then◌else◌, OnOk};
ghost use Rattle.attr_sets.specs.Sets.{attributes};
ghost use Rattle.sql_syntax.specs.Names.{separator, comma_list, quoted_name, attribute_names};
ghost use Rattle.sql_syntax.specs.Printing.{names_text};

use attr_sets::AttrSet;
use byte_texts::add;
use dep_model::OutOfMemory;
use schema_model::{Name, Schema};

/// Adds the quoted names of a set's attributes, ascending, with a comma and a blank between.
pub fn add_name_list(text: &mut Vec<u8>, schema: &Schema, set: AttrSet) -> Result<(), OutOfMemory>
    ensures added { OnOk result (text.new.items ≡ text.old.items
        ++ names_text (attribute_names schema.now (attributes set))) }
{
    let mut any_written = false;
    for attribute in 0..schema.width() {
        if set.contains(attribute) {
            add_listed_name(text, any_written, schema.name(attribute))?;
            any_written = true;
        }
    }
    Ok(())
}

/// Adds quoted names, with a comma and a blank between.
pub fn add_names(text: &mut Vec<u8>, names: &[Name]) -> Result<(), OutOfMemory>
    ensures added { OnOk result (text.new.items ≡ text.old.items ++ comma_list quoted_name names.now) }
{
    for (i, name) in names.iter().enumerate() {
        add_listed_name(text, i > 0, name)?;
    }
    Ok(())
}

// Adds a quoted name; after a comma and a blank where another one stands before it.
fn add_listed_name(text: &mut Vec<u8>, any_written: bool, name: &Name) -> Result<(), OutOfMemory>
    ensures added { OnOk result (text.new.items
        ≡ text.old.items ++ (if any_written then separator ++ quoted_name name.now else quoted_name name.now)) }
{
    if any_written {
        add(text, b", ")?;
    }
    add_quoted(text, name)
}

/// Adds an item; after a comma and a blank where another one stands before it.
pub fn add_listed(text: &mut Vec<u8>, any_written: bool, item: &[u8]) -> Result<(), OutOfMemory>
    ensures added { OnOk result (text.new.items
        ≡ text.old.items ++ (if any_written then separator ++ item.now else item.now)) }
{
    if any_written {
        add(text, b", ")?;
    }
    add(text, item)
}

/// Adds a name between double quotes, each double quote in it doubled. So it is one name in SQL.
pub fn add_quoted(text: &mut Vec<u8>, name: &Name) -> Result<(), OutOfMemory>
    ensures added { OnOk result (text.new.items ≡ text.old.items ++ quoted_name name.now) }
{
    schema_printer::add_quoted(text, name.bytes())
}
