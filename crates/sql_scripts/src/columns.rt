ghost use Rattle.std.specs.Prelude.{◌≡◌, ◌<◌, ◌++◌, codes, IfOk};
ghost use Rattle.attr_sets.specs.Sets.{attributes};
ghost use Rattle.dep_model.specs.Projections.{members_below};
ghost use Rattle.schema_model.specs.Schemas.{width_of};
ghost use Rattle.sql_syntax.specs.Names.{attribute_names, comma_list, quoted_name};
ghost use Rattle.sql_syntax.specs.Printing.{item_text, names_text};
ghost use Rattle.sql_migrate.specs.Moving.{moved, moved_at, moved_on};
ghost use Rattle.sql_scripts.specs.Migrating.{moved_text};

use crate::integers::is_integer;
use crate::listing::{by_text, column_text};
use attr_sets::AttrSet;
use byte_texts::add;
use dep_model::OutOfMemory;
use schema_model::{Name, Schema};
use sql_migrate::Move;
use sql_syntax::{add_listed, add_name_list, add_quoted};
use std::alloc::Global;

// The quoted names of a set's attributes.
pub fn names_text(alloc: Global, schema: &Schema, set: AttrSet) -> Result<Vec<u8>, OutOfMemory>
    ensures text { IfOk result (λ text. text.items
        ≡ names_text (attribute_names schema.now (attributes set))) }
{
    let mut text = Vec::new(alloc);
    add_name_list(&mut text, schema, set)?;
    Ok(text)
}

// The columns of a set's attributes, as they move, with a comma and a blank between.
pub fn moved_columns(
    alloc: Global,
    schema: &Schema,
    set: AttrSet,
    how: Move,
) -> Result<Vec<u8>, OutOfMemory>
    ensures text { IfOk result (λ text. text.items
        ≡ comma_list item_text (moved_on schema.now how (attributes set))) }
{
    columns_text(alloc, schema, set, how)
}

// The same, by the text of each.
fn columns_text(
    alloc: Global,
    schema: &Schema,
    set: AttrSet,
    how: Move,
) -> Result<Vec<u8>, OutOfMemory>
    ensures text { IfOk result (λ text. text.items ≡ comma_list (moved_text schema.now how)
        (members_below (width_of schema.now) (attributes set))) }
{
    let mut text = Vec::new(alloc);
    let mut any_written = false;
    for attribute in 0..schema.width() {
        if set.contains(attribute) {
            add_listed(
                &mut text,
                any_written,
                &column_at(alloc, schema, how, attribute)?,
            )?;
            any_written = true;
        }
    }
    Ok(text)
}

// The column of an attribute.
fn column_at(
    alloc: Global,
    schema: &Schema,
    how: Move,
    attribute: u8,
) -> Result<Vec<u8>, OutOfMemory>
    requires attribute { attribute < width_of schema.now }
    ensures text { IfOk result (λ text. text.items ≡ item_text (moved_at schema.now how attribute)) }
{
    let of_integer = is_integer(schema.column(attribute));
    moved_column(alloc, how, schema.name(attribute), of_integer)
}

// A column of a name, of an integer or not.
fn moved_column(
    alloc: Global,
    how: Move,
    name: &Name,
    of_integer: bool,
) -> Result<Vec<u8>, OutOfMemory>
    ensures text { IfOk result (λ text. text.items ≡ item_text (moved how name.now of_integer)) }
{
    match how {
        Move::Entering => entering_column(alloc, name, of_integer),
        Move::Returning => by_text(alloc, b"j.", name),
    }
}

fn entering_column(alloc: Global, name: &Name, of_integer: bool) -> Result<Vec<u8>, OutOfMemory>
    ensures text { IfOk result
        (λ text. text.items ≡ item_text (moved Move.Entering name.now of_integer)) }
{
    let column = column_text(alloc, b"o.", name)?;
    if of_integer {
        integer_cast(alloc, &column)
    } else {
        Ok(column)
    }
}

// A column that is cast to an integer.
fn integer_cast(alloc: Global, column: &[u8]) -> Result<Vec<u8>, OutOfMemory>
    ensures text { IfOk result
        (λ text. text.items ≡ codes "CAST(" ++ column.now ++ codes " AS BIGINT)") }
{
    let mut text = Vec::new(alloc);
    add(&mut text, b"CAST(")?;
    add(&mut text, column)?;
    add(&mut text, b" AS BIGINT)")?;
    Ok(text)
}

// A name in double quotes.
pub fn quoted_name(alloc: Global, name: &Name) -> Result<Vec<u8>, OutOfMemory>
    ensures text { IfOk result (λ text. text.items ≡ quoted_name name.now) }
{
    let mut text = Vec::new(alloc);
    add_quoted(&mut text, name)?;
    Ok(text)
}
