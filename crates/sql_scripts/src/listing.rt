ghost use Rattle.std.specs.Prelude.{◌≡◌, ◌++◌, ◌<◌, codes, IfOk};
ghost use Rattle.std.specs.Fmt.{decimal};
ghost use Rattle.attr_sets.specs.Attributes.{below};
ghost use Rattle.attr_sets.specs.Sets.{attributes};
ghost use Rattle.schema_model.specs.Columns.{is_plain_type};
ghost use Rattle.dep_model.specs.Projections.{members_below};
ghost use Rattle.schema_model.specs.Schemas.{width_of};
ghost use Rattle.sql_syntax.specs.Names.{comma_list, quoted_name};
ghost use Rattle.sql_syntax.specs.Printing.{item_text};
ghost use Rattle.sql_check.specs.Checks.{has_members};
ghost use Rattle.sql_scripts.specs.Listing.{item_with, item_of, items_of, item_text_at};

use attr_sets::AttrSet;
use byte_texts::{add, add_number};
use dep_model::OutOfMemory;
use schema_model::{ColumnType, Name, Schema};
use sql_syntax::{add_listed, add_quoted};
use std::alloc::Global;

/// How an attribute stands in a list of a query.
#[derive(Clone, Copy)]
pub enum Listed {
    /// Of the user's table, by its text.
    Compared,
    /// Of the user's table, as it is copied.
    Copied,
    /// Of the user's table.
    Read,
    /// Of the values that are grouped.
    Distinct,
    /// Of the values that are grouped, under the name by which is counted.
    GroupMade,
    /// By the name by which is counted.
    Group,
    /// By the name by which is counted, under its own name again.
    GroupShown,
    /// By the name by which is counted, of the classes that are grouped.
    ClassGroup,
}

// The attributes of a set, ascending, with a comma and a blank between.
pub fn items_text(
    alloc: Global,
    schema: &Schema,
    set: AttrSet,
    listed: Listed,
) -> Result<Vec<u8>, OutOfMemory>
    ensures text { IfOk result (λ text. text.items
        ≡ comma_list item_text (items_of schema.now listed (attributes set))) }
{
    listed_text(alloc, schema, set, listed)
}

// The same, by the text of each.
fn listed_text(
    alloc: Global,
    schema: &Schema,
    set: AttrSet,
    listed: Listed,
) -> Result<Vec<u8>, OutOfMemory>
    ensures text { IfOk result (λ text. text.items
        ≡ comma_list (item_text_at schema.now listed (attributes set))
        (members_below (width_of schema.now) (attributes set))) }
{
    let mut text = Vec::new(alloc);
    let mut number = 0;
    for attribute in 0..schema.width() {
        if set.contains(attribute) {
            let item = item_text(alloc, schema, listed, number + 1, attribute)?;
            add_listed(&mut text, number > 0, &item)?;
            number += 1;
        }
    }
    Ok(text)
}

// One of them, which comes at this number.
fn item_text(
    alloc: Global,
    schema: &Schema,
    listed: Listed,
    number: u32,
    attribute: u8,
) -> Result<Vec<u8>, OutOfMemory>
    requires attribute { attribute < width_of schema.now }
    ensures text { IfOk result (λ text. text.items ≡ item_text (item_of schema.now listed number attribute)) }
{
    let plain = is_plain(schema.column(attribute));
    item_with(alloc, listed, number, schema.name(attribute), plain)
}

// The attribute of a name.
fn item_with(
    alloc: Global,
    listed: Listed,
    number: u32,
    name: &Name,
    plain: bool,
) -> Result<Vec<u8>, OutOfMemory>
    ensures text { IfOk result (λ text. text.items ≡ item_text (item_with listed number name.now plain)) }
{
    match listed {
        Listed::Compared => compared_text(alloc, name),
        Listed::Copied => copied_text(alloc, name, plain),
        Listed::Read => column_text(alloc, b"r.", name),
        Listed::Distinct => column_text(alloc, b"d.", name),
        Listed::GroupMade => group_made(alloc, name, number),
        Listed::Group => group_text(alloc, number),
        Listed::GroupShown => group_shown(alloc, number, name),
        Listed::ClassGroup => numbered(alloc, b"c.c", number),
    }
}

// Whether values are compared as texts.
fn is_plain(column: ColumnType) -> bool
    ensures plain { result ≡ is_plain_type column }
{
    match column {
        ColumnType::Text => true,
        ColumnType::Integer => true,
        _ => false,
    }
}

// A column of the user's table, as it is copied: a text or an integer by its text.
fn copied_text(alloc: Global, name: &Name, plain: bool) -> Result<Vec<u8>, OutOfMemory>
    ensures text { IfOk result
        (λ text. text.items ≡ item_text (item_with Listed.Copied 0 name.now plain)) }
{
    if plain {
        compared_text(alloc, name)
    } else {
        column_text(alloc, b"r.", name)
    }
}

// A column of the user's table by its text, under its own name.
fn compared_text(alloc: Global, name: &Name) -> Result<Vec<u8>, OutOfMemory>
    ensures text { IfOk result (λ text. text.items
        ≡ ((codes "CAST(" ++ (codes "r." ++ quoted_name name.now) ++ codes " AS TEXT)") ++ codes " || ''")
        ++ codes " AS " ++ quoted_name name.now) }
{
    let mut text = by_text(alloc, b"r.", name)?;
    add(&mut text, b" AS ")?;
    add_quoted(&mut text, name)?;
    Ok(text)
}

// A column by its text; the alias has its point.
pub fn by_text(alloc: Global, alias: &[u8], name: &Name) -> Result<Vec<u8>, OutOfMemory>
    ensures text { IfOk result (λ text. text.items
        ≡ (codes "CAST(" ++ (alias.now ++ quoted_name name.now) ++ codes " AS TEXT)") ++ codes " || ''") }
{
    let column = column_text(alloc, alias, name)?;
    let mut text = Vec::new(alloc);
    add(&mut text, b"CAST(")?;
    add(&mut text, &column)?;
    add(&mut text, b" AS TEXT)")?;
    add(&mut text, b" || ''")?;
    Ok(text)
}

// A column of a source; the alias has its point.
pub fn column_text(alloc: Global, alias: &[u8], name: &Name) -> Result<Vec<u8>, OutOfMemory>
    ensures text { IfOk result (λ text. text.items ≡ alias.now ++ quoted_name name.now) }
{
    let mut text = Vec::new(alloc);
    add(&mut text, alias)?;
    add_quoted(&mut text, name)?;
    Ok(text)
}

// A column under the name by which is counted.
fn group_made(alloc: Global, name: &Name, number: u32) -> Result<Vec<u8>, OutOfMemory>
    ensures text { IfOk result (λ text. text.items
        ≡ codes "d." ++ quoted_name name.now ++ codes " AS " ++ (codes "c" ++ decimal number)) }
{
    let group = numbered(alloc, b"c", number)?;
    let mut text = column_text(alloc, b"d.", name)?;
    add(&mut text, b" AS ")?;
    add(&mut text, &group)?;
    Ok(text)
}

// A number after letters.
fn numbered(alloc: Global, letters: &[u8], number: u32) -> Result<Vec<u8>, OutOfMemory>
    ensures text { IfOk result (λ text. text.items ≡ letters.now ++ decimal number) }
{
    let mut text = Vec::new(alloc);
    add(&mut text, letters)?;
    add_number(&mut text, alloc, number)?;
    Ok(text)
}

// A column by which is counted.
fn group_text(alloc: Global, number: u32) -> Result<Vec<u8>, OutOfMemory>
    ensures text { IfOk result (λ text. text.items ≡ codes "e." ++ (codes "c" ++ decimal number)) }
{
    numbered(alloc, b"e.c", number)
}

// A column by which is counted, under its own name.
fn group_shown(alloc: Global, number: u32, name: &Name) -> Result<Vec<u8>, OutOfMemory>
    ensures text { IfOk result (λ text. text.items
        ≡ codes "e." ++ (codes "c" ++ decimal number) ++ codes " AS " ++ quoted_name name.now) }
{
    let mut text = group_text(alloc, number)?;
    add(&mut text, b" AS ")?;
    add_quoted(&mut text, name)?;
    Ok(text)
}

// Whether a set has an attribute of the schema.
pub fn has_members(schema: &Schema, set: AttrSet) -> bool
    ensures members { result ≡ has_members schema.now (attributes set) }
{
    !set.intersection(AttrSet::full(schema.width())).is_empty()
}
