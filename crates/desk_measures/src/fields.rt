//! The fields of the lines of classes and rows, and of their headers.

ghost use Rattle.std.specs.Prelude.{◌≡◌, ◌≤◌, ◌++◌, [], ◌∷◌, if◌then◌else◌, slice_get, OnOk};
ghost use Rattle.attr_sets.specs.Sets.{attributes};
ghost use Rattle.schema_model.specs.Schemas.{lines_of, names_of};
ghost use Rattle.dep_model.specs.Tuples.{value_at};
ghost use Rattle.row_store.specs.Rows.{row_at};
ghost use Rattle.desk_responses.specs.Lines.{line_number_text};
ghost use Rattle.desk_measures.specs.Offences.{mark_text, part_fields, part_headings, row_fields, row_headings};
ghost use Rattle.desk_measures.specs.Offences.{values_below};

use attr_sets::{AttrSet, MOST_ATTRIBUTES};
use dep_model::OutOfMemory;
use itoa::Buffer;
use row_measures::{BrokenPart, BrokenRow, RowMark};
use row_store::{FlatValues, Rows};
use schema_model::Schema;

// The fields become the header of the lines of classes.
pub fn take_part_headings(fields: &mut FlatValues) -> Result<(), OutOfMemory>
    ensures fields { OnOk result (fields.new ≡ part_headings) }
{
    fields.clear();
    fields.push(b"desk_line")?;
    fields.push(b"desk_group")?;
    fields.push(b"desk_rows")?;
    fields.push(b"desk_first")?;
    fields.push(b"desk_keep")
}

// The fields become the header of the lines of rows.
pub fn take_row_headings(fields: &mut FlatValues) -> Result<(), OutOfMemory>
    ensures fields { OnOk result (fields.new ≡ row_headings) }
{
    fields.clear();
    fields.push(b"desk_line")?;
    fields.push(b"desk_group")?;
    fields.push(b"desk_row")?;
    fields.push(b"desk_keep")
}

// Adds the names of a schema to fields.
#[tactic(auto, using(dep_model::proofs::ListLemmas::take_next))]
pub fn push_names(fields: &mut FlatValues, schema: &Schema) -> Result<(), OutOfMemory>
    ensures names { OnOk result (fields.new ≡ fields.old ++ names_of schema.now) }
{
    for attribute in 0..schema.width() {
        fields.push(schema.name(attribute).bytes())?;
    }
    Ok(())
}

// The fields become those of a class, or of a group that breaks a multivalued dependency.
pub fn take_part(
    fields: &mut FlatValues,
    schema: &Schema,
    rows: &Rows,
    k: usize,
    shown: AttrSet,
    part: BrokenPart,
) -> Result<(), OutOfMemory>
    ensures fields { OnOk result
        (fields.new ≡ part_fields schema.now rows.now k (attributes shown) part) }
{
    fields.clear();
    push_line_number(fields, schema, k)?;
    fields.push(Buffer::new().format(part.group).as_bytes())?;
    fields.push(Buffer::new().format(part.rows).as_bytes())?;
    fields.push(Buffer::new().format(part.first as usize + 1).as_bytes())?;
    fields.push(mark_word(part.mark))?;
    push_values(fields, schema.width(), shown, rows, part.first as usize)
}

// The fields become those of a row of a broken group.
pub fn take_broken_row(
    fields: &mut FlatValues,
    schema: &Schema,
    rows: &Rows,
    k: usize,
    broken: BrokenRow,
) -> Result<(), OutOfMemory>
    ensures fields { OnOk result (fields.new ≡ row_fields schema.now rows.now k broken) }
{
    let width = schema.width();
    fields.clear();
    push_line_number(fields, schema, k)?;
    fields.push(Buffer::new().format(broken.group).as_bytes())?;
    fields.push(Buffer::new().format(broken.row as usize + 1).as_bytes())?;
    fields.push(mark_word(broken.mark))?;
    push_values(
        fields,
        width,
        AttrSet::full(width),
        rows,
        broken.row as usize,
    )
}

// Adds the line of a dependency to fields.
fn push_line_number(fields: &mut FlatValues, schema: &Schema, k: usize) -> Result<(), OutOfMemory>
    ensures number { OnOk result (fields.new
        ≡ fields.old ++ line_number_text (slice_get (lines_of schema.now) k) ∷ []) }
{
    if k < schema.deps().len() {
        fields.push(Buffer::new().format(schema.line_of(k)).as_bytes())
    } else {
        fields.push(b"")
    }
}

// A mark in words.
fn mark_word(mark: RowMark) -> &'static [u8]
    ensures word { result.now ≡ mark_text mark }
{
    match mark {
        RowMark::Kept => b"yes",
        RowMark::Removed => b"no",
        RowMark::Unmarked => b"",
    }
}

// Adds the values of a row at the first attributes to fields, with empty fields outside a set.
#[tactic(auto, using(crate::proofs::FieldLemmas::values_steps))]
fn push_values(
    fields: &mut FlatValues,
    width: u8,
    shown: AttrSet,
    rows: &Rows,
    row: usize,
) -> Result<(), OutOfMemory>
    requires width { width ≤ MOST_ATTRIBUTES }
    ensures values { OnOk result (fields.new
        ≡ fields.old ++ values_below width (attributes shown) (row_at rows.now row)) }
{
    for attribute in 0..width {
        let is_shown = shown.contains(attribute);
        fields.push(shown_value(is_shown, rows, row, attribute as usize))?;
    }
    Ok(())
}

// The value of a row at an attribute where it is shown.
fn shown_value(is_shown: bool, rows: &Rows, row: usize, attribute: usize) -> &[u8]
    ensures value { result.now
        ≡ (if is_shown then value_at (row_at rows.now row) attribute else []) }
{
    if is_shown {
        value_of(rows, row, attribute)
    } else {
        &[]
    }
}

// The value of a row at an attribute; there is none beyond the rows and their values.
pub fn value_of(rows: &Rows, row: usize, attribute: usize) -> &[u8]
    ensures value { result.now ≡ value_at (row_at rows.now row) attribute }
{
    if row < rows.len() && attribute < rows.width(row) {
        rows.value(row, attribute)
    } else {
        &[]
    }
}
