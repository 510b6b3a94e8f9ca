ghost use Rattle.std.specs.Prelude.{◌≡◌, ◌++◌, ◌<◌, ◌+◌, [], if◌then◌else◌, length, take, drop, slice_index_or, OnOk};
ghost use Rattle.attr_sets.specs.declared.set.AttrSet.{AttrSet};
ghost use Rattle.plans.specs.Containing.{is_contained, without_contained};
ghost use Rattle.schema_printer.specs.Spelling.{printed_names_of};
ghost use Rattle.desk_designs.specs.LeftOut.{holder_text, left_out_text, within_text};

use attr_sets::AttrSet;
use byte_texts::add;
use dep_model::OutOfMemory;
use plans::is_contained_at;
use schema_model::Schema;
use schema_printer::add_set;

/// A line for each scheme of a list that is left out, with the first of those kept that holds it, at the
/// end of a text.
pub fn put_left_out(
    text: &mut Vec<u8>,
    schema: &Schema,
    all: &[AttrSet],
    kept: &[AttrSet],
) -> Result<(), OutOfMemory>
    requires kept { kept.now ≡ without_contained all.now }
    ensures added { OnOk result (text.new.items
        ≡ text.old.items ++ left_out_text (printed_names_of schema.now) all.now) }
{
    for i in 0..all.len() {
        put_if_contained(text, schema, all, i, kept)?;
    }
    Ok(())
}

// A line for the scheme at a position of a list, where it is contained, at the end of a text.
fn put_if_contained(
    text: &mut Vec<u8>,
    schema: &Schema,
    all: &[AttrSet],
    i: usize,
    kept: &[AttrSet],
) -> Result<(), OutOfMemory>
    requires position { i < length all.now }
    ensures added { (d : AttrSet) → OnOk result (text.new.items ≡ text.old.items
        ++ (if is_contained (take i all.now) (slice_index_or all.now i d) (drop (i + 1) all.now)
        then within_text (printed_names_of schema.now) kept.now (slice_index_or all.now i d)
        else [])) }
{
    if !is_contained_at(all, i) {
        return Ok(());
    }
    put_within(text, schema, all[i], kept)
}

// A scheme lies within the first of these that holds it, at the end of a text.
fn put_within(
    text: &mut Vec<u8>,
    schema: &Schema,
    scheme: AttrSet,
    kept: &[AttrSet],
) -> Result<(), OutOfMemory>
    ensures added { OnOk result (text.new.items
        ≡ text.old.items ++ within_text (printed_names_of schema.now) kept.now scheme) }
{
    add(text, b"# scheme ")?;
    add_set(text, schema, scheme)?;
    add(text, b" lies within scheme ")?;
    put_holder(text, schema, scheme, kept)?;
    add(text, b"\n")
}

// The first of these that holds a scheme, at the end of a text.
fn put_holder(
    text: &mut Vec<u8>,
    schema: &Schema,
    scheme: AttrSet,
    kept: &[AttrSet],
) -> Result<(), OutOfMemory>
    ensures added { OnOk result (text.new.items
        ≡ text.old.items ++ holder_text (printed_names_of schema.now) scheme kept.now) }
{
    for other in kept {
        if scheme.is_subset(*other) {
            return add_set(text, schema, *other);
        }
    }
    Ok(())
}
