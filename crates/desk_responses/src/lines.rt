//! Lines that the answers of several commands have, and the refusals that several commands end with.

ghost use Rattle.std.specs.Prelude.{◌≡◌, ◌++◌, ◌<◌, [], slice_get, IfOk, OnOk};
ghost use Rattle.attr_sets.specs.Attributes.{IsSubset};
ghost use Rattle.attr_sets.specs.Sets.{attributes};
ghost use Rattle.schema_model.specs.Schemas.{deps_of, lines_of, universe_of, width_of};
ghost use Rattle.schema_printer.specs.Spelling.{printed_names_of};
ghost use Rattle.desk_texts.specs.Texts.{set_line};
ghost use Rattle.desk_responses.specs.Lines.{bad_table_text, dep_text, line_number_text, attribute_name, too_wide_text};
ghost use Rattle.desk_responses.specs.ResponseValues.{Says};
ghost use Rattle.desk_responses.specs.Responses.{ExitsAs};

use crate::Status;
use crate::response::EarlyExit;
use attr_sets::AttrSet;
use byte_texts::{add, add_number};
use dep_model::OutOfMemory;
use desk_texts::line_of;
use schema_model::Schema;
use schema_printer::{add_dep, add_name, add_set, print_set};
use std::alloc::Global;

/// The line of a dependency of a schema, at the end of a text.
pub fn put_line(
    alloc: Global,
    text: &mut Vec<u8>,
    schema: &Schema,
    k: usize,
) -> Result<(), OutOfMemory>
    ensures added { OnOk result (text.new.items
        ≡ text.old.items ++ line_number_text (slice_get (lines_of schema.now) k)) }
{
    if k < schema.deps().len() {
        add_number(text, alloc, schema.line_of(k))
    } else {
        Ok(())
    }
}

/// A dependency of a schema, at the end of a text.
pub fn put_dep(text: &mut Vec<u8>, schema: &Schema, k: usize) -> Result<(), OutOfMemory>
    ensures added { OnOk result (text.new.items
        ≡ text.old.items ++ dep_text (printed_names_of schema.now) (slice_get (deps_of schema.now) k)) }
{
    match schema.deps().get(k) {
        Some(dep) => add_dep(text, schema, *dep),
        None => Ok(()),
    }
}

/// A word and a set, on a line at the end of a text.
pub fn put_set_line(
    text: &mut Vec<u8>,
    schema: &Schema,
    word: &[u8],
    set: AttrSet,
) -> Result<(), OutOfMemory>
    requires within { IsSubset (attributes set) (universe_of schema.now) }
    ensures added { OnOk result (text.new.items
        ≡ text.old.items ++ set_line word.now (printed_names_of schema.now) (attributes set)) }
{
    add(text, word)?;
    add_set(text, schema, set)?;
    add(text, b"\n")
}

/// The name of an attribute as it is printed, at the end of a text.
#[tactic(auto, using(crate::proofs::NameLemmas::no_name))]
pub fn put_name(text: &mut Vec<u8>, schema: &Schema, attribute: u8) -> Result<(), OutOfMemory>
    ensures added { OnOk result (text.new.items
        ≡ text.old.items ++ attribute_name (printed_names_of schema.now) attribute) }
{
    if attribute < schema.width() {
        put_known_name(text, schema, attribute)
    } else {
        Ok(())
    }
}

fn put_known_name(text: &mut Vec<u8>, schema: &Schema, attribute: u8) -> Result<(), OutOfMemory>
    requires attribute { attribute < width_of schema.now }
    ensures added { OnOk result (text.new.items
        ≡ text.old.items ++ attribute_name (printed_names_of schema.now) attribute) }
{
    add_name(text, schema.naming(), schema.name(attribute))
}

/// A scheme has more attributes than are looked at.
pub fn too_wide_exit(alloc: Global, schema: &Schema, scheme: AttrSet) -> EarlyExit
    requires within { IsSubset (attributes scheme) (universe_of schema.now) }
    ensures says { ExitsAs (Says Status.Refused
        (too_wide_text (printed_names_of schema.now) (attributes scheme))) result }
{
    EarlyExit::with_text(Status::Refused, too_wide_line(alloc, schema, scheme))
}

fn too_wide_line(alloc: Global, schema: &Schema, scheme: AttrSet) -> Result<Vec<u8>, OutOfMemory>
    requires within { IsSubset (attributes scheme) (universe_of schema.now) }
    ensures line { IfOk result (λ text. text.items
        ≡ too_wide_text (printed_names_of schema.now) (attributes scheme)) }
{
    line_of(
        alloc,
        b"refused: too wide: scheme ",
        &print_set(alloc, schema, scheme)?,
        b"",
    )
}

/// A word names no table.
pub fn bad_table_exit(alloc: Global) -> EarlyExit
    ensures says { ExitsAs (Says Status.Refused bad_table_text) result }
{
    EarlyExit::with_text(Status::Refused, bad_table_line(alloc))
}

fn bad_table_line(alloc: Global) -> Result<Vec<u8>, OutOfMemory>
    ensures line { IfOk result (λ text. text.items ≡ bad_table_text) }
{
    line_of(alloc, b"refused: bad table name", b"", b"")
}
