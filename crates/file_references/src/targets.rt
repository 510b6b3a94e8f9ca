//! The targets in a file: its minimal keys of few columns in which no value is missing.

ghost use Rattle.std.specs.Prelude.{◌≡◌, ◌↔◌, ◌+◌, ◌++◌, ◌<◌, ◌≤◌, ℕ, true, List, [], ◌∷◌, Some, length, map, All};
ghost use Rattle.std.specs.Prelude.{OnOk, IsTrue};
ghost use Rattle.attr_sets.specs.Attributes.{Attributes, IsSubset, below};
ghost use Rattle.attr_sets.specs.Sets.{attributes};
ghost use Rattle.dep_model.specs.Tuples.{IsOver};
ghost use Rattle.file_references.specs.Columns.{file_at, name_at};
ghost use Rattle.file_references.specs.Finds.{Adds, AreLookedIn, IsLookedIn, IsTo, KnowsTargets, reference_of};
ghost use Rattle.file_references.specs.Finds.{AreReferences};
ghost use Rattle.file_references.specs.References.{HasTwoRows, Reference};
ghost use Rattle.file_references.specs.declared.reference.TheConstants.{MOST_KEY_COLUMNS};
ghost use Rattle.headed_rows.specs.Headers.{IsColumnHeader};
ghost use Rattle.headed_rows.specs.Headings.{headed_of};
ghost use Rattle.schema_model.specs.Schemas.{attribute_named};

use crate::column_sets::{columns_of, has_within, sets_of_one, sets_of_one_more};
use crate::identifying::key_values;
use crate::promising::promising_columns;
use crate::reference::FoundReference;
use crate::sources::add_sources;
use crate::values::{Values, are_same};
use attr_sets::AttrSet;
use dep_model::OutOfMemory;
use headed_rows::Headed;
use indexmap::IndexSet;
use row_store::{Hashing, Rows};
use std::alloc::Global;
use tokens::position_among;

// A key of a file, and the values that its rows have there.
#[derive(Drop)]
pub struct Target<'a> {
    pub file: usize,
    pub columns: Vec<usize>,
    pub values: IndexSet<Values<'a>, Hashing>,
}

// Adds the references to keys of one file. A key of several columns is looked for among those alone to which
// columns of the same names in another file may refer.
pub fn add_references_to(
    alloc: Global,
    hashing: Hashing,
    files: &[Headed],
    target: usize,
    found: &mut Vec<FoundReference>,
) -> Result<(), OutOfMemory>
    requires target { target < length files.now }
    requires header { All (λ h. IsColumnHeader h.names.items) files.now }
    requires same_width { All (λ h. IsOver (length h.names.items) h.rows) files.now }
    ensures added { AreReferences (map headed_of files.now) (map reference_of found.old.items)
        → OnOk result (Adds (map headed_of files.now) (IsTo target)
        (map reference_of found.old.items) (map reference_of found.new.items)) }
{
    if !have_two(&files[target].rows) {
        return Ok(());
    }
    let width = files[target].names.len() as u8;
    let mut keys = Vec::new(alloc);
    let columns = sets_of_one(alloc, AttrSet::full(width))?;
    add_targets(alloc, hashing, files, target, &columns, &mut keys, found)?;
    let named = shared_columns(files, target);
    let shared = promising_columns(alloc, hashing, files, target, named, &keys)?;
    let pairs = sets_of_one_more(alloc, shared, &sets_of_one(alloc, shared)?)?;
    add_targets(alloc, hashing, files, target, &pairs, &mut keys, found)?;
    let triples = sets_of_one_more(alloc, shared, &pairs)?;
    add_targets(alloc, hashing, files, target, &triples, &mut keys, found)
}

// Whether two rows differ.
fn have_two(rows: &Rows) -> bool
    ensures two { IsTrue result ↔ HasTwoRows rows.now }
{
    for row in 0..rows.len() {
        if !are_same(rows, 0, row) {
            return true;
        }
    }
    false
}

// The columns of a file whose names another one has too.
fn shared_columns(files: &[Headed], target: usize) -> AttrSet
    requires target { target < length files.now }
    requires header { All (λ h. IsColumnHeader h.names.items) files.now }
    ensures within { IsSubset (attributes result) (below (length (file_at (map headed_of files.now) target).names)) }
    ensures shared { (file k x : ℕ) → file < length files.now → (file ≡ target → ⊥)
        → k < length (file_at (map headed_of files.now) target).names
        → attribute_named (file_at (map headed_of files.now) file).names
        (name_at (file_at (map headed_of files.now) target).names k) ≡ Some x
        → attributes result k ≡ true }
{
    let mut shared = AttrSet::empty();
    for column in 0..files[target].names.len() {
        if is_shared(files, target, column) {
            shared = shared.with(column as u8);
        }
    }
    shared
}

// Whether another file has a column of this name.
fn is_shared(files: &[Headed], target: usize, column: usize) -> bool
    requires target { target < length files.now }
    requires column { column < length (file_at (map headed_of files.now) target).names }
    ensures shared { (file x : ℕ) → file < length files.now → (file ≡ target → ⊥)
        → attribute_named (file_at (map headed_of files.now) file).names
        (name_at (file_at (map headed_of files.now) target).names column) ≡ Some x
        → result ≡ true }
{
    let name = files[target].names[column].bytes();
    for file in 0..files.len() {
        if file != target && position_among(&files[file].names, name).is_some() {
            return true;
        }
    }
    false
}

// Adds the references to those of these sets of columns of a file that are minimal keys without a
// missing value. The keys among the smaller sets are known.
fn add_targets(
    alloc: Global,
    hashing: Hashing,
    files: &[Headed],
    target: usize,
    sets: &[AttrSet],
    keys: &mut Vec<AttrSet>,
    found: &mut Vec<FoundReference>,
) -> Result<(), OutOfMemory>
    requires target { target < length files.now }
    requires header { All (λ h. IsColumnHeader h.names.items) files.now }
    requires same_width { All (λ h. IsOver (length h.names.items) h.rows) files.now }
    requires two { HasTwoRows (file_at (map headed_of files.now) target).rows }
    ensures knows { (shared : Attributes) (size : ℕ) (first : List Reference) → size < MOST_KEY_COLUMNS
        → AreLookedIn (map headed_of files.now) target shared (size + 1) sets.now
        → AreReferences (map headed_of files.now) first
        → KnowsTargets (map headed_of files.now) target shared size [] first keys.old.items
        (map reference_of found.old.items)
        → OnOk result (KnowsTargets (map headed_of files.now) target shared (size + 1) [] first keys.new.items
        (map reference_of found.new.items)) }
{
    for set in sets {
        add_target(alloc, hashing, files, target, *set, keys, found)?;
    }
    Ok(())
}

// The same of one set.
fn add_target(
    alloc: Global,
    hashing: Hashing,
    files: &[Headed],
    target: usize,
    set: AttrSet,
    keys: &mut Vec<AttrSet>,
    found: &mut Vec<FoundReference>,
) -> Result<(), OutOfMemory>
    requires target { target < length files.now }
    requires header { All (λ h. IsColumnHeader h.names.items) files.now }
    requires same_width { All (λ h. IsOver (length h.names.items) h.rows) files.now }
    requires two { HasTwoRows (file_at (map headed_of files.now) target).rows }
    ensures knows { (shared : Attributes) (size : ℕ) (sets : List AttrSet) (first : List Reference)
        → size < MOST_KEY_COLUMNS → IsLookedIn (map headed_of files.now) target shared (size + 1) set
        → AreReferences (map headed_of files.now) first
        → KnowsTargets (map headed_of files.now) target shared size sets first keys.old.items
        (map reference_of found.old.items)
        → OnOk result (KnowsTargets (map headed_of files.now) target shared size (sets ++ set ∷ []) first keys.new.items
        (map reference_of found.new.items)) }
{
    if has_within(keys, set) {
        return Ok(());
    }
    let width = files[target].names.len() as u8;
    let columns = columns_of(alloc, width, set)?;
    match key_values(alloc, hashing, &files[target].rows, &columns)? {
        None => Ok(()),
        Some(values) => {
            keys.push(set)?;
            let found_target = Target {
                file: target,
                columns,
                values,
            };
            add_sources(alloc, files, &found_target, found)
        }
    }
}
