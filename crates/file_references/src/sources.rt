//! The sources that refer to a target.

ghost use Rattle.std.specs.Prelude.{◌≡◌, ◌↔◌, ◌+◌, ◌<◌, ◌≤◌, ℕ, true, List, length, map, All, IfOk, IsTrue};
ghost use Rattle.std.specs.Prelude.{MatchOption, OnOk};
ghost use Rattle.dep_model.specs.Tuples.{IsOver};
ghost use Rattle.file_references.specs.Columns.{file_at};
ghost use Rattle.file_references.specs.Finds.{Adds, AllAre, AreNamedAs, AreReferences, FitsFile, IsTargetOf, IsThis};
ghost use Rattle.file_references.specs.Finds.{RefersFrom, RefersTo, reference_of, refers_from};
ghost use Rattle.file_references.specs.References.{IsCandidate, IsReference};
ghost use Rattle.headed_rows.specs.Headers.{IsColumnHeader};
ghost use Rattle.headed_rows.specs.Headings.{headed_of};
ghost use Rattle.table_join.specs.Lent.{tuples_of};

use crate::following::follows;
use crate::reference::FoundReference;
use crate::targets::Target;
use crate::values::{MOST_FIRST_ROWS, Values, are_there, has_values, take_on};
use dep_model::OutOfMemory;
use headed_rows::Headed;
use indexmap::IndexSet;
use row_store::{Hashing, Rows};
use schema_model::Name;
use std::alloc::Global;
use tokens::position_among;

// Adds the references to a target.
pub fn add_sources(
    alloc: Global,
    files: &[Headed],
    target: &Target,
    found: &mut Vec<FoundReference>,
) -> Result<(), OutOfMemory>
    requires header { All (λ h. IsColumnHeader h.names.items) files.now }
    requires same_width { All (λ h. IsOver (length h.names.items) h.rows) files.now }
    requires target { FitsFile (map headed_of files.now) target.now }
    ensures added { AreReferences (map headed_of files.now) (map reference_of found.old.items)
        → IsTargetOf (map headed_of files.now) target.now
        → OnOk result (Adds (map headed_of files.now) (RefersTo target.now)
        (map reference_of found.old.items) (map reference_of found.new.items)) }
{
    for turn in 0..files.len() {
        let file = file_in_turn(target.file, turn);
        if target.columns.len() == 1 {
            add_columns(alloc, files, file, target, found)?;
        } else {
            add_namesakes(alloc, files, file, target, found)?;
        }
    }
    Ok(())
}

// The file that is looked at in a turn: the files before that of the target come first, the nearest before all. The
// references to their keys are known, so where these refer to the target, what refers to them follows.
fn file_in_turn(target: usize, turn: usize) -> usize
    ensures before { turn < target → result + turn + 1 ≡ target }
    ensures after { target ≤ turn → result ≡ turn }
{
    if turn < target {
        target - turn - 1
    } else {
        turn
    }
}

// Adds the references from single columns of a file.
fn add_columns(
    alloc: Global,
    files: &[Headed],
    file: usize,
    target: &Target,
    found: &mut Vec<FoundReference>,
) -> Result<(), OutOfMemory>
    requires file { file < length files.now }
    requires header { All (λ h. IsColumnHeader h.names.items) files.now }
    requires same_width { All (λ h. IsOver (length h.names.items) h.rows) files.now }
    requires target { FitsFile (map headed_of files.now) target.now }
    requires one { length target.now.columns.items ≡ 1 }
    ensures added { AreReferences (map headed_of files.now) (map reference_of found.old.items)
        → IsTargetOf (map headed_of files.now) target.now
        → OnOk result (Adds (map headed_of files.now) (RefersFrom target.now file)
        (map reference_of found.old.items) (map reference_of found.new.items)) }
{
    for column in 0..files[file].names.len() {
        if file != target.file || column != target.columns[0] {
            let mut columns = Vec::new(alloc);
            columns.push(column)?;
            add_source(alloc, files, file, columns, target, found)?;
        }
    }
    Ok(())
}

// Adds the reference from the columns of a file that are named as those of a target.
fn add_namesakes(
    alloc: Global,
    files: &[Headed],
    file: usize,
    target: &Target,
    found: &mut Vec<FoundReference>,
) -> Result<(), OutOfMemory>
    requires file { file < length files.now }
    requires header { All (λ h. IsColumnHeader h.names.items) files.now }
    requires same_width { All (λ h. IsOver (length h.names.items) h.rows) files.now }
    requires target { FitsFile (map headed_of files.now) target.now }
    requires several { length target.now.columns.items ≡ 1 → ⊥ }
    ensures added { AreReferences (map headed_of files.now) (map reference_of found.old.items)
        → IsTargetOf (map headed_of files.now) target.now
        → OnOk result (Adds (map headed_of files.now) (RefersFrom target.now file)
        (map reference_of found.old.items) (map reference_of found.new.items)) }
{
    if file == target.file {
        return Ok(());
    }
    let names = &files[target.file].names;
    match namesakes(alloc, &files[file].names, names, &target.columns)? {
        None => Ok(()),
        Some(columns) => add_source(alloc, files, file, columns, target, found),
    }
}

// Adds a reference to a target, if it holds.
fn add_source(
    alloc: Global,
    files: &[Headed],
    file: usize,
    columns: Vec<usize>,
    target: &Target,
    found: &mut Vec<FoundReference>,
) -> Result<(), OutOfMemory>
    requires file { file < length files.now }
    requires columns { All (λ k. k < length (file_at (map headed_of files.now) file).names) columns.items }
    requires same_width { All (λ h. IsOver (length h.names.items) h.rows) files.now }
    requires target { FitsFile (map headed_of files.now) target.now }
    ensures added { AreReferences (map headed_of files.now) (map reference_of found.old.items)
        → IsTargetOf (map headed_of files.now) target.now
        → IsCandidate (map headed_of files.now) (refers_from file columns.items target.now)
        → OnOk result (Adds (map headed_of files.now) (IsThis (refers_from file columns.items target.now))
        (map reference_of found.old.items) (map reference_of found.new.items)) }
{
    if refers(alloc, files, file, &columns, target, found)? {
        found.push(FoundReference {
            file,
            columns,
            target: target.file,
            key: Vec::from_slice(alloc, &target.columns)?,
        })?;
    }
    Ok(())
}

// Whether columns of a file refer to a target. Where that follows from what was found, only the first rows are looked
// up; what was found is not searched where it is more than the rows.
fn refers(
    alloc: Global,
    files: &[Headed],
    file: usize,
    columns: &[usize],
    target: &Target,
    found: &[FoundReference],
) -> Result<bool, OutOfMemory>
    requires file { file < length files.now }
    requires columns { All (λ k. k < length (file_at (map headed_of files.now) file).names) columns.now }
    requires same_width { All (λ h. IsOver (length h.names.items) h.rows) files.now }
    ensures refers { AreReferences (map headed_of files.now) (map reference_of found.now)
        → IsTargetOf (map headed_of files.now) target.now
        → IsCandidate (map headed_of files.now) (refers_from file columns.now target.now)
        → IfOk result (λ refers. IsTrue refers
        ↔ IsReference (map headed_of files.now) (refers_from file columns.now target.now)) }
{
    let rows = &files[file].rows;
    if !are_first_among(alloc, rows, columns, &target.values)? {
        return Ok(false);
    }
    if found.len() <= rows.len() && follows(found, file, columns, target) {
        return Ok(true);
    }
    all_are(alloc, rows, columns, &target.values)
}

// Whether the first rows that miss none of their values at columns have them among these.
fn are_first_among(
    alloc: Global,
    rows: &Rows,
    columns: &[usize],
    values: &IndexSet<Values, Hashing>,
) -> Result<bool, OutOfMemory>
    requires columns { All (λ t. All (λ k. k < length t) columns.now) rows.now }
    ensures first { AllAre rows.now columns.now (tuples_of values.now.keys) → IfOk result (λ are. are ≡ true) }
{
    let mut read = Vec::new(alloc);
    for row in 0..rows.len() {
        if row == MOST_FIRST_ROWS {
            return Ok(true);
        }
        take_on(&mut read, rows, row, columns)?;
        if are_there(&read) {
            if !has_values(values, &read) {
                return Ok(false);
            }
        }
    }
    Ok(true)
}

// Whether each row that misses none of its values at columns has them among these, and some row misses none.
fn all_are(
    alloc: Global,
    rows: &Rows,
    columns: &[usize],
    values: &IndexSet<Values, Hashing>,
) -> Result<bool, OutOfMemory>
    requires columns { All (λ t. All (λ k. k < length t) columns.now) rows.now }
    ensures all { IfOk result (λ are. IsTrue are ↔ AllAre rows.now columns.now (tuples_of values.now.keys)) }
{
    let mut any_whole = false;
    let mut read = Vec::new(alloc);
    for row in 0..rows.len() {
        take_on(&mut read, rows, row, columns)?;
        if are_there(&read) {
            if !has_values(values, &read) {
                return Ok(false);
            }
            any_whole = true;
        }
    }
    Ok(any_whole)
}

// The columns of these names that are named as columns of others, where each has one.
fn namesakes(
    alloc: Global,
    names: &[Name],
    others: &[Name],
    columns: &[usize],
) -> Result<Option<Vec<usize>>, OutOfMemory>
    requires columns { All (λ k. k < length others.now) columns.now }
    ensures named { IfOk result (λ found. MatchOption found
        ((same : List ℕ) → AreNamedAs names.now others.now same columns.now → ⊥)
        (λ same. AreNamedAs names.now others.now same.items columns.now)) }
{
    let mut found = Vec::with_capacity(alloc, columns.len())?;
    for column in columns {
        match position_among(names, others[*column].bytes()) {
            Some(position) => found.push(position)?,
            None => return Ok(None),
        }
    }
    Ok(Some(found))
}
