ghost use Rattle.std.specs.Prelude.{◌≡◌, ◌++◌, ◌<◌, All, OnOk, length, map, slice_index_or, []};
ghost use Rattle.dep_model.specs.Tuples.{IsOver};
ghost use Rattle.desk_discovery.specs.Discoveries.{column_text};
ghost use Rattle.desk_references.specs.Findings.{FindsReferences, columns_text, reference_text};
ghost use Rattle.desk_responses.specs.Responses.{RespondsAs};
ghost use Rattle.file_references.specs.Columns.{file_at};
ghost use Rattle.file_references.specs.Finds.{reference_of};
ghost use Rattle.headed_rows.specs.Headers.{IsColumnHeader};
ghost use Rattle.headed_rows.specs.Headings.{headed_of};
ghost use Rattle.schema_printer.specs.Printing.{words_text};

use arguments::Argument;
use byte_texts::add;
use dep_model::OutOfMemory;
use desk_responses::{EarlyExit, Response, Status};
use file_references::{FoundReference, all_references};
use headed_rows::{Headed, naming_under};
use row_store::Hashing;
use schema_model::Name;
use schema_printer::add_name;
use std::alloc::Global;

/// The references between files of these names, each on a line.
pub fn find_references(
    alloc: Global,
    hashing: Hashing,
    names: &[Argument],
    files: &[Headed],
) -> Result<Response, EarlyExit>
    requires one_each { length files.now ≡ length names.now }
    requires header { All (λ h. IsColumnHeader h.names.items) files.now }
    requires same_width { All (λ h. IsOver (length h.names.items) h.rows) files.now }
    ensures response { RespondsAs (FindsReferences names.now (map headed_of files.now)) result }
{
    let found = all_references(alloc, hashing, files)?;
    let mut text = Vec::new(alloc);
    for reference in &found {
        add_reference(&mut text, names, files, reference)?;
    }
    Ok(Response::with_text(Status::Yes, text))
}

// A reference, on a line.
fn add_reference(
    text: &mut Vec<u8>,
    names: &[Argument],
    files: &[Headed],
    reference: &FoundReference,
) -> Result<(), OutOfMemory>
    requires one_each { length files.now ≡ length names.now }
    requires file { reference.now.file < length files.now }
    requires target { reference.now.target < length files.now }
    requires columns { All (λ k. k < length (file_at (map headed_of files.now) reference.now.file).names)
        reference.now.columns.items }
    requires key { All (λ k. k < length (file_at (map headed_of files.now) reference.now.target).names)
        reference.now.key.items }
    ensures added { OnOk result (text.new.items ≡ text.old.items
        ++ reference_text names.now (map headed_of files.now) (reference_of reference.now)) }
{
    add(text, names[reference.file].bytes())?;
    add_columns(text, &files[reference.file].names, &reference.columns)?;
    add(text, b" references ")?;
    add(text, names[reference.target].bytes())?;
    add_columns(text, &files[reference.target].names, &reference.key)?;
    add(text, b"\n")
}

// The names of columns as they are printed, each after a blank.
fn add_columns(text: &mut Vec<u8>, names: &[Name], columns: &[usize]) -> Result<(), OutOfMemory>
    requires columns { All (λ k. k < length names.now) columns.now }
    ensures added { OnOk result (text.new.items
        ≡ text.old.items ++ words_text (map (column_text names.now) columns.now)) }
{
    for column in columns {
        add(text, b" ")?;
        add_name(text, naming_under(names), &names[*column])?;
    }
    Ok(())
}
