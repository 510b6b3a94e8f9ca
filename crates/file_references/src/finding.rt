ghost use Rattle.std.specs.Prelude.{◌≡◌, length, map, All, IfOk};
ghost use Rattle.dep_model.specs.Tuples.{IsOver};
ghost use Rattle.file_references.specs.Finds.{reference_of};
ghost use Rattle.file_references.specs.References.{AreAllReferences};
ghost use Rattle.headed_rows.specs.Headers.{IsColumnHeader};
ghost use Rattle.headed_rows.specs.Headings.{headed_of};

use crate::reference::FoundReference;
use crate::targets::add_references_to;
use dep_model::OutOfMemory;
use headed_rows::Headed;
use row_store::Hashing;
use std::alloc::Global;

/// The references between files: each inclusion dependency of columns of a file on a minimal key of at
/// most `MOST_KEY_COLUMNS` columns, without missing values, of a file with two different rows, where
/// rows that miss a value are left out and some row misses none. The source is any other column for a
/// key of one column, and for one of several the columns of the same names in another file.
///
/// For each key the values of its rows are looked up, and a source is left at its first row without a
/// match: so no two lists of columns are compared further than they can hold (as in SPIDER, Bauckmann,
/// Leser, Naumann and Tietz 2007, and BINDER, Papenbrock, Kruse, Quiané-Ruiz and Naumann 2015). What
/// follows from references that were found is not looked up: of many lists of columns with the same
/// values each is compared with a few.
pub fn all_references(
    alloc: Global,
    hashing: Hashing,
    files: &[Headed],
) -> Result<Vec<FoundReference>, OutOfMemory>
    requires header { All (λ h. IsColumnHeader h.names.items) files.now }
    requires same_width { All (λ h. IsOver (length h.names.items) h.rows) files.now }
    ensures all { IfOk result (λ found. AreAllReferences (map headed_of files.now) (map reference_of found.items)) }
{
    let mut found = Vec::new(alloc);
    for target in 0..files.len() {
        add_references_to(alloc, hashing, files, target, &mut found)?;
    }
    found.sort_unstable();
    found.dedup();
    Ok(found)
}
