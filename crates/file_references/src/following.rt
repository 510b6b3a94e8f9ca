//! References that follow from those that were found.

ghost use Rattle.std.specs.Prelude.{◌≡◌, ◌↔◌, map, Contains, IsTrue};
ghost use Rattle.file_references.specs.Finds.{Follows, reference_of, refers_from};

use crate::reference::FoundReference;
use crate::targets::Target;

// Whether a reference to a target follows, as the columns refer to some that refer to the target.
pub fn follows(found: &[FoundReference], file: usize, columns: &[usize], target: &Target) -> bool
    ensures follows { IsTrue result → Follows (map reference_of found.now) (refers_from file columns.now target.now) }
{
    for first in found {
        if is_from(first, file, columns) && are_known(found, first.target, &first.key, target) {
            return true;
        }
    }
    false
}

// Whether the reference from columns of a file to a target is among these.
fn are_known(found: &[FoundReference], file: usize, columns: &[usize], target: &Target) -> bool
    ensures known { IsTrue result → Contains (map reference_of found.now) (refers_from file columns.now target.now) }
{
    for reference in found {
        if is_to(reference, target) && is_from(reference, file, columns) {
            return true;
        }
    }
    false
}

// Whether a reference is one from columns of a file.
fn is_from(reference: &FoundReference, file: usize, columns: &[usize]) -> bool
    ensures file { IsTrue result → reference.now.file ≡ file }
    ensures columns { IsTrue result → reference.now.columns.items ≡ columns.now }
{
    reference.file == file && reference.columns.as_slice() == columns
}

// Whether a reference is one to a target.
fn is_to(reference: &FoundReference, target: &Target) -> bool
    ensures file { IsTrue result → reference.now.target ≡ target.now.file }
    ensures key { IsTrue result → reference.now.key.items ≡ target.now.columns.items }
{
    reference.target == target.file && reference.key.as_slice() == target.columns.as_slice()
}
