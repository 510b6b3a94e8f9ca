//! Names of folders: which are free among files, and how the paths of files in a folder begin.

ghost use Rattle.std.specs.Prelude.{◌≡◌, IfOk};
ghost use Rattle.std.specs.List.{list_any};
ghost use Rattle.desk_outside.specs.Folders.{folder_path};
ghost use Rattle.desk_outside.specs.FreeNames.{is_below, is_taken_by};

use crate::held_file::HeldFile;
use dep_model::OutOfMemory;
use std::alloc::Global;

/// What the path of each file in a folder of this name begins with.
pub fn folder_path(alloc: Global, name: &[u8]) -> Result<Vec<u8>, OutOfMemory>
    ensures path { IfOk result (λ path. path.items ≡ folder_path name.now) }
{
    let mut path = Vec::from_slice(alloc, name)?;
    path.extend_from_slice(b"/")?;
    Ok(path)
}

/// Whether one of these files has this name, or stands in a folder of this name.
pub(crate) fn any_taken(files: &[HeldFile], name: &[u8]) -> bool
    ensures taken { result ≡ list_any (λ file. is_taken_by name.now file.name) files.now }
{
    files
        .iter()
        .any(|file| is_taken_by(file.name.bytes(), name))
}

// Whether a file of this path has this name, or stands in a folder of this name.
#[tactic(auto, unfolding(crate::specs::FreeNames::is_taken_by))]
fn is_taken_by(path: &[u8], name: &[u8]) -> bool
    ensures taken { result ≡ is_taken_by name.now path.now }
{
    path == name || is_below(path, name)
}

// Whether a path begins with a name and a slash.
fn is_below(path: &[u8], name: &[u8]) -> bool
    ensures below { result ≡ is_below name.now path.now }
{
    path.starts_with(name) && path[name.len()..].starts_with(b"/")
}
