//! Looks at the system's folders, and making one.

use std::fs;
use std::io::ErrorKind;
use std::rt::Files;

/// Whether nothing has this path, or an empty folder.
pub(crate) fn is_free_path<R: Files + Alloc + Clone + Drop>(rt: &R, path: &str) -> bool {
    match fs::symlink_metadata(rt, path) {
        Ok(_) => is_empty_folder(rt, path),
        Err(error) => {
            error.kind() == ErrorKind::NotFound || error.kind() == ErrorKind::NotADirectory
        }
    }
}

// Whether a path is that of an empty folder, as far as the system tells.
fn is_empty_folder<R: Files + Alloc + Clone + Drop>(rt: &R, path: &str) -> bool {
    match fs::read_dir(rt, path) {
        Ok(mut entries) => entries.next().is_none(),
        Err(_) => false,
    }
}

/// Whether an empty folder of this name is there, after the system was asked to make one.
pub(crate) fn is_made<R: Files + Alloc + Clone + Drop>(rt: &R, name: &[u8]) -> bool {
    match str::from_utf8(name) {
        Ok(path) => fs::create_dir(rt, path).is_ok() || is_empty_folder(rt, path),
        Err(_) => false,
    }
}
