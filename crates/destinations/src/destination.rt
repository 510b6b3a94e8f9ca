use crate::format::TableFormat;
use desk_outside::Folder;

/// A destination of tables: a folder, in which each table becomes a file of its own, in one format.
#[derive(Drop)]
pub struct Destination<G: Folder> {
    pub format: TableFormat,
    pub folder: G,
}
