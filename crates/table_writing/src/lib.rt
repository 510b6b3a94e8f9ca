//! Tables written to destinations, each as a file.
//!
//! [`write_table_files`] writes the files of tables to one folder, up to the first error, and
//! [`write_tables_to_list`] to each destination in order: one is left at its first error, and the
//! next one begins; each has an end of its own. [`laws`] says what they then hold.
//!
//! Promises: each folder has all files, or stopped at one and has those before it; each name is
//! begun once; none is left open.
#![tactic(auto)]

mod files;
pub mod laws;
mod writing;

pub use files::write_table_files;
pub use writing::write_tables_to_list;
