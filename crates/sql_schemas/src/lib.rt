//! The schema of a table that SQL defines, as a text to go on from.
//!
//! `print_table` takes what `sql_definitions` read of a table. It gives each key the columns that
//! its parts name, says of which columns a value may be missing, and prints the schema: the columns
//! with their types, and for each key that says something a dependency, or a comment where one of
//! its columns may be missing.
//!
//! Promises: exactly what the definition says of what was read, or the refusal of the first part of
//! a key that names no column; the text means the columns, and the dependencies of the keys that
//! the SQL states over columns that are never missing, or with missing values compared; statements
//! about other tables change nothing.
#![tactic(auto)]

mod keys;
pub mod laws;
mod missing;
mod table;

pub use table::print_table;
