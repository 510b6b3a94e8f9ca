//! References between files: all that there are, and whether one holds, with the rows that have no match.
//!
//! Each is a pure function of values.
//!
//! Promises: the response is allowed.
#![tactic(auto)]

mod checking;
mod columns;
mod finding;
mod laws;

pub use checking::check_references;
pub use columns::{MOST_LIST_BYTES, MOST_LISTED_COLUMNS};
pub use finding::find_references;
pub use laws::printed_columns_are_read_back;
