//! References between files: inclusion dependencies of columns of a file on a minimal key of a file, and
//! the rows that have no match.
//!
//! `all_references` finds them all, `rows_without_match` the rows of a file whose values no row of
//! another one has, and `distinct_values` what some rows have, each once.
//!
//! Promises: exactly the references, in order; exactly the rows without a match.
#![tactic(auto)]

mod column_sets;
mod finding;
mod following;
mod identifying;
mod matching;
mod promising;
mod reference;
mod sources;
mod targets;
mod values;

pub use finding::all_references;
pub use matching::{distinct_values, rows_without_match};
pub use reference::{FoundReference, MOST_KEY_COLUMNS};
