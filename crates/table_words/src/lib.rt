//! The name of a table as a word of the command line: one to three parts with a dot between two,
//! each bare or between double quotes.
//!
//! Promises: exactly the parts that the definition reads, quoted names among them.
#![tactic(auto)]

mod laws;
mod parts;

pub use laws::spelled_parts;
pub use parts::{FrontPart, MOST_PARTS, TableParts, table_parts};
