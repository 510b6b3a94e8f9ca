//! What keeps the tables of a design from being read back where values may be missing: an optional
//! table cannot be looked up, or an attribute of which a value may be missing stands in two tables
//! outside their keys.
//!
//! Promises: `missing_refusal` finds the first optional table that cannot be looked up, or else the
//! first such attribute of two tables, and none where there is none; `print_refusal` gives the line
//! that says so.
#![tactic(auto)]

mod finding;
mod printing;
mod refusal;

pub use finding::missing_refusal;
pub use printing::print_refusal;
pub use refusal::MissingRefusal;
