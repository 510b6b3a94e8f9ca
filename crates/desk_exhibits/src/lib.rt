//! The relation that exhibits a schema: the answer to `exhibit`.
//!
//! It is a pure function of values.
//!
//! Promises: the response is allowed.
#![tactic(auto)]

mod exhibits;

pub use exhibits::exhibit_relation;
