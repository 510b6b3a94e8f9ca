//! Schema texts, goals and sets, read by their grammar.
//!
//! Promises: `read_schema`, `read_goal` and `read_set` give the value that a text means, or refuse
//! it at the first position where it goes wrong, and there for the reason of the least number.
#![tactic(auto)]

mod column;
mod draft;
mod goal;
mod set;
mod stage;
mod text;
mod words;

pub use goal::{MOST_GOAL_BYTES, read_goal};
pub use schema_grammar::{SchemaRefusal, SchemaRefusalKind, Span, What};
pub use set::{MOST_SET_BYTES, read_set};
pub use text::{MOST_TEXT_BYTES, read_schema};
