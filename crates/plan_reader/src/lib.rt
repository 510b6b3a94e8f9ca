//! Plan texts, read by their grammar.
//!
//! Promises: `read_plan` gives the plan that a text means, with the names of its tables, or refuses
//! it by its first diagnostic.
#![tactic(auto)]

mod covering;
mod draft;
mod labels;
mod reading;
mod words;

pub use plan_grammar::PlanRefusal;
pub use reading::{MOST_PLAN_BYTES, read_plan};
