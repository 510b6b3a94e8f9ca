//! What plan texts mean, and how they are refused: the grammar, which their reader promises.
//!
//! A plan text over the names of a schema is refused by its first diagnostic: that of the first
//! line that has one, there of the first position, and there of the least number. Where no line has
//! one, it is refused for the first attribute that is in no scheme. There is no code here but the
//! enum of the refusals.
//!
//! Promises: a text means one list of schemes, with names of some of their tables, or has one
//! refusal; a printed plan means its schemes; names of tables are apart.
#![tactic(auto)]

mod laws;
mod refusal;

pub use laws::{lines_are_read, names_are_apart, plan_texts_have_one_answer, printed_plan_means};
pub use refusal::PlanRefusal;
