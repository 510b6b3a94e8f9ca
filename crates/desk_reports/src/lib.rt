//! One page of HTML that says of a schema, or of a schema and a plan, all that the commands say.
//!
//! Each piece of a page is what a command answers about these values, a refusal too. Running out of
//! memory ends a report.
//!
//! Promises: the page is the texts that the commands are allowed, refusals too, in their order and
//! frame.
#![tactic(auto)]

mod attributes;
mod covers;
mod forms;
mod found;
mod keys;
mod pieces;
mod planned;
mod reports;
mod rules;
mod tables;

pub use reports::{report_plan, report_schema};
