//! Which normal form a scheme is in: second form beside those of `normal_forms`, and of each form the
//! violation that is named.
//!
//! Second form is searched among the keys of a scheme, each with the first of its parts that determines
//! what is in no key. `laws` has what holds of the forms together. No call takes memory.
//!
//! Promises: no violation exactly where the scheme is in the form, and else the first left side that
//! violates it, in the order of sets, with its right side; the last form such that a scheme is in it and in
//! all before it.
#![tactic(auto)]

mod forms;
mod found;
mod fourth;
mod keys;
pub mod laws;
mod ranges;
mod searching;
mod second;
mod testing;
mod verdicts;

pub use forms::{SchemeForms, TestedForm};
pub use testing::tested_violation;
pub use verdicts::{last_form, scheme_forms};
