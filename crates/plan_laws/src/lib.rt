//! Laws of plans and of what commands make of them: what one command gives, another accepts, and
//! gives again. No code.
//!
//! Each law is a function that does nothing, whose clauses are the law; so the gate asks for its
//! proof.
//!
//! Promises: plans that commands give pass those that test plans; `migrate` makes the tables of
//! `ddl`, and `rejoin` gives their rows back, in whatever order; each command on plans, tables and
//! rows has one answer.
#![tactic(auto)]

mod answering;
mod designed;
mod fewest;
mod passing;
mod rejoined;
mod unique;

pub use answering::{plans_have_one_answer, scripts_have_one_answer, tables_have_one_answer};
pub use designed::{migrated_tables_are_designed, migrated_tables_have_different_names};
pub use fewest::fewest_plans_pass_and_are_small;
pub use passing::{plans_in_form_pass, split_plans_pass};
pub use rejoined::{look_ups_are_answered, migrated_tables_are_rejoined};
pub use unique::{checks_have_one_answer, plans_are_unique};
