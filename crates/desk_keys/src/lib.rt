//! The answers about keys: those of a schema and of the schemes of a plan, what they have in
//! common, and whether a set is one.
//!
//! Each is a pure function of values.
//!
//! Promises: the response is allowed.
#![tactic(auto)]

mod key_checks;
mod key_reasons;
mod keys;
mod scheme_keys;

pub use key_checks::check_key;
pub use key_reasons::{explain_keys, print_key_reasons};
pub use keys::{keys_exit, list_keys, set_lines};
pub use scheme_keys::list_keys_of_plan;
