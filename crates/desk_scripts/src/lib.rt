//! The scripts of `sql check`, `sql measure` and `sql migrate` for a schema, a plan or a normal form.
//!
//! Each is a pure function of values.
//!
//! Promises: the response is allowed.
#![tactic(auto)]

mod scripts;

pub use scripts::{script_check, script_measure, script_migration, script_migration_by_plan};
