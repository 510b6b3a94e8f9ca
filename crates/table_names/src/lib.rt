//! The names of the tables of a decomposition: those that a plan gives, or `t1`, `t2` and so on.
//!
//! Promises: the name that is given, or `t` and the number in decimal; `is_taken` says exactly
//! which names no plan gives.
#![tactic(auto)]

mod given;
mod numbered;

pub use given::{is_given, is_taken, name_of_table};
pub use numbered::{MOST_TABLES, table_name};
