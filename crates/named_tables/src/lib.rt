//! Tables with names of their own: what a migration makes and a destination takes.
//!
//! The tables of a migration share the rows that they are made of: each is the numbers of the rows
//! that it chooses, and the scheme on which it has them. No value is copied.
//!
//! Promises: nothing beyond its types and what they stand for.
#![tactic(auto)]

mod table;

pub use table::{ChosenTable, ChosenTables, HeldTable};
