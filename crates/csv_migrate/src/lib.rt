//! Tables of a migration: each distinct projection of the rows once.
//!
//! [`tables`] looks at rows by numbers in place of values, group by group, and compares no row with
//! all others. A table is the numbers of the rows that it chooses.
//!
//! Promises: the ordered projections of the rows that are complete for each table, from which exactly
//! the rows are read back where they are legal and the design loses nothing and can be read back; where
//! no table is optional, this is their join.
#![tactic(auto)]

mod complete;
mod migration;

pub use migration::tables;
