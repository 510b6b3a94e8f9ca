//! What the SQL of a text says of one table: its columns with their types, which of them say
//! themselves that no value is missing, and the keys that are stated.
//!
//! `read_definition` reads the statements that create the table, that add keys to it and that make
//! unique indexes over it; all others are passed over.
//!
//! Promises: exactly what `definition_of` says of the bytes, or its first refusal with its place;
//! the columns have different names, valid types and the width of a schema.
#![tactic(auto)]

mod changes;
mod columns;
mod definition;
mod elements;
mod lists;
mod names;
mod reading;
mod refusal;
mod tables;
mod types;
mod wanted;

pub use definition::{Column, Definition, Key, KeyKind, Part};
pub use reading::read_definition;
pub use refusal::{Reason, Refusal};
pub use wanted::{Wanted, wanted_table};
