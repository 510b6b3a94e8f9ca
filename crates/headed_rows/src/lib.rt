//! Rows of a CSV text whose header is free: its columns have the names that the header gives them.
//!
//! `read_headed` gives the rows with the names of their columns; `naming_under` says how a schema
//! text names such columns.
//!
//! Promises: a text is read as its records, or refused by its first refusal; it has one reading.
#![tactic(auto)]

mod columns;
mod headed_rows;
mod laws;
mod refusal;

pub use columns::naming_under;
pub use headed_rows::{Headed, Limits, read_headed};
pub use laws::one_reading;
pub use refusal::HeaderRefusal;
