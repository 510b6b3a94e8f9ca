//! What becomes of an answer: its tables are written to the destinations.
//!
//! `deliver_tables` writes the tables of a response.
//!
//! Promises: what the call ends with, the response or the destinations that failed, and what the
//! destinations have.
#![tactic(auto)]

mod finish;

pub use finish::deliver_tables;
