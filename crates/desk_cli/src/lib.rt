//! The top call: the words of a command, the files of a file source in their order, a text for a
//! sink, tables for destinations and a status.
//!
//! Promises: `desk` says, in one record of clauses, that its answer is one that the words and the
//! files allow, that the sink took just that answer's text and the destinations just its tables,
//! that each fault has its cause, and that where nothing fails the answer is the one that the
//! theory fixes.
#![tactic(auto)]

mod help;
mod imports;
pub mod limits;
mod migrations;
mod pages;
mod questions;
mod references;
mod tasks;
mod top;

pub use top::desk;
