//! The words of the command line: which words form which command.
//!
//! Promises: `parse` gives exactly the command that words form, by their first words, and none
//! exactly where they form none.
#![tactic(auto)]

mod bounds;
mod check;
mod command;
mod covers;
mod explain;
mod imports;
mod migrate;
mod numbers;
mod pages;
mod persons;
mod questions;
mod references;
mod rows;
mod rules;
mod sets;
mod shapes;
mod tables;

pub use bounds::{LeftBound, MOST_ON_LEFT};
pub use command::{Command, MOST_FILES, parse};
pub use questions::{
    PairQuestion, PlanQuestion, RowsQuestion, RulesQuestion, SchemaQuestion, Task,
};
