//! The lines of a help that are nearest to words: those that show most of the words that were
//! given.
//!
//! Promises: exactly those that the definition ranks first.
#![tactic(auto)]

mod forms;
mod ranking;

pub use ranking::{MOST_NEAREST, nearest};
