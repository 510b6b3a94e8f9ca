//! The words of a command and the names of files: any bytes.
//!
//! Promises: an [`Argument`] holds the bytes that it was made of.
#![tactic(auto)]

mod argument;

pub use argument::Argument;
