//! Texts that grow at their ends: by bytes, and by numbers in decimal digits.
//!
//! Promises: what a call adds stands behind what the text had.
#![tactic(auto)]

mod adding;

pub use adding::{add, add_digit, add_number};
