//! Derivations by all sixteen rules as numbered lines of text, which `check derivation` reads.
//!
//! Promises: the text of a derivation is its lines, each numbered in its turn; and it derives what
//! its last line states.
#![tactic(auto)]

pub mod laws;
mod printing;

pub use printing::print_derivation;
