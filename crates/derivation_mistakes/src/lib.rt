//! What is wrong with the lines of a derivation as one writes it by hand, each judged as if the lines
//! before state what is true.
//!
//! A line is right where its rule gives what it states. Else its rule does not apply to the lines
//! that it names, for one first reason in the order of `Misuse`, or it gives another dependency.
//! Whether what a wrong line states follows from the schema all the same is decided by the
//! dependency basis (Beeri 1980).
//!
//! Promises: exactly the wrong lines are told, in their order, each with the one thing that is
//! wrong; none is where a text derives what its last line states.
#![tactic(auto)]

mod judging;
mod laws;
mod mistake;
mod misuse;
mod misusing;
mod outcome;

pub use judging::mistaken_lines;
pub use laws::mistakes_are_exact;
pub use mistake::{Mistake, MistakenLine};
pub use misuse::Misuse;
