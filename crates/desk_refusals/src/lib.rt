//! How the program words the refusals of schema texts, goals, sets, certificates and derivations,
//! and ends with one.
//!
//! A refusal that needs no names of a schema has its text, by `Display`, and its number beside its
//! type.
//!
//! Promises: the text of the definition.
#![tactic(auto)]

mod exits;
mod proof_refusals;
mod refusals;

pub use exits::refusal_exit;
pub use proof_refusals::{derivation_refusal_line, proof_refusal_line};
pub use refusals::refusal_line;
