//! Derivations of what a schema implies, cut by cut as its dependency basis comes about (Beeri
//! 1980).
//!
//! Promises: `prove` gives a derivation of each dependency that is implied, within the limits of a
//! certificate, else what two rows that obey the schema and break it agree on; `functional_chain`
//! gives the derivation of a functional dependency which the functional ones alone imply.
#![tactic(auto)]

mod chains;
mod joining;
mod makers;
mod proving;
mod showing;

pub use chains::functional_chain;
pub use proving::{Proof, prove};
