//! The further rules of derivations as one writes them by hand, beside the ten of certificates.
//!
//! Union, decomposition and pseudotransitivity are those of every textbook for functional
//! dependencies (Armstrong 1974; Ullman 1982); for multivalued ones union, intersection, difference
//! and pseudotransitivity are of Beeri, Fagin and Howard (1977).
//!
//! Promises: each rule is exact, and sound on relations: what it concludes from dependencies that
//! are implied is implied.
#![tactic(auto)]

pub mod laws;
mod rule;
mod table;

pub use rule::FurtherRule;
pub use table::{decomposition_conclusion, further_conclusion};
