//! Example relations: for a schema of functional dependencies a relation that obeys those that the
//! schema implies and breaks all others (Armstrong 1974; Beeri, Dowd, Fagin and Statman 1984).
//!
//! `exhibit` gives the relation of the irreducible closed sets. `laws` has the theorems.
//!
//! Promises: for all sets of attributes of the universe the relation obeys `X -> Y` exactly where
//! the schema implies it; so it is legal.
#![tactic(auto)]

mod closures;
mod exhibiting;
mod irreducible;
mod kinds;
pub mod laws;
mod refusal;
mod rows;

pub use exhibiting::exhibit;
pub use kinds::first_mvd;
pub use refusal::{ExhibitRefusal, MOST_EXHIBITED_ROWS, WIDEST_EXHIBITED};
