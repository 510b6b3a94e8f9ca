//! How the closure of a set comes about, as one works it out by hand, and what a set determines
//! without each of its attributes (Armstrong 1974; Maier 1983).
//!
//! `closure_steps` gives the steps: each takes the first functional dependency that adds something
//! to what is there by then, and the last leaves none. `closures_without` goes by all dependencies.
//!
//! Promises: the steps are those of the definition; all that they add follows from the set, and
//! they reach its closure by functional dependencies; there is one list of them.
#![tactic(auto)]

pub mod laws;
mod steps;
mod without;

pub use steps::{ClosureStep, ClosureSteps, closure_steps};
pub use without::{Without, closures_without};
