//! The candidates for the left sides of the minimal dependencies of an attribute, as an ascending
//! list of sets, and the laws on which a search with them stands (Papenbrock and Naumann 2016).
//!
//! `first_candidates` gives those without evidence, which is what pairs of rows agree on, and
//! `add_evidence` makes of them those with one piece of evidence more. `is_any_within` asks a list by
//! halves, at the greatest attribute in which its first and its last set differ: so most of a list
//! is never looked at.
//!
//! Promises: exactly the candidates of the evidence so far, or a refusal where there are more than
//! 1,000,000, which at most 20 columns never have; whether one of them lies within a set. What rows
//! obey stands against their evidence; where all candidates are obeyed they are exactly the minimal
//! dependencies, and a candidate that is not obeyed gives more evidence.
#![tactic(auto)]

mod adding;
mod asking;
mod cutting;
mod growing;
mod laws;
mod parting;
mod refusal;

pub use adding::{add_evidence, first_candidates};
pub use asking::is_any_within;
pub use laws::{
    candidates_are_minimal_dependencies, candidates_are_within_the_limit,
    evidence_steps_to_candidates,
};
pub use refusal::{MOST_CANDIDATES, TooManyCandidates};
