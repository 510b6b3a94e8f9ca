//! The functional dependencies inside a set of attributes: the projection of a schema's
//! dependencies (Ullman 1982).
//!
//! `laws` has what holds of them whatever made them.
//!
//! Promises: a functional dependency inside the set follows from those that `project` gives exactly
//! where the schema implies it, by its functional and its multivalued dependencies; each has a
//! least left side and one attribute on the right, and none follows from the others.
#![tactic(auto)]

mod closures;
pub mod laws;
mod projecting;
mod refusal;
mod searching;

pub use projecting::project;
pub use refusal::{MOST_LISTED, ProjectionRefusal};
