//! Queries over one table, as terms, and what they give over a relation: its values on a set of
//! attributes, those of them beside which more than one value of another set stands, natural joins
//! and differences. No code.
//!
//! `breaches_of` is the query for the tuples that break a dependency, `plan_join` the natural join
//! of the tables of a plan. Each law is a function that does nothing, whose clause is the law; so
//! the gate asks for its proof.
//!
//! Promises: the query of a dependency gives nothing exactly where it is obeyed; the join of a
//! lossless plan's tables is every legal relation.
#![tactic(auto)]

mod laws;

pub use laws::{queries_are_exact, queries_are_union_compatible};
