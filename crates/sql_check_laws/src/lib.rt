//! Laws of what the queries of `sql check` give, by the evaluator of SQL's syntax, and of counting,
//! on which they stand. No code.
//!
//! Each law is a function that does nothing, whose clauses are the law; so the gate asks for its
//! proof.
//!
//! Promises: over a table that holds a relation the query of a dependency ends without an error,
//! and gives no row exactly where the relation obeys it; the same of missing values and of
//! integers, and of the whole script; for each relation there is such a table.
#![tactic(auto)]

mod laws;

pub use laws::{engines_hold_relations, queries_tell_rules};
