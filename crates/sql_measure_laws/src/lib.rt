//! The law of what the queries of `sql measure` give, by the evaluator of SQL's syntax. No code.
//!
//! It is a function that does nothing, whose clause is the law; so the gate asks for its proof.
//!
//! Promises: over a table that holds a relation the query of a dependency ends without an error; it
//! gives no row exactly where the relation obeys the dependency, and else one row with the numbers
//! that `row_measures` defines: broken groups, rows in them, and how many must change or are
//! missing.
#![tactic(auto)]

mod laws;

pub use laws::queries_count_breaches;
