//! What queries of SQL give over bags of rows with named columns, and what scripts make of the
//! tables of an engine. Definitions alone, no code.
//!
//! They are for the laws of the queries and scripts that are printed.
//!
//! Promises: rows, or an error, of each query in each engine; how a run of a script ends, and what
//! it keeps.
#![tactic(auto)]
