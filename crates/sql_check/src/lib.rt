//! The queries of `sql check`, as values of SQL's syntax: for missing values, for integers, and for
//! what breaks a dependency. No code.
//!
//! Promises: which query each dependency has, and the columns that are compared.
#![tactic(auto)]
