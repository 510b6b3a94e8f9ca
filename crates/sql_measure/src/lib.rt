//! The queries of `sql measure`, as values of SQL's syntax: how far the rows of a table are from
//! obeying a dependency. No code.
//!
//! Promises: which query each dependency has, for one row of three numbers where it is broken.
#![tactic(auto)]
