//! All dependencies that given rows obey, functional and multivalued (Ozsoyoglu and Yuan 1987).
//!
//! `discover_all` counts, for each set of columns, how many different rows agree with each row;
//! these counts decide which dependencies are obeyed. All sets are tried, so it is meant for few
//! columns.
//!
//! Promises: the minimal functional dependencies, and after them the reduced multivalued ones
//! without those that the others imply, in order; the list implies a dependency of either kind
//! between columns exactly where the rows obey it.
#![tactic(auto)]

mod blocks;
mod counts;
mod finding;
mod obeying;
mod reduced;

pub use finding::discover_all;
