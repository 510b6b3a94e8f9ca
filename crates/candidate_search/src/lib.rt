//! The minimal left sides of functional dependencies that rows obey, by candidates and evidence.
//!
//! `minimal_left_sides` tests the candidates of each right side by their sizes, until the rows obey
//! all of them: then they are the left sides of the minimal dependencies, and no other set is. In few rows each two
//! are looked at instead, and the candidates of what they agree on are the left sides.
//!
//! Promises: for each right side exactly the left sides of its minimal dependencies of at most so
//! many columns, or a refusal where some evidence has more than 1,000,000 candidates; on which
//! columns two rows agree; two rows that do not obey a dependency, or none exactly where the rows
//! obey it.
#![tactic(auto)]

mod asking;
mod few_rows;
mod findings;
mod learning;
mod levels;
mod neighbours;
mod pairs;
mod sampling;
mod searching;
mod side;
mod testing;

pub use searching::minimal_left_sides;
pub use side::{Side, TooManyLeftSides};
