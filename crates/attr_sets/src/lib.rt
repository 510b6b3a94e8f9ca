//! Sets of attributes, as the bits of a number of fixed width, 128 of them.
//!
//! A contract reads an `AttrSet` by one definition, `attributes`: the attributes below
//! `MOST_ATTRIBUTES` whose bit is set. `==` says whether two sets have the same members, and `cmp`
//! goes by the greatest attribute in which they differ.
//!
//! Promises: each operation is the set operation that it is named for; the subsets of a set come
//! one after the other; `narrowed` leaves out of a set, one attribute after the other, each without
//! which the rest passes a test.
#![tactic(auto)]

mod narrowing;
mod set;

pub use narrowing::{Direction, narrowed};
pub use set::{AttrSet, MOST_ATTRIBUTES};
