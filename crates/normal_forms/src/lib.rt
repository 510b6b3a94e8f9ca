//! Tests of normal forms: whether a scheme is in third, Boyce-Codd or fourth normal form, and the
//! violation that shows where it is not.
//!
//! `violation` ranges over every left side within a scheme, of which at most
//! `fd_closure::WIDEST_SEARCHED` attributes stand in given left sides. `visible_violation` looks at
//! the given left sides alone, at any width. `first_part` is the right side of a violation of fourth
//! form. `laws` has what holds of violations. No call takes memory.
//!
//! Promises: no violation exactly where the scheme is in the form, and else the first left side
//! that violates it, in the order of sets, which lies within the given left sides, with its right
//! side.
#![tactic(auto)]

mod beginning;
mod breaking;
mod forms;
pub mod laws;
mod narrowing;
mod parting;
mod passing;
mod primes;
mod testing;
mod third;

pub use breaking::first_part;
pub use forms::{Breach, TooWide};
pub use testing::{violation, visible_violation};
