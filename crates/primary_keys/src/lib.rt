//! The primary key of a scheme: one of its keys, chosen so that no value of it is missing where
//! another key has none that may be.
//!
//! `primary_key` leaves out of a scheme first each attribute that may be missing and then each
//! other, from the last to the first, where the rest still determines the scheme by all
//! dependencies; `functional_primary_key` does so by the functional ones alone.
//!
//! Promises: of each list of dependencies a scheme has one primary key, which is a key; it has an
//! attribute that may be missing exactly where each key of the scheme has one; it is the greedy key
//! where no attribute may be missing.
#![tactic(auto)]

pub mod laws;
mod narrowing;

pub use narrowing::{functional_primary_key, primary_key};
