//! The minimal functional dependencies that given rows nearly obey.
//!
//! `X -> A` is near where at most so many rows must go for the others to obey it: the error of
//! Kivinen and Mannila (1995), as a number of rows. The error never grows with the left side, so
//! those that are given say which others are near too.
//!
//! Promises: `near_rules` gives exactly the near dependencies no proper part of whose left side is
//! near, in order, each with its error; or a refusal of the first attribute for which more than
//! 1,000,000 sets have to be tried.
#![tactic(auto)]

mod finding;
mod found;
mod front;
mod searching;

pub use finding::near_rules;
pub use found::{MOST_TRIED, NearRules, TooManyTried};
