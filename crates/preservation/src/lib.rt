//! Which functional dependencies a plan keeps: what follows inside its schemes, and what is lost.
//!
//! The set is closed scheme by scheme, and no subsets are tried (Ullman 1982).
//!
//! Promises: `losses` names exactly the given dependencies that do not follow from those that they
//! imply inside the schemes of a plan, each with two tuples that show it: these agree on exactly
//! the attributes that follow from its left side.
#![tactic(auto)]

mod closing;
mod losing;
mod scheme_closure;

pub use losing::{Loss, losses};
