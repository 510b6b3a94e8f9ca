//! Splits of a universe into schemes in Boyce-Codd or fourth normal form.
//!
//! `split` cuts schemes at their violations, the first that is not in the form first, until each is
//! in the form; then contained schemes are dropped. What lists are reached on the way is a
//! definition (`specs`). `split_steps` gives the cuts, and `plan_of_steps` the plan that they lead
//! to. `laws` has what holds of the reached lists and of the cuts.
//!
//! Promises: the finished list without contained schemes, lossless and in the form; a scheme that
//! is in the form is never cut; `split` gives up exactly where a reached list is too long, or has a
//! wide scheme that no given left side cuts.
#![tactic(auto)]

mod cutting;
pub mod laws;
mod outcome;
mod refusal;
mod splitting;
mod steps;
mod trying;

pub use refusal::SplitRefusal;
pub use splitting::{plan_of_steps, split};
pub use steps::{SchemeCut, SplitSteps, split_steps};
