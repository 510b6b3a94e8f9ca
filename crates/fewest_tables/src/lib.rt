//! Synthesis of a plan in third normal form where left sides that determine each other share a
//! scheme.
//!
//! `fewest_steps` gives the minimal cover, its left sides in groups, the members that are needed
//! beside what is alike, and the schemes of the groups; `merged_plan` gives the plan that they lead
//! to. `fewest_plan` takes the plan of `synthesize` where that has fewer schemes.
//!
//! Promises: the plan is lossless, each of its schemes is in third normal form, and it keeps the
//! functional dependencies; no design whose keys state these has fewer schemes than there are
//! groups; `synthesize` never gives fewer schemes.
#![tactic(auto)]

mod exchanging;
mod fewest;
mod grouping;
mod merging;
mod steps;
mod thinning;

pub use fewest::{fewest_plan, merged_plan, smaller_plan};
pub use grouping::{Grouping, group_with};
pub use merging::{is_among, merged_scheme};
pub use steps::{FewestSteps, fewest_steps};
