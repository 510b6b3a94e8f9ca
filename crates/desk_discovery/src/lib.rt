//! What the rows of a file obey: their minimal dependencies, those of few attributes on the left,
//! those that nearly hold, all of either kind, and their minimal keys.
//!
//! Each is a pure function of values.
//!
//! Promises: the response is allowed.
#![tactic(auto)]

mod all;
mod discovering;
mod keys;
mod near;
mod small;

pub use all::discover_all_rules;
pub use discovering::{WIDEST_TRIED, discover_rules};
pub use keys::discover_keys;
pub use near::discover_near_rules;
pub use small::discover_small_rules;
