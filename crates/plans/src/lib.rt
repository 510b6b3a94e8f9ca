//! Plans: lists of schemes that together have all attributes of a universe.
//!
//! Promises: each holder of a `Plan` has its validity (`IsPlan`): its schemes have attributes, lie
//! within the universe and cover it; `drop_contained` keeps, in order, the schemes that lie within
//! no other one, and a lossless plan stays lossless.
#![tactic(auto)]

mod bounds;
mod containing;
mod plan;

pub use bounds::MOST_SCHEMES;
pub use containing::{drop_contained, is_contained_at};
pub use plan::Plan;
