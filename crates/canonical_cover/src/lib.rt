//! Canonical covers of a schema's dependencies: minimal covers in which each left side stands once
//! (Silberschatz, Korth and Sudarshan 2019).
//!
//! `merge_left_sides` has the functional dependencies of one left side as one, in any list.
//!
//! Promises: `canonical_cover` gives the fixed whole cover with its left sides merged; its functional
//! part is a canonical cover, and it says all that the schema says.
#![tactic(auto)]

mod canonical;
mod merging;

pub use canonical::canonical_cover;
pub use merging::{have_same_left, merge_left_sides};
