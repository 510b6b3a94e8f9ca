//! The answers about schemas that say the same: whether two do, the covers of one, minimal and canonical,
//! and whether another is such a cover.
//!
//! Each is a pure function of values.
//!
//! Promises: the response is allowed.
#![tactic(auto)]

mod cover_checks;
mod cover_reasons;
mod covers;
mod sameness;

pub use cover_checks::{check_canonical_cover, check_cover};
pub use cover_reasons::{explain_cover, print_cover_reasons};
pub use covers::{cover, cover_canonically};
pub use sameness::check_same;
