//! Tables of a design that have a row only where no value of their key is missing: where such a
//! table is looked up, which designs can be read back, and in which order.
//!
//! Promises: `is_optional` and `is_home_of` are what they are named for; `is_readable` says whether
//! tables can be read back, and `first_stuck` and `first_shared` find what first keeps them from it;
//! `look_up_order` is the order of look-ups, in which each optional table stands once.
#![tactic(auto)]

mod homes;
mod keyed;
pub mod laws;
mod ordering;
mod reading;
mod sharing;

pub use homes::{has_home, is_home_of, is_optional};
pub use keyed::KeyedScheme;
pub use ordering::{always_filled, look_up_order};
pub use reading::{can_be_looked_up, first_stuck, is_readable};
pub use sharing::{SharedHome, first_shared};
