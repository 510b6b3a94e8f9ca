//! Covers of a schema's dependencies: what says the same, shortened.
//!
//! The cover of the functional dependencies is the one that a fixed order of trying leaves (Ullman
//! 1982; Maier 1983 has it as a canonical cover). `nonredundant_from` leaves out of any list what
//! the others imply. `left_reduced` shortens one left side, and `is_implied` asks of one
//! dependency.
//!
//! Promises: `minimal_cover` gives a minimal cover; `whole_cover` adds the multivalued dependencies
//! that the others do not imply, and says all that the schema says.
#![tactic(auto)]

mod covering;
mod shortening;
mod thinning;

pub use covering::{minimal_cover, whole_cover};
pub use shortening::left_reduced;
pub use thinning::{nonredundant_from, trivial_dependency};
