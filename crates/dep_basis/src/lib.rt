//! Dependency bases: the closed set and the blocks of a left side, by which implication by
//! functional and multivalued dependencies is decided (Beeri 1980); decisions and witnesses.
//!
//! `basis` gives exactly the closed set and the blocks, `trace_basis_by` what a scheme has of them,
//! and so its parts; `has_two_parts` stops as soon as it knows. `is_superkey` says whether a set
//! determines a scheme. The calls named `.._by` ask the same of a list of dependencies over a
//! number of attributes. `witness` takes memory, and no other call does. `laws` has what holds of
//! bases beside what the calls say.
//!
//! Promises: `decide` says exactly whether a schema implies a dependency, and where it does not,
//! names two rows that obey the schema and break it, which `witness` makes.
#![tactic(auto)]

mod bases;
mod cutting;
mod deciding;
mod gathering;
mod implying;
pub mod laws;
mod parts;
mod pieces;
mod refining;
mod superkeys;
mod witnessing;

pub use bases::{basis, basis_by, block, block_by, closure, closure_by, trace_basis_by};
pub use cutting::best_cut;
pub use deciding::{Decision, decide, decide_by};
pub use gathering::Blocks;
pub use implying::{is_implied, is_implied_by};
pub use parts::{has_two_parts, has_two_parts_by};
pub use pieces::MOST_BLOCKS;
pub use superkeys::is_superkey;
pub use witnessing::witness;
