//! Short derivations.
//!
//! `prove_shortly` answers as `dep_basis::prove` does. Where a dependency is implied, but by no
//! functional chain, it looks for a shorter derivation than that one among those that
//! `specs/Short.antt` lists: two given dependencies that transitivity or coalescence joins; and of
//! a multivalued one a given dependency after a few steps, and the functional chain of the same
//! sets or of their complement.
//!
//! Promises: what `prove` gives, or a shorter one: no listed derivation of the dependency is
//! shorter; a functional chain stays.
#![tactic(auto)]

mod coalescences;
mod differences;
mod fitting;
mod given_shapes;
mod joints;
mod keeping;
mod pairs;
mod proving;
mod shapes;
mod starts;

pub use proving::prove_shortly;
