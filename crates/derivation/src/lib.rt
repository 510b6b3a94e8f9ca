//! Derivations of dependencies, as trees of the textbook's rules: the checker, builders,
//! shortening.
//!
//! A `Deriv` is a proof that anybody can check: `conclude` looks at each node by the rule table of
//! `specs/Table.antt`. The rules for functional dependencies are Armstrong's, and those for
//! multivalued ones are of Beeri, Fagin and Howard (1977).
//!
//! Promises: `conclude` is the rule table; what a derivation concludes is implied by the schema's
//! dependencies, whoever made it; `shorten` gives a direct tree.
#![tactic(auto)]

mod builders;
pub mod chain_laws;
mod concluding;
mod deriv;
mod fault;
pub mod laws;
mod measures;
mod rule;
mod shortening;
mod table;

pub use builders::{Returned, split_inside, split_outside, unite_fd, unite_mvd};
pub use concluding::conclude;
pub use deriv::Deriv;
pub use fault::{Fault, FaultKind};
pub use measures::{MOST_LEVELS, MOST_NODES, depth, nodes};
pub use rule::{LeafRule, PairRule, StepRule};
pub use shortening::{same_dep, shorten};
pub use table::{leaf_conclusion, pair_conclusion, step_conclusion};
