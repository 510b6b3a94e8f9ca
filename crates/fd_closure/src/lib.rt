//! Closures: the attributes that a set determines by the functional dependencies of a list, and
//! what is asked of a list alone: its left sides, whether too many attributes of a scheme stand in
//! them for a search, and whether all its dependencies are functional.
//!
//! A list may be one whose members are on or off. Multivalued dependencies in it are passed over.
//! No call but `Counters::new` takes memory.
//!
//! Promises: `closure` and `follows` are exact: their clauses speak of all relations that obey the
//! functional dependencies, over any number of attributes that holds the sets named; what is asked
//! of a list alone is exact too; laws of closed sets and of all keys.
#![tactic(auto)]

mod closing;
mod counting;
mod greedy_key;
mod kinds;
mod known;
pub mod laws;
mod left_sides;
mod superkeys;

pub use closing::{follows, functional_closure};
pub use counting::{Counters, functional_closure_with};
pub use greedy_key::functional_key;
pub use kinds::is_functional;
pub use known::{KnownClosure, known_closure};
pub use left_sides::{
    WIDEST_SEARCHED, functional_left_attributes, is_wide_scheme, left_attributes,
};
pub use superkeys::is_functional_superkey;
