//! Keys: all keys of a schema, and all keys or one of a scheme, by functional and multivalued
//! dependencies.
//!
//! By functional dependencies alone the keys of the universe are found one from another, at any
//! width (Lucchesi and Osborn 1978; `fd_closure::laws` has the theorem). Where a multivalued
//! dependency is given, they are searched between what is in every key and what is in some, where
//! at most `fd_closure::WIDEST_SEARCHED` attributes stand in left sides; so are those of a scheme.
//! `laws` says which attributes are in every key, and which in none. `one_key` takes no memory.
//!
//! Promises: `keys` and `keys_of_scheme` give exactly all keys, ascending.
#![tactic(auto)]

mod exchanging;
mod holding;
pub mod laws;
mod listing;
mod narrowing;
mod refusal;
mod schemes;
mod searching;
mod superkeys;

pub use listing::keys;
pub use refusal::{KeyRefusal, MOST_KEYS, SchemeKeyRefusal};
pub use schemes::keys_of_scheme;
pub use superkeys::one_key;
