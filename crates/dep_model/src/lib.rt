//! Values, rows, dependencies and theories, the failures of calls, and the theory of dependencies that
//! every crate cites.
//!
//! A `Theory` is what reasoning on dependencies asks for: how many attributes there are, and the
//! dependencies among them. The definitions of the theory (relations, obedience, implication,
//! projection and join, keys, normal forms) are in `specs/`; `laws` has the theorems by which they
//! were tried.
//!
//! Promises: the dependencies of every `Theory` lie within its universe; the laws of the theory:
//! rules, keys, normal forms, joins, plans.
#![tactic(auto)]

mod dep;
mod failure;
mod form;
pub mod laws;
pub mod laws_of_joins;
pub mod laws_of_keys;
mod memory;
mod row;
mod theory;
mod value;

pub use dep::{Dep, sides};
pub use failure::Failure;
pub use form::Form;
pub use memory::OutOfMemory;
pub use row::Row;
pub use theory::{MOST_DEPENDENCIES, Theory};
pub use value::Value;
