//! The order of the tables of a plan, and of the names that it gives them.
//!
//! `in_design_order` puts a plan in the order in which its tables are made: those whose schemes
//! determine fewer attributes come first, of equally many in the plan's order. So where a key lies
//! within another scheme, its table comes first, or both determine the same attributes.
//! `names_in_design_order` puts the names in the same order. `counts` says how many attributes each
//! scheme determines.
//!
//! Promises: the plan in that order, of which there is one, and the names in it; a lossless plan
//! stays lossless.
#![tactic(auto)]

pub mod laws;
mod naming;
mod ordering;

pub use naming::names_in_design_order;
pub use ordering::{counts, in_design_order};
