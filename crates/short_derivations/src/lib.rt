//! Derivations as one writes them: lists of lines, each a dependency with the rule that gives it
//! from earlier lines, by all sixteen rules (Armstrong 1974; Beeri, Fagin and Howard 1977).
//!
//! `short_derivation` takes a dependency that a schema implies, with its certificate, and gives a
//! list of few lines. A functional one that follows from the functional dependencies is chained
//! along the closure of its left side, by as few of them as imply it; or what is left to be
//! determined is replaced from the goal back, by pseudotransitivity, where that has fewer lines.
//! For any other the certificate is written with each line once, and of a multivalued one that
//! follows from the functional dependencies another derivation is taken where that one has a given
//! line too many.
//!
//! Promises: each line is what its rule gives, each but the last is used, none is stated twice, and
//! there are no more of them than the certificate has; a goal of the schema is one line, and a part
//! of one two; where a functional goal follows from the functional dependencies, none of those that
//! stand as given can be spared, and there are at most three lines for each, and one.
#![tactic(auto)]

mod certificates;
mod chaining;
mod checking;
mod composing;
mod determining;
mod emitting;
mod functional;
mod given;
mod inference;
mod lines;
mod links;
mod needing;
mod sparing;
mod substituting;

pub use composing::short_derivation;
pub use inference::{Inference, Reason};
