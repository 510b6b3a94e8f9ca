//! The chase: whether a plan is lossless, and where it is not, a legal relation that gains a tuple
//! (Aho, Beeri and Ullman 1979; Maier, Mendelzon and Sagiv 1979).
//!
//! `chase` takes the tableau of the plan through rounds: steps by functional dependencies until
//! none changes it, then all rows at once that the multivalued ones make. The definitions of
//! tableaux, steps and rounds, and the laws about them, are in `chase_laws`.
//!
//! Promises: lossless exactly where the plan is, and else the closed tableau, a legal relation that
//! gains a row; it gives up exactly where a tableau of the rounds has more rows than it may, which
//! never comes without a multivalued dependency.
#![tactic(auto)]

mod adding;
mod chasing;
mod equating;
mod following;
mod functional_closing;
mod likely_rows;
mod making;
mod numbers;
mod outcome;
mod pool;
mod row_groups;
mod symbol_row;
mod texts;

pub use chasing::chase;
pub use outcome::{ChaseRefusal, Chased};
