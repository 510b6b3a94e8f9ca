//! Boyce-Codd splits at any width, by pairs of attributes (Tsou and Fischer 1982).
//!
//! A pair of a scheme is two of its attributes of which the first is determined by the attributes
//! of the scheme beside the two; a scheme without a pair is in Boyce-Codd form. A scheme that is in
//! form already may be cut. `laws` has what holds of pairs and of wide splits.
//!
//! Promises: `split_wide` gives the plan of the wide split of the universe: it is lossless, each of
//! its schemes is in Boyce-Codd form for every left side within it, and it has at most as many
//! schemes as there are attributes.
#![tactic(auto)]

pub mod laws;
mod pairs;
mod splitting;

pub use splitting::split_wide;
