//! Derivations as one writes them by hand: numbered lines of text, each used as often as one likes,
//! read.
//!
//! `read_derivation` takes a text from any hand and keeps its lines as they stand, within a quarter
//! of a kilobyte a line; what their rules give is for others to judge.
//!
//! Promises: a text is read as the lines of which it is a derivation, or refused at the first line
//! that goes wrong, as the definition says.
#![tactic(auto)]

mod adding;
mod line;
mod text;

pub use line::{DerivationBody, DerivationLine};
pub use text::read_derivation;
