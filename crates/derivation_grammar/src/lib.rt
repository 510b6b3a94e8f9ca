//! What derivations as one writes them by hand mean, and how they are refused: the grammar of
//! derivations, which their reader promises.
//!
//! A line of a derivation is one of a certificate, or has a further rule in its place. It may be
//! used as often as one likes, or never. A text is a derivation of its lines where each is
//! numbered in its turn and names earlier lines, whatever its rule gives; else it is refused at
//! the first line that goes wrong, and there for the first diagnostic. It derives what its last
//! line states, where each line's rule gives what the line states from what earlier lines state.
//! There is no code here but the names of the rules.
//!
//! Promises: a text is one derivation, or has one refusal; each line of a text that derives
//! something is implied; a certificate is a derivation of what it proves.
#![tactic(auto)]

mod laws;
mod line_rule;

pub use derivation::MOST_NODES;
pub use laws::{
    derivations_are_read_or_refused, derived_lines_are_implied, lines_are_read_or_refused,
};
pub use line_rule::LineRule;
