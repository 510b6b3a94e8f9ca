//! What certificates spell, and how they are refused: the grammar of certificates, which their
//! reader and their printer promise.
//!
//! A text spells a tree where its lines are the nodes of the tree, or it is refused at the first
//! line that goes wrong, and there for the first diagnostic. Beside these definitions stands a
//! reading of a text from line to line. The grammar of a line is said of any rules, and so are its
//! laws: derivations have more than certificates. There is no code here but the enums that refusals
//! carry.
//!
//! Promises: a text spells one tree, or has one refusal, and the reading from line to line gives
//! which; what is printed of a derivation spells its tree.
#![tactic(auto)]

mod laws;
mod line_kind;
mod refusal;
mod rule_name;

pub use laws::{
    certificates_are_read_or_refused, lines_are_read_or_refused, printed_certificates_are_read,
};
pub use line_kind::LineKind;
pub use refusal::{ProofRefusal, ProofRefusalKind};
pub use rule_name::RuleName;
