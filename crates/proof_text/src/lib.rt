//! Certificates: derivations as numbered lines of text, which anybody can write and check; read and
//! printed.
//!
//! `read_concluded` takes a text from any hand. `print_proof` writes the one text of a derivation,
//! a line for each node in post-order.
//!
//! Promises: a text is read as the tree that it spells, with the dependency that it concludes by
//! the rules alone, or refused at the first line that goes wrong, as the definition says.
#![tactic(auto)]

mod checker_state;
mod line;
mod node;
mod printing;
mod text;
mod words;

pub use line::{Body, read_body, stated_dependency};
pub use node::{Concluded, same_dependency};
pub use printing::{add_body, body_of_leaf, print_proof};
pub use proof_grammar::{ProofRefusal, ProofRefusalKind};
pub use text::{MOST_PROOF_BYTES, is_blank, is_yes, read_concluded};
pub use words::{colon, rule_word};
