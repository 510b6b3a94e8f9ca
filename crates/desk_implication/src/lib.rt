//! What follows from the dependencies of a schema: the answers about implication, certificates and
//! derivations as one writes them by hand, blocks, closures, and what holds inside a set.
//!
//! Each is a pure function of values.
//!
//! Promises: the response is allowed.
#![tactic(auto)]

mod bases;
mod certificate;
mod checking;
mod closures;
mod conclusions;
mod explaining;
mod implication;
mod mistakes;
mod projecting;

pub use bases::give_basis;
pub use certificate::check_proof;
pub use checking::check_derivation;
pub use closures::give_closure;
pub use conclusions::{checked_line, concludes_lines};
pub use explaining::explain_implication;
pub use implication::implies;
pub use projecting::give_projection;
