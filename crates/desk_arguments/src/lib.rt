//! What an argument of a command says: the goal or the set that its text states.
//!
//! Promises: what the text means under the grammar of schemas, or how the command ends.
#![tactic(auto)]

mod goal;
mod set;

pub use goal::goal_of;
pub use set::set_of;
