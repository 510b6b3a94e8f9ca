//! The script of `sql migrate`, as statements of SQL's syntax: one copy of the user's table, the
//! tables of a design, what fills them, a view on their join, and the test whether the view is the
//! table. No code but the types that its printer shares with it.
//!
//! Promises: which statements a design has, and the order of its view.
#![tactic(auto)]

mod joining;
mod moving;

pub use joining::JoinedTable;
pub use moving::Move;
