//! Plans printed in one form, and plans with names of tables: beside each scheme the name of its
//! table, where one is given.
//!
//! Promises: the text of the definition; the names of two tables differ, ASCII case aside, where
//! the names that are given are apart.
#![tactic(auto)]

mod laws;
mod plan;
mod printing;

pub use laws::tables_have_different_names;
pub use plan::NamedPlan;
pub use printing::print_plan;
