//! Rows and tables: the answers about legal rows, rows migrated to the tables of a plan, invented
//! rows, and tables joined again.
//!
//! Each is a pure function of values.
//!
//! Promises: the response is allowed.
#![tactic(auto)]

mod designing;
mod keyed;
mod migration;
mod overwriting;
mod own_folders;
mod placing;
mod rejoining;
mod rows;
mod sampling;
mod tidiness;

pub use own_folders::{migrate_form_into, migrate_plan_into};
pub use placing::{migrate_form_here, migrate_plan_here};
pub use rejoining::rejoin;
pub use rows::check_rows;
pub use sampling::migrate_sample;
