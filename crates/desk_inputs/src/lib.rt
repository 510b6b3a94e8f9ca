//! The files of a command: how each is read and turned into its value or its refusal, the only code
//! that is generic over a file source.
//!
//! Each `open_..` loads a file from a file source, within its limit, and has it read by its
//! grammar.
//!
//! Promises: the value of the file under every reading that the file source shows, or how the
//! command ends, with the cause.
#![tactic(auto)]

mod derived;
mod headed;
mod headed_files;
mod parts;
mod plan;
mod read;
mod row_refusals;
mod rows;
mod sql;

pub use derived::open_derivation;
pub use headed::{Purpose, open_headed};
pub use headed_files::open_headed_files;
pub use parts::open_parts;
pub use plan::open_plan;
pub use read::{open_proof, open_schema};
pub use rows::open_rows;
pub use sql::{MOST_SQL_BYTES, open_sql};
