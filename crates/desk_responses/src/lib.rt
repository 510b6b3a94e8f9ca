//! What a command may answer: a status, a text, and tables for the destinations or for a folder of
//! their own.
//!
//! A `Response` is an answer as a value; an `EarlyExit` ends a command before that. `lines` holds
//! the lines and refusals that several commands have. The definitions say which answers may be
//! given, and the steps (`With`, `Unless`) of which every command is made.
//!
//! Promises: a response is one that the definitions allow; only yes has tables.
#![tactic(auto)]

mod lines;
mod multivalued;
mod response;
mod status;

pub use lines::{bad_table_exit, put_dep, put_line, put_name, put_set_line, too_wide_exit};
pub use multivalued::multivalued_exit;
pub use response::{EarlyExit, OwnFolder, Response};
pub use status::Status;
