//! A folder of its own for the tables of a migration: a CSV file for each, and one script that
//! makes and fills them all.
//!
//! [`write_own_folder`] makes a folder, and writes the files of one migration to it.
//!
//! Promises: where nothing failed, the folder is made and has just these files more, each begun
//! once; else each kind of file stopped at one and has those before it, or the folder was not made
//! and no file was begun.
#![tactic(auto)]

mod bytes;
mod script;
mod writer;

pub use writer::write_own_folder;
