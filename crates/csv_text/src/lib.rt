//! Rows as CSV text, as `csv` writes them with its default settings.
//!
//! [`write_row`] writes one row after others through a writer of `csv`; [`add_row`] adds the line
//! of one row to a text without one, where each row goes its own way. [`header_line`] gives the
//! line of the names of columns, and [`fields_line`] that of any fields.
//!
//! Promises: the bytes are those of `csv`.
#![tactic(auto)]

mod adding;
mod lines;
mod writing;

pub use adding::add_row;
pub use lines::{fields_line, header_line};
pub use writing::{take_values, write_row};
