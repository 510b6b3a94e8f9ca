//! Rows of values in three pieces of memory: the bytes of all values, where each value ends, and
//! where each row ends; and how values are hashed.
//!
//! A value takes its bytes and four more. `FlatValues` is a list of values, and `Rows` one of rows;
//! a contract sees the lists alone.
//!
//! [`take_row`] gives the values of a row, [`project_row`] those at the attributes of a scheme,
//! `Hashing` is how values are hashed, and `LentValue` a value that is looked up among others.
//!
//! Promises: a list of rows that grows at its end; a value is the one of the list; [`project_row`]
//! gives the values of a row at the attributes of a scheme.
#![tactic(auto)]

mod flat_values;
mod hashing;
mod limits;
mod projecting;
mod rows;

pub use flat_values::FlatValues;
pub use hashing::{Hashing, LentValue};
pub use limits::{MOST_HEADED_ROWS, MOST_ROWS_WITH_ALL, WIDEST_HEADED, WIDEST_WITH_ALL};
pub use projecting::project_row;
pub use rows::{Rows, take_row};
