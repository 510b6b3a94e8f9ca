//! What the values of each type of column are, the missing value, and the values that the program
//! makes up.
//!
//! Promises: `is_value_of` and `fits_column` say exactly, and without memory, whether bytes are a
//! value of a type, and whether they fit a column of which values may be missing; what
//! `add_made_up` writes for a number is a value of the type, and for other numbers it writes other
//! values.
#![tactic(auto)]

mod calendar;
mod decimals;
mod digits;
pub mod laws;
mod making;
mod uuids;
mod values;

pub use making::{MADE_UP_VALUES, add_made_up};
pub use values::{fits_column, is_value_of};
