//! What is wrong with rows: the answers about how far they are from legal, which are at odds, and
//! which of them can stay.
//!
//! Each is a pure function of values.
//!
//! Promises: the response is allowed; `text_columns_alone` gives the schema of text columns alone
//! by which rows are read whose values may not be of their column's type.
#![tactic(auto)]

mod columns;
mod fields;
mod keeping;
mod measures;
mod offences;
mod telling;
mod untyped;

pub use keeping::keep_rows;
pub use measures::measure_rows;
pub use offences::{list_offences, list_offences_by_row};
pub use untyped::text_columns_alone;
