//! How far rows are from obeying a dependency, which rows stand in broken groups, and which can be
//! kept.
//!
//! Rows that agree on the left side are a group. A group breaks a functional dependency where two
//! of its rows differ on the right side; of its classes, the rows that agree on both sides, the
//! largest is chosen, of equally large ones that of the least first row. A group breaks a
//! multivalued dependency where some right side and some rest of it do not stand in one row.
//! `error_within` is how many rows must change for a dependency on one attribute, by the groups of
//! its left side. All are linear in the rows.
//!
//! Promises: `measure` counts broken groups, their rows, and how many rows must change or are
//! missing; `broken_parts` and `broken_rows` list what stands in broken groups, once and in order;
//! the rows that `kept_rows` leaves out are a least removal, and what is kept is legal.
#![tactic(auto)]

mod breach;
mod by_class;
mod by_part;
mod counting;
mod keeping;
mod laws;
mod listing;
mod measuring;
mod ordering;
mod within;

pub use breach::{BrokenPart, BrokenRow, Measure, RowMark};
pub use keeping::kept_rows;
pub use laws::{measures_are_least, one_measure};
pub use listing::{broken_parts, broken_rows};
pub use measuring::measure;
pub use within::error_within;
