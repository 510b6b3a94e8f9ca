//! The first type that all values of a column have, and the columns in which a value is empty.
//!
//! The types are integer, decimal of one scale, date, timestamp, uuid and text, in this order.
//! Values that are empty do not count, and a column of which all are empty is text.
//!
//! Promises: `type_of_column` and `types_of_columns` give exactly that type, `columns_with_empty`
//! exactly those columns; a column has one type, and its values fit it.
#![tactic(auto)]

mod columns;
pub mod laws;
mod tables;
mod typing;

pub use tables::{columns_with_empty, types_of_columns};
pub use typing::{TRIED, type_of_column};
