//! Relations that the program makes up, with values of each column's type in place of numbers, and
//! as CSV.
//!
//! Such a relation holds numerals below `MADE_UP_VALUES`. [`typed_rows`] puts in place of each the
//! value of its column's type that stands for the number. `print_two_rows` prints the two rows that
//! agree exactly on a set, `print_made_up` rows of numbers, and `print_zeros` the row that stands for
//! `0` at each attribute.
//!
//! Promises: the values fit the columns; the relation obeys, is legal, joins and holds tuples just
//! as before; text, integer and other columns stay as they are. Tableaux as relations and exhibits
//! hold numerals, so this holds of them.
#![tactic(auto)]

pub mod laws;
mod made_up_laws;
mod printing;
mod typing;

pub use made_up_laws::{made_up_rows_hold_numerals, typed_relation_gains};
pub use printing::{print_made_up, print_two_rows, print_zeros};
pub use typing::{typed_row, typed_rows};
