//! Rows as CSV text and back, and the record with an open quote.
//!
//! `read_rows` gives the rows of a text, each with its values in the order of the schema, or the
//! text's first refusal. The records are those that `csv` defines, with a comma between fields and
//! double quotes, after one byte-order mark. `read_part` reads a text that has a column for some of
//! the attributes. `print_rows` writes a header of the declared names and then each row.
//! `open_reader`, `take_record` and `field` give the records of any text, one after the other.
//!
//! Promises: the bytes are those of `csv`, with its default settings; each value fits its column; a
//! text has one meaning, and a printed one means its rows.
#![tactic(auto)]

mod header;
mod laws;
mod part;
mod printing;
mod quotes;
mod reading;
mod records;
mod refusal;
mod types;

pub use laws::{one_reading, printed_rows_are_read_back};
pub use part::{PartialRows, read_part};
pub use printing::print_rows;
pub use quotes::{is_open, open_record};
pub use reading::{MOST_ROWS, read_rows};
pub use records::{field, open_reader, take_record};
pub use refusal::RowRefusal;
pub use types::type_of;
