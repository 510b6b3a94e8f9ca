//! Destinations of tables: folders to which tables are written as files, of CSV or of SQL.
//!
//! - A [`Destination`] is a folder with the format of its files. A table becomes a file before it:
//!   a destination takes a name and bytes.
//! - [`write_table`] makes the text of a table, row by row, at the end of the open file;
//!   [`file_name`] is the name of its file.
//! - [`BufferedFolder`] gathers what is written to a folder.
//!
//! Promises: what is written for a table is the text of the table in its format; a folder that
//! gathers holds what its folder will hold.
#![tactic(auto)]

mod buffered_folder;
mod destination;
mod format;
mod sql_line;
mod table_text;

pub use buffered_folder::BufferedFolder;
pub use destination::Destination;
pub use format::{TableFormat, file_name};
pub use sql_line::is_sql_text;
pub use table_text::{LineMaker, write_table};
