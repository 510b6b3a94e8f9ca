//! Names of SQL, and its queries and statements as values with what each prints. But for the names
//! definitions alone.
//!
//! A name stands in double quotes, those within doubled; in a list there are a comma and a blank
//! between names. The crates that print queries and scripts cite the definitions, and so do the laws
//! of what these do.
//!
//! Promises: the text of the definition; one text for each value.
#![tactic(auto)]

mod name_list;

pub use name_list::{add_listed, add_name_list, add_names, add_quoted};
