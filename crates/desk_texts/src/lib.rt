//! Pieces of what the program prints: lines, values as they print themselves, and comments.
//!
//! Promises: the text of the definition.
#![tactic(auto)]

mod text;

pub use text::{add_displayed, line_of, overlong_comment, put_pair};
