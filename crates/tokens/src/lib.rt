//! A line of text, read token by token: what the readers of all texts share.
//!
//! A `Cursor` is what is left of a line. `look_up` gives the attribute that a word of a side, or a
//! quoted name, stands for.
//!
//! Promises: `next` says what comes next on a line; the other calls take a token, a number, an
//! arrow, a side or the line's end, or refuse the line at its place, by what it wants there.
#![tactic(auto)]

mod cursor;
mod guide;
mod names;
mod tokens;

pub use cursor::{Cursor, NextToken};
pub use guide::Guide;
pub use names::{
    Names, attribute_of_word, is_reserved, is_reserved_token, look_up, position_among,
};
pub use tokens::number_in;
