//! What a process gives to the desk and takes from it: the words of its arguments, where notices
//! go, and the number that it ends with.
//!
//! Promises: the words without the program's name, none where an argument is not UTF-8; the number
//! of each way to end.
#![tactic(auto)]

mod ending;
mod notices;
mod words;

pub use ending::exit_code;
pub use notices::NoticeSink;
pub use words::words_given;
