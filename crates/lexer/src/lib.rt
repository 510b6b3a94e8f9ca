//! The lines and tokens of the texts that a designer writes: schemas, goals, plans, certificates.
//!
//! A text is cut into lines by `cut_line`, and a line into tokens by `next_token`, one at a time
//! and without memory. `lex` says which tokens a line has, from left to right, up to the first byte
//! or run of bytes that begins no token.
//!
//! Quotes and digits in words that are no lines are read by the same functions: `closing_quote`,
//! `name_between`, `number_of`.
//!
//! Promises: the longest token, or the bytes that are none; a quoted name is one token of that
//! name.
#![tactic(auto)]

mod bytes;
mod laws;
mod line;
mod mode;
mod piece;
mod quotes;
mod token;
mod word;

pub use bytes::{are_digits, number_of};
pub use laws::quoted_names;
pub use line::{cut_line, without_mark};
pub use mode::Mode;
pub use quotes::{QuotedName, closing_quote, name_between};
pub use token::{Flaw, LexError, Next, Token, TokenKind, next_token};
pub use word::{Word, WordBytes};
