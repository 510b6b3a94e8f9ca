//! The lexemes of SQL texts as `sqlite3` and `pg_dump` print them, and their statements.
//!
//! `cut_statement` gives the statements of a text one after the other, each as its lexemes, with
//! the place of each and how many round brackets stand around it. It takes memory for one
//! statement's lexemes alone.
//!
//! Promises: the statements of the definition: what stands in comments, in strings and in the lines
//! of a COPY is no lexeme of a statement; a text ends where a byte begins no lexeme, or where a
//! quote or a comment is never closed, and its last statement says so.
#![tactic(auto)]

mod data;
mod dialect;
mod lexeme;
mod piece;
mod place;
mod scan;
mod statement;

pub use dialect::Dialect;
pub use lexeme::{Lexeme, LexemeKind};
pub use piece::{Before, Flaw, is_postgres};
pub use place::{column_at, line_at};
pub use statement::{Cut, Rest, Statement, begins_with, cut_statement, is_mark, is_word};
