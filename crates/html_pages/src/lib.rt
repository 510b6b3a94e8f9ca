//! Pages of HTML that a browser shows without anything else: no script, no link out, light and
//! dark; and texts within HTML, where `&`, `<`, `>` and `"` stand as entities.
//!
//! A page is its frame around sections, a section a heading above pieces, and a piece a text that
//! was printed, below its title, open or folded.
//!
//! Promises: the text of the definition; each text in it is escaped; a shell reads what stands for
//! a word of a command as this word.
#![tactic(auto)]

mod commands;
mod escapes;
pub mod laws;
mod page;
mod pieces;
mod style;

pub use commands::add_shell_word;
pub use escapes::add_html;
pub use page::{add_heading, close_page, open_page};
pub use pieces::{add_folded_piece, add_open_piece, titled};
pub use style::page_style;
