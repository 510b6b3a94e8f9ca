//! Tables for the schemes of a plan: their names, keys and references, and these as SQL.
//!
//! `design` gives each scheme a table, whose key is its primary key by all dependencies, beside all
//! other keys of the scheme where these can be listed, and which refers to each earlier table whose
//! key lies within it.
//!
//! Promises: the design of a plan; in the tables of every legal relation each key and each
//! reference holds; `print_ddl` gives the text of a design, as `CREATE TABLE` statements.
#![tactic(auto)]

mod columns;
mod designing;
mod elements;
mod keying;
mod other_keys;
mod printing;
mod references;
mod table;

pub use designing::{DesignList, design};
pub use keying::keyed_tables;
pub use printing::print_ddl;
pub use table::TableDesign;
pub use table_names::MOST_TABLES;
