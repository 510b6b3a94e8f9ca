//! Schemas of what is there: the answers of `import sqlite` and `import postgres`, of a table that
//! the SQL of a file defines, and of `import csv`, of the columns of a file of rows.
//!
//! Each is a pure function of values: the text of the schema, or the first refusal.
//!
//! Promises: the response is allowed; the text of `import csv` means the schema under names of its
//! own, the file's values fit it, and there is one answer.
#![tactic(auto)]

pub mod column_laws;
mod columns;
mod importing;
mod refusals;

pub use columns::import_columns;
pub use importing::import_table;
