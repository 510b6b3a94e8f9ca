//! SQL scripts over a table of the user's, whose columns are the attributes of a schema.
//!
//! `check_script` asks for the rows in which a value is missing, for what is no integer and for
//! what breaks each rule; its queries are values of `sql_check`, and `sql_check_laws` says what
//! they give in an engine. `measure_script` counts what breaks each dependency, by values of
//! `sql_measure`, and `sql_measure_laws` says what these give. `migrate_script` makes the tables of a design from
//! the table, in one transaction that undoes itself where their join is not the table; its statements are values of
//! `sql_migrate`, and `sql_migrate_laws` says what they do in an engine.
//!
//! Promises: each query and statement is the text of its value; a script that checks says whether
//! rows are legal, one that measures counts what `measure` does, and one that migrates moves the table
//! or changes nothing; `is_table_name` says which
//! names of a user's table a script may hold.
#![tactic(auto)]

mod checking;
mod columns;
mod counted;
mod filling;
mod integers;
mod joining;
mod listing;
mod measured;
mod measuring;
mod migrating;
mod missing;
mod naming;
mod ordering;
mod rules;
mod selecting;
mod several;
mod unpaired;

pub use checking::check_script;
pub use measuring::measure_script;
pub use migrating::migrate_script;
pub use naming::{MOST_PART_BYTES, is_table_name, met_name};
