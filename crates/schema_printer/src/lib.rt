//! Schemas, dependencies and sets, printed in one form, which is the form that their readers take;
//! names, quoted where they must be; and what a schema has of a set of attributes, printed as a
//! schema.
//!
//! That the text means what was printed is a law of `schema_grammar`, which stands above.
//!
//! Promises: the text of the definition, over the names of the schema; a schema of bare names
//! prints them as they are.
#![tactic(auto)]

pub mod laws;
mod part_printing;
mod parts;
mod printing;
mod spelling;

pub use part_printing::print_part;
pub use printing::{
    add_dep, add_deps, add_nullable, add_set, add_type_word, print_dep, print_deps, print_set,
};
pub use spelling::{add_name, add_quoted, is_schema_word};
