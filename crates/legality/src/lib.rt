//! Which rows break which dependency of a schema.
//!
//! `offences` looks at rows by numbers in place of values, group by group, and never at all pairs
//! of rows. `offences_of_own_rows` takes the rows, and lets them go as soon as they have numbers.
//!
//! `part_counts` counts the parts of groups, for the crates above too.
//!
//! Promises: for each dependency that rows do not obey the least pair of rows that breaks it, of
//! all pairs, and nothing exactly where the rows are legal; each offence names its dependency, and
//! rows have one list of offences.
#![tactic(auto)]

mod counting;
mod finding;
mod functional;
mod laws;
mod multivalued;
mod offence;
mod pair;

pub use counting::{part_counts, zero_counts};
pub use finding::{offences, offences_of_own_rows};
pub use laws::{offences_name_dependencies, one_list_of_offences};
pub use offence::Offence;
