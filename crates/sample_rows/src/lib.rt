//! A large legal input that is made from a number.
//!
//! [`sample_schema`] has the attributes PERSON, CITY, SKILL and TONGUE: a person has one city, and
//! the skills do not depend on the tongues. [`sample_rows`] gives the rows of so many persons, each
//! with two skills beside two tongues.
//!
//! Promises: the schema and the rows are those of the definition; the rows are legal, and all
//! different.
#![tactic(auto)]

mod persons;
mod rows;
mod schema;

pub use persons::Persons;
pub use rows::{MOST_PERSONS, sample_rows};
pub use schema::sample_schema;
