//! Rows as numbers: equal values by one number, and groups of rows that agree.
//!
//! `Interned` holds rows by numbers in place of their values. `Groups` numbers rows by what they
//! have on a set of attributes. Many different values, or pairs of numbers, are numbered bucket by
//! bucket.
//!
//! Promises: two rows have one number exactly where they agree on the set; the numbers begin at 0,
//! in the order of the first rows that have them.
#![tactic(auto)]

mod buckets;
mod groups;
mod hashed_pair;
mod interning;
mod leaders;
mod pair_buckets;
mod pair_leaders;

pub use groups::Groups;
pub use interning::Interned;
