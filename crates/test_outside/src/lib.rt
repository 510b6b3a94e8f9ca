//! Tests of the outside and of destinations, where calls fail one at a time; and a folder for
//! tests, [`WithoutMemory`], which runs out of memory at each call.
#![tactic(auto)]

#[cfg(test)]
mod feeding;
#[cfg(test)]
mod outside;
#[cfg(test)]
mod own_folders;
#[cfg(test)]
mod storing;
#[cfg(test)]
mod three_tables;
mod without_memory;

pub use without_memory::WithoutMemory;
