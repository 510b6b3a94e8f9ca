//! Tests of whole calls of the desk, where calls of a file source, a sink or a destination fail one
//! at a time.
#![tactic(auto)]

#[cfg(test)]
mod answering;
#[cfg(test)]
mod calls;
#[cfg(test)]
mod delivering;
