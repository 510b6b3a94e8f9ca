//! Whether two schemas over the same names say the same.
//!
//! Promises: `first_undeclared` gives the first attribute of a schema whose name another does not
//! declare, and `differences` exactly those dependencies of a schema that, carried over by names,
//! the other does not imply; where there are none either way, and only there, the two have the same
//! legal relations, columns taken by their names.
#![tactic(auto)]

mod carrying;
mod comparing;
pub mod laws;
mod naming;

pub use comparing::differences;
pub use naming::first_undeclared;
