//! Laws of what the scripts that `sql migrate` prints do in an engine: what the laws of the script
//! ask of a design holds of each that is printed. No code.
//!
//! Each law is a function that does nothing, whose clauses are the law; so the gate asks for its
//! proof.
//!
//! Promises: over a table that holds a relation of which no rule is broken, each script that is
//! printed ends without an error in a fair engine: one that casts integers and refuses nothing but
//! what breaks a rule of a table, where the names that the script gives are free. An engine that
//! refuses exactly that is fair.
#![tactic(auto)]

mod answering;
mod ending;
mod engines;

pub use answering::printed_scripts_end;
pub use ending::migrations_of_designs_end;
pub use engines::a_strict_engine_is_fair;
