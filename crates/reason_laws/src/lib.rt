//! Laws of the texts of explanations. No code.
//!
//! Promises: without the lines that begin with `# ` an explanation is what the command prints.
#![tactic(auto)]

pub mod reasons;
