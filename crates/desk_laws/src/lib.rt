//! Laws of whole calls of `desk`, of the commands together. No code.
//!
//! Each law is a function that does nothing, whose clause is the law; so the gate asks for its
//! proof.
//!
//! Promises: what `implies` prints, `check proof` accepts, and `check derivation` what `explain implies`
//! prints; what `cover` prints, `check cover` confirms, canonical or not; what `ddl` prints, `import`
//! reads back; what `migrate` writes, `rejoin` reads back; what `discover references` lists, `check
//! references` confirms; where nothing fails, a call whose inputs have a meaning is answered; over known
//! files any two answers to words are equal, but for the derivation of a goal.
#![tactic(auto)]

mod accepted;
mod begun;
mod complete;
mod complete_derivations;
mod complete_folders;
mod complete_measures;
mod complete_pages;
mod complete_questions;
mod complete_reasons;
mod complete_references;
mod complete_scripts;
mod complete_tables;
mod imported;
mod one_answer;
mod one_measure;
mod one_references;
mod way_back;

pub use accepted::{
    printed_covers_are_confirmed, printed_derivation_is_accepted, printed_proof_is_accepted,
};
pub use begun::last_of_the_names_is_taken;
pub use complete::{answered_calls_end, requests_are_answered};
pub use complete_derivations::check_derivation_is_answered;
pub use complete_folders::migrate_into_is_answered;
pub use complete_measures::measures_are_answered;
pub use complete_pages::{calls_answered_by_yes_end, report_is_answered};
pub use complete_questions::questions_are_answered;
pub use complete_reasons::explanations_are_answered;
pub use complete_references::references_are_answered;
pub use complete_scripts::scripts_are_answered;
pub use complete_tables::{
    ddl_is_answered, discoveries_are_answered, forms_are_answered, imports_are_answered,
    migrate_is_answered, rejoin_is_answered, sample_is_answered, small_universes_are_split,
};
pub use imported::{tables_of_a_form_are_imported, tables_of_a_plan_are_imported};
pub use one_answer::{
    tasks_have_one_answer, texts_of_files_have_one_reading, words_have_one_answer,
};
pub use one_measure::measures_have_one_answer;
pub use one_references::references_have_one_answer;
pub use way_back::files_are_rejoined;
