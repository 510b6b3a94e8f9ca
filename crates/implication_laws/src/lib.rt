//! Laws between the answers of the commands on implication. No code.
//!
//! Each law is a function that does nothing, whose clause is the law; so the gate asks for its
//! proof.
//!
//! Promises: what one answer says another confirms; `check cover` says yes to minimal covers alone, and
//! `check cover canonical` to canonical ones alone; each command on implication has one answer, but for the
//! derivation of a goal.
#![tactic(auto)]

mod answering;
mod covering;
mod discovering;
mod exhibiting;
mod explaining;
mod implying;
mod projecting;
mod rewriting;
mod uniqueness;

pub use answering::{
    covers_have_one_answer, discoveries_have_one_answer, questions_have_one_answer,
};
pub use covering::covers_are_confirmed;
pub use discovering::{
    few_columns_are_answered, found_texts_mean_their_schema, near_texts_mean_their_schema,
};
pub use exhibiting::exhibits_show_their_schema;
pub use explaining::{
    explained_goals_are_accepted, explained_goals_are_decided,
    undetermined_attributes_are_in_every_key,
};
pub use implying::answers_on_goals_agree;
pub use projecting::printed_projections_mean_their_part;
pub use rewriting::{printed_covers_are_confirmed, schemas_are_answered_alike};
pub use uniqueness::notions_are_unique;
