//! Plans and what is made of them: the answers about normal forms, lossless joins, kept
//! dependencies, SQL tables and pictures, and how a split or a synthesis comes about.
//!
//! Each is a pure function of values.
//!
//! Promises: the response is allowed.
#![tactic(auto)]

mod decomposition;
mod designs;
mod drawings;
mod explained;
mod fewest;
mod fewest_reasons;
mod form;
mod forms;
mod join;
mod keeping;
mod left_out;
mod missing;
mod split_reasons;
mod synthesis;
mod synthesis_reasons;

pub use decomposition::{
    MOST_SPLIT_SCHEMES, plan_in_form, split_by_pairs, split_exit, split_in_form,
};
pub use designs::{design_of_plan, write_form, write_plan, write_tables};
pub use drawings::{draw_form, draw_plan};
pub use explained::{ExplainedPlan, explained_plan, print_explained};
pub use fewest::synthesize_fewest;
pub use fewest_reasons::explain_fewest;
pub use form::{
    check_form, check_tested, tested_dependency, violation_dependency, word_of, word_of_tested,
};
pub use forms::{breach_of, form_of_all, form_of_tested, forms_of_all, forms_of_plan};
pub use join::{check_join, test_loss};
pub use keeping::check_keeps;
pub use missing::{required_design, test_missing};
pub use split_reasons::explain_split;
pub use synthesis::synthesize_plan;
pub use synthesis_reasons::explain_synthesis;
