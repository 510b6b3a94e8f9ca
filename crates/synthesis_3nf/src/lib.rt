//! Synthesis of a plan in third normal form.
//!
//! `synthesize` groups a minimal cover of the functional dependencies by left side, and adds the
//! primary key of the universe, by the functional dependencies, where no group holds a key.
//! `synthesis_steps` gives the cover, its left sides and their schemes, `steps_of_whole_cover` the
//! same where the cover was found before, and `plan_of_steps` the plan that they lead to. `with_key`
//! adds the key to schemes that were made otherwise.
//!
//! Promises: the plan is lossless, each of its schemes is in third normal form, and it keeps the
//! functional dependencies.
#![tactic(auto)]

mod completing;
mod grouping;
mod steps;
mod synthesis;

pub use completing::with_key;
pub use grouping::group_scheme;
pub use steps::{SynthesisSteps, steps_of_whole_cover, synthesis_steps};
pub use synthesis::{plan_of_steps, synthesize};
