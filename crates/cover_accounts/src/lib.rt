//! What keeps the dependencies of a schema from being a minimal or a canonical cover, and how a cover comes
//! about (Ullman 1982; Maier 1983; Silberschatz, Korth and Sudarshan 2019).
//!
//! `diagnostics` says it dependency by dependency: more than one attribute on the right, or the left side
//! of an earlier one; attributes that are not needed on the left, or on the right; dependencies that follow
//! from the others. `cover_steps` gives what one works out by hand: the members of the functional
//! dependencies, each with what is left of its left side, the members and multivalued dependencies that go
//! since the others imply them, each with the dependency of the schema that it comes from, and the cover,
//! which is left.
//!
//! Promises: the diagnostics are exactly what is wrong, in order, and a cover of `min_cover` has
//! none; the steps are those of the definition, and leave that cover; there is one account of each.
#![tactic(auto)]

mod checking;
pub mod checking_laws;
mod diagnostic;
mod needless;
mod others;
mod shortening;
mod sides;
pub mod step_laws;
mod steps;
mod thinning;

pub use checking::diagnostics;
pub use diagnostic::{CoverDiagnostic, CoverForm};
pub use others::dependency_and_others;
pub use shortening::ShortMember;
pub use steps::{CoverSteps, cover_steps};
pub use thinning::PlacedDep;
