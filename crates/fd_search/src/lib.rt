//! The minimal functional dependencies and the minimal keys of wide rows, by candidates and
//! evidence.
//!
//! The left sides of all attributes come from `minimal_left_sides`, and are sorted; there is no
//! look at each set of columns. `few_on_the_left` takes those of few attributes on the left from
//! all minimal ones. For keys each row gets one value more, a number that only equal rows share:
//! the keys are the left sides of the minimal dependencies on that column.
//!
//! Promises: `minimal_dependencies` gives exactly the minimal ones, in the order of `fd_discovery`,
//! or a refusal where some evidence has more than 1,000,000 candidates for an attribute; they imply
//! what the rows obey; `small_dependencies` gives the same for those of at most so many attributes
//! on the left. `row_keys` gives exactly the minimal sets of columns on which no two different rows
//! agree, or such a refusal; all columns follow from such a set.
#![tactic(auto)]

mod few;
mod key_searching;
mod laws;
mod listing;
mod numbered;
mod searching;

pub use few::few_on_the_left;
pub use key_searching::{TooManyKeys, row_keys};
pub use laws::keys_determine_all;
pub use searching::{minimal_dependencies, small_dependencies};
