//! All candidates for an attribute of evidence that is given at once, found member by member.
//!
//! A branch of the search has a set and the evidence that holds it. The set takes on one column that some of this
//! evidence lacks, as long as each member is needed: some evidence lacks it alone (Murakami and Uno 2014). So no list
//! of candidates is kept up with each piece of evidence.
//!
//! Promises: `candidates_of` gives exactly the candidates of the evidence, in the order of sets, or none where it comes
//! to more than 1,000,000 sets.
#![tactic(auto)]

mod branch;
mod branching;
mod evidence;
mod finding;

pub use finding::candidates_of;
