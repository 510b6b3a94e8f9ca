ghost use Rattle.std.specs.Prelude.{◌≤◌, ◌↔◌, length, IsTrue, IfOk, IfErr};
ghost use Rattle.dep_model.specs.Theories.{width_of, universe_of, theory_of};
ghost use Rattle.key_listing.specs.Listing.{AreAllKeys, AreFoundKeys};
ghost use Rattle.key_listing.specs.Refusals.{IsTooWide, IsRefusedListing};

use crate::exchanging::exchanged_keys;
use crate::refusal::{KeyRefusal, MOST_KEYS};
use crate::searching::searched_keys;
use attr_sets::AttrSet;
use dep_model::{Failure, OutOfMemory, Theory};
use fd_closure::{is_functional, is_wide_scheme};
use std::alloc::Global;

/// All keys of the universe by all dependencies, ascending: of two keys the greatest attribute that is
/// in one alone decides. There are at most `MOST_KEYS`; where there are more, or where a multivalued
/// dependency is given and more than `fd_closure::WIDEST_SEARCHED` attributes stand in left sides, the
/// keys are refused.
///
/// By functional dependencies alone the time grows with the number of keys. Where a multivalued one is
/// given, it is exponential in the attributes of left sides at worst, as for `keys_of_scheme`.
pub fn keys(alloc: Global, theory: &Theory) -> Result<Vec<AttrSet>, Failure<KeyRefusal>>
    ensures keys { IfOk result (λ keys.
        AreAllKeys (width_of theory.now) (theory_of theory.now) (universe_of theory.now) keys.items) }
    ensures within_limit { IfOk result (λ keys. length keys.items ≤ MOST_KEYS) }
    ensures not_too_wide { IfOk result (λ _. IsTooWide theory.now → ⊥) }
    ensures refused { IfErr result (IsRefusedListing theory.now) }
{
    if is_too_wide(theory) {
        return Err(Failure::Refused(KeyRefusal::TooWide));
    }
    let found = found_keys(alloc, theory)?;
    let many = found.len() > MOST_KEYS;
    if many {
        Err(Failure::Refused(KeyRefusal::TooManyKeys { found }))
    } else {
        Ok(found)
    }
}

// Whether a multivalued dependency is given, and more attributes than are searched stand in left sides.
fn is_too_wide(theory: &Theory) -> bool
    ensures too_wide { IsTrue result ↔ IsTooWide theory.now }
{
    if is_functional(theory.deps()) {
        return false;
    }
    is_wide_scheme(theory.deps(), AttrSet::full(theory.width()))
}

// The keys of the universe, one more than are listed at most.
fn found_keys(alloc: Global, theory: &Theory) -> Result<Vec<AttrSet>, OutOfMemory>
    ensures keys { IfOk result (λ found.
        AreFoundKeys (width_of theory.now) (theory_of theory.now) (universe_of theory.now) found.items) }
{
    if is_functional(theory.deps()) {
        exchanged_keys(alloc, theory)
    } else {
        searched_keys(alloc, theory, AttrSet::full(theory.width()))
    }
}
