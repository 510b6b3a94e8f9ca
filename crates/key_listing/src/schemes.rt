ghost use Rattle.std.specs.Prelude.{◌≤◌, length, IfOk, IfErr};
ghost use Rattle.attr_sets.specs.Attributes.{IsSubset};
ghost use Rattle.attr_sets.specs.Sets.{attributes};
ghost use Rattle.dep_model.specs.Theories.{width_of, universe_of, theory_of};
ghost use Rattle.fd_closure.specs.LeftSides.{IsWideScheme};
ghost use Rattle.key_listing.specs.Listing.{AreAllKeys};
ghost use Rattle.key_listing.specs.Refusals.{IsRefusedFor};

use crate::refusal::{MOST_KEYS, SchemeKeyRefusal};
use crate::searching::searched_keys;
use attr_sets::AttrSet;
use dep_model::{Failure, Theory};
use fd_closure::is_wide_scheme;
use std::alloc::Global;

/// All keys of a scheme by all dependencies, ascending: of two keys the greatest attribute that is in one
/// alone decides. There are at most `MOST_KEYS`; the keys of a scheme are refused where more than
/// `fd_closure::WIDEST_SEARCHED` of its attributes stand in left sides, whatever the dependencies, and
/// then more keys than `MOST_KEYS` are.
///
/// The time is exponential at worst: where k attributes of the scheme are not known beforehand to be in
/// every key or in none, there are fewer than 2 to the power k + 1 tests of a superkey or looks through
/// the keys that were found.
pub fn keys_of_scheme(
    alloc: Global,
    theory: &Theory,
    scheme: AttrSet,
) -> Result<Vec<AttrSet>, Failure<SchemeKeyRefusal>>
    requires scheme { IsSubset (attributes scheme) (universe_of theory.now) }
    ensures keys { IfOk result (λ keys.
        AreAllKeys (width_of theory.now) (theory_of theory.now) (attributes scheme) keys.items) }
    ensures within_limit { IfOk result (λ keys. length keys.items ≤ MOST_KEYS) }
    ensures not_too_wide { IfOk result (λ _. IsWideScheme (theory_of theory.now) (attributes scheme) → ⊥) }
    ensures refused { IfErr result (IsRefusedFor theory.now (attributes scheme)) }
{
    if is_wide_scheme(theory.deps(), scheme) {
        return Err(Failure::Refused(SchemeKeyRefusal::TooWide));
    }
    let found = searched_keys(alloc, theory, scheme)?;
    let many = found.len() > MOST_KEYS;
    if many {
        Err(Failure::Refused(SchemeKeyRefusal::TooManyKeys { found }))
    } else {
        Ok(found)
    }
}
