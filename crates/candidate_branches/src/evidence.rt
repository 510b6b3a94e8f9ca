//! Evidence without an attribute: what other such evidence holds tells nothing more.

ghost use Rattle.std.specs.Prelude.{◌≡◌, ◌<◌, true, false, IfOk, IfSome};
ghost use Rattle.attr_sets.specs.Sets.{attributes};
ghost use Rattle.attr_sets.specs.declared.set.TheConstants.{MOST_ATTRIBUTES};
ghost use Rattle.dep_model.specs.Plans.{schemes_of};
ghost use Rattle.candidate_branches.specs.Largest.{AreLargest, IsHeldBy};

use attr_sets::AttrSet;
use dep_model::OutOfMemory;
use std::alloc::Global;

// The most pieces of evidence that are kept: each further one is looked for in all of them.
const MOST_LARGEST: usize = 8192;

// Evidence without an attribute, but what lies within other such evidence that comes before it; or none, where there
// is much. Which it is, is a matter of speed alone.
pub fn largest_without(
    alloc: Global,
    evidence: &[AttrSet],
    right: u8,
) -> Result<Option<Vec<AttrSet>>, OutOfMemory>
    requires right { right < MOST_ATTRIBUTES }
    ensures largest { IfOk result (λ found. IfSome found (λ largest.
        AreLargest right (schemes_of evidence.now) (schemes_of largest.items))) }
{
    let mut largest = Vec::new(alloc);
    for one in evidence {
        if largest.len() >= MOST_LARGEST {
            return Ok(None);
        }
        if tells_more(&largest, *one, right) {
            largest.push(*one)?;
        }
    }
    Ok(Some(largest))
}

// Whether a set lacks an attribute and lies within none of some sets.
fn tells_more(sets: &[AttrSet], set: AttrSet, right: u8) -> bool
    requires right { right < MOST_ATTRIBUTES }
    ensures lacks { result ≡ true → attributes set right ≡ false }
    ensures held { result ≡ false → attributes set right ≡ false → IsHeldBy (schemes_of sets.now) (attributes set) }
{
    if set.contains(right) {
        return false;
    }
    !is_held(sets, set)
}

// Whether a set lies within one of some sets.
fn is_held(sets: &[AttrSet], set: AttrSet) -> bool
    ensures held { result ≡ true → IsHeldBy (schemes_of sets.now) (attributes set) }
{
    for one in sets {
        if set.is_subset(*one) {
            return true;
        }
    }
    false
}
