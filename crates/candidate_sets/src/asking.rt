ghost use Rattle.std.specs.Prelude.{◌↔◌, IsTrue};
ghost use Rattle.attr_sets.specs.Sets.{attributes};
ghost use Rattle.candidate_sets.specs.Cuts.{Ascend};
ghost use Rattle.candidate_sets.specs.Growing.{HasWithin};

use crate::cutting::{count_without, greatest_difference};
use attr_sets::AttrSet;

/// Whether one of the sets lies within a bound. Where the first and the last of them differ, the
/// greatest attribute in which they do cuts the list: the sets with it are asked only if the bound
/// has it too.
pub fn is_any_within(sets: &[AttrSet], bound: AttrSet) -> bool
    requires ascending { Ascend sets.now }
    ensures within { IsTrue result ↔ HasWithin sets.now (attributes bound) }
{
    if sets.is_empty() {
        return false;
    }
    let first = sets[0];
    if sets.len() == 1 {
        return first.is_subset(bound);
    }
    let cut = greatest_difference(first, sets[sets.len() - 1]);
    let shared = first.difference(AttrSet::full(cut + 1));
    if !shared.is_subset(bound) {
        return false;
    }
    let middle = count_without(sets, cut);
    if is_any_within(&sets[..middle], bound) {
        return true;
    }
    if !bound.contains(cut) {
        return false;
    }
    is_any_within(&sets[middle..], bound)
}
