ghost use Rattle.std.specs.Prelude.{◌≡◌, ℕ, ◌<◌, ◌≤◌, length, slice_index_or, true, false};
ghost use Rattle.attr_sets.specs.Attributes.{IsBefore};
ghost use Rattle.attr_sets.specs.Sets.{attributes};
ghost use Rattle.attr_sets.specs.declared.set.AttrSet.{AttrSet};
ghost use Rattle.attr_sets.specs.declared.set.TheConstants.{MOST_ATTRIBUTES};
ghost use Rattle.candidate_sets.specs.Cuts.{IsCut, ArePartedAt};

use attr_sets::{AttrSet, MOST_ATTRIBUTES};

// The greatest attribute in which two sets differ, of which the first comes before the second.
pub fn greatest_difference(first: AttrSet, last: AttrSet) -> u8
    requires before { IsBefore (attributes first) (attributes last) }
    ensures attribute { result < MOST_ATTRIBUTES }
    ensures cut { IsCut (attributes first) (attributes last) result }
{
    (MOST_ATTRIBUTES as u32 - 1 - (first.0 ^ last.0).leading_zeros()) as u8
}

// How many sets stand before the first that has an attribute.
pub fn count_without(sets: &[AttrSet], attribute: u8) -> usize
    requires attribute { attribute < MOST_ATTRIBUTES }
    requires parted { ArePartedAt sets.now attribute }
    ensures bound { result ≤ length sets.now }
    ensures without { (i : ℕ) (d : AttrSet) → i < result
        → attributes (slice_index_or sets.now i d) attribute ≡ false }
    ensures having { (i : ℕ) (d : AttrSet) → result ≤ i → i < length sets.now
        → attributes (slice_index_or sets.now i d) attribute ≡ true }
{
    sets.partition_point(|set| !set.contains(attribute))
}
