ghost use Rattle.std.specs.Prelude.{◌≡◌, ◌*◌, ◌<◌, ◌↔◌, ℕ, length, IsTrue};
ghost use Rattle.attr_sets.specs.Attributes.{IsSubset, below};
ghost use Rattle.attr_sets.specs.Sets.{attributes};
ghost use Rattle.row_groups.specs.Numberings.{number_at};
ghost use Rattle.dep_model.specs.Dependencies.{ObeysFd, ObeysMvd};
ghost use Rattle.dep_model.specs.Tuples.{Relation};
ghost use Rattle.mvd_discovery.specs.Counting.{AreCounts};

use crate::counts::Counts;
use attr_sets::AttrSet;

// Whether the rows obey a functional dependency: as many agree on both sides as on the left side.
pub fn obeys_functional(counts: &Counts, left: AttrSet, right: AttrSet) -> bool
    requires rows { (r : Relation) × AreCounts r counts.now }
    requires left { IsSubset (attributes left) (below counts.now.width) }
    requires right { IsSubset (attributes right) (below counts.now.width) }
    ensures obeys { (r : Relation) → AreCounts r counts.now
        → IsTrue result ↔ ObeysFd (attributes left) (attributes right) r }
{
    are_equal(counts.sizes(left), counts.sizes(left.union(right)))
}

// Whether the rows obey a multivalued dependency: those that agree on the left side are as many as those that agree
// on both sides times those that agree on the left side and the rest.
pub fn obeys_multivalued(counts: &Counts, left: AttrSet, right: AttrSet) -> bool
    requires rows { (r : Relation) × AreCounts r counts.now }
    requires left { IsSubset (attributes left) (below counts.now.width) }
    requires right { IsSubset (attributes right) (below counts.now.width) }
    ensures obeys { (r : Relation) → AreCounts r counts.now
        → IsTrue result ↔ ObeysMvd (below counts.now.width) (attributes left) (attributes right) r }
{
    let both = left.union(right);
    let rest = AttrSet::full(counts.width).difference(both);
    let others = left.union(rest);
    are_products(counts.sizes(left), counts.sizes(both), counts.sizes(others))
}

// Whether two lists of one length are equal.
fn are_equal(one: &[u32], other: &[u32]) -> bool
    requires same_length { length other.now ≡ length one.now }
    ensures equal { IsTrue result
        ↔ ((j : ℕ) → j < length one.now → number_at one.now j ≡ number_at other.now j) }
{
    for j in 0..one.len() {
        if one[j] != other[j] {
            return false;
        }
    }
    true
}

// Whether each number of a list is the product of those at its place in two others.
fn are_products(products: &[u32], first: &[u32], second: &[u32]) -> bool
    requires first { length first.now ≡ length products.now }
    requires second { length second.now ≡ length products.now }
    ensures products { IsTrue result ↔ ((j : ℕ) → j < length products.now
        → number_at products.now j ≡ number_at first.now j * number_at second.now j) }
{
    for j in 0..products.len() {
        if products[j] as u64 != first[j] as u64 * second[j] as u64 {
            return false;
        }
    }
    true
}
