ghost use Rattle.std.specs.Prelude.{◌≡◌, ◌<◌, ◌^◌, ◌↔◌, ℕ, All, List, length, IsTrue, IfOk};
ghost use Rattle.attr_sets.specs.Attributes.{Attributes, only, union};
ghost use Rattle.row_groups.specs.Numberings.{AreGroups};
ghost use Rattle.dep_model.specs.Dependencies.{ObeysFd};
ghost use Rattle.dep_model.specs.Tuples.{Relation};
ghost use Rattle.fd_discovery.specs.Leaders.{AreLeadersOn, IsOrderOf};

use dep_model::OutOfMemory;
use std::alloc::Global;

/// The leaders of rows on a set and one column more, from their leaders on the set, the column's numbers
/// and the order of the rows by these. A leader is one of the rows that agree on a set, the same for all
/// of them.
///
/// The rows are gone through in that order, so those of one leader that have one number follow each
/// other among the rows of that leader, and the first of them leads the others.
pub fn refine_leaders(
    alloc: Global,
    leaders: &[u32],
    codes: &[u32],
    order: &[u32],
) -> Result<Vec<u32>, OutOfMemory>
    requires same_length { length codes.now ≡ length leaders.now }
    requires leaders { All (λ row. row < length leaders.now) leaders.now }
    requires order { All (λ row. row < length leaders.now) order.now }
    ensures leaders { (r : Relation) (x : Attributes) (k : ℕ) → AreLeadersOn r x leaders.now
        → AreGroups r (only k) codes.now → IsOrderOf codes.now order.now
        → IfOk result (λ finer. AreLeadersOn r (union x (only k)) finer.items) }
{
    let mut latest = Vec::from_slice(alloc, leaders)?;
    let mut finer = Vec::from_slice(alloc, leaders)?;
    for next in order {
        let row = *next as usize;
        let leader = leaders[row] as usize;
        if codes[latest[leader] as usize] != codes[row] {
            latest[leader] = *next;
        }
        finer[row] = latest[leader];
    }
    Ok(finer)
}

// Whether the rows of one leader have one number.
pub fn determines(leaders: &[u32], codes: &[u32]) -> bool
    requires same_length { length codes.now ≡ length leaders.now }
    requires leaders { All (λ row. row < length leaders.now) leaders.now }
    ensures obeys { (r : Relation) (x : Attributes) (k : ℕ) → AreLeadersOn r x leaders.now
        → AreGroups r (only k) codes.now → IsTrue result ↔ ObeysFd x (only k) r }
{
    for row in 0..leaders.len() {
        if codes[row] != codes[leaders[row] as usize] {
            return false;
        }
    }
    true
}
