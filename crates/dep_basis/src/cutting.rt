ghost use Rattle.std.specs.Prelude.{◌≡◌, ◌<◌, true, false, All, length, slice_index_or, IsNone, IfSome, IsTrue};
ghost use Rattle.attr_sets.specs.Sets.{attributes};
ghost use Rattle.attr_sets.specs.declared.set.TheConstants.{MOST_ATTRIBUTES};
ghost use Rattle.dep_model.specs.Deps.{dependency_of, dependencies_of};
ghost use Rattle.dep_basis.specs.Refining.{LeavesWhole};
ghost use Rattle.dep_model.specs.declared.dep.Dep.{Dep};
ghost use Rattle.dep_basis.specs.Cuts.{IsCutting, IsBestCut, IsBetterCut};

use crate::refining::cut_by;
use attr_sets::AttrSet;
use dep_model::{Dep, sides};

// A dependency that cuts a part, by its number from 0; none only where each leaves the part whole.
pub fn next_cut(deps: &[Dep], part: AttrSet) -> Option<usize>
    ensures none { IsNone result
        → All (LeavesWhole (attributes part) (attributes part)) (dependencies_of deps.now) }
    ensures position { IfSome result (λ k. k < length deps.now) }
    ensures cuts { IfSome result (λ k.
        (d : Dep) → IsCutting (attributes part) (dependency_of (slice_index_or deps.now k d))) }
{
    for (k, dep) in deps.iter().enumerate() {
        if is_cutting(*dep, part) {
            return Some(k);
        }
    }
    None
}

// A dependency that cuts a part: its number, from 0, and how many attributes it leaves.
#[derive(Clone, Copy)]
struct Cut {
    number: usize,
    left: u8,
}

// The first of the dependencies that cut a part which leaves the fewest attributes on the side of
// `attribute`, which counts too.
pub fn best_cut(deps: &[Dep], part: AttrSet, attribute: u8) -> Option<usize>
    requires attribute { attribute < MOST_ATTRIBUTES }
    ensures none { IsNone result
        → All (LeavesWhole (attributes part) (attributes part)) (dependencies_of deps.now) }
    ensures best { IfSome result (IsBestCut deps.now (attributes part) attribute) }
{
    let mut best = None;
    for (k, dep) in deps.iter().enumerate() {
        best = better_cut(best, k, *dep, part, attribute);
    }
    match best {
        Some(cut) => Some(cut.number),
        None => None,
    }
}

// The best cut so far, or that of one dependency more, if it leaves fewer.
fn better_cut(
    best: Option<Cut>,
    number: usize,
    dep: Dep,
    part: AttrSet,
    attribute: u8,
) -> Option<Cut>
    requires attribute { attribute < MOST_ATTRIBUTES }
    ensures none { IsNone result → IsNone best
        × LeavesWhole (attributes part) (attributes part) (dependency_of dep) }
    ensures better { IsBetterCut attribute (attributes part) (dependency_of dep) number best result }
{
    if !is_cutting(dep, part) {
        return best;
    }
    let left = cut_by(dep, part, attribute).len();
    match best {
        None => Some(Cut { number, left }),
        Some(cut) => {
            if left < cut.left {
                Some(Cut { number, left })
            } else {
                best
            }
        }
    }
}

// Whether a dependency cuts a part.
fn is_cutting(dep: Dep, part: AttrSet) -> bool
    ensures cuts { IsTrue result → IsCutting (attributes part) (dependency_of dep) }
    ensures leaves_whole { result ≡ false
        → LeavesWhole (attributes part) (attributes part) (dependency_of dep) }
{
    let (lhs, rhs) = sides(dep);
    if lhs.intersects(part) || !rhs.intersects(part) {
        return false;
    }
    match dep {
        Dep::Fd { .. } => true,
        Dep::Mvd { .. } => !part.is_subset(rhs),
    }
}
