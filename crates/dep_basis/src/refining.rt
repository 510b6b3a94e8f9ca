ghost use Rattle.std.specs.Prelude.{◌≡◌, ℕ, ◌<◌, ◌≤◌, ◌↔◌, true, List, All};
ghost use Rattle.attr_sets.specs.Attributes.{Attributes, below, only, IsSubset, IsEmpty, Disjoint};
ghost use Rattle.attr_sets.specs.Sets.{attributes};
ghost use Rattle.attr_sets.specs.declared.set.TheConstants.{MOST_ATTRIBUTES};
ghost use Rattle.dep_model.specs.Dependencies.{Dependency, fd, left_of, right_of};
ghost use Rattle.dep_model.specs.Deps.{dependency_of, dependencies_of, IsDepWithin};
ghost use Rattle.dep_model.specs.Implication.{Implies};
ghost use Rattle.dep_model.specs.Keys.{IsBlock};
ghost use Rattle.dep_basis.specs.Refining.{IsCandidate, LeavesWhole};
ghost use Rattle.dep_basis.specs.Cuts.{side_with};

use attr_sets::AttrSet;
use dep_model::{Dep, sides};

// The block of a left side with an attribute in it; the empty set where the attribute is in the closed
// set. From the attributes outside the left side what a dependency cuts off is left out, as long as
// one cuts.
pub fn block_of(deps: &[Dep], width: u8, lhs: AttrSet, attribute: u8) -> AttrSet
    requires width { width ≤ MOST_ATTRIBUTES }
    requires deps { All (IsDepWithin (below width)) deps.now }
    requires lhs { IsSubset (attributes lhs) (below width) }
    requires attribute { attribute < width }
    ensures closed { IsEmpty (attributes result)
        ↔ Implies width (dependencies_of deps.now) (fd (attributes lhs) (only attribute)) }
    ensures block { (IsEmpty (attributes result) → ⊥)
        → IsBlock width (dependencies_of deps.now) (attributes lhs) (attributes result) }
    ensures member { (IsEmpty (attributes result) → ⊥) → attributes result attribute ≡ true }
{
    if lhs.contains(attribute) {
        return AttrSet::empty();
    }
    let mut part = AttrSet::full(width).difference(lhs);
    loop {
        let rest = cut_by_all(deps, part, attribute);
        if rest == part {
            return part;
        }
        part = rest;
    }
}

// What is left of a part once each dependency has cut it.
fn cut_by_all(deps: &[Dep], part: AttrSet, attribute: u8) -> AttrSet
    requires attribute { attribute < MOST_ATTRIBUTES }
    ensures smaller { IsSubset (attributes result) (attributes part) }
    ensures candidate { (n : ℕ) (x : Attributes) → All (IsDepWithin (below n)) deps.now
        → IsSubset x (below n)
        → IsCandidate n (dependencies_of deps.now) x attribute (attributes part)
        → IsCandidate n (dependencies_of deps.now) x attribute (attributes result) }
    ensures leaves_whole { IsSubset (attributes part) (attributes result)
        → All (LeavesWhole (attributes part) (attributes part)) (dependencies_of deps.now) }
{
    let mut rest = part;
    for dep in deps {
        rest = cut_by(*dep, rest, attribute);
    }
    rest
}

// What a dependency whose left side is apart from a part leaves of it: of what it shares with the
// right side and what it does not, that with the attribute; nothing where it determines the attribute.
pub fn cut_by(dep: Dep, part: AttrSet, attribute: u8) -> AttrSet
    requires attribute { attribute < MOST_ATTRIBUTES }
    ensures smaller { IsSubset (attributes result) (attributes part) }
    ensures candidate { (n : ℕ) (ds : List Dependency) (x : Attributes)
        → IsDepWithin (below n) dep → IsSubset x (below n) → Implies n ds (dependency_of dep)
        → IsCandidate n ds x attribute (attributes part)
        → IsCandidate n ds x attribute (attributes result) }
    ensures leaves_whole { LeavesWhole (attributes part) (attributes result) (dependency_of dep) }
    ensures left { Disjoint (left_of (dependency_of dep)) (attributes part)
        → attributes result ≡ side_with attribute (attributes part) (dependency_of dep) }
{
    let (lhs, rhs) = sides(dep);
    if lhs.intersects(part) {
        return part;
    }
    if !rhs.contains(attribute) {
        return part.difference(rhs);
    }
    match dep {
        Dep::Fd { .. } => AttrSet::empty(),
        Dep::Mvd { .. } => part.intersection(rhs),
    }
}
