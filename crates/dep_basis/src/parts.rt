ghost use Rattle.std.specs.Prelude.{◌≡◌, ℕ, ◌≤◌, ◌↔◌, IsTrue, IsNone, IfSome, List, All};
ghost use Rattle.attr_sets.specs.Attributes.{Attributes, below, IsSubset};
ghost use Rattle.attr_sets.specs.Sets.{attributes};
ghost use Rattle.attr_sets.specs.declared.set.TheConstants.{MOST_ATTRIBUTES};
ghost use Rattle.dep_model.specs.declared.dep.Dep.{Dep};
ghost use Rattle.dep_model.specs.Deps.{dependency_of, dependencies_of, IsDepWithin};
ghost use Rattle.dep_model.specs.Implication.{Implies};
ghost use Rattle.dep_model.specs.Theories.{width_of, universe_of, theory_of};
ghost use Rattle.dep_basis.specs.Refining.{LeavesWhole};
ghost use Rattle.dep_basis.specs.Pieces.{CanRefine};
ghost use Rattle.dep_basis.specs.Parts.{HasTwoParts, IsParted};

use attr_sets::AttrSet;
use dep_model::{Dep, Theory, sides};

/// Whether a left side has at least two parts on a scheme: whether it multidetermines there some of what
/// lies beyond it, and not all. It stops as soon as this is known.
pub fn has_two_parts(theory: &Theory, scheme: AttrSet, lhs: AttrSet) -> bool
    requires scheme { IsSubset (attributes scheme) (universe_of theory.now) }
    requires lhs { IsSubset (attributes lhs) (attributes scheme) }
    ensures parts { IsTrue result
        ↔ HasTwoParts (width_of theory.now) (theory_of theory.now) (attributes scheme)
        (attributes lhs) }
{
    has_two_parts_by(theory.deps(), theory.width(), scheme, lhs)
}

/// Whether a left side has at least two parts on a scheme by a list of dependencies over this many
/// attributes.
pub fn has_two_parts_by(deps: &[Dep], width: u8, scheme: AttrSet, lhs: AttrSet) -> bool
    requires width { width ≤ MOST_ATTRIBUTES }
    requires deps { All (IsDepWithin (below width)) deps.now }
    requires scheme { IsSubset (attributes scheme) (below width) }
    requires lhs { IsSubset (attributes lhs) (attributes scheme) }
    ensures parts { IsTrue result
        ↔ HasTwoParts width (dependencies_of deps.now) (attributes scheme) (attributes lhs) }
{
    let beyond = scheme.difference(lhs);
    let Some(first) = beyond.first() else {
        return false;
    };
    if beyond.without(first).is_empty() {
        return false;
    }
    let mut piece = AttrSet::full(width).difference(lhs);
    loop {
        let Some(rest) = narrow_by_all(deps, piece, beyond) else {
            return true;
        };
        if rest == piece {
            return false;
        }
        piece = rest;
    }
}

// What of a piece with a set in it is left with the set once each dependency has cut it; none where one
// of them determines some of the set, or parts it.
fn narrow_by_all(deps: &[Dep], piece: AttrSet, beyond: AttrSet) -> Option<AttrSet>
    requires beyond { IsSubset (attributes beyond) (attributes piece) }
    ensures smaller { IfSome result (λ rest. IsSubset (attributes rest) (attributes piece)) }
    ensures beyond { IfSome result (λ rest. IsSubset (attributes beyond) (attributes rest)) }
    ensures refined { IfSome result (λ rest. (n : ℕ) (x : Attributes)
        → CanRefine n deps.now x (attributes piece) → CanRefine n deps.now x (attributes rest)) }
    ensures leaves_whole { IfSome result (λ rest. IsSubset (attributes piece) (attributes rest)
        → All (LeavesWhole (attributes piece) (attributes piece)) (dependencies_of deps.now)) }
    ensures none { IsNone result → (n : ℕ) (x : Attributes) → CanRefine n deps.now x (attributes piece)
        → IsParted n (dependencies_of deps.now) x (attributes beyond) }
{
    let mut rest = piece;
    for dep in deps {
        match narrow_by(*dep, rest, beyond) {
            Some(less) => rest = less,
            None => return None,
        }
    }
    Some(rest)
}

// What one dependency leaves with the set.
fn narrow_by(dep: Dep, piece: AttrSet, beyond: AttrSet) -> Option<AttrSet>
    requires beyond { IsSubset (attributes beyond) (attributes piece) }
    ensures smaller { IfSome result (λ rest. IsSubset (attributes rest) (attributes piece)) }
    ensures beyond { IfSome result (λ rest. IsSubset (attributes beyond) (attributes rest)) }
    ensures refined { IfSome result (λ rest. (n : ℕ) (ds : List Dep) (x : Attributes)
        → IsDepWithin (below n) dep
        → Implies n (dependencies_of ds) (dependency_of dep)
        → CanRefine n ds x (attributes piece) → CanRefine n ds x (attributes rest)) }
    ensures leaves_whole { IfSome result (λ rest. LeavesWhole (attributes piece) (attributes rest)
        (dependency_of dep)) }
    ensures none { IsNone result → (n : ℕ) (ds : List Dep) (x : Attributes) → IsDepWithin (below n) dep
        → Implies n (dependencies_of ds) (dependency_of dep)
        → CanRefine n ds x (attributes piece) → IsParted n (dependencies_of ds) x (attributes beyond) }
{
    let (lhs, rhs) = sides(dep);
    if lhs.intersects(piece) {
        return Some(piece);
    }
    if !rhs.intersects(beyond) {
        return Some(piece.difference(rhs));
    }
    match dep {
        Dep::Fd { .. } => None,
        Dep::Mvd { .. } => {
            if beyond.is_subset(rhs) {
                Some(piece.intersection(rhs))
            } else {
                None
            }
        }
    }
}
