//! Whether the sets of a dependency fit a goal after another dependency.

ghost use Rattle.std.specs.Prelude.{◌≡◌, ◌⊎◌, ℕ, false, IsTrue, All, Some, slice_get};
ghost use Rattle.attr_sets.specs.Attributes.{Attributes, union, difference, IsSubset};
ghost use Rattle.attr_sets.specs.Sets.{attributes};
ghost use Rattle.dep_model.specs.Dependencies.{Dependency, fd, mvd, left_of};
ghost use Rattle.dep_model.specs.Deps.{dependency_of, dependencies_of};
ghost use Rattle.dep_model.specs.Theories.{universe_of, theory_of};
ghost use Rattle.short_proofs.specs.Short.{Agrees, IsOneSided, FitBeyond, SetsFit};

use attr_sets::AttrSet;
use dep_model::{Dep, Theory, sides};

/// Whether a dependency that concludes `left ->> middle` may begin a derivation of the goal; not, only
/// where the sets of no second one fit.
pub fn may_begin(theory: &Theory, goal: Dep, left: AttrSet, middle: AttrSet) -> bool
    ensures none { (j : ℕ) (e : Dependency) → result ≡ false
        → IsSubset (attributes left) (left_of (dependency_of goal))
        → slice_get (theory_of theory.now) j ≡ Some e
        → SetsFit theory.now (dependency_of goal) (attributes middle) e → ⊥ }
{
    let (whole, _) = sides(goal);
    if !left.is_subset(whole) {
        return false;
    }
    if cuts_both(goal, middle) {
        return false;
    }
    let rest = beyond(theory, whole, middle);
    any_fits(theory.deps(), goal, middle, rest)
}

// Whether `middle` has some of what a multivalued goal wants and some of what it does not.
fn cuts_both(goal: Dep, middle: AttrSet) -> bool
    ensures none { (b : Attributes) (e : Dependency) → IsTrue result
        → FitBeyond b (dependency_of goal) (attributes middle) e → ⊥ }
{
    match goal {
        Dep::Mvd { lhs, rhs } => !is_one_sided(lhs, rhs, middle),
        Dep::Fd { .. } => false,
    }
}

/// What is in neither of two sets.
pub fn beyond(theory: &Theory, lhs: AttrSet, middle: AttrSet) -> AttrSet
    ensures members { attributes result
        ≡ difference (universe_of theory.now) (union (attributes middle) (attributes lhs)) }
{
    AttrSet::full(theory.width()).difference(middle.union(lhs))
}

// Whether the sets of some dependency fit.
fn any_fits(deps: &[Dep], goal: Dep, middle: AttrSet, rest: AttrSet) -> bool
    ensures none { result ≡ false → All (λ e. FitBeyond (attributes rest) (dependency_of goal)
        (attributes middle) e → ⊥) (dependencies_of deps.now) }
{
    for dep in deps {
        if fits(goal, middle, rest, *dep) {
            return true;
        }
    }
    false
}

/// Whether the sets of a dependency fit; not, only where no derivation of the two proves the goal.
pub fn fits(goal: Dep, middle: AttrSet, rest: AttrSet, dep: Dep) -> bool
    ensures none { result ≡ false → FitBeyond (attributes rest) (dependency_of goal)
        (attributes middle) (dependency_of dep) → ⊥ }
{
    match (goal, dep) {
        (Dep::Mvd { lhs, rhs }, _) => reaches(lhs, rhs, middle, rest, dep),
        (
            Dep::Fd { lhs, rhs },
            Dep::Fd {
                lhs: left,
                rhs: right,
            },
        ) => coalesces(lhs, rhs, middle, rest, left, right),
        (Dep::Fd { .. }, Dep::Mvd { .. }) => false,
    }
}

// The same for a multivalued goal.
fn reaches(lhs: AttrSet, rhs: AttrSet, middle: AttrSet, rest: AttrSet, dep: Dep) -> bool
    ensures none { result ≡ false → FitBeyond (attributes rest)
        (mvd (attributes lhs) (attributes rhs)) (attributes middle) (dependency_of dep) → ⊥ }
{
    let (left, right) = sides(dep);
    if !is_one_sided(lhs, rhs, middle) {
        return false;
    }
    if !agrees(rest, rhs, right) {
        return false;
    }
    left.is_subset(middle.union(lhs))
}

// Whether `rhs` has all of what `middle` has beyond `lhs`, or none of it.
fn is_one_sided(lhs: AttrSet, rhs: AttrSet, middle: AttrSet) -> bool
    ensures none { result ≡ false
        → IsOneSided (difference (attributes middle) (attributes lhs)) (attributes rhs) → ⊥ }
{
    let part = middle.difference(lhs);
    part.is_subset(rhs) || !part.intersects(rhs)
}

// Whether a right side has just what `rhs` has of the rest, or just what it has not.
fn agrees(rest: AttrSet, rhs: AttrSet, right: AttrSet) -> bool
    ensures none { result ≡ false
        → Agrees (attributes rest) (attributes rhs) (attributes right) → ⊥ }
{
    let part = right.intersection(rest);
    part == rest.intersection(rhs) || part == rest.difference(rhs)
}

// The same for a functional goal and a functional dependency.
fn coalesces(
    lhs: AttrSet,
    rhs: AttrSet,
    middle: AttrSet,
    rest: AttrSet,
    left: AttrSet,
    right: AttrSet,
) -> bool
    ensures none { result ≡ false → FitBeyond (attributes rest)
        (fd (attributes lhs) (attributes rhs)) (attributes middle)
        (fd (attributes left) (attributes right)) → ⊥ }
{
    let part = rhs.difference(lhs);
    !left.intersects(middle) && part.is_subset(middle) && part.is_subset(right)
}
