ghost use Rattle.std.specs.Prelude.{◌≡◌, ◌||◌, ◌&&◌, IfOk, All};
ghost use Rattle.std.specs.List.{list_any};
ghost use Rattle.attr_sets.specs.Attributes.{Attributes};
ghost use Rattle.attr_sets.specs.Sets.{attributes};
ghost use Rattle.dep_model.specs.Dependencies.{right_of};
ghost use Rattle.dep_model.specs.Deps.{dependency_of, dependencies_of, IsDepWithin};
ghost use Rattle.canonical_cover.specs.Merging.{have_same_left, merge_left_sides, with_right_sides};

use attr_sets::AttrSet;
use dep_model::{Dep, OutOfMemory, sides};
use std::alloc::Global;

/// A list in which the functional dependencies of one left side stand as one, at the place of the first,
/// with all their right sides.
pub fn merge_left_sides(alloc: Global, deps: &[Dep]) -> Result<Vec<Dep>, OutOfMemory>
    ensures merged { IfOk result (λ once.
        dependencies_of once.items ≡ merge_left_sides (dependencies_of deps.now)) }
    ensures within { (universe : Attributes) → All (IsDepWithin universe) deps.now
        → IfOk result (λ once. All (IsDepWithin universe) once.items) }
{
    let mut once = Vec::new(alloc);
    for k in 0..deps.len() {
        if !is_merged(&once, deps[k]) {
            once.push(with_right_sides(&deps[k..], deps[k]))?;
        }
    }
    Ok(once)
}

// Whether a dependency is a functional one whose left side a functional one of a list has.
fn is_merged(deps: &[Dep], dep: Dep) -> bool
    ensures merged { result
        ≡ list_any (λ other. have_same_left (dependency_of other) (dependency_of dep)) deps.now }
{
    deps.iter().any(|other| have_same_left(*other, dep))
}

/// Whether both are functional dependencies, with the same left side.
pub fn have_same_left(one: Dep, other: Dep) -> bool
    ensures same { result ≡ have_same_left (dependency_of one) (dependency_of other) }
{
    match (one, other) {
        (Dep::Fd { lhs, .. }, Dep::Fd { lhs: left, .. }) => lhs == left,
        _ => false,
    }
}

// A functional dependency with the right sides of all those of a list that have its left side.
fn with_right_sides(deps: &[Dep], dep: Dep) -> Dep
    ensures dependency { dependency_of result
        ≡ with_right_sides (dependencies_of deps.now) (dependency_of dep) }
{
    match dep {
        Dep::Fd { lhs, .. } => Dep::Fd {
            lhs,
            rhs: right_sides(deps, dep),
        },
        Dep::Mvd { .. } => dep,
    }
}

// What the functional dependencies that have the left side of one have on the right.
fn right_sides(deps: &[Dep], dep: Dep) -> AttrSet
    ensures right { attributes result ≡ (λ k. list_any
        (λ e. have_same_left (dependency_of dep) e && right_of e k) (dependencies_of deps.now)) }
{
    let mut right = AttrSet::empty();
    for other in deps {
        right = with_right_side(right, dep, *other);
    }
    right
}

// A set with the right side of a dependency, where this is a functional one with the left side of another.
fn with_right_side(right: AttrSet, dep: Dep, other: Dep) -> AttrSet
    ensures right { attributes result ≡ (λ k. attributes right k
        || (have_same_left (dependency_of dep) (dependency_of other) && right_of (dependency_of other) k)) }
{
    if have_same_left(dep, other) {
        let (_, rhs) = sides(other);
        right.union(rhs)
    } else {
        right
    }
}
