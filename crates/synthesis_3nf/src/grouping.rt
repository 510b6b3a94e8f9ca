ghost use Rattle.std.specs.Prelude.{◌≡◌, ◌||◌, ◌&&◌, [], map, IfOk};
ghost use Rattle.std.specs.List.{list_any};
ghost use Rattle.attr_sets.specs.Sets.{attributes, is_same};
ghost use Rattle.dep_model.specs.Dependencies.{left_of, right_of};
ghost use Rattle.dep_model.specs.Deps.{dependency_of, dependencies_of};
ghost use Rattle.dep_model.specs.Plans.{schemes_of};
ghost use Rattle.synthesis_3nf.specs.Groups.{left_sides_after, group_scheme};

use attr_sets::AttrSet;
use dep_model::{Dep, OutOfMemory, sides};
use std::alloc::Global;

// The schemes of these left sides.
pub fn each_scheme(
    alloc: Global,
    deps: &[Dep],
    lefts: &[AttrSet],
) -> Result<Vec<AttrSet>, OutOfMemory>
    ensures schemes { IfOk result (λ schemes.
        schemes_of schemes.items ≡ map (group_scheme (dependencies_of deps.now)) (schemes_of lefts.now)) }
{
    let mut schemes = Vec::new(alloc);
    for left in lefts {
        schemes.push(group_scheme(deps, *left))?;
    }
    Ok(schemes)
}

// The left sides of a list, each once, in the order of their first occurrence.
pub fn left_sides(alloc: Global, deps: &[Dep]) -> Result<Vec<AttrSet>, OutOfMemory>
    ensures lefts { IfOk result (λ lefts.
        schemes_of lefts.items ≡ left_sides_after [] (dependencies_of deps.now)) }
{
    let mut lefts = Vec::new(alloc);
    for dep in deps {
        let (left, _) = sides(*dep);
        if !is_among(&lefts, left) {
            lefts.push(left)?;
        }
    }
    Ok(lefts)
}

// Whether a set is among these.
fn is_among(sets: &[AttrSet], set: AttrSet) -> bool
    ensures among { result ≡ list_any (λ other. is_same (attributes other) (attributes set)) sets.now }
{
    sets.iter().any(|other| *other == set)
}

/// A left side with all that the dependencies of the list with this left side determine.
pub fn group_scheme(deps: &[Dep], left: AttrSet) -> AttrSet
    ensures scheme { attributes result ≡ group_scheme (dependencies_of deps.now) (attributes left) }
{
    let mut scheme = left;
    for dep in deps {
        scheme = with_member(scheme, *dep, left);
    }
    scheme
}

// A scheme with the right side of a dependency, if this has the left side.
fn with_member(scheme: AttrSet, dep: Dep, left: AttrSet) -> AttrSet
    ensures scheme { attributes result ≡ (λ k. attributes scheme k
        || (is_same (attributes left) (left_of (dependency_of dep)) && right_of (dependency_of dep) k)) }
{
    let (lhs, rhs) = sides(dep);
    if left == lhs {
        scheme.union(rhs)
    } else {
        scheme
    }
}
