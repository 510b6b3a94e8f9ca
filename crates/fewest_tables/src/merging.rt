ghost use Rattle.std.specs.Prelude.{◌≡◌, map, IfOk};
ghost use Rattle.std.specs.List.{list_any};
ghost use Rattle.attr_sets.specs.Sets.{attributes};
ghost use Rattle.dep_model.specs.Deps.{dependency_of, dependencies_of};
ghost use Rattle.dep_model.specs.Plans.{schemes_of};
ghost use Rattle.fewest_tables.specs.FewestSteps.{group_with};
ghost use Rattle.fewest_tables.specs.MergedPlans.{is_among, merged_scheme, has_same_sides};

use crate::grouping::group_with;
use attr_sets::AttrSet;
use dep_model::{Dep, OutOfMemory, sides};
use fd_closure::KnownClosure;
use std::alloc::Global;
use synthesis_3nf::group_scheme;

// The schemes of groups of left sides, by the dependencies of a list.
pub fn merged_schemes(
    alloc: Global,
    deps: &[Dep],
    lefts: &[KnownClosure],
    firsts: &[KnownClosure],
) -> Result<Vec<AttrSet>, OutOfMemory>
    ensures schemes { IfOk result (λ schemes. schemes_of schemes.items
        ≡ map (merged_scheme (dependencies_of deps.now)) (map (group_with lefts.now) firsts.now)) }
{
    let mut schemes = Vec::new(alloc);
    for first in firsts {
        let scheme = scheme_with(alloc, deps, lefts, *first)?;
        schemes.push(scheme)?;
    }
    Ok(schemes)
}

// The scheme of the group of a left side.
fn scheme_with(
    alloc: Global,
    deps: &[Dep],
    lefts: &[KnownClosure],
    first: KnownClosure,
) -> Result<AttrSet, OutOfMemory>
    ensures scheme { IfOk result (λ scheme. attributes scheme
        ≡ merged_scheme (dependencies_of deps.now) (group_with lefts.now first)) }
{
    let group = group_with(alloc, lefts, first)?;
    Ok(merged_scheme(deps, &group))
}

/// The scheme of a group of left sides: these, with all that the dependencies of the list with one
/// of them determine.
pub fn merged_scheme(deps: &[Dep], group: &[AttrSet]) -> AttrSet
    ensures scheme { attributes result ≡ merged_scheme (dependencies_of deps.now) (schemes_of group.now) }
{
    let mut scheme = AttrSet::empty();
    for left in group {
        scheme = scheme.union(group_scheme(deps, *left));
    }
    scheme
}

/// Whether a dependency is one of a list.
pub fn is_among(deps: &[Dep], dep: Dep) -> bool
    ensures among { result ≡ is_among (dependencies_of deps.now) (dependency_of dep) }
{
    is_one_of(deps, dep)
}

fn is_one_of(deps: &[Dep], dep: Dep) -> bool
    ensures same { result
        ≡ list_any (λ other. has_same_sides (dependency_of other) (dependency_of dep)) deps.now }
{
    deps.iter().any(|other| has_same_sides(*other, dep))
}

// Whether two dependencies have the same left side and the same right side.
fn has_same_sides(dep: Dep, other: Dep) -> bool
    ensures same { result ≡ has_same_sides (dependency_of dep) (dependency_of other) }
{
    let (lhs, rhs) = sides(dep);
    let (left, right) = sides(other);
    lhs == left && rhs == right
}
