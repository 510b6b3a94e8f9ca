ghost use Rattle.std.specs.Prelude.{ℕ, List, ◌++◌, IfOk, All};
ghost use Rattle.std.specs.List.{flat_map};
ghost use Rattle.attr_sets.specs.Attributes.{below, IsSubset};
ghost use Rattle.attr_sets.specs.Sets.{attributes};
ghost use Rattle.dep_model.specs.Dependencies.{Dependency, fd};
ghost use Rattle.dep_model.specs.Deps.{dependencies_of, IsDepWithin};
ghost use Rattle.dep_model.specs.Theories.{width_of, universe_of, theory_of};
ghost use Rattle.min_cover.specs.Members.{members_of, IsLeftReduced, AreLeftReduced};

use attr_sets::{AttrSet, Direction, narrowed};
use dep_model::{Dep, OutOfMemory, Theory};
use fd_closure::follows;
use std::alloc::Global;

// The members of the functional dependencies, in order, each with its left side shortened.
pub fn left_reduced_members(alloc: Global, theory: &Theory) -> Result<Vec<Dep>, OutOfMemory>
    ensures left_reduced { IfOk result (λ members. AreLeftReduced (width_of theory.now)
        (theory_of theory.now)
        (flat_map (members_of (width_of theory.now)) (theory_of theory.now)) members.items) }
{
    let mut members = Vec::new(alloc);
    for dep in theory.deps() {
        if let Dep::Fd { lhs, rhs } = *dep {
            add_members(theory, lhs, rhs, &mut members)?;
        }
    }
    Ok(members)
}

// Adds the members of a functional dependency.
fn add_members(
    theory: &Theory,
    lhs: AttrSet,
    rhs: AttrSet,
    members: &mut Vec<Dep>,
) -> Result<(), OutOfMemory>
    requires lhs { IsSubset (attributes lhs) (universe_of theory.now) }
    requires rhs { IsSubset (attributes rhs) (universe_of theory.now) }
    ensures left_reduced { (firsts : List Dependency)
        → AreLeftReduced (width_of theory.now) (theory_of theory.now) firsts members.old.items
        → IfOk result (λ _. AreLeftReduced (width_of theory.now) (theory_of theory.now)
        (firsts ++ members_of (width_of theory.now) (fd (attributes lhs)
        (attributes rhs))) members.new.items) }
{
    let beyond = rhs.difference(lhs);
    for a in 0..theory.width() {
        if beyond.contains(a) {
            let right = AttrSet::single(a);
            members.push(Dep::Fd {
                lhs: left_reduced(theory.deps(), lhs, right),
                rhs: right,
            })?;
        }
    }
    Ok(())
}

/// What is left of a left side where each attribute, from the first to the last, is left out if the rest
/// still determines the right side.
pub fn left_reduced(deps: &[Dep], lhs: AttrSet, rhs: AttrSet) -> AttrSet
    ensures left_reduced { (n : ℕ) → All (IsDepWithin (below n)) deps.now
        → IsSubset (attributes lhs) (below n) → IsSubset (attributes rhs) (below n)
        → IsLeftReduced n (dependencies_of deps.now) (attributes lhs) (attributes rhs)
        (attributes result) }
{
    narrowed(
        lhs,
        lhs,
        Direction::Ascending,
        |left| follows(deps, left, rhs),
    )
}
