ghost use Rattle.std.specs.Prelude.{◌++◌, ◌<◌, List, All, IfOk};
ghost use Rattle.std.specs.List.{flat_map};
ghost use Rattle.attr_sets.specs.Attributes.{IsSubset};
ghost use Rattle.attr_sets.specs.Sets.{attributes};
ghost use Rattle.dep_model.specs.Dependencies.{fd};
ghost use Rattle.dep_model.specs.Theories.{width_of, theory_of, universe_of};
ghost use Rattle.cover_accounts.specs.Steps.{Placed, AreShortMembers, placed, placed_members, places_of, shortened_list};
ghost use Rattle.cover_accounts.specs.Gathering.{IsMemberWithin, IsPlacedWithin};

use crate::thinning::PlacedDep;
use attr_sets::AttrSet;
use dep_model::{Dep, OutOfMemory, Theory};
use min_cover::left_reduced;
use std::alloc::Global;

/// A member of the functional dependency at a position of a schema, from 0: its left side, what is left
/// of that, and the attribute on its right.
#[derive(Clone, Copy, Debug)]
pub struct ShortMember {
    pub position: u16,
    pub whole: AttrSet,
    pub left: AttrSet,
    pub right: AttrSet,
}

// The members of the functional dependencies, in order, each with its left side shortened.
pub fn short_members(
    alloc: Global,
    theory: &Theory,
    list: &[PlacedDep],
) -> Result<Vec<ShortMember>, OutOfMemory>
    requires within { All (IsPlacedWithin (universe_of theory.now)) list.now }
    ensures members { IfOk result (λ members. AreShortMembers (width_of theory.now)
        (theory_of theory.now)
        (flat_map (placed_members (width_of theory.now)) (places_of list.now))
        (shortened_list members.items)) }
    ensures within { IfOk result (λ members. All (IsMemberWithin (universe_of theory.now)) members.items) }
{
    let mut members = Vec::new(alloc);
    for one in list {
        if let Dep::Fd { lhs, rhs } = one.dep {
            add_members(theory, one.position, lhs, rhs, &mut members)?;
        }
    }
    Ok(members)
}

// Adds the members of a functional dependency.
fn add_members(
    theory: &Theory,
    position: u16,
    lhs: AttrSet,
    rhs: AttrSet,
    members: &mut Vec<ShortMember>,
) -> Result<(), OutOfMemory>
    requires lhs { IsSubset (attributes lhs) (universe_of theory.now) }
    requires rhs { IsSubset (attributes rhs) (universe_of theory.now) }
    ensures members { (firsts : List Placed)
        → AreShortMembers (width_of theory.now) (theory_of theory.now) firsts
        (shortened_list members.old.items)
        → IfOk result (λ _. AreShortMembers (width_of theory.now) (theory_of theory.now)
        (firsts ++ placed_members (width_of theory.now)
        (placed position (fd (attributes lhs) (attributes rhs))))
        (shortened_list members.new.items)) }
    ensures within { All (IsMemberWithin (universe_of theory.now)) members.old.items
        → IfOk result (λ _. All (IsMemberWithin (universe_of theory.now)) members.new.items) }
{
    let beyond = rhs.difference(lhs);
    for a in 0..theory.width() {
        if beyond.contains(a) {
            let right = AttrSet::single(a);
            members.push(ShortMember {
                position,
                whole: lhs,
                left: left_reduced(theory.deps(), lhs, right),
                right,
            })?;
        }
    }
    Ok(())
}
