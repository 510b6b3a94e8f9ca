ghost use Rattle.std.specs.Prelude.{◌≡◌, ◌++◌, map, IfOk, OnOk};
ghost use Rattle.std.specs.List.{flat_map};
ghost use Rattle.attr_sets.specs.Sets.{attributes};
ghost use Rattle.dep_model.specs.Deps.{dependencies_of};
ghost use Rattle.dep_model.specs.Plans.{schemes_of};
ghost use Rattle.fewest_tables.specs.FewestSteps.{group_with, shared_exchange, shared_exchanges, union_of};

use crate::grouping::group_with;
use attr_sets::AttrSet;
use dep_model::{Dep, OutOfMemory};
use fd_closure::KnownClosure;
use std::alloc::Global;

// What is alike, said by as many dependencies as there are left sides: each determines all of its
// group. That each determines each other one says the same, by as many as there are pairs.
pub fn shared_exchanges(
    alloc: Global,
    lefts: &[KnownClosure],
    firsts: &[KnownClosure],
) -> Result<Vec<Dep>, OutOfMemory>
    ensures rules { IfOk result (λ rules. dependencies_of rules.items
        ≡ flat_map shared_exchanges (map (group_with lefts.now) firsts.now)) }
{
    let mut rules = Vec::new(alloc);
    for first in firsts {
        add_group(alloc, lefts, *first, &mut rules)?;
    }
    Ok(rules)
}

// Adds what is alike in the group of a left side.
fn add_group(
    alloc: Global,
    lefts: &[KnownClosure],
    first: KnownClosure,
    rules: &mut Vec<Dep>,
) -> Result<(), OutOfMemory>
    ensures added { OnOk result (dependencies_of rules.new.items
        ≡ dependencies_of rules.old.items ++ shared_exchanges (group_with lefts.now first)) }
{
    let group = group_with(alloc, lefts, first)?;
    add_exchanges(rules, &group)
}

// Adds what is alike in a group.
fn add_exchanges(rules: &mut Vec<Dep>, group: &[AttrSet]) -> Result<(), OutOfMemory>
    ensures added { OnOk result (dependencies_of rules.new.items
        ≡ dependencies_of rules.old.items ++ shared_exchanges (schemes_of group.now)) }
{
    let together = union_of(group);
    for left in group {
        add_exchange(rules, *left, together)?;
    }
    Ok(())
}

// Adds that a left side determines its group.
fn add_exchange(rules: &mut Vec<Dep>, left: AttrSet, together: AttrSet) -> Result<(), OutOfMemory>
    ensures added { OnOk result (dependencies_of rules.new.items
        ≡ dependencies_of rules.old.items ++ shared_exchange (attributes together) (attributes left)) }
{
    if left == together {
        return Ok(());
    }
    rules.push(Dep::Fd {
        lhs: left,
        rhs: together,
    })?;
    Ok(())
}

// All attributes of some sets.
fn union_of(sets: &[AttrSet]) -> AttrSet
    ensures members { attributes result ≡ union_of (schemes_of sets.now) }
{
    let mut all = AttrSet::empty();
    for set in sets {
        all = all.union(*set);
    }
    all
}
