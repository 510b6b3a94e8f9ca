ghost use Rattle.std.specs.Prelude.{◌≡◌, ◌+◌, ◌++◌, ◌<◌, ◌≤◌, ℕ, true, List, IfOk, IfErr};
ghost use Rattle.attr_sets.specs.Attributes.{IsSubset, below, count_below, union};
ghost use Rattle.attr_sets.specs.Sets.{attributes};
ghost use Rattle.attr_sets.specs.declared.set.TheConstants.{MOST_ATTRIBUTES};
ghost use Rattle.dep_model.specs.Deps.{dependencies_of};
ghost use Rattle.dep_model.specs.declared.dep.Dep.{Dep};
ghost use Rattle.dep_model.specs.Failures.{RefusesAs};
ghost use Rattle.dep_model.specs.Tuples.{Relation};
ghost use Rattle.fd_discovery.specs.Searching.{AreUndetermined};
ghost use Rattle.near_rules.specs.NearRules.{MustBeTried};
ghost use Rattle.near_rules.specs.Searching.{AreNearFoundBefore, AreNearFoundUpTo, AreGrouped, AreSought};
ghost use Rattle.near_rules.specs.Searching.{IsTooManyTried};

use crate::found::{Found, MOST_TRIED, Sought, TooManyTried};
use crate::front::is_far;
use attr_sets::AttrSet;
use dep_model::{Dep, Failure};
use fd_discovery::attributes_not_given;
use row_groups::Groups;
use row_measures::error_within;
use std::alloc::Global;

// Tries the sets that have further members below `bound`, from the first such set to the last. The members of
// `set` stand from `bound` on. A set from which every attribute is given ends the search above it: then every
// attribute is given from each larger set too. So does one that has as many columns as are asked for.
pub fn search_above(
    alloc: Global,
    sought: &Sought,
    groups: &Groups,
    set: AttrSet,
    bound: u8,
    found: &mut Found,
) -> Result<(), Failure<TooManyTried>>
    requires bound { bound ≤ sought.now.width }
    requires set { IsSubset (attributes set) (below sought.now.width) }
    requires above { (k : ℕ) → attributes set k ≡ true → bound ≤ k }
    requires rows { (r : Relation) × AreSought r sought.now × AreGrouped r (attributes set) groups.now
        × AreNearFoundUpTo sought.now r (attributes set) found.old }
    ensures found { (r : Relation) → AreSought r sought.now → AreGrouped r (attributes set) groups.now
        → AreNearFoundUpTo sought.now r (attributes set) found.old
        → IfOk result (λ _. AreNearFoundUpTo sought.now r (union (attributes set) (below bound)) found.new) }
    ensures refusal { (r : Relation) → AreSought r sought.now → AreGrouped r (attributes set) groups.now
        → AreNearFoundUpTo sought.now r (attributes set) found.old
        → IfErr result (RefusesAs (IsTooManyTried sought.now r)) }
{
    if set.len() >= sought.most {
        return Ok(());
    }
    for attribute in 0..bound {
        let larger = set.with(attribute);
        let wanted = attributes_not_given(&found.deps, larger, sought.rights);
        if !wanted.is_empty() {
            let finer = groups.refined(alloc, &sought.codes, AttrSet::single(attribute))?;
            try_set(alloc, sought, &finer, larger, wanted, found)?;
            search_above(alloc, sought, &finer, larger, attribute, found)?;
        }
    }
    Ok(())
}

// Tries a set for each right side that is wanted: those that are not given from it.
pub fn try_set(
    alloc: Global,
    sought: &Sought,
    groups: &Groups,
    set: AttrSet,
    wanted: AttrSet,
    found: &mut Found,
) -> Result<(), Failure<TooManyTried>>
    requires set { IsSubset (attributes set) (below sought.now.width) }
    requires few { count_below (attributes set) sought.now.width ≤ sought.now.most }
    requires rows { (r : Relation) × AreSought r sought.now × AreGrouped r (attributes set) groups.now
        × AreNearFoundBefore sought.now r (attributes set) 0 found.old }
    requires wanted { AreUndetermined sought.now.rights (dependencies_of found.old.deps.items) (attributes set)
        (attributes wanted) }
    ensures found { (r : Relation) → AreSought r sought.now → AreGrouped r (attributes set) groups.now
        → AreNearFoundBefore sought.now r (attributes set) 0 found.old
        → IfOk result (λ _. AreNearFoundUpTo sought.now r (attributes set) found.new) }
    ensures refusal { (r : Relation) → AreSought r sought.now → AreGrouped r (attributes set) groups.now
        → AreNearFoundBefore sought.now r (attributes set) 0 found.old
        → IfErr result (RefusesAs (IsTooManyTried sought.now r)) }
{
    for attribute in 0..sought.rights {
        if wanted.contains(attribute) {
            try_right(alloc, sought, groups, set, attribute, found)?;
        }
    }
    Ok(())
}

// Tries a set for one right side.
fn try_right(
    alloc: Global,
    sought: &Sought,
    groups: &Groups,
    set: AttrSet,
    attribute: u8,
    found: &mut Found,
) -> Result<(), Failure<TooManyTried>>
    requires attribute { attribute < sought.now.rights }
    requires set { IsSubset (attributes set) (below sought.now.width) }
    requires rows { (r : Relation) × AreSought r sought.now × AreGrouped r (attributes set) groups.now
        × AreNearFoundBefore sought.now r (attributes set) attribute found.old }
    ensures found { (r : Relation) → AreSought r sought.now → AreGrouped r (attributes set) groups.now
        → AreNearFoundBefore sought.now r (attributes set) attribute found.old
        → MustBeTried sought.now.width sought.now.most sought.now.limit r (attributes set) attribute
        → IfOk result (λ _. AreNearFoundBefore sought.now r (attributes set) (attribute + 1) found.new) }
    ensures kept { IfOk result (λ _. (more : List Dep) × (found.new.deps.items ≡ found.old.deps.items ++ more)) }
    ensures refusal { (r : Relation) → AreSought r sought.now → AreGrouped r (attributes set) groups.now
        → AreNearFoundBefore sought.now r (attributes set) attribute found.old
        → MustBeTried sought.now.width sought.now.most sought.now.limit r (attributes set) attribute
        → IfErr result (RefusesAs (IsTooManyTried sought.now r)) }
{
    let before = found.tried[attribute as usize];
    if before as usize >= MOST_TRIED {
        return Err(Failure::Refused(TooManyTried { right: attribute }));
    }
    found.tried[attribute as usize] = before + 1;
    let far = is_far(alloc, sought, set, attribute)?;
    if far {
        return Ok(());
    }
    let error = error_within(alloc, &sought.codes, groups, attribute)?;
    if error <= sought.limit as u64 {
        found.deps.push(Dep::Fd {
            lhs: set,
            rhs: AttrSet::single(attribute),
        })?;
        found.errors.push(error as u32)?;
    }
    Ok(())
}
