ghost use Rattle.std.specs.Prelude.{◌≡◌, ◌≤◌, ℕ, List, ◌++◌, length, take, drop, filter, IfOk, All};
ghost use Rattle.attr_sets.specs.Attributes.{below};
ghost use Rattle.attr_sets.specs.declared.set.TheConstants.{MOST_ATTRIBUTES};
ghost use Rattle.dep_model.specs.Theories.{theory_of, universe_of};
ghost use Rattle.cover_accounts.specs.Steps.{Placed, IsThinnedInto, placed_from, places_of, is_multivalued};
ghost use Rattle.cover_accounts.specs.Gathering.{IsPlacedWithin, deps_of_places};

use dep_basis::is_implied_by;
use dep_model::{Dep, OutOfMemory, Theory};
use min_cover::trivial_dependency;
use std::alloc::Global;

/// A dependency that comes of the one at a position of a schema, from 0.
#[derive(Clone, Copy, Debug)]
pub struct PlacedDep {
    pub position: u16,
    pub dep: Dep,
}

// The dependencies of a schema with their positions.
pub fn placed_deps(alloc: Global, theory: &Theory) -> Result<Vec<PlacedDep>, OutOfMemory>
    ensures placed { IfOk result (λ list. places_of list.items ≡ placed_from 0 (theory_of theory.now)) }
    ensures within { IfOk result (λ list. All (IsPlacedWithin (universe_of theory.now)) list.items) }
{
    let mut list = Vec::new(alloc);
    for (k, dep) in theory.deps().iter().enumerate() {
        list.push(PlacedDep {
            position: k as u16,
            dep: *dep,
        })?;
    }
    Ok(list)
}

// Adds the multivalued dependencies of a list to others.
pub fn add_multivalued(list: &[PlacedDep], others: &mut Vec<PlacedDep>) -> Result<(), OutOfMemory>
    ensures added { IfOk result (λ _. places_of others.new.items
        ≡ places_of others.old.items ++ filter is_multivalued (places_of list.now)) }
    ensures front { IfOk result (λ _. take (length others.old.items) others.new.items ≡ others.old.items) }
    ensures within { (n : ℕ) → All (IsPlacedWithin (below n)) others.old.items
        → All (IsPlacedWithin (below n)) list.now
        → IfOk result (λ _. All (IsPlacedWithin (below n)) others.new.items) }
{
    for one in list {
        if let Dep::Mvd { .. } = one.dep {
            others.push(*one)?;
        }
    }
    Ok(())
}

// What is left of a list where, from a position on, each dependency goes that the others imply; those that
// go are added to others.
pub fn part_from(
    alloc: Global,
    width: u8,
    list: &[PlacedDep],
    from: usize,
    gone: &mut Vec<PlacedDep>,
) -> Result<Vec<PlacedDep>, OutOfMemory>
    requires width { width ≤ MOST_ATTRIBUTES }
    requires from { from ≤ length list.now }
    requires within { All (IsPlacedWithin (below width)) list.now }
    ensures parted { IfOk result (λ kept. (out : List Placed)
        × (places_of gone.new.items ≡ places_of gone.old.items ++ out)
        × IsThinnedInto width (places_of (take from list.now)) (places_of (drop from list.now))
        (places_of kept.items) out) }
    ensures within { IfOk result (λ kept. All (IsPlacedWithin (below width)) kept.items) }
{
    let mut others = deps_alone(alloc, list)?;
    let mut kept = Vec::from_slice(alloc, &list[..from])?;
    for k in from..list.len() {
        let one = list[k];
        others[k] = trivial_dependency();
        if is_implied_by(&others, width, one.dep) {
            gone.push(one)?;
        } else {
            others[k] = one.dep;
            kept.push(one)?;
        }
    }
    Ok(kept)
}

// The dependencies of a list, without their positions.
pub fn deps_alone(alloc: Global, list: &[PlacedDep]) -> Result<Vec<Dep>, OutOfMemory>
    ensures deps { IfOk result (λ deps. deps.items ≡ deps_of_places list.now) }
{
    let mut deps = Vec::new(alloc);
    for one in list {
        deps.push(one.dep)?;
    }
    Ok(deps)
}
