ghost use Rattle.std.specs.Prelude.{IfOk, All};
ghost use Rattle.attr_sets.specs.Attributes.{IsSubset};
ghost use Rattle.attr_sets.specs.Sets.{attributes};
ghost use Rattle.dep_model.specs.Theories.{width_of, universe_of, theory_of};
ghost use Rattle.fd_closure.specs.Closures.{IsClosureOf, IsKnownClosure};
ghost use Rattle.armstrong_rel.specs.Refusals.{IsFunctional};

use attr_sets::AttrSet;
use dep_model::{OutOfMemory, Theory};
use fd_closure::{KnownClosure, functional_closure, known_closure};
use std::alloc::Global;

// The closure of each subset of a set, in their order, so that each is found once.
pub fn closures(
    alloc: Global,
    theory: &Theory,
    whole: AttrSet,
) -> Result<Vec<KnownClosure>, OutOfMemory>
    requires functional { IsFunctional theory.now }
    requires whole { IsSubset (attributes whole) (universe_of theory.now) }
    ensures known { IfOk result (λ table.
        All (IsKnownClosure (width_of theory.now) (theory_of theory.now)) table.items) }
{
    let mut table = Vec::new(alloc);
    let mut next = Some(AttrSet::empty());
    while let Some(set) = next {
        table.push(KnownClosure {
            of: set,
            closed: functional_closure(theory.deps(), set),
        })?;
        next = set.next_subset(whole);
    }
    Ok(table)
}

// The closure of a set, by a table where the set stands there at a position. The position is a guess.
pub fn closed_at(theory: &Theory, table: &[KnownClosure], set: AttrSet, position: usize) -> AttrSet
    requires functional { IsFunctional theory.now }
    requires set { IsSubset (attributes set) (universe_of theory.now) }
    requires table { All (IsKnownClosure (width_of theory.now) (theory_of theory.now)) table.now }
    ensures closure { IsClosureOf (width_of theory.now) (theory_of theory.now) (attributes set)
        (attributes result) }
{
    match known_closure(table, set, position) {
        Some(closed) => closed,
        None => functional_closure(theory.deps(), set),
    }
}
