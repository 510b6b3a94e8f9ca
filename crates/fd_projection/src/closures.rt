ghost use Rattle.std.specs.Prelude.{All};
ghost use Rattle.attr_sets.specs.Attributes.{IsSubset};
ghost use Rattle.attr_sets.specs.Sets.{attributes};
ghost use Rattle.dep_model.specs.Theories.{width_of, universe_of, theory_of};
ghost use Rattle.fd_closure.specs.Closures.{IsClosureOf, IsKnownClosure};
ghost use Rattle.fd_projection.specs.Closures.{IsClosureOfParts};

use attr_sets::AttrSet;
use dep_basis::closure;
use dep_model::Theory;
use fd_closure::{KnownClosure, known_closure};

// What a set determines, by a table where the set stands there at a position. The position is a guess.
fn closed_at(theory: &Theory, table: &[KnownClosure], set: AttrSet, position: usize) -> AttrSet
    requires table { All (IsKnownClosure (width_of theory.now) (theory_of theory.now)) table.now }
    requires set { IsSubset (attributes set) (universe_of theory.now) }
    ensures closure { IsClosureOf (width_of theory.now) (theory_of theory.now) (attributes set)
        (attributes result) }
{
    match known_closure(table, set, position) {
        Some(closed) => closed,
        None => closure(theory, set),
    }
}

// What the parts of a set determine that lack one of its attributes, and so all proper parts of it. The
// table has the subsets of a whole that come before the set, in their order.
pub fn closed_by_parts(
    theory: &Theory,
    table: &[KnownClosure],
    whole: AttrSet,
    set: AttrSet,
) -> AttrSet
    requires table { All (IsKnownClosure (width_of theory.now) (theory_of theory.now)) table.now }
    requires set { IsSubset (attributes set) (universe_of theory.now) }
    ensures parts { IsClosureOfParts (width_of theory.now) (theory_of theory.now) (attributes set)
        (attributes result) }
{
    let mut found = AttrSet::empty();
    let mut step: usize = 1;
    for attribute in 0..theory.width() {
        if set.contains(attribute) {
            let position = table.len().wrapping_sub(step);
            let part = set.without(attribute);
            found = found.union(closed_at(theory, table, part, position));
        }
        if whole.contains(attribute) {
            step = step.wrapping_mul(2);
        }
    }
    found
}

// What a set determines, begun with what its parts do.
pub fn closed_beyond(theory: &Theory, set: AttrSet, given: AttrSet) -> AttrSet
    requires set { IsSubset (attributes set) (universe_of theory.now) }
    requires given { IsClosureOfParts (width_of theory.now) (theory_of theory.now) (attributes set)
        (attributes given) }
    ensures closure { IsClosureOf (width_of theory.now) (theory_of theory.now) (attributes set)
        (attributes result) }
{
    closure(theory, set.union(given))
}
