ghost use Rattle.std.specs.Prelude.{ℕ, All};
ghost use Rattle.attr_sets.specs.Attributes.{below, IsSubset};
ghost use Rattle.attr_sets.specs.Sets.{attributes};
ghost use Rattle.dep_model.specs.Dependencies.{functional_part};
ghost use Rattle.dep_model.specs.Deps.{dependencies_of, IsDepWithin};
ghost use Rattle.dep_model.specs.Keys.{IsGreedyKey};

use crate::follows;
use attr_sets::{AttrSet, Direction, narrowed};
use dep_model::Dep;

/// The key of a scheme, by the functional dependencies of a list, that is left where each attribute,
/// from the last to the first, is left out if the rest still determines the scheme.
pub fn functional_key(deps: &[Dep], scheme: AttrSet) -> AttrSet
    ensures greedy { (n : ℕ) → All (IsDepWithin (below n)) deps.now
        → IsSubset (attributes scheme) (below n)
        → IsGreedyKey n (functional_part (dependencies_of deps.now)) (attributes scheme)
        (attributes result) }
{
    narrowed(
        scheme,
        scheme,
        Direction::Descending,
        |set| follows(deps, set, scheme),
    )
}
