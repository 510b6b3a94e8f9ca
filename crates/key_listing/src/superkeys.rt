ghost use Rattle.attr_sets.specs.Attributes.{IsSubset};
ghost use Rattle.attr_sets.specs.Sets.{attributes};
ghost use Rattle.dep_model.specs.Keys.{IsGreedyKey};
ghost use Rattle.dep_model.specs.Theories.{width_of, universe_of, theory_of};

use attr_sets::{AttrSet, Direction, narrowed};
use dep_basis::is_superkey;
use dep_model::Theory;

/// The key of a scheme by all dependencies that is left where each attribute, from the last to the
/// first, is left out if the rest still determines the scheme.
pub fn one_key(theory: &Theory, scheme: AttrSet) -> AttrSet
    requires scheme { IsSubset (attributes scheme) (universe_of theory.now) }
    ensures greedy { IsGreedyKey (width_of theory.now) (theory_of theory.now) (attributes scheme)
        (attributes result) }
{
    narrowed(
        scheme,
        scheme,
        Direction::Descending,
        |set| is_superkey(theory, scheme, set),
    )
}
