ghost use Rattle.std.specs.Prelude.{◌↔◌, IsTrue};
ghost use Rattle.attr_sets.specs.Attributes.{IsSubset};
ghost use Rattle.attr_sets.specs.Sets.{attributes};
ghost use Rattle.dep_model.specs.Dependencies.{functional_part};
ghost use Rattle.dep_model.specs.Keys.{IsSuperkey};
ghost use Rattle.dep_model.specs.Theories.{width_of, universe_of, theory_of};

use crate::follows;
use attr_sets::AttrSet;
use dep_model::Theory;

/// Whether a set determines all of a scheme, by the functional dependencies of a schema.
pub fn is_functional_superkey(theory: &Theory, scheme: AttrSet, set: AttrSet) -> bool
    requires scheme { IsSubset (attributes scheme) (universe_of theory.now) }
    requires set { IsSubset (attributes set) (attributes scheme) }
    ensures superkey { IsTrue result
        ↔ IsSuperkey (width_of theory.now) (functional_part (theory_of theory.now)) (attributes scheme)
        (attributes set) }
{
    follows(theory.deps(), set, scheme)
}
