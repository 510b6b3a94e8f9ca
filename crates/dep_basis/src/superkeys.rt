ghost use Rattle.std.specs.Prelude.{◌↔◌, IsTrue};
ghost use Rattle.attr_sets.specs.Attributes.{IsSubset};
ghost use Rattle.attr_sets.specs.Sets.{attributes};
ghost use Rattle.dep_model.specs.Keys.{IsSuperkey};
ghost use Rattle.dep_model.specs.Theories.{width_of, universe_of, theory_of};

use crate::implying::is_implied_by_blocks;
use attr_sets::AttrSet;
use dep_model::{Dep, Theory};

/// Whether a set determines all of a scheme, by all dependencies.
pub fn is_superkey(theory: &Theory, scheme: AttrSet, set: AttrSet) -> bool
    requires scheme { IsSubset (attributes scheme) (universe_of theory.now) }
    requires set { IsSubset (attributes set) (attributes scheme) }
    ensures superkey { IsTrue result
        ↔ IsSuperkey (width_of theory.now) (theory_of theory.now) (attributes scheme) (attributes set) }
{
    let goal = Dep::Fd {
        lhs: set,
        rhs: scheme,
    };
    is_implied_by_blocks(theory.deps(), theory.width(), goal)
}
