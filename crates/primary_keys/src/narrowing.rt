ghost use Rattle.attr_sets.specs.Attributes.{IsSubset};
ghost use Rattle.attr_sets.specs.Sets.{attributes};
ghost use Rattle.dep_model.specs.Dependencies.{functional_part};
ghost use Rattle.dep_model.specs.Theories.{width_of, universe_of, theory_of};
ghost use Rattle.primary_keys.specs.PrimaryKeys.{IsPrimaryKey};

use attr_sets::{AttrSet, Direction, narrowed};
use dep_basis::is_superkey;
use dep_model::Theory;
use fd_closure::is_functional_superkey;

/// The primary key of a scheme, by all dependencies: what is left of it once each attribute that may be
/// missing, one of `nullable`, from the last to the first, and then each other one so, was left out
/// where the rest still determines the scheme.
pub fn primary_key(theory: &Theory, nullable: AttrSet, scheme: AttrSet) -> AttrSet
    requires scheme { IsSubset (attributes scheme) (universe_of theory.now) }
    ensures primary { IsPrimaryKey (width_of theory.now) (theory_of theory.now) (attributes nullable)
        (attributes scheme) (attributes result) }
{
    let determines = |set| is_superkey(theory, scheme, set);
    let rest = narrowed(scheme, nullable, Direction::Descending, determines);
    narrowed(
        rest,
        scheme.difference(nullable),
        Direction::Descending,
        determines,
    )
}

/// The primary key of a scheme, by the functional dependencies alone: what is left of it once each
/// attribute that may be missing, one of `nullable`, from the last to the first, and then each other one
/// so, was left out where the rest still determines the scheme by them.
pub fn functional_primary_key(theory: &Theory, nullable: AttrSet, scheme: AttrSet) -> AttrSet
    requires scheme { IsSubset (attributes scheme) (universe_of theory.now) }
    ensures primary { IsPrimaryKey (width_of theory.now) (functional_part (theory_of theory.now))
        (attributes nullable) (attributes scheme) (attributes result) }
{
    let determines = |set| is_functional_superkey(theory, scheme, set);
    let rest = narrowed(scheme, nullable, Direction::Descending, determines);
    narrowed(
        rest,
        scheme.difference(nullable),
        Direction::Descending,
        determines,
    )
}
