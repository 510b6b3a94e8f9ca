ghost use Rattle.std.specs.Prelude.{◌↔◌, IsTrue, IfOk, All};
ghost use Rattle.attr_sets.specs.Attributes.{IsSubset};
ghost use Rattle.attr_sets.specs.Sets.{attributes};
ghost use Rattle.dep_model.specs.Dependencies.{functional_part};
ghost use Rattle.dep_model.specs.Keys.{IsSuperkey};
ghost use Rattle.dep_model.specs.Plans.{schemes_of};
ghost use Rattle.dep_model.specs.Theories.{width_of, universe_of, theory_of};
ghost use Rattle.primary_keys.specs.PrimaryKeys.{IsPrimaryKey};
ghost use Rattle.synthesis_3nf.specs.GroupedPlans.{HoldSuperkey, IsWithKey};

use attr_sets::AttrSet;
use dep_model::{OutOfMemory, Theory};
use fd_closure::is_functional_superkey;
use primary_keys::functional_primary_key;

/// The schemes, with the primary key of the universe added last where none of them is a superkey of it, by the
/// functional dependencies.
pub fn with_key(
    theory: &Theory,
    nullable: AttrSet,
    mut schemes: Vec<AttrSet>,
) -> Result<Vec<AttrSet>, OutOfMemory>
    requires within { All (λ scheme. IsSubset (attributes scheme)
        (universe_of theory.now)) schemes.items }
    ensures completed { IfOk result (λ all. IsWithKey (width_of theory.now) (theory_of theory.now)
        (attributes nullable) (schemes_of schemes.items) (schemes_of all.items)) }
{
    if !hold_superkey(theory, &schemes) {
        schemes.push(universe_key(theory, nullable))?;
    }
    Ok(schemes)
}

// The primary key of the universe by the functional dependencies.
fn universe_key(theory: &Theory, nullable: AttrSet) -> AttrSet
    ensures primary { IsPrimaryKey (width_of theory.now) (functional_part (theory_of theory.now))
        (attributes nullable) (universe_of theory.now) (attributes result) }
{
    functional_primary_key(theory, nullable, AttrSet::full(theory.width()))
}

// Whether some scheme is a superkey of the universe by the functional dependencies.
fn hold_superkey(theory: &Theory, schemes: &[AttrSet]) -> bool
    requires within { All (λ scheme. IsSubset (attributes scheme)
        (universe_of theory.now)) schemes.now }
    ensures superkey { IsTrue result
        ↔ HoldSuperkey (width_of theory.now) (theory_of theory.now) (schemes_of schemes.now) }
{
    for scheme in schemes {
        if is_superkey(theory, *scheme) {
            return true;
        }
    }
    false
}

// Whether a scheme is a superkey of the universe by the functional dependencies.
fn is_superkey(theory: &Theory, scheme: AttrSet) -> bool
    requires within { IsSubset (attributes scheme) (universe_of theory.now) }
    ensures superkey { IsTrue result ↔ IsSuperkey (width_of theory.now)
        (functional_part (theory_of theory.now)) (universe_of theory.now) (attributes scheme) }
{
    is_functional_superkey(theory, AttrSet::full(theory.width()), scheme)
}
