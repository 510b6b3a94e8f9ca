ghost use Rattle.std.specs.Prelude.{◌≡◌};
ghost use Rattle.dep_model.specs.Theories.{width_of};
ghost use Rattle.dep_model.specs.Plans.{IsPlan, schemes_of};
ghost use Rattle.plans.specs.Schemes.{AreSchemes};

use attr_sets::AttrSet;
use dep_model::Theory;

/// A decomposition of a universe: schemes, each a set of some of its attributes, in which each attribute
/// stands at least once. Their order is the order in which they are printed and in which tables are made.
#[derive(Debug, Drop)]
pub struct Plan {
    schemes: Vec<AttrSet>,
    width: u8,
    pub ghost valid: { AreSchemes width schemes.items },
}

impl Plan {
    ghost use Rattle.plans.specs.Plans.{scheme_sets, IsPlanOver};

    /// The plan of these schemes over the universe of a schema.
    pub fn new(theory: &Theory, schemes: Vec<AttrSet>) -> Plan
        requires plan { IsPlan (width_of theory.now) (schemes_of schemes.items) }
        ensures schemes { scheme_sets result ≡ schemes.items }
        ensures universe { IsPlanOver theory.now result }
    {
        Plan {
            schemes,
            width: theory.width(),
        }
    }

    /// The schemes, in order.
    pub fn schemes(&self) -> &[AttrSet]
        ensures schemes { result.now ≡ scheme_sets self.now }
    {
        &self.schemes
    }

    /// The list of the schemes.
    pub fn into_schemes(self) -> Vec<AttrSet>
        ensures schemes { result.items ≡ scheme_sets self }
    {
        self.schemes
    }
}
