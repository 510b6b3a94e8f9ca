ghost use Rattle.std.specs.Prelude.{◌≡◌, ◌↔◌, true, All, IsTrue};
ghost use Rattle.attr_sets.specs.Attributes.{IsSubset};
ghost use Rattle.attr_sets.specs.Sets.{attributes};
ghost use Rattle.dep_model.specs.Dependencies.{functional_part};
ghost use Rattle.dep_model.specs.Theories.{width_of, universe_of, theory_of};
ghost use Rattle.fd_closure.specs.LeftSides.{left_sides};
ghost use Rattle.normal_forms.specs.Adding.{AddOnlyThemselves};
ghost use Rattle.normal_forms.specs.Breaking.{IsEnough};

use attr_sets::AttrSet;
use dep_model::{Form, Theory};
use fd_closure::{functional_closure, functional_left_attributes, left_attributes};

// The attributes of a scheme to whose subsets a search for violations can keep: those of the
// given left sides. Where all dependencies are functional, a left side that the scheme does not
// determine never applies.
pub fn searched_attributes(
    theory: &Theory,
    scheme: AttrSet,
    form: Form,
    functional: bool,
) -> AttrSet
    requires scheme { IsSubset (attributes scheme) (universe_of theory.now) }
    requires form { form ≡ Form.Third → ⊥ }
    requires functional { IsTrue functional
        → functional_part (theory_of theory.now) ≡ theory_of theory.now }
    ensures within { IsSubset (attributes result) (attributes scheme) }
    ensures sides { IsSubset (attributes result) (left_sides (theory_of theory.now)) }
    ensures enough { IsEnough (width_of theory.now) (theory_of theory.now) form (attributes scheme)
        (attributes result) }
{
    if functional {
        functionally_searched_attributes(theory, scheme)
    } else {
        left_attributes(theory.deps()).intersection(scheme)
    }
}

// The same by the functional dependencies alone.
pub fn functionally_searched_attributes(theory: &Theory, scheme: AttrSet) -> AttrSet
    requires scheme { IsSubset (attributes scheme) (universe_of theory.now) }
    ensures within { IsSubset (attributes result) (attributes scheme) }
    ensures sides { IsSubset (attributes result) (left_sides (theory_of theory.now)) }
    ensures added { AddOnlyThemselves (width_of theory.now) (functional_part (theory_of theory.now))
        (attributes scheme) (attributes result) }
{
    let reach = functional_closure(theory.deps(), scheme);
    functional_left_attributes(theory.deps(), reach).intersection(scheme)
}
