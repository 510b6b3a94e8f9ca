ghost use Rattle.std.specs.Prelude.{◌≡◌};
ghost use Rattle.attr_sets.specs.Attributes.{IsSubset};
ghost use Rattle.attr_sets.specs.Sets.{attributes};
ghost use Rattle.dep_model.specs.Dependencies.{functional_part};
ghost use Rattle.dep_model.specs.Theories.{width_of, universe_of, theory_of};
ghost use Rattle.dep_model.specs.declared.form.Form.TheVariants as normal;
ghost use Rattle.which_form.specs.Verdicts.{IsVerdict};
ghost use Rattle.which_form.specs.declared.forms.TestedForm.TheVariants as tested;

use attr_sets::AttrSet;
use dep_model::Theory;
use normal_forms::{Breach, first_part};

// The violation of fourth form, where all dependencies are functional and that of Boyce-Codd form is known:
// its left side, with the part that has the first attribute beyond it.
pub fn fourth_beside(theory: &Theory, scheme: AttrSet, bcnf: Option<Breach>) -> Option<Breach>
    requires scheme { IsSubset (attributes scheme) (universe_of theory.now) }
    requires functional { functional_part (theory_of theory.now) ≡ theory_of theory.now }
    requires bcnf { IsVerdict (width_of theory.now) (theory_of theory.now) (attributes scheme)
        (tested.Higher normal.Bcnf) bcnf }
    ensures verdict { IsVerdict (width_of theory.now) (theory_of theory.now) (attributes scheme)
        (tested.Higher normal.Fourth) result }
{
    match bcnf {
        Some(breach) => {
            let lhs = breach.lhs;
            let rhs = first_part(theory, scheme, lhs);
            Some(Breach { lhs, rhs })
        }
        None => None,
    }
}
