ghost use Rattle.std.specs.Prelude.{◌≡◌};
ghost use Rattle.attr_sets.specs.Attributes.{IsSubset};
ghost use Rattle.attr_sets.specs.Sets.{attributes};
ghost use Rattle.dep_model.specs.Theories.{width_of, universe_of, theory_of};
ghost use Rattle.split_forms.specs.Outcomes.{IsOutcome};

use attr_sets::AttrSet;
use dep_model::{Form, Theory};
use normal_forms::{Breach, violation, visible_violation};

// What becomes of a scheme that is split.
#[derive(Clone, Copy, Debug)]
pub enum Outcome {
    // It stays whole.
    Whole,
    // It is cut at a violation.
    Cut(Breach),
    // It is too wide to be searched, and no given left side violates the form.
    Stuck,
}

// Tries a scheme.
pub fn outcome_of(theory: &Theory, form: Form, scheme: AttrSet) -> Outcome
    requires form { form ≡ Form.Third → ⊥ }
    requires scheme { IsSubset (attributes scheme) (universe_of theory.now) }
    ensures outcome { IsOutcome (width_of theory.now) (theory_of theory.now) form
        (attributes scheme) result }
{
    match violation(theory, scheme, form) {
        Ok(None) => Outcome::Whole,
        Ok(Some(breach)) => Outcome::Cut(breach),
        Err(_) => match visible_violation(theory, scheme, form) {
            Some(breach) => Outcome::Cut(breach),
            None => Outcome::Stuck,
        },
    }
}
