ghost use Rattle.std.specs.Prelude.{◌≡◌, IfOk, IfSome, Any};
ghost use Rattle.attr_sets.specs.Attributes.{IsSubset};
ghost use Rattle.attr_sets.specs.Sets.{attributes};
ghost use Rattle.dep_model.specs.Theories.{width_of, universe_of, theory_of};
ghost use Rattle.split_forms.specs.Outcomes.{IsOutcome, AreTried};

use crate::outcome::{Outcome, outcome_of};
use attr_sets::AttrSet;
use dep_model::{Form, OutOfMemory, Theory};

// A scheme that was tried, and what became of it.
#[derive(Clone, Copy, Debug)]
pub struct Tried {
    pub scheme: AttrSet,
    pub outcome: Outcome,
}

// What becomes of a scheme. One that was tried before is not tried again: where schemes overlap,
// equal ones come up by the thousand.
pub fn found_outcome(
    theory: &Theory,
    form: Form,
    scheme: AttrSet,
    tried: &mut Vec<Tried>,
) -> Result<Outcome, OutOfMemory>
    requires form { form ≡ Form.Third → ⊥ }
    requires scheme { IsSubset (attributes scheme) (universe_of theory.now) }
    requires tried { AreTried (width_of theory.now) (theory_of theory.now) form tried.old.items }
    ensures outcome { IfOk result
        (IsOutcome (width_of theory.now) (theory_of theory.now) form (attributes scheme)) }
    ensures tried { IfOk result (λ _.
        AreTried (width_of theory.now) (theory_of theory.now) form tried.new.items) }
{
    if let Some(outcome) = earlier_outcome(tried, scheme) {
        return Ok(outcome);
    }
    let outcome = outcome_of(theory, form, scheme);
    tried.push(Tried { scheme, outcome })?;
    Ok(outcome)
}

// What became of a scheme that was tried before.
fn earlier_outcome(tried: &[Tried], scheme: AttrSet) -> Option<Outcome>
    ensures tried { IfSome result (λ outcome.
        Any (λ one. (attributes one.scheme ≡ attributes scheme) × (one.outcome ≡ outcome)) tried.now) }
{
    for one in tried {
        if one.scheme == scheme {
            return Some(one.outcome);
        }
    }
    None
}
