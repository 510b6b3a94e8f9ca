ghost use Rattle.std.specs.Prelude.{◌≡◌, ◌<◌, IfOk, IfErr};
ghost use Rattle.dep_model.specs.Failures.{RefusesAs};
ghost use Rattle.dep_model.specs.Plans.{schemes_of};
ghost use Rattle.dep_model.specs.Theories.{width_of, theory_of};
ghost use Rattle.split_forms.specs.Refusals.{IsRefusedSplit, IsWithinLimits};
ghost use Rattle.split_forms.specs.Steps.{AreSplitSteps, cuttings_of};

use crate::cutting::cut_at;
use crate::outcome::Outcome;
use crate::refusal::SplitRefusal;
use crate::trying::found_outcome;
use attr_sets::AttrSet;
use dep_model::{Failure, Form, Theory};
use normal_forms::Breach;
use std::alloc::Global;

/// A scheme that is cut, and the violation that it is cut at.
#[derive(Clone, Copy, Debug)]
pub struct SchemeCut {
    pub scheme: AttrSet,
    pub breach: Breach,
}

/// How a split comes about: the form, the cuts in order, and the list that they lead to, in which all
/// schemes are in the form.
#[derive(Debug, Drop)]
pub struct SplitSteps {
    pub form: Form,
    pub cuts: Vec<SchemeCut>,
    pub schemes: Vec<AttrSet>,
}

/// How the split of the universe in Boyce-Codd or fourth normal form comes about: in a list of schemes,
/// the first that is not in the form is cut at its chosen violation, in its place. A scheme that is too
/// wide to be searched is cut at its visible violation. Where a list has more than `limit` schemes, the
/// universe is not split.
///
/// The list is gone through once, from the left: a scheme that stays whole stays so whatever becomes of
/// those after it.
pub fn split_steps(
    alloc: Global,
    theory: &Theory,
    form: Form,
    limit: u32,
) -> Result<SplitSteps, Failure<SplitRefusal>>
    requires form { form ≡ Form.Third → ⊥ }
    requires limit { 0 < limit }
    ensures form { IfOk result (λ steps. steps.form ≡ form) }
    ensures steps { IfOk result (λ steps. AreSplitSteps (width_of theory.now) (theory_of theory.now) form
        (cuttings_of steps.cuts.items) (schemes_of steps.schemes.items)) }
    ensures within_limits { IfOk result (λ _.
        IsWithinLimits (width_of theory.now) (theory_of theory.now) form limit) }
    ensures refused { IfErr result
        (RefusesAs (IsRefusedSplit (width_of theory.now) (theory_of theory.now) form limit)) }
{
    let mut schemes = Vec::new(alloc);
    schemes.push(AttrSet::full(theory.width()))?;
    let mut cuts = Vec::new(alloc);
    let mut tried = Vec::new(alloc);
    let most = limit as usize;
    let mut at = 0;
    while at < schemes.len() {
        let scheme = schemes[at];
        match found_outcome(theory, form, scheme, &mut tried)? {
            Outcome::Whole => at += 1,
            Outcome::Stuck => return Err(Failure::Refused(SplitRefusal::TooWide { scheme })),
            Outcome::Cut(breach) => {
                if schemes.len() >= most {
                    return Err(Failure::Refused(SplitRefusal::TooManySchemes));
                }
                cut_at(&mut schemes, at, breach)?;
                cuts.push(SchemeCut { scheme, breach })?;
            }
        }
    }
    Ok(SplitSteps {
        form,
        cuts,
        schemes,
    })
}
