ghost use Rattle.std.specs.Prelude.{◌≡◌, ◌↔◌, IsErr, IsNone, IfOk, IfErr, IfSome};
ghost use Rattle.attr_sets.specs.Attributes.{IsSubset};
ghost use Rattle.attr_sets.specs.Sets.{attributes};
ghost use Rattle.dep_model.specs.Theories.{width_of, universe_of, theory_of};
ghost use Rattle.fd_closure.specs.LeftSides.{IsWideScheme};
ghost use Rattle.which_form.specs.Tested.{IsInTested, IsNamedViolation};

use crate::forms::TestedForm;
use crate::second::second_violation;
use attr_sets::AttrSet;
use dep_model::Theory;
use fd_closure::is_wide_scheme;
use normal_forms::{Breach, TooWide, violation};

/// The violation of a form on a scheme, where the scheme is not in the form: of its subsets, in the order
/// of sets, the first that violates the form, with its right side. For second form that is the first
/// attribute that the left side determines and that is in no key; for the others `normal_forms::violation`
/// says which. A scheme is not tested where more than `fd_closure::WIDEST_SEARCHED` of its attributes stand
/// in given left sides.
///
/// The time is exponential at worst. For second form the keys are searched twice, each search by fewer than
/// 2 to the power k + 1 pairs of closures, where k attributes of left sides are neither in every key nor
/// determined by those that are.
pub fn tested_violation(
    theory: &Theory,
    scheme: AttrSet,
    form: TestedForm,
) -> Result<Option<Breach>, TooWide>
    requires scheme { IsSubset (attributes scheme) (universe_of theory.now) }
    ensures too_wide { IsErr result ↔ IsWideScheme (theory_of theory.now) (attributes scheme) }
    ensures scheme { IfErr result (λ refusal. refusal.scheme ≡ scheme) }
    ensures none { IfOk result (λ found. IsNone found
        ↔ IsInTested (width_of theory.now) (theory_of theory.now) form (attributes scheme)) }
    ensures named { IfOk result (λ found. IfSome found (λ breach.
        IsNamedViolation (width_of theory.now) (theory_of theory.now) form (attributes scheme)
        (attributes breach.lhs) (attributes breach.rhs))) }
{
    match form {
        TestedForm::Second => {
            if is_wide_scheme(theory.deps(), scheme) {
                return Err(TooWide { scheme });
            }
            Ok(second_violation(theory, scheme))
        }
        TestedForm::Higher { form: higher } => violation(theory, scheme, higher),
    }
}
