ghost use Rattle.std.specs.Prelude.{◌≡◌, ◌↔◌, IsErr, IsNone, IfOk, IfErr, IfSome};
ghost use Rattle.attr_sets.specs.Attributes.{IsSubset};
ghost use Rattle.attr_sets.specs.Sets.{attributes};
ghost use Rattle.dep_model.specs.Theories.{width_of, universe_of, theory_of};
ghost use Rattle.fd_closure.specs.LeftSides.{left_sides, IsWideScheme};
ghost use Rattle.normal_forms.specs.Chosen.{IsInForm, IsChosenViolation};
ghost use Rattle.normal_forms.specs.Chosen.{IsVisibleViolation, HasNoVisibleViolation};

use crate::beginning::no_part;
use crate::breaking::{breaks, first_breaking, right_side};
use crate::forms::{Breach, TooWide};
use crate::narrowing::searched_attributes;
use crate::third::third_violation;
use attr_sets::AttrSet;
use dep_model::{Form, Theory, sides};
use fd_closure::{is_functional, is_wide_scheme};

/// The violation of a form on a scheme, where the scheme is not in the form: of its subsets, in
/// the order of sets, the first that violates the form, with its right side. For third form that
/// is the first attribute beyond the left side that it determines and that is not prime, for
/// Boyce-Codd form all that it determines beyond itself, for fourth form the part with the first
/// attribute beyond it. A scheme is not tested where more than `fd_closure::WIDEST_SEARCHED` of its
/// attributes stand in given left sides.
///
/// The time is exponential at worst: with k attributes of given left sides in the scheme, 2 to the
/// power k subsets are tried, less those of which it is seen together that they violate nothing. For
/// third form they are tried again for each attribute of which it is asked whether it is prime.
pub fn violation(theory: &Theory, scheme: AttrSet, form: Form) -> Result<Option<Breach>, TooWide>
    requires scheme { IsSubset (attributes scheme) (universe_of theory.now) }
    ensures too_wide { IsErr result ↔ IsWideScheme (theory_of theory.now) (attributes scheme) }
    ensures scheme { IfErr result (λ refusal. refusal.scheme ≡ scheme) }
    ensures none { IfOk result (λ found. IsNone found
        ↔ IsInForm (width_of theory.now) (theory_of theory.now) form (attributes scheme)) }
    ensures chosen { IfOk result (λ found. IfSome found (λ breach.
        IsChosenViolation (width_of theory.now) (theory_of theory.now) form (attributes scheme)
        (attributes breach.lhs) (attributes breach.rhs))) }
    ensures in_left_sides { IfOk result (λ found. IfSome found (λ breach.
        IsSubset (attributes breach.lhs) (left_sides (theory_of theory.now)))) }
{
    if is_wide_scheme(theory.deps(), scheme) {
        return Err(TooWide { scheme });
    }
    match form {
        Form::Third => Ok(third_violation(theory, scheme)),
        Form::Bcnf | Form::Fourth => Ok(first_violation(theory, scheme, form)),
    }
}

// The chosen violation of Boyce-Codd or fourth form.
fn first_violation(theory: &Theory, scheme: AttrSet, form: Form) -> Option<Breach>
    requires scheme { IsSubset (attributes scheme) (universe_of theory.now) }
    requires form { form ≡ Form.Third → ⊥ }
    ensures none { IsNone result
        ↔ IsInForm (width_of theory.now) (theory_of theory.now) form (attributes scheme) }
    ensures chosen { IfSome result (λ breach.
        IsChosenViolation (width_of theory.now) (theory_of theory.now) form (attributes scheme)
        (attributes breach.lhs) (attributes breach.rhs)) }
    ensures in_left_sides { IfSome result (λ breach.
        IsSubset (attributes breach.lhs) (left_sides (theory_of theory.now))) }
{
    let functional = is_functional(theory.deps());
    let whole = searched_attributes(theory, scheme, form, functional);
    match first_breaking(theory, scheme, form, functional, whole) {
        Some(lhs) => {
            let rhs = right_side(theory, scheme, form, lhs);
            Some(Breach { lhs, rhs })
        }
        None => None,
    }
}

/// The first given dependency, in the order of the file, whose left side lies within a scheme and
/// violates Boyce-Codd or fourth form on it, with the right side as for `violation`. A scheme of
/// any width is looked at, with one test for each given left side.
pub fn visible_violation(theory: &Theory, scheme: AttrSet, form: Form) -> Option<Breach>
    requires scheme { IsSubset (attributes scheme) (universe_of theory.now) }
    requires form { form ≡ Form.Third → ⊥ }
    ensures none { IsNone result
        ↔ HasNoVisibleViolation (width_of theory.now) (theory_of theory.now) form (attributes scheme) }
    ensures visible { IfSome result (λ breach.
        IsVisibleViolation (width_of theory.now) (theory_of theory.now) form (attributes scheme)
        (attributes breach.lhs) (attributes breach.rhs)) }
{
    for dep in theory.deps() {
        let (lhs, _) = sides(*dep);
        if lhs.is_subset(scheme) && breaks(theory, scheme, form, false, no_part(), lhs) {
            let rhs = right_side(theory, scheme, form, lhs);
            return Some(Breach { lhs, rhs });
        }
    }
    None
}
