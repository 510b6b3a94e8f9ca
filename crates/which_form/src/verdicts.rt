ghost use Rattle.std.specs.Prelude.{◌≡◌, ◌↔◌, ℕ, List, Some, IsErr, IsNone, IfOk, IfErr};
ghost use Rattle.attr_sets.specs.Attributes.{Attributes, IsSubset};
ghost use Rattle.attr_sets.specs.Sets.{attributes};
ghost use Rattle.dep_model.specs.Dependencies.{Dependency, functional_part};
ghost use Rattle.dep_model.specs.Theories.{width_of, universe_of, theory_of};
ghost use Rattle.dep_model.specs.declared.form.Form.TheVariants as normal;
ghost use Rattle.fd_closure.specs.LeftSides.{IsWideScheme};
ghost use Rattle.which_form.specs.Verdicts.{AreVerdicts, IsLastForm, IsVerdict};
ghost use Rattle.which_form.specs.declared.forms.TestedForm.TheVariants as tested;

use crate::forms::{SchemeForms, TestedForm};
use crate::fourth::fourth_beside;
use crate::second::second_violation;
use attr_sets::AttrSet;
use dep_model::{Form, Theory};
use fd_closure::is_functional;
use normal_forms::{Breach, TooWide, violation};

/// What violates each of the forms on a scheme, as `tested_violation` finds it. Where a form gives another,
/// that is not tested once more.
pub fn scheme_forms(theory: &Theory, scheme: AttrSet) -> Result<SchemeForms, TooWide>
    requires scheme { IsSubset (attributes scheme) (universe_of theory.now) }
    ensures too_wide { IsErr result ↔ IsWideScheme (theory_of theory.now) (attributes scheme) }
    ensures scheme { IfErr result (λ refusal. refusal.scheme ≡ scheme) }
    ensures forms { IfOk result
        (AreVerdicts (width_of theory.now) (theory_of theory.now) (attributes scheme)) }
{
    if is_functional(theory.deps()) {
        functional_forms(theory, scheme)
    } else {
        mixed_forms(theory, scheme)
    }
}

// The same where all dependencies are functional. Then one left side violates Boyce-Codd and fourth form.
fn functional_forms(theory: &Theory, scheme: AttrSet) -> Result<SchemeForms, TooWide>
    requires scheme { IsSubset (attributes scheme) (universe_of theory.now) }
    requires functional { functional_part (theory_of theory.now) ≡ theory_of theory.now }
    ensures too_wide { IsErr result ↔ IsWideScheme (theory_of theory.now) (attributes scheme) }
    ensures scheme { IfErr result (λ refusal. refusal.scheme ≡ scheme) }
    ensures forms { IfOk result
        (AreVerdicts (width_of theory.now) (theory_of theory.now) (attributes scheme)) }
{
    let bcnf = violation(theory, scheme, Form::Bcnf)?;
    let fourth = fourth_beside(theory, scheme, bcnf);
    let third = third_below(theory, scheme, bcnf)?;
    let second = second_below(theory, scheme, third);
    Ok(SchemeForms {
        second,
        third,
        bcnf,
        fourth,
    })
}

// The same where a multivalued dependency may be given.
fn mixed_forms(theory: &Theory, scheme: AttrSet) -> Result<SchemeForms, TooWide>
    requires scheme { IsSubset (attributes scheme) (universe_of theory.now) }
    ensures too_wide { IsErr result ↔ IsWideScheme (theory_of theory.now) (attributes scheme) }
    ensures scheme { IfErr result (λ refusal. refusal.scheme ≡ scheme) }
    ensures forms { IfOk result
        (AreVerdicts (width_of theory.now) (theory_of theory.now) (attributes scheme)) }
{
    let fourth = violation(theory, scheme, Form::Fourth)?;
    let bcnf = bcnf_below(theory, scheme, fourth)?;
    let third = violation(theory, scheme, Form::Third)?;
    let second = second_below(theory, scheme, third);
    Ok(SchemeForms {
        second,
        third,
        bcnf,
        fourth,
    })
}

// The violation of Boyce-Codd form, where that of fourth form is known.
fn bcnf_below(
    theory: &Theory,
    scheme: AttrSet,
    fourth: Option<Breach>,
) -> Result<Option<Breach>, TooWide>
    requires scheme { IsSubset (attributes scheme) (universe_of theory.now) }
    requires fourth { IsVerdict (width_of theory.now) (theory_of theory.now) (attributes scheme)
        (tested.Higher normal.Fourth) fourth }
    ensures too_wide { IsErr result → IsWideScheme (theory_of theory.now) (attributes scheme) }
    ensures scheme { IfErr result (λ refusal. refusal.scheme ≡ scheme) }
    ensures verdict { IfOk result
        (IsVerdict (width_of theory.now) (theory_of theory.now) (attributes scheme)
        (tested.Higher normal.Bcnf)) }
{
    match fourth {
        Some(_) => violation(theory, scheme, Form::Bcnf),
        None => Ok(None),
    }
}

// The violation of third form, where all dependencies are functional and that of Boyce-Codd form is known.
fn third_below(
    theory: &Theory,
    scheme: AttrSet,
    bcnf: Option<Breach>,
) -> Result<Option<Breach>, TooWide>
    requires scheme { IsSubset (attributes scheme) (universe_of theory.now) }
    requires functional { functional_part (theory_of theory.now) ≡ theory_of theory.now }
    requires bcnf { IsVerdict (width_of theory.now) (theory_of theory.now) (attributes scheme)
        (tested.Higher normal.Bcnf) bcnf }
    ensures too_wide { IsErr result → IsWideScheme (theory_of theory.now) (attributes scheme) }
    ensures scheme { IfErr result (λ refusal. refusal.scheme ≡ scheme) }
    ensures verdict { IfOk result
        (IsVerdict (width_of theory.now) (theory_of theory.now) (attributes scheme)
        (tested.Higher normal.Third)) }
{
    match bcnf {
        Some(_) => violation(theory, scheme, Form::Third),
        None => Ok(None),
    }
}

// The violation of second form, where that of third form is known.
fn second_below(theory: &Theory, scheme: AttrSet, third: Option<Breach>) -> Option<Breach>
    requires scheme { IsSubset (attributes scheme) (universe_of theory.now) }
    requires third { IsVerdict (width_of theory.now) (theory_of theory.now) (attributes scheme)
        (tested.Higher normal.Third) third }
    ensures verdict { IsVerdict (width_of theory.now) (theory_of theory.now) (attributes scheme)
        tested.Second result }
{
    match third {
        Some(_) => second_violation(theory, scheme),
        None => None,
    }
}

/// The last form such that a scheme is in it and in all before it; none where it is not in second form.
pub fn last_form(forms: SchemeForms) -> Option<TestedForm>
    ensures last { (n : ℕ) (ds : List Dependency) (scheme : Attributes) → AreVerdicts n ds scheme forms
        → IsLastForm n ds scheme result }
{
    if forms.second.is_some() {
        return None;
    }
    if forms.third.is_some() {
        return Some(TestedForm::Second);
    }
    let form = last_higher(forms);
    Some(TestedForm::Higher { form })
}

// The same, where the scheme is in third form.
fn last_higher(forms: SchemeForms) -> Form
    requires second { IsNone forms.second }
    requires third { IsNone forms.third }
    ensures last { (n : ℕ) (ds : List Dependency) (scheme : Attributes) → AreVerdicts n ds scheme forms
        → IsLastForm n ds scheme (Some (tested.Higher result)) }
{
    if forms.bcnf.is_some() {
        return Form::Third;
    }
    if forms.fourth.is_some() {
        return Form::Bcnf;
    }
    Form::Fourth
}
