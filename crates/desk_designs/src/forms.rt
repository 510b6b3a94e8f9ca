ghost use Rattle.std.specs.Prelude.{◌≡◌, ◌∷◌, ◌++◌, [], All, IfOk, IfErr, IfSome, OnOk};
ghost use Rattle.attr_sets.specs.Attributes.{Attributes, IsSubset};
ghost use Rattle.attr_sets.specs.Sets.{attributes};
ghost use Rattle.dep_model.specs.Plans.{schemes_of};
ghost use Rattle.schema_model.specs.Schemas.{universe_of, theory_of, theory_in, width_of};
ghost use Rattle.schema_model.specs.Schemas.{Schema as Declared};
ghost use Rattle.plans.specs.Plans.{IsPlanOver, plan_of};
ghost use Rattle.schema_printer.specs.Spelling.{printed_names_of};
ghost use Rattle.desk_responses.specs.Responses.{RespondsAs, ExitsAs, response_value};
ghost use Rattle.desk_responses.specs.ResponseValues.{ResponseValue, Says};
ghost use Rattle.desk_responses.specs.Lines.{too_wide_text};
ghost use Rattle.fd_closure.specs.LeftSides.{IsWideScheme};
ghost use Rattle.desk_designs.specs.FormsOfSchemes.{ArePlanTexts, IsSchemeText, ListsFormOfAll, ListsFormsOfPlan};
ghost use Rattle.desk_designs.specs.FormsOfSchemes.{RefusesWide, form_line, last_word};
ghost use Rattle.which_form.specs.Verdicts.{IsVerdict};
ghost use Rattle.desk_designs.specs.TestedSchemes.{AreFormsOf, AreFoundForms, IsTestedScheme, breach_text};
ghost use Rattle.desk_designs.specs.TestedSchemes.{breaches_text, schemes_tested, tested_scheme};

use crate::form::{tested_dependency, word_of_tested};
use attr_sets::AttrSet;
use byte_texts::add;
use dep_model::{Form, OutOfMemory};
use desk_responses::{EarlyExit, Response, Status, too_wide_exit};
use normal_forms::Breach;
use plans::Plan;
use schema_model::Schema;
use schema_printer::{add_dep, add_set};
use std::alloc::Global;
use which_form::{SchemeForms, TestedForm, last_form, scheme_forms};

/// Which form the table of all attributes is in.
pub fn form_of_all(alloc: Global, schema: &Schema) -> Result<Response, EarlyExit>
    ensures response { RespondsAs (ListsFormOfAll schema.now) result }
{
    form_of_tested(alloc, schema, forms_of_all(schema))
}

/// What violates each of the forms on the table of all attributes; nothing where it is too wide to be tested.
pub fn forms_of_all(schema: &Schema) -> Option<SchemeForms>
    ensures found { AreFoundForms schema.now result }
{
    match scheme_forms(&schema.theory(), AttrSet::full(schema.width())) {
        Ok(forms) => Some(forms),
        Err(_) => None,
    }
}

/// Which form the table of all attributes is in, where it is tested already.
pub fn form_of_tested(
    alloc: Global,
    schema: &Schema,
    found: Option<SchemeForms>,
) -> Result<Response, EarlyExit>
    requires found { AreFoundForms schema.now found }
    ensures response { RespondsAs (ListsFormOfAll schema.now) result }
{
    let scheme = AttrSet::full(schema.width());
    match found {
        Some(forms) => Ok(listed(alloc, schema, &[TestedScheme { scheme, forms }])?),
        None => Err(too_wide_exit(alloc, schema, scheme)),
    }
}

/// What violates one of the forms.
pub fn breach_of(forms: SchemeForms, form: TestedForm) -> Option<Breach>
    ensures verdict { (s : Declared) (scheme : Attributes) → AreFormsOf s scheme forms
        → IsVerdict (width_of s) (theory_of s) scheme form result }
{
    match form {
        TestedForm::Second => forms.second,
        TestedForm::Higher { form: higher } => match higher {
            Form::Third => forms.third,
            Form::Bcnf => forms.bcnf,
            Form::Fourth => forms.fourth,
        },
    }
}

/// Which form each scheme of a plan is in.
pub fn forms_of_plan(alloc: Global, schema: &Schema, plan: &Plan) -> Result<Response, EarlyExit>
    requires universe { IsPlanOver (theory_in schema.now) plan.now }
    ensures response { RespondsAs (ListsFormsOfPlan schema.now (plan_of plan.now)) result }
{
    list_forms(alloc, schema, plan.schemes())
}

// A scheme, with what violates each of the forms on it.
#[derive(Clone, Copy, Debug)]
struct TestedScheme {
    scheme: AttrSet,
    forms: SchemeForms,
}

// Which form each of these schemes is in. The first that is too wide decides.
fn list_forms(alloc: Global, schema: &Schema, schemes: &[AttrSet]) -> Result<Response, EarlyExit>
    requires within { All (λ scheme. IsSubset (attributes scheme)
        (universe_of schema.now)) schemes.now }
    ensures response { RespondsAs (ListsFormsOfPlan schema.now (schemes_of schemes.now)) result }
{
    match test_each(alloc, schema, schemes) {
        Ok(found) => Ok(listed(alloc, schema, &found)?),
        Err(exit) => Err(exit),
    }
}

// Each of these schemes with its forms. Of equal schemes the first alone is tested.
fn test_each(
    alloc: Global,
    schema: &Schema,
    schemes: &[AttrSet],
) -> Result<Vec<TestedScheme>, EarlyExit>
    requires within { All (λ scheme. IsSubset (attributes scheme)
        (universe_of schema.now)) schemes.now }
    ensures tested { IfOk result (λ found. All (IsTestedScheme schema.now) found.items) }
    ensures schemes { IfOk result (λ found. schemes_tested found.items ≡ schemes_of schemes.now) }
    ensures ends { IfErr result (ExitsAs (RefusesWide schema.now (schemes_of schemes.now))) }
{
    let mut found: Vec<TestedScheme> = Vec::new(alloc);
    for scheme in schemes {
        match forms_after(alloc, schema, &found, *scheme) {
            Ok(forms) => add_tested(&mut found, *scheme, forms)?,
            Err(exit) => return Err(exit),
        }
    }
    Ok(found)
}

// One scheme more, with its forms.
fn add_tested(
    found: &mut Vec<TestedScheme>,
    scheme: AttrSet,
    forms: SchemeForms,
) -> Result<(), OutOfMemory>
    ensures added { OnOk result (found.new.items ≡ found.old.items ++ tested_scheme scheme forms ∷ []) }
{
    found.push(TestedScheme { scheme, forms })?;
    Ok(())
}

// The forms of a scheme, where those of some schemes are known.
fn forms_after(
    alloc: Global,
    schema: &Schema,
    found: &[TestedScheme],
    scheme: AttrSet,
) -> Result<SchemeForms, EarlyExit>
    requires within { IsSubset (attributes scheme) (universe_of schema.now) }
    requires found { All (IsTestedScheme schema.now) found.now }
    ensures forms { IfOk result (AreFormsOf schema.now (attributes scheme)) }
    ensures ends { IfErr result (ExitsAs (λ (response : ResponseValue).
        IsWideScheme (theory_of schema.now) (attributes scheme)
        × Says Status.Refused (too_wide_text (printed_names_of schema.now) (attributes scheme)) response)) }
{
    if let Some(forms) = known_forms(found, scheme) {
        return Ok(forms);
    }
    match scheme_forms(&schema.theory(), scheme) {
        Ok(forms) => Ok(forms),
        Err(_) => Err(too_wide_exit(alloc, schema, scheme)),
    }
}

// The forms of a scheme, where it equals one of those that were tested.
fn known_forms(found: &[TestedScheme], scheme: AttrSet) -> Option<SchemeForms>
    ensures known { (s : Declared) → All (IsTestedScheme s) found.now
        → IfSome result (AreFormsOf s (attributes scheme)) }
{
    for tested in found {
        if tested.scheme == scheme {
            return Some(tested.forms);
        }
    }
    None
}

// The lines of each scheme that was tested.
fn listed(alloc: Global, schema: &Schema, found: &[TestedScheme]) -> Result<Response, OutOfMemory>
    requires tested { All (IsTestedScheme schema.now) found.now }
    ensures lists { IfOk result (λ response.
        ListsFormsOfPlan schema.now (schemes_tested found.now) (response_value response)) }
{
    let text = listed_lines(alloc, schema, found)?;
    Ok(Response::with_text(Status::Yes, text))
}

// The lines of each scheme that was tested, in order.
fn listed_lines(
    alloc: Global,
    schema: &Schema,
    found: &[TestedScheme],
) -> Result<Vec<u8>, OutOfMemory>
    requires tested { All (IsTestedScheme schema.now) found.now }
    ensures texts { IfOk result (λ text. ArePlanTexts schema.now (schemes_tested found.now) text.items) }
{
    let mut text = Vec::new(alloc);
    for tested in found {
        add(&mut text, &scheme_lines(alloc, schema, *tested)?)?;
    }
    Ok(text)
}

// The lines of a scheme: its form, and what violates those that it is not in.
fn scheme_lines(
    alloc: Global,
    schema: &Schema,
    tested: TestedScheme,
) -> Result<Vec<u8>, OutOfMemory>
    requires tested { IsTestedScheme schema.now tested }
    ensures text { IfOk result (λ text.
        IsSchemeText schema.now (attributes tested.scheme) text.items) }
{
    let TestedScheme { scheme, forms } = tested;
    let last = last_form(forms);
    let mut text = form_line(alloc, schema, scheme, last)?;
    add(&mut text, &violation_lines(alloc, schema, forms)?)?;
    Ok(text)
}

// A scheme, and its form.
fn form_line(
    alloc: Global,
    schema: &Schema,
    scheme: AttrSet,
    last: Option<TestedForm>,
) -> Result<Vec<u8>, OutOfMemory>
    ensures text { IfOk result (λ text.
        text.items ≡ form_line (printed_names_of schema.now) (attributes scheme) last) }
{
    let mut text = Vec::new(alloc);
    add(&mut text, b"scheme ")?;
    add_set(&mut text, schema, scheme)?;
    add(&mut text, b": ")?;
    add(&mut text, word_of_last(last))?;
    add(&mut text, b"\n")?;
    Ok(text)
}

// The word of the last form such that a scheme is in it and in all before it.
fn word_of_last(last: Option<TestedForm>) -> &'static [u8]
    ensures word { result.now ≡ last_word last }
{
    match last {
        Some(form) => word_of_tested(form),
        None => b"1nf",
    }
}

// What violates each of the forms.
fn violation_lines(
    alloc: Global,
    schema: &Schema,
    forms: SchemeForms,
) -> Result<Vec<u8>, OutOfMemory>
    ensures text { IfOk result (λ text. text.items ≡ breaches_text (printed_names_of schema.now) forms) }
{
    let third = TestedForm::Higher { form: Form::Third };
    let bcnf = TestedForm::Higher { form: Form::Bcnf };
    let fourth = TestedForm::Higher { form: Form::Fourth };
    let mut text = violation_line(alloc, schema, TestedForm::Second, forms.second)?;
    add(
        &mut text,
        &violation_line(alloc, schema, third, forms.third)?,
    )?;
    add(&mut text, &violation_line(alloc, schema, bcnf, forms.bcnf)?)?;
    add(
        &mut text,
        &violation_line(alloc, schema, fourth, forms.fourth)?,
    )?;
    Ok(text)
}

// What violates a form; nothing where there is no violation.
fn violation_line(
    alloc: Global,
    schema: &Schema,
    form: TestedForm,
    found: Option<Breach>,
) -> Result<Vec<u8>, OutOfMemory>
    ensures text { IfOk result (λ text.
        text.items ≡ breach_text (printed_names_of schema.now) form found) }
{
    let Some(breach) = found else {
        return Ok(Vec::new(alloc));
    };
    let mut text = Vec::new(alloc);
    add(&mut text, b"  ")?;
    add(&mut text, word_of_tested(form))?;
    add(&mut text, b" violated by ")?;
    add_dep(&mut text, schema, tested_dependency(form, breach))?;
    add(&mut text, b"\n")?;
    Ok(text)
}
