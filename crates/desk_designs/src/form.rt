ghost use Rattle.std.specs.Prelude.{◌≡◌, ◌<◌, ◌≤◌, ◌∷◌, ◌++◌, [], ℕ, codes, length, slice_index_or, All, IsTrue};
ghost use Rattle.std.specs.Prelude.{IfOk, IfErr};
ghost use Rattle.attr_sets.specs.Attributes.{IsSubset};
ghost use Rattle.attr_sets.specs.Sets.{attributes};
ghost use Rattle.dep_model.specs.Deps.{dependency_of};
ghost use Rattle.dep_model.specs.Plans.{schemes_of};
ghost use Rattle.schema_model.specs.Schemas.{universe_of, theory_in};
ghost use Rattle.plans.specs.Plans.{IsPlanOver, plan_of};
ghost use Rattle.desk_responses.specs.ResponseValues.{Says};
ghost use Rattle.desk_designs.specs.NormalForms.{EndsForm, JudgesForm, PassesForm, form_word, in_form_text};
ghost use Rattle.desk_designs.specs.NormalForms.{tested_violation_of, tested_word, violated_text, violation_of};
ghost use Rattle.desk_designs.specs.TestedSchemes.{AreFoundForms};
ghost use Rattle.schema_printer.specs.Printing.{dependency_text, set_text};
ghost use Rattle.schema_printer.specs.Spelling.{printed_names_of};
ghost use Rattle.desk_responses.specs.Responses.{response_value, RespondsAs, ExitsAs};
ghost use Rattle.desk_texts.specs.Texts.{line};

use crate::forms::breach_of;
use attr_sets::AttrSet;
use byte_texts::add;
use dep_model::{Dep, Form, OutOfMemory};
use desk_responses::{EarlyExit, Response, Status, too_wide_exit};
use desk_texts::line_of;
use normal_forms::Breach;
use plans::Plan;
use schema_model::Schema;
use schema_printer::{add_dep, add_set};
use std::alloc::Global;
use which_form::{SchemeForms, TestedForm, tested_violation};

/// Whether each scheme of a plan is in a normal form.
pub fn check_form(
    alloc: Global,
    schema: &Schema,
    form: TestedForm,
    plan: &Plan,
) -> Result<Response, EarlyExit>
    requires universe { IsPlanOver (theory_in schema.now) plan.now }
    ensures response { RespondsAs (JudgesForm schema.now form (plan_of plan.now)) result }
{
    judge_schemes(alloc, schema, form, plan.schemes())
}

/// Whether the table of all attributes is in a normal form, where it is tested already.
pub fn check_tested(
    alloc: Global,
    schema: &Schema,
    form: TestedForm,
    found: Option<SchemeForms>,
) -> Result<Response, EarlyExit>
    requires found { AreFoundForms schema.now found }
    ensures response { RespondsAs (JudgesForm schema.now form (universe_of schema.now ∷ [])) result }
{
    let scheme = AttrSet::full(schema.width());
    match found {
        Some(forms) => match breach_of(forms, form) {
            Some(breach) => Err(violation_exit(alloc, schema, form, scheme, breach)),
            None => Ok(in_form_response(alloc, form)?),
        },
        None => Err(too_wide_exit(alloc, schema, scheme)),
    }
}

// Whether each of these schemes is in a normal form. The first that is not, or is too wide, decides. Of
// equal schemes the first alone is tested.
fn judge_schemes(
    alloc: Global,
    schema: &Schema,
    form: TestedForm,
    schemes: &[AttrSet],
) -> Result<Response, EarlyExit>
    requires within { All (λ scheme. IsSubset (attributes scheme)
        (universe_of schema.now)) schemes.now }
    ensures response { RespondsAs (JudgesForm schema.now form (schemes_of schemes.now)) result }
{
    for (i, scheme) in schemes.iter().enumerate() {
        if stands_before(schemes, i, *scheme) {
            continue;
        }
        match test_scheme(alloc, schema, form, *scheme) {
            Ok(()) => {}
            Err(exit) => return Err(exit),
        }
    }
    Ok(in_form_response(alloc, form)?)
}

// Whether a scheme equals one before a position of a list.
fn stands_before(schemes: &[AttrSet], position: usize, scheme: AttrSet) -> bool
    requires position { position ≤ length schemes.now }
    ensures earlier { IsTrue result → (k : ℕ) × (k < position)
        × ((d : AttrSet) → attributes (slice_index_or schemes.now k d) ≡ attributes scheme) }
{
    for k in 0..position {
        if schemes[k] == scheme {
            return true;
        }
    }
    false
}

// Whether a scheme passes the test of a form.
fn test_scheme(
    alloc: Global,
    schema: &Schema,
    form: TestedForm,
    scheme: AttrSet,
) -> Result<(), EarlyExit>
    requires within { IsSubset (attributes scheme) (universe_of schema.now) }
    ensures passes { IfOk result (λ _. PassesForm schema.now form (attributes scheme)) }
    ensures ends { IfErr result (ExitsAs (EndsForm schema.now form (attributes scheme))) }
{
    match tested_violation(&schema.theory(), scheme, form) {
        Ok(None) => Ok(()),
        Ok(Some(breach)) => Err(violation_exit(alloc, schema, form, scheme, breach)),
        Err(_) => Err(too_wide_exit(alloc, schema, scheme)),
    }
}

// Each scheme is in the form.
fn in_form_response(alloc: Global, form: TestedForm) -> Result<Response, OutOfMemory>
    ensures says { IfOk result (λ response. Says Status.Yes (in_form_text form)
        (response_value response)) }
{
    Ok(Response::with_text(
        Status::Yes,
        line_of(alloc, b"every scheme is in ", word_of_tested(form), b"")?,
    ))
}

/// The word of a form that a scheme is tested for.
pub fn word_of_tested(form: TestedForm) -> &'static [u8]
    ensures word { result.now ≡ tested_word form }
{
    match form {
        TestedForm::Second => b"2nf",
        TestedForm::Higher { form: higher } => word_of(higher),
    }
}

/// The word of a normal form.
pub fn word_of(form: Form) -> &'static [u8]
    ensures word { result.now ≡ form_word form }
{
    match form {
        Form::Third => b"3nf",
        Form::Bcnf => b"bcnf",
        Form::Fourth => b"4nf",
    }
}

// A scheme is not in the form.
fn violation_exit(
    alloc: Global,
    schema: &Schema,
    form: TestedForm,
    scheme: AttrSet,
    breach: Breach,
) -> EarlyExit
    ensures says { ExitsAs
        (Says Status.No
        (violated_text (printed_names_of schema.now) form (attributes scheme) (attributes breach.lhs)
        (attributes breach.rhs))) result }
{
    EarlyExit::with_text(
        Status::No,
        violation_lines(alloc, schema, form, scheme, breach),
    )
}

fn violation_lines(
    alloc: Global,
    schema: &Schema,
    form: TestedForm,
    scheme: AttrSet,
    breach: Breach,
) -> Result<Vec<u8>, OutOfMemory>
    ensures text { IfOk result
        (λ text. text.items ≡ violated_text (printed_names_of schema.now) form (attributes scheme)
        (attributes breach.lhs) (attributes breach.rhs)) }
{
    let mut text = scheme_line(alloc, schema, scheme)?;
    add(&mut text, &breach_line(alloc, schema, form, breach)?)?;
    Ok(text)
}

fn scheme_line(alloc: Global, schema: &Schema, scheme: AttrSet) -> Result<Vec<u8>, OutOfMemory>
    ensures text { IfOk result
        (λ text. text.items ≡ line (codes "scheme " ++ set_text (printed_names_of schema.now) (attributes scheme))) }
{
    let mut text = Vec::new(alloc);
    add(&mut text, b"scheme ")?;
    add_set(&mut text, schema, scheme)?;
    add(&mut text, b"\n")?;
    Ok(text)
}

fn breach_line(
    alloc: Global,
    schema: &Schema,
    form: TestedForm,
    breach: Breach,
) -> Result<Vec<u8>, OutOfMemory>
    ensures text { IfOk result (λ text. text.items ≡ line (codes "violated by "
        ++ dependency_text (printed_names_of schema.now)
        (tested_violation_of form (attributes breach.lhs) (attributes breach.rhs)))) }
{
    let mut text = Vec::new(alloc);
    add(&mut text, b"violated by ")?;
    add_dep(&mut text, schema, tested_dependency(form, breach))?;
    add(&mut text, b"\n")?;
    Ok(text)
}

/// A violation of a form that a scheme is tested for, as a dependency.
pub fn tested_dependency(form: TestedForm, breach: Breach) -> Dep
    ensures dep { dependency_of result
        ≡ tested_violation_of form (attributes breach.lhs) (attributes breach.rhs) }
{
    match form {
        TestedForm::Second => {
            let Breach { lhs, rhs } = breach;
            Dep::Fd { lhs, rhs }
        }
        TestedForm::Higher { form: higher } => violation_dependency(higher, breach),
    }
}

/// A violation, as a dependency.
pub fn violation_dependency(form: Form, breach: Breach) -> Dep
    ensures dep { dependency_of result
        ≡ violation_of form (attributes breach.lhs) (attributes breach.rhs) }
{
    let Breach { lhs, rhs } = breach;
    match form {
        Form::Third | Form::Bcnf => Dep::Fd { lhs, rhs },
        Form::Fourth => Dep::Mvd { lhs, rhs },
    }
}
