ghost use Rattle.std.specs.Prelude.{◌≡◌, IfOk, IfErr};
ghost use Rattle.schema_model.specs.Schemas.{width_of, theory_of, theory_in};
ghost use Rattle.schema_printer.specs.Spelling.{printed_names_of};
ghost use Rattle.split_forms.specs.Refusals.{IsRefusedSplit};
ghost use Rattle.plans.specs.Plans.{IsPlanOver, plan_of, scheme_sets};
ghost use Rattle.dep_model.specs.declared.form.Form.TheVariants as forms;
ghost use Rattle.desk_responses.specs.ResponseValues.{Says};
ghost use Rattle.desk_designs.specs.Decompositions.{FormStops, IsPlanInForm, IsSplitInForm, ShowsPlan, SplitStops};
ghost use Rattle.desk_designs.specs.Decompositions.{Splits, SplitsWide, too_many_schemes_text, wide_split_text};
ghost use Rattle.desk_responses.specs.Responses.{response_value, RespondsAs, ExitsAs};
ghost use Rattle.desk_designs.specs.Synthesis.{IsThirdFormPlan};

use byte_texts::add;
use dep_model::{Failure, Form, OutOfMemory};
use desk_responses::{EarlyExit, Response, Status, too_wide_exit};
use desk_texts::line_of;
use plan_printer::print_plan;
use plans::Plan;
use schema_model::Schema;
use split_forms::{SplitRefusal, split};
use std::alloc::Global;
use synthesis_3nf::synthesize;
use wide_bcnf::split_wide;

/// The most schemes of a list while it is split.
pub const MOST_SPLIT_SCHEMES: u32 = 4_096;

/// The plan of a normal form: by synthesis for third normal form, else by splitting.
pub fn plan_in_form(alloc: Global, schema: &Schema, form: Form) -> Result<Plan, EarlyExit>
    ensures ok { IfOk result (λ plan. IsPlanInForm schema.now form (scheme_sets plan)) }
    ensures universe { IfOk result (IsPlanOver (theory_in schema.now)) }
    ensures exit { IfErr result (ExitsAs (FormStops schema.now form)) }
{
    match form {
        Form::Third => Ok(third_form_plan(alloc, schema)?),
        Form::Bcnf => split_plan(alloc, schema, Form::Bcnf),
        Form::Fourth => split_plan(alloc, schema, Form::Fourth),
    }
}

/// A plan in third normal form that keeps the functional dependencies.
pub fn third_form_plan(alloc: Global, schema: &Schema) -> Result<Plan, OutOfMemory>
    ensures third { IfOk result (λ plan. IsThirdFormPlan schema.now (scheme_sets plan)) }
    ensures universe { IfOk result (IsPlanOver (theory_in schema.now)) }
{
    synthesize(alloc, &schema.theory(), schema.nullable())
}

// A plan in Boyce-Codd or fourth normal form.
fn split_plan(alloc: Global, schema: &Schema, form: Form) -> Result<Plan, EarlyExit>
    requires form { form ≡ forms.Third → ⊥ }
    ensures ok { IfOk result (λ plan. IsSplitInForm schema.now form (scheme_sets plan)) }
    ensures universe { IfOk result (IsPlanOver (theory_in schema.now)) }
    ensures exit { IfErr result (ExitsAs (SplitStops schema.now form)) }
{
    match split(alloc, &schema.theory(), form, MOST_SPLIT_SCHEMES) {
        Ok(plan) => Ok(plan),
        Err(Failure::Refused(refusal)) => Err(split_exit(alloc, schema, refusal)),
        Err(Failure::OutOfMemory) => Err(EarlyExit::OutOfMemory),
    }
}

/// A split in Boyce-Codd or fourth normal form is refused.
pub fn split_exit(alloc: Global, schema: &Schema, refusal: SplitRefusal) -> EarlyExit
    requires refused { (form : Form) × (form ≡ forms.Third → ⊥)
        × IsRefusedSplit (width_of schema.now) (theory_of schema.now) form MOST_SPLIT_SCHEMES refusal }
    ensures exit { (form : Form)
        → IsRefusedSplit (width_of schema.now) (theory_of schema.now) form MOST_SPLIT_SCHEMES refusal
        → ExitsAs (SplitStops schema.now form) result }
{
    match refusal {
        SplitRefusal::TooWide { scheme } => too_wide_exit(alloc, schema, scheme),
        SplitRefusal::TooManySchemes => too_many_schemes_exit(alloc),
    }
}

// The splitting comes to too many schemes.
fn too_many_schemes_exit(alloc: Global) -> EarlyExit
    ensures says { ExitsAs (Says Status.Refused too_many_schemes_text) result }
{
    EarlyExit::with_text(Status::Refused, too_many_schemes_line(alloc))
}

fn too_many_schemes_line(alloc: Global) -> Result<Vec<u8>, OutOfMemory>
    ensures line { IfOk result (λ text. text.items ≡ too_many_schemes_text) }
{
    line_of(alloc, b"refused: too many schemes", b"", b"")
}

/// The plan of a normal form, as text.
pub fn split_in_form(alloc: Global, schema: &Schema, form: Form) -> Result<Response, EarlyExit>
    ensures response { RespondsAs (Splits schema.now form) result }
{
    let plan = match plan_in_form(alloc, schema, form) {
        Ok(plan) => plan,
        Err(exit) => return Err(exit),
    };
    Ok(response_of(alloc, schema, &plan)?)
}

// A plan as text.
fn response_of(alloc: Global, schema: &Schema, plan: &Plan) -> Result<Response, OutOfMemory>
    requires universe { IsPlanOver (theory_in schema.now) plan.now }
    ensures response { IfOk result (λ response. ShowsPlan schema.now (scheme_sets plan.now)
        (response_value response)) }
{
    Ok(Response::with_text(Status::Yes, print_plan(alloc, schema, plan)?))
}

/// A plan in Boyce-Codd normal form, at any width, as text.
pub fn split_by_pairs(alloc: Global, schema: &Schema) -> Result<Response, EarlyExit>
    ensures response { RespondsAs (SplitsWide schema.now) result }
{
    Ok(wide_split_response(alloc, schema)?)
}

fn wide_split_response(alloc: Global, schema: &Schema) -> Result<Response, OutOfMemory>
    ensures response { IfOk result (λ response. SplitsWide schema.now (response_value response)) }
{
    let plan = split_wide(alloc, &schema.theory())?;
    Ok(Response::with_text(Status::Yes, wide_split_lines(alloc, schema, &plan)?))
}

fn wide_split_lines(alloc: Global, schema: &Schema, plan: &Plan) -> Result<Vec<u8>, OutOfMemory>
    requires universe { IsPlanOver (theory_in schema.now) plan.now }
    ensures text { IfOk result (λ text. text.items ≡ wide_split_text (printed_names_of schema.now) (plan_of plan.now)) }
{
    let mut text = line_of(alloc, b"# a scheme in form may have been cut", b"", b"")?;
    add(&mut text, &print_plan(alloc, schema, plan)?)?;
    Ok(text)
}
