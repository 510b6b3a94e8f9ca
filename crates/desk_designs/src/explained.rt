//! Plans of normal forms, with how they come about.

ghost use Rattle.std.specs.Prelude.{◌≡◌, ◌++◌, All, IfOk, IfErr};
ghost use Rattle.dep_model.specs.Dependencies.{functional_part};
ghost use Rattle.dep_model.specs.Deps.{dependencies_of, IsDepWithin};
ghost use Rattle.min_cover.specs.Covers.{IsFixedWholeCover, IsMinimalCover};
ghost use Rattle.plan_printer.specs.Printing.{plan_text};
ghost use Rattle.plans.specs.Plans.{IsPlanOver, plan_of, scheme_sets};
ghost use Rattle.schema_model.specs.Schemas.{width_of, theory_of, theory_in, universe_of};
ghost use Rattle.schema_printer.specs.Spelling.{printed_names_of};
ghost use Rattle.desk_designs.specs.Decompositions.{FormStops, IsPlanInForm};
ghost use Rattle.desk_designs.specs.SplitReasons.{AreReasonsInForm};
ghost use Rattle.desk_responses.specs.ResponseValues.{Says};
ghost use Rattle.desk_responses.specs.Responses.{ExitsAs, response_value};

use crate::split_reasons::explained_split;
use crate::synthesis_reasons::explained_third_form;
use byte_texts::add;
use dep_model::{Dep, Form, OutOfMemory};
use desk_responses::{EarlyExit, Response, Status};
use plan_printer::print_plan;
use plans::Plan;
use schema_model::Schema;
use std::alloc::Global;

/// A plan, with how it comes about as text.
#[derive(Debug, Drop)]
pub struct ExplainedPlan {
    pub plan: Plan,
    pub reasons: Vec<u8>,
}

/// The plan of a normal form, with how it comes about. That of third form is made of the whole cover of the schema.
pub fn explained_plan(
    alloc: Global,
    schema: &Schema,
    form: Form,
    whole: &[Dep],
) -> Result<ExplainedPlan, EarlyExit>
    requires fixed { IsFixedWholeCover (width_of schema.now) (theory_of schema.now)
        (dependencies_of whole.now) }
    requires minimal { IsMinimalCover (width_of schema.now) (theory_of schema.now)
        (functional_part (dependencies_of whole.now)) }
    requires within { All (IsDepWithin (universe_of schema.now)) whole.now }
    ensures ok { IfOk result (λ found. IsPlanInForm schema.now form (scheme_sets found.plan)) }
    ensures universe { IfOk result (λ found. IsPlanOver (theory_in schema.now) found.plan) }
    ensures reasons { IfOk result (λ found. AreReasonsInForm schema.now form found.reasons.items) }
    ensures exit { IfErr result (ExitsAs (FormStops schema.now form)) }
{
    match form {
        Form::Third => Ok(explained_third_form(alloc, schema, whole)?),
        Form::Bcnf => explained_split(alloc, schema, Form::Bcnf),
        Form::Fourth => explained_split(alloc, schema, Form::Fourth),
    }
}

/// A plan as text, below how it comes about.
pub fn print_explained(
    alloc: Global,
    schema: &Schema,
    found: &ExplainedPlan,
) -> Result<Vec<u8>, OutOfMemory>
    requires universe { IsPlanOver (theory_in schema.now) found.now.plan }
    ensures text { IfOk result (λ text. text.items ≡ found.now.reasons.items
        ++ plan_text (printed_names_of schema.now) (plan_of found.now.plan)) }
{
    let plain = print_plan(alloc, schema, &found.plan)?;
    let mut text = Vec::from_slice(alloc, &found.reasons)?;
    add(&mut text, &plain)?;
    Ok(text)
}

// Yes, with such a text.
pub fn explained_response(
    alloc: Global,
    schema: &Schema,
    found: &ExplainedPlan,
) -> Result<Response, OutOfMemory>
    requires universe { IsPlanOver (theory_in schema.now) found.now.plan }
    ensures says { IfOk result (λ response. Says Status.Yes (found.now.reasons.items
        ++ plan_text (printed_names_of schema.now) (plan_of found.now.plan)) (response_value response)) }
{
    Ok(Response::with_text(Status::Yes, print_explained(alloc, schema, found)?))
}
