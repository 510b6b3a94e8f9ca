ghost use Rattle.std.specs.Prelude.{◌≡◌, ◌++◌, IfErr, IfOk, OnOk};
ghost use Rattle.std.specs.List.{flat_map};
ghost use Rattle.attr_sets.specs.Sets.{attributes};
ghost use Rattle.dep_model.specs.Plans.{schemes_of};
ghost use Rattle.schema_model.specs.Schemas.{width_of, theory_of, theory_in};
ghost use Rattle.dep_model.specs.declared.form.Form.TheVariants as forms;
ghost use Rattle.plans.specs.Containing.{without_contained};
ghost use Rattle.plans.specs.Plans.{IsPlanOver, scheme_sets};
ghost use Rattle.schema_printer.specs.Spelling.{printed_names_of};
ghost use Rattle.split_forms.specs.Refusals.{IsWithinLimits};
ghost use Rattle.split_forms.specs.Steps.{AreSplitSteps, cutting_of, cuttings_of};
ghost use Rattle.desk_designs.specs.declared.decomposition.TheConstants.{MOST_SPLIT_SCHEMES};
ghost use Rattle.desk_responses.specs.Responses.{ExitsAs, RespondsAs};
ghost use Rattle.desk_designs.specs.Decompositions.{IsSplitInForm, SplitStops};
ghost use Rattle.desk_designs.specs.SplitReasons.{AreSplitReasons, ExplainsCuts, ExplainsSplit, breach_text};
ghost use Rattle.desk_designs.specs.SplitReasons.{cut_text, pair_text, parts_text, split_text};

use crate::explained::{ExplainedPlan, explained_response};
use crate::left_out::put_left_out;
use crate::synthesis_reasons::explain_synthesis;
use crate::{MOST_SPLIT_SCHEMES, split_exit, violation_dependency, word_of};
use attr_sets::AttrSet;
use byte_texts::add;
use dep_model::{Failure, Form, OutOfMemory};
use desk_responses::{EarlyExit, Response};
use schema_model::Schema;
use schema_printer::{add_dep, add_set};
use split_forms::{SchemeCut, SplitSteps, plan_of_steps, split_steps};
use std::alloc::Global;

/// The plan of a normal form, below how it comes about: which scheme is cut at which violation, and which
/// of the schemes are left out at the end.
pub fn explain_split(alloc: Global, schema: &Schema, form: Form) -> Result<Response, EarlyExit>
    ensures response { RespondsAs (ExplainsSplit schema.now form) result }
{
    match form {
        Form::Third => explain_synthesis(alloc, schema),
        Form::Bcnf => explain_cuts(alloc, schema, Form::Bcnf),
        Form::Fourth => explain_cuts(alloc, schema, Form::Fourth),
    }
}

// The plan of Boyce-Codd or fourth normal form, below the cuts that lead to it.
fn explain_cuts(alloc: Global, schema: &Schema, form: Form) -> Result<Response, EarlyExit>
    requires form { form ≡ forms.Third → ⊥ }
    ensures response { RespondsAs (ExplainsCuts schema.now form) result }
{
    match explained_split(alloc, schema, form) {
        Ok(found) => Ok(explained_response(alloc, schema, &found)?),
        Err(exit) => Err(exit),
    }
}

/// The plan of Boyce-Codd or fourth normal form, with the cuts that lead to it.
pub fn explained_split(
    alloc: Global,
    schema: &Schema,
    form: Form,
) -> Result<ExplainedPlan, EarlyExit>
    requires form { form ≡ forms.Third → ⊥ }
    ensures split { IfOk result (λ found. IsSplitInForm schema.now form (scheme_sets found.plan)) }
    ensures universe { IfOk result (λ found. IsPlanOver (theory_in schema.now) found.plan) }
    ensures reasons { IfOk result (λ found. AreSplitReasons schema.now form found.reasons.items) }
    ensures exit { IfErr result (ExitsAs (SplitStops schema.now form)) }
{
    match split_steps(alloc, &schema.theory(), form, MOST_SPLIT_SCHEMES) {
        Ok(steps) => Ok(split_with_reasons(alloc, schema, &steps)?),
        Err(Failure::Refused(refusal)) => Err(split_exit(alloc, schema, refusal)),
        Err(Failure::OutOfMemory) => Err(EarlyExit::OutOfMemory),
    }
}

// The plan that the steps of a split lead to, with how it comes about.
fn split_with_reasons(
    alloc: Global,
    schema: &Schema,
    steps: &SplitSteps,
) -> Result<ExplainedPlan, OutOfMemory>
    requires form { steps.now.form ≡ forms.Third → ⊥ }
    requires steps { AreSplitSteps (width_of schema.now) (theory_of schema.now) steps.now.form
        (cuttings_of steps.now.cuts.items) (schemes_of steps.now.schemes.items) }
    requires within_limits { IsWithinLimits (width_of schema.now) (theory_of schema.now) steps.now.form
        MOST_SPLIT_SCHEMES }
    ensures split { IfOk result
        (λ found. IsSplitInForm schema.now steps.now.form (scheme_sets found.plan)) }
    ensures universe { IfOk result (λ found. IsPlanOver (theory_in schema.now) found.plan) }
    ensures reasons { IfOk result
        (λ found. AreSplitReasons schema.now steps.now.form found.reasons.items) }
{
    let plan = plan_of_steps(alloc, &schema.theory(), steps)?;
    let reasons = print_reasons(
        alloc,
        schema,
        steps.form,
        &steps.cuts,
        &steps.schemes,
        plan.schemes(),
    )?;
    Ok(ExplainedPlan { plan, reasons })
}

// How the split comes about.
fn print_reasons(
    alloc: Global,
    schema: &Schema,
    form: Form,
    cuts: &[SchemeCut],
    all: &[AttrSet],
    kept: &[AttrSet],
) -> Result<Vec<u8>, OutOfMemory>
    requires kept { kept.now ≡ without_contained all.now }
    ensures text { IfOk result (λ text. text.items ≡ split_text (printed_names_of schema.now) form
        (cuttings_of cuts.now) all.now) }
{
    let mut text = Vec::new(alloc);
    put_cuts(&mut text, schema, form, cuts)?;
    put_left_out(&mut text, schema, all, kept)?;
    Ok(text)
}

// The lines of cuts, at the end of a text.
fn put_cuts(
    text: &mut Vec<u8>,
    schema: &Schema,
    form: Form,
    cuts: &[SchemeCut],
) -> Result<(), OutOfMemory>
    ensures added { OnOk result (text.new.items ≡ text.old.items
        ++ flat_map (cut_text (printed_names_of schema.now) form) (cuttings_of cuts.now)) }
{
    for cut in cuts {
        put_cut(text, schema, form, *cut)?;
    }
    Ok(())
}

fn put_cut(
    text: &mut Vec<u8>,
    schema: &Schema,
    form: Form,
    cut: SchemeCut,
) -> Result<(), OutOfMemory>
    ensures added { OnOk result (text.new.items
        ≡ text.old.items ++ cut_text (printed_names_of schema.now) form (cutting_of cut)) }
{
    put_breach(text, schema, form, cut)?;
    put_parts(text, schema, cut)
}

// A scheme, and what violates the form on it, at the end of a text.
fn put_breach(
    text: &mut Vec<u8>,
    schema: &Schema,
    form: Form,
    cut: SchemeCut,
) -> Result<(), OutOfMemory>
    ensures added { OnOk result (text.new.items
        ≡ text.old.items ++ breach_text (printed_names_of schema.now) form (cutting_of cut)) }
{
    add(text, b"# scheme ")?;
    add_set(text, schema, cut.scheme)?;
    add(text, b": ")?;
    add_dep(text, schema, violation_dependency(form, cut.breach))?;
    add(text, b" violates ")?;
    add(text, word_of(form))?;
    add(text, b"\n")
}

// The two schemes that come in the place of one, at the end of a text.
fn put_parts(text: &mut Vec<u8>, schema: &Schema, cut: SchemeCut) -> Result<(), OutOfMemory>
    ensures added { OnOk result (text.new.items
        ≡ text.old.items ++ parts_text (printed_names_of schema.now) (cutting_of cut)) }
{
    let both = cut.breach.lhs.union(cut.breach.rhs);
    let rest = cut.scheme.difference(cut.breach.rhs);
    put_pair(text, schema, both, rest)
}

fn put_pair(
    text: &mut Vec<u8>,
    schema: &Schema,
    one: AttrSet,
    other: AttrSet,
) -> Result<(), OutOfMemory>
    ensures added { OnOk result (text.new.items ≡ text.old.items
        ++ pair_text (printed_names_of schema.now) (attributes one) (attributes other)) }
{
    add(text, b"# so scheme ")?;
    add_set(text, schema, one)?;
    add(text, b" and scheme ")?;
    add_set(text, schema, other)?;
    add(text, b"\n")
}
