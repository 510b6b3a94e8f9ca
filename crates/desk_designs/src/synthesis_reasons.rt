ghost use Rattle.std.specs.Prelude.{◌≡◌, [], ◌++◌, All, drop, length, IfOk, OnOk};
ghost use Rattle.std.specs.List.{flat_map};
ghost use Rattle.attr_sets.specs.Sets.{attributes};
ghost use Rattle.dep_model.specs.Dependencies.{functional_part};
ghost use Rattle.dep_model.specs.Deps.{dependency_of, dependencies_of, IsDepWithin};
ghost use Rattle.dep_model.specs.Plans.{schemes_of};
ghost use Rattle.min_cover.specs.Covers.{IsFixedWholeCover, IsMinimalCover};
ghost use Rattle.plans.specs.Containing.{without_contained};
ghost use Rattle.plans.specs.Plans.{IsPlanOver, scheme_sets};
ghost use Rattle.schema_model.specs.Schemas.{nullable_of, width_of, theory_of, theory_in, universe_of};
ghost use Rattle.schema_printer.specs.Spelling.{printed_names_of};
ghost use Rattle.desk_responses.specs.Responses.{response_value, RespondsAs};
ghost use Rattle.synthesis_3nf.specs.GroupedPlans.{AreSynthesisSteps};
ghost use Rattle.synthesis_3nf.specs.Groups.{left_sides_after};
ghost use Rattle.desk_designs.specs.Synthesis.{IsThirdFormPlan};
ghost use Rattle.desk_designs.specs.SynthesisReasons.{AreSynthesisReasons, ExplainsSynthesis, cover_text, group_text};
ghost use Rattle.desk_designs.specs.SynthesisReasons.{key_text, member_text, synthesis_text};

use crate::explained::{ExplainedPlan, explained_response};
use crate::left_out::put_left_out;
use attr_sets::AttrSet;
use byte_texts::add;
use dep_model::{Dep, OutOfMemory};
use desk_responses::{EarlyExit, Response};
use schema_model::Schema;
use schema_printer::{add_dep, add_set};
use std::alloc::Global;
use synthesis_3nf::{
    SynthesisSteps, group_scheme, plan_of_steps, steps_of_whole_cover, synthesis_steps,
};

/// A plan in third normal form, below how it comes about: the cover, the schemes of its left sides, which
/// of them are left out, and the key that is added.
pub fn explain_synthesis(alloc: Global, schema: &Schema) -> Result<Response, EarlyExit>
    ensures response { RespondsAs (ExplainsSynthesis schema.now) result }
{
    Ok(explained_synthesis(alloc, schema)?)
}

fn explained_synthesis(alloc: Global, schema: &Schema) -> Result<Response, OutOfMemory>
    ensures response { IfOk result (λ response. ExplainsSynthesis schema.now (response_value response)) }
{
    let steps = synthesis_steps(alloc, &schema.theory(), schema.nullable())?;
    let found = synthesis_with_reasons(alloc, schema, &steps)?;
    explained_response(alloc, schema, &found)
}

/// A plan in third normal form that is made of the whole cover of a schema, with how it comes about.
pub fn explained_third_form(
    alloc: Global,
    schema: &Schema,
    whole: &[Dep],
) -> Result<ExplainedPlan, OutOfMemory>
    requires fixed { IsFixedWholeCover (width_of schema.now) (theory_of schema.now)
        (dependencies_of whole.now) }
    requires minimal { IsMinimalCover (width_of schema.now) (theory_of schema.now)
        (functional_part (dependencies_of whole.now)) }
    requires within { All (IsDepWithin (universe_of schema.now)) whole.now }
    ensures third { IfOk result (λ found. IsThirdFormPlan schema.now (scheme_sets found.plan)) }
    ensures universe { IfOk result (λ found. IsPlanOver (theory_in schema.now) found.plan) }
    ensures reasons { IfOk result (λ found. AreSynthesisReasons schema.now found.reasons.items) }
{
    let steps = steps_of_whole_cover(alloc, &schema.theory(), schema.nullable(), whole)?;
    synthesis_with_reasons(alloc, schema, &steps)
}

// The plan that the steps of a synthesis lead to, with how it comes about.
fn synthesis_with_reasons(
    alloc: Global,
    schema: &Schema,
    steps: &SynthesisSteps,
) -> Result<ExplainedPlan, OutOfMemory>
    requires steps { AreSynthesisSteps (width_of schema.now) (theory_of schema.now) (nullable_of schema.now)
        (dependencies_of steps.now.cover.items) (schemes_of steps.now.schemes.items) }
    requires lefts { schemes_of steps.now.lefts.items
        ≡ left_sides_after [] (dependencies_of steps.now.cover.items) }
    requires minimal { IsMinimalCover (width_of schema.now) (theory_of schema.now)
        (dependencies_of steps.now.cover.items) }
    requires within { All (IsDepWithin (universe_of schema.now)) steps.now.cover.items }
    ensures third { IfOk result (λ found. IsThirdFormPlan schema.now (scheme_sets found.plan)) }
    ensures universe { IfOk result (λ found. IsPlanOver (theory_in schema.now) found.plan) }
    ensures reasons { IfOk result (λ found. AreSynthesisReasons schema.now found.reasons.items) }
{
    let plan = plan_of_steps(alloc, &schema.theory(), steps)?;
    let reasons = print_reasons(alloc, schema, steps, plan.schemes())?;
    Ok(ExplainedPlan { plan, reasons })
}

// How the plan comes about.
#[tactic(auto, using(crate::proofs::SynthesisTexts::text_is))]
pub fn print_reasons(
    alloc: Global,
    schema: &Schema,
    steps: &SynthesisSteps,
    kept: &[AttrSet],
) -> Result<Vec<u8>, OutOfMemory>
    requires kept { kept.now ≡ without_contained steps.now.schemes.items }
    requires lefts { schemes_of steps.now.lefts.items
        ≡ left_sides_after [] (dependencies_of steps.now.cover.items) }
    ensures text { IfOk result (λ text. text.items ≡ synthesis_text (printed_names_of schema.now)
        (dependencies_of steps.now.cover.items) steps.now.schemes.items) }
{
    let mut text = Vec::new(alloc);
    put_cover(&mut text, schema, &steps.cover)?;
    put_groups(&mut text, schema, &steps.cover, &steps.lefts)?;
    put_left_out(&mut text, schema, &steps.schemes, kept)?;
    put_added(&mut text, schema, &steps.schemes, steps.lefts.len())?;
    Ok(text)
}

// A line for each member of a cover, at the end of a text.
pub fn put_cover(text: &mut Vec<u8>, schema: &Schema, cover: &[Dep]) -> Result<(), OutOfMemory>
    ensures added { OnOk result (text.new.items
        ≡ text.old.items ++ cover_text (printed_names_of schema.now) (dependencies_of cover.now)) }
{
    for dep in cover {
        put_member(text, schema, *dep)?;
    }
    Ok(())
}

fn put_member(text: &mut Vec<u8>, schema: &Schema, dep: Dep) -> Result<(), OutOfMemory>
    ensures added { OnOk result (text.new.items
        ≡ text.old.items ++ member_text (printed_names_of schema.now) (dependency_of dep)) }
{
    add(text, b"# cover: ")?;
    add_dep(text, schema, dep)?;
    add(text, b"\n")
}

// A line for each left side of a cover, with its scheme, at the end of a text.
fn put_groups(
    text: &mut Vec<u8>,
    schema: &Schema,
    cover: &[Dep],
    lefts: &[AttrSet],
) -> Result<(), OutOfMemory>
    ensures added { OnOk result (text.new.items ≡ text.old.items
        ++ flat_map (group_text (printed_names_of schema.now) (dependencies_of cover.now))
        (schemes_of lefts.now)) }
{
    for left in lefts {
        put_group(text, schema, cover, *left)?;
    }
    Ok(())
}

fn put_group(
    text: &mut Vec<u8>,
    schema: &Schema,
    cover: &[Dep],
    left: AttrSet,
) -> Result<(), OutOfMemory>
    ensures added { OnOk result (text.new.items ≡ text.old.items
        ++ group_text (printed_names_of schema.now) (dependencies_of cover.now) (attributes left)) }
{
    add(text, b"# left side ")?;
    add_set(text, schema, left)?;
    add(text, b": scheme ")?;
    add_set(text, schema, group_scheme(cover, left))?;
    add(text, b"\n")
}

// A line for each scheme from a position of a list on, where a key is added, at the end of a text.
pub fn put_added(
    text: &mut Vec<u8>,
    schema: &Schema,
    all: &[AttrSet],
    from: usize,
) -> Result<(), OutOfMemory>
    ensures added { OnOk result (text.new.items ≡ text.old.items
        ++ flat_map (key_text (printed_names_of schema.now)) (drop from (schemes_of all.now))) }
{
    for k in from..all.len() {
        put_key(text, schema, all[k])?;
    }
    Ok(())
}

fn put_key(text: &mut Vec<u8>, schema: &Schema, key: AttrSet) -> Result<(), OutOfMemory>
    ensures added { OnOk result (text.new.items
        ≡ text.old.items ++ key_text (printed_names_of schema.now) (attributes key)) }
{
    add(text, b"# no scheme holds a key: scheme ")?;
    add_set(text, schema, key)?;
    add(text, b"\n")
}
