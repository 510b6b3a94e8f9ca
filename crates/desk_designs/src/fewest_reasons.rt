ghost use Rattle.std.specs.Prelude.{◌≡◌, ◌++◌, [], if◌then◌else◌, map, drop, codes, IfOk, OnOk};
ghost use Rattle.std.specs.List.{flat_map};
ghost use Rattle.attr_sets.specs.Sets.{attributes};
ghost use Rattle.dep_model.specs.Deps.{dependency_of, dependencies_of};
ghost use Rattle.dep_model.specs.Plans.{schemes_of};
ghost use Rattle.plans.specs.Containing.{without_contained};
ghost use Rattle.schema_printer.specs.Spelling.{printed_names_of};
ghost use Rattle.synthesis_3nf.specs.Groups.{left_sides_after};
ghost use Rattle.fewest_tables.specs.FewestSteps.{group_with, groups_in};
ghost use Rattle.fewest_tables.specs.MergedPlans.{is_among, left_out};
ghost use Rattle.desk_responses.specs.Responses.{response_value, RespondsAs};
ghost use Rattle.desk_texts.specs.Texts.{line};
ghost use Rattle.desk_designs.specs.FewestReasons.{ExplainsFewest, alike_text, fewer_text, following_text};
ghost use Rattle.desk_designs.specs.FewestReasons.{joined_sets, left_sides_word, merged_text, merging_text, next_set};
ghost use Rattle.desk_designs.specs.SynthesisReasons.{synthesis_text};

use crate::left_out::put_left_out;
use crate::synthesis_reasons::{print_reasons, put_added, put_cover};
use attr_sets::AttrSet;
use byte_texts::add;
use dep_model::{Dep, OutOfMemory};
use desk_responses::{EarlyExit, Response, Status};
use fd_closure::KnownClosure;
use fewest_tables::{
    FewestSteps, Grouping, fewest_steps, group_with, is_among, merged_plan, merged_scheme,
    smaller_plan,
};
use plan_printer::print_plan;
use schema_model::Schema;
use schema_printer::{add_dep, add_set};
use std::alloc::Global;
use synthesis_3nf::{SynthesisSteps, plan_of_steps};

/// The plan with the fewest schemes, below how it comes about: the cover, which left sides
/// determine each other, which members follow from that and from the others, the schemes of the
/// groups, which of them are left out, and the key that is added; and where `synthesize` has fewer
/// schemes, how its plan comes about.
pub fn explain_fewest(alloc: Global, schema: &Schema) -> Result<Response, EarlyExit>
    ensures response { RespondsAs (ExplainsFewest schema.now) result }
{
    Ok(explained_fewest(alloc, schema)?)
}

fn explained_fewest(alloc: Global, schema: &Schema) -> Result<Response, OutOfMemory>
    ensures response { IfOk result (λ response. ExplainsFewest schema.now (response_value response)) }
{
    let theory = schema.theory();
    let steps = fewest_steps(alloc, &theory, schema.nullable())?;
    let merged = merged_plan(alloc, &theory, &steps)?;
    let plain = plan_of_steps(alloc, &theory, &steps.plain)?;
    let mut text = print_reasons_of(alloc, schema, &steps, merged.schemes(), plain.schemes())?;
    let plan = smaller_plan(merged, plain);
    let printed = print_plan(alloc, schema, &plan)?;
    add(&mut text, &printed)?;
    Ok(Response::with_text(Status::Yes, text))
}

// How the merged plan comes about; and where `synthesize` has fewer schemes, how its plan does.
fn print_reasons_of(
    alloc: Global,
    schema: &Schema,
    steps: &FewestSteps,
    merged: &[AttrSet],
    plain: &[AttrSet],
) -> Result<Vec<u8>, OutOfMemory>
    requires merged { merged.now ≡ without_contained steps.now.schemes.items }
    requires plain { plain.now ≡ without_contained steps.now.plain.schemes.items }
    requires lefts { schemes_of steps.now.plain.lefts.items
        ≡ left_sides_after [] (dependencies_of steps.now.plain.cover.items) }
    ensures text { IfOk result (λ text. text.items
        ≡ merging_text (printed_names_of schema.now) (dependencies_of steps.now.plain.cover.items)
        (groups_in steps.now.groups) (dependencies_of steps.now.kept.items) steps.now.schemes.items
        ++ fewer_text (printed_names_of schema.now) (dependencies_of steps.now.plain.cover.items)
        steps.now.schemes.items steps.now.plain.schemes.items) }
{
    let mut text = print_merging(alloc, schema, steps, merged)?;
    if plain.len() < merged.len() {
        put_plain(alloc, &mut text, schema, &steps.plain, plain)?;
    }
    Ok(text)
}

// How the plan of `synthesize` comes about, since it has fewer schemes, at the end of a text.
fn put_plain(
    alloc: Global,
    text: &mut Vec<u8>,
    schema: &Schema,
    steps: &SynthesisSteps,
    kept: &[AttrSet],
) -> Result<(), OutOfMemory>
    requires kept { kept.now ≡ without_contained steps.now.schemes.items }
    requires lefts { schemes_of steps.now.lefts.items
        ≡ left_sides_after [] (dependencies_of steps.now.cover.items) }
    ensures added { OnOk result (text.new.items ≡ text.old.items
        ++ (line (codes "# synthesize has fewer") ++ synthesis_text (printed_names_of schema.now)
        (dependencies_of steps.now.cover.items) steps.now.schemes.items)) }
{
    add(text, b"# synthesize has fewer\n")?;
    let reasons = print_reasons(alloc, schema, steps, kept)?;
    add(text, &reasons)?;
    Ok(())
}

// How the merged plan comes about.
fn print_merging(
    alloc: Global,
    schema: &Schema,
    steps: &FewestSteps,
    merged: &[AttrSet],
) -> Result<Vec<u8>, OutOfMemory>
    requires merged { merged.now ≡ without_contained steps.now.schemes.items }
    ensures text { IfOk result (λ text. text.items
        ≡ merging_text (printed_names_of schema.now) (dependencies_of steps.now.plain.cover.items)
        (groups_in steps.now.groups) (dependencies_of steps.now.kept.items) steps.now.schemes.items) }
{
    let mut text = Vec::new(alloc);
    put_cover(&mut text, schema, &steps.plain.cover)?;
    put_alike(alloc, &mut text, schema, &steps.groups)?;
    put_following(&mut text, schema, &steps.kept, &steps.plain.cover)?;
    put_merged(alloc, &mut text, schema, &steps.kept, &steps.groups)?;
    put_left_out(&mut text, schema, &steps.schemes, merged)?;
    put_added(&mut text, schema, &steps.schemes, steps.groups.firsts.len())?;
    Ok(text)
}

// A line for each group of several left sides, at the end of a text.
fn put_alike(
    alloc: Global,
    text: &mut Vec<u8>,
    schema: &Schema,
    groups: &Grouping,
) -> Result<(), OutOfMemory>
    ensures added { OnOk result (text.new.items ≡ text.old.items
        ++ flat_map (alike_text (printed_names_of schema.now)) (groups_in groups.now)) }
{
    put_alike_of(alloc, text, schema, &groups.lefts, &groups.firsts)
}

fn put_alike_of(
    alloc: Global,
    text: &mut Vec<u8>,
    schema: &Schema,
    lefts: &[KnownClosure],
    firsts: &[KnownClosure],
) -> Result<(), OutOfMemory>
    ensures added { OnOk result (text.new.items ≡ text.old.items
        ++ flat_map (alike_text (printed_names_of schema.now)) (map (group_with lefts.now) firsts.now)) }
{
    for first in firsts {
        put_alike_with(alloc, text, schema, lefts, *first)?;
    }
    Ok(())
}

fn put_alike_with(
    alloc: Global,
    text: &mut Vec<u8>,
    schema: &Schema,
    lefts: &[KnownClosure],
    first: KnownClosure,
) -> Result<(), OutOfMemory>
    ensures added { OnOk result (text.new.items ≡ text.old.items
        ++ alike_text (printed_names_of schema.now) (group_with lefts.now first)) }
{
    let group = group_with(alloc, lefts, first)?;
    put_alike_group(text, schema, &group)
}

fn put_alike_group(
    text: &mut Vec<u8>,
    schema: &Schema,
    group: &[AttrSet],
) -> Result<(), OutOfMemory>
    ensures added { OnOk result (text.new.items ≡ text.old.items
        ++ alike_text (printed_names_of schema.now) (schemes_of group.now)) }
{
    if group.len() <= 1 {
        return Ok(());
    }
    add(text, b"# alike: ")?;
    put_sets(text, schema, group)?;
    add(text, b"\n")
}

// Sets with ` and ` between them, at the end of a text.
fn put_sets(text: &mut Vec<u8>, schema: &Schema, sets: &[AttrSet]) -> Result<(), OutOfMemory>
    ensures added { OnOk result (text.new.items ≡ text.old.items
        ++ joined_sets (printed_names_of schema.now) (schemes_of sets.now)) }
{
    if sets.is_empty() {
        return Ok(());
    }
    add_set(text, schema, sets[0])?;
    put_more_sets(text, schema, sets)?;
    Ok(())
}

// The sets of a list but the first, each after ` and `, at the end of a text.
fn put_more_sets(text: &mut Vec<u8>, schema: &Schema, sets: &[AttrSet]) -> Result<(), OutOfMemory>
    ensures added { OnOk result (text.new.items ≡ text.old.items
        ++ flat_map (next_set (printed_names_of schema.now)) (drop 1 (schemes_of sets.now))) }
{
    for k in 1..sets.len() {
        put_next_set(text, schema, sets[k])?;
    }
    Ok(())
}

fn put_next_set(text: &mut Vec<u8>, schema: &Schema, set: AttrSet) -> Result<(), OutOfMemory>
    ensures added { OnOk result (text.new.items
        ≡ text.old.items ++ next_set (printed_names_of schema.now) (attributes set)) }
{
    add(text, b" and ")?;
    add_set(text, schema, set)
}

// A line for each member of a cover that is not kept, at the end of a text.
fn put_following(
    text: &mut Vec<u8>,
    schema: &Schema,
    kept: &[Dep],
    cover: &[Dep],
) -> Result<(), OutOfMemory>
    ensures added { OnOk result (text.new.items ≡ text.old.items
        ++ flat_map (following_text (printed_names_of schema.now))
        (left_out (dependencies_of kept.now) (dependencies_of cover.now))) }
{
    for dep in cover {
        put_if_following(text, schema, kept, *dep)?;
    }
    Ok(())
}

fn put_if_following(
    text: &mut Vec<u8>,
    schema: &Schema,
    kept: &[Dep],
    dep: Dep,
) -> Result<(), OutOfMemory>
    ensures added { OnOk result (text.new.items ≡ text.old.items
        ++ (if is_among (dependencies_of kept.now) (dependency_of dep) then []
        else following_text (printed_names_of schema.now) (dependency_of dep))) }
{
    if is_among(kept, dep) {
        return Ok(());
    }
    put_member_following(text, schema, dep)
}

fn put_member_following(text: &mut Vec<u8>, schema: &Schema, dep: Dep) -> Result<(), OutOfMemory>
    ensures added { OnOk result (text.new.items
        ≡ text.old.items ++ following_text (printed_names_of schema.now) (dependency_of dep)) }
{
    add(text, b"# cover: ")?;
    add_dep(text, schema, dep)?;
    add(text, b" follows from the others and from what is alike\n")
}

// A line for each group of left sides, with its scheme, at the end of a text.
fn put_merged(
    alloc: Global,
    text: &mut Vec<u8>,
    schema: &Schema,
    kept: &[Dep],
    groups: &Grouping,
) -> Result<(), OutOfMemory>
    ensures added { OnOk result (text.new.items ≡ text.old.items
        ++ flat_map (merged_text (printed_names_of schema.now) (dependencies_of kept.now))
        (groups_in groups.now)) }
{
    put_merged_of(alloc, text, schema, kept, &groups.lefts, &groups.firsts)
}

fn put_merged_of(
    alloc: Global,
    text: &mut Vec<u8>,
    schema: &Schema,
    kept: &[Dep],
    lefts: &[KnownClosure],
    firsts: &[KnownClosure],
) -> Result<(), OutOfMemory>
    ensures added { OnOk result (text.new.items ≡ text.old.items
        ++ flat_map (merged_text (printed_names_of schema.now) (dependencies_of kept.now))
        (map (group_with lefts.now) firsts.now)) }
{
    for first in firsts {
        put_merged_with(alloc, text, schema, kept, lefts, *first)?;
    }
    Ok(())
}

fn put_merged_with(
    alloc: Global,
    text: &mut Vec<u8>,
    schema: &Schema,
    kept: &[Dep],
    lefts: &[KnownClosure],
    first: KnownClosure,
) -> Result<(), OutOfMemory>
    ensures added { OnOk result (text.new.items ≡ text.old.items
        ++ merged_text (printed_names_of schema.now) (dependencies_of kept.now) (group_with lefts.now first)) }
{
    let group = group_with(alloc, lefts, first)?;
    put_merged_group(text, schema, kept, &group)
}

fn put_merged_group(
    text: &mut Vec<u8>,
    schema: &Schema,
    kept: &[Dep],
    group: &[AttrSet],
) -> Result<(), OutOfMemory>
    ensures added { OnOk result (text.new.items ≡ text.old.items
        ++ merged_text (printed_names_of schema.now) (dependencies_of kept.now) (schemes_of group.now)) }
{
    put_left_sides_word(text, group)?;
    put_sets(text, schema, group)?;
    add(text, b": scheme ")?;
    add_set(text, schema, merged_scheme(kept, group))?;
    add(text, b"\n")
}

fn put_left_sides_word(text: &mut Vec<u8>, group: &[AttrSet]) -> Result<(), OutOfMemory>
    ensures added { OnOk result (text.new.items
        ≡ text.old.items ++ left_sides_word (schemes_of group.now)) }
{
    if group.len() > 1 {
        add(text, b"# left sides ")
    } else {
        add(text, b"# left side ")
    }
}
