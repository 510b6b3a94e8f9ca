ghost use Rattle.std.specs.Prelude.{◌≡◌, ℕ, ◌+◌, ◌<◌, ◌≤◌, ◌^◌, ◌++◌, Ok, IfOk, OnOk, decimal};
ghost use Rattle.attr_sets.specs.Attributes.{IsSubset};
ghost use Rattle.attr_sets.specs.Sets.{attributes};
ghost use Rattle.dep_model.specs.Dependencies.{Dependency};
ghost use Rattle.dep_model.specs.Deps.{dependency_of, IsDepWithin};
ghost use Rattle.schema_model.specs.Schemas.{universe_of, theory_in};
ghost use Rattle.schema_printer.specs.Spelling.{printed_names_of};
ghost use Rattle.derivation.specs.Trees.{nodes, depth};
ghost use Rattle.derivation.specs.Derivs.{tree_of, leaf_of, step_of, pair_of};
ghost use Rattle.derivation.specs.Table.{leaf_conclusion, step_conclusion, pair_conclusion};
ghost use Rattle.derivation.specs.Conclusions.{Proves};
ghost use Rattle.schema_printer.specs.Printing.{set_text, dependency_text};
ghost use Rattle.proof_text.specs.Views.{body_of, line_of};
ghost use Rattle.proof_grammar.specs.Printing.{step_word, sides_text, pair_word, body_text, certificate_line_text};
ghost use Rattle.proof_grammar.specs.Printing.{leaf_body, numbered_line, node_lines_after, certificate_lines_text};
ghost use Rattle.proof_grammar.specs.Printing.{canonical_certificate, IsProof, IsStepWithin, IsBodyWithin};

use crate::line::{Body, Line};
use attr_sets::AttrSet;
use byte_texts::{add, add_number};
use dep_model::{Dep, OutOfMemory};
use derivation::{
    Deriv, LeafRule, MOST_LEVELS, MOST_NODES, PairRule, StepRule, leaf_conclusion, pair_conclusion,
    step_conclusion,
};
use schema_model::Schema;
use schema_printer::{add_dep, add_set};
use std::alloc::Global;

/// A derivation as a certificate: a line for each node, in post-order and numbered from 1. Each line
/// states what its node concludes, and names the rule and the lines of the premises.
pub fn print_proof(alloc: Global, schema: &Schema, deriv: &Deriv) -> Result<Vec<u8>, OutOfMemory>
    requires proof { IsProof schema.now (tree_of deriv.now) }
    requires nodes_within_limit { nodes (tree_of deriv.now) ≤ MOST_NODES }
    requires levels_within_limit { depth (tree_of deriv.now) ≤ MOST_LEVELS }
    ensures text { IfOk result (λ text. text.items ≡ canonical_certificate schema.now (tree_of deriv.now)) }
{
    let mut text = Vec::new(alloc);
    let mut printed = 0;
    add_lines(&mut text, alloc, schema, deriv, &mut printed)?;
    Ok(text)
}

// Adds the lines of a derivation, whose nodes are numbered after those that are printed, and gives
// what it concludes.
fn add_lines(
    text: &mut Vec<u8>,
    alloc: Global,
    schema: &Schema,
    deriv: &Deriv,
    printed: &mut u32,
) -> Result<Dep, OutOfMemory>
    requires proof { IsProof schema.now (tree_of deriv.now) }
    requires fits_u32 { printed.old + nodes (tree_of deriv.now) < 2 ^ 32 }
    ensures added { OnOk result (text.new.items
        ≡ text.old.items ++ certificate_lines_text (printed_names_of schema.now)
        (node_lines_after schema.now printed.old (tree_of deriv.now))) }
    ensures printed { OnOk result (printed.new ≡ printed.old + nodes (tree_of deriv.now)) }
    ensures proves { IfOk result (λ d. Proves (theory_in schema.now) (tree_of deriv.now) (dependency_of d)) }
{
    match deriv {
        Deriv::Leaf(rule) => {
            let stated = stated_by_leaf(schema, *rule);
            add_node(text, alloc, schema, stated, body_of_leaf(*rule), printed)
        }
        Deriv::Step(rule, premise) => {
            let from = add_lines(text, alloc, schema, premise, printed)?;
            let p = *printed;
            let stated = stated_by_step(schema, *rule, from);
            add_node(text, alloc, schema, stated, Body::Step(*rule, p), printed)
        }
        Deriv::Pair(rule, first, second) => {
            let left = add_lines(text, alloc, schema, first, printed)?;
            let p = *printed;
            let right = add_lines(text, alloc, schema, second, printed)?;
            let q = *printed;
            let stated = stated_by_pair(*rule, left, right);
            let body = Body::Pair(*rule, p, q);
            add_node(text, alloc, schema, stated, body, printed)
        }
    }
}

// Adds the line of a node after those that are printed, and gives what it states.
fn add_node(
    text: &mut Vec<u8>,
    alloc: Global,
    schema: &Schema,
    stated: Dep,
    body: Body,
    printed: &mut u32,
) -> Result<Dep, OutOfMemory>
    requires stated { IsDepWithin (universe_of schema.now) stated }
    requires body { IsBodyWithin (universe_of schema.now) (body_of body) }
    requires fits_u32 { printed.old + 1 < 2 ^ 32 }
    ensures added { OnOk result (text.new.items
        ≡ text.old.items ++ certificate_line_text (printed_names_of schema.now)
        (numbered_line (printed.old + 1) (dependency_of stated) (body_of body))) }
    ensures printed { OnOk result (printed.new ≡ printed.old + 1) }
    ensures stated { IfOk result (λ d. d ≡ stated) }
{
    *printed += 1;
    let line = Line {
        number: *printed,
        stated,
        body,
    };
    add_line(text, alloc, schema, &line)?;
    Ok(stated)
}

// What a node without premises states.
fn stated_by_leaf(schema: &Schema, rule: LeafRule) -> Dep
    requires concludes { (d : Dependency) × (leaf_conclusion (theory_in schema.now) (leaf_of rule) ≡ Ok d) }
    ensures stated { leaf_conclusion (theory_in schema.now) (leaf_of rule) ≡ Ok (dependency_of result) }
{
    match leaf_conclusion(&schema.theory(), rule) {
        Ok(stated) => stated,
        Err(_) => unreachable!(),
    }
}

// What a node with one premise states.
fn stated_by_step(schema: &Schema, rule: StepRule, from: Dep) -> Dep
    requires concludes { (d : Dependency) × (step_conclusion (theory_in schema.now) (step_of rule)
        (dependency_of from) ≡ Ok d) }
    ensures stated { step_conclusion (theory_in schema.now) (step_of rule) (dependency_of from)
        ≡ Ok (dependency_of result) }
{
    match step_conclusion(&schema.theory(), rule, from) {
        Ok(stated) => stated,
        Err(_) => unreachable!(),
    }
}

// What a node with two premises states.
fn stated_by_pair(rule: PairRule, first: Dep, second: Dep) -> Dep
    requires concludes { (d : Dependency)
        × (pair_conclusion (pair_of rule) (dependency_of first) (dependency_of second) ≡ Ok d) }
    ensures stated { pair_conclusion (pair_of rule) (dependency_of first) (dependency_of second)
        ≡ Ok (dependency_of result) }
{
    match pair_conclusion(rule, first, second) {
        Ok(stated) => stated,
        Err(_) => unreachable!(),
    }
}

/// The line's body of a rule without premises.
pub fn body_of_leaf(rule: LeafRule) -> Body
    ensures body { body_of result ≡ leaf_body (leaf_of rule) }
{
    match rule {
        LeafRule::Given(k) => Body::Given(k as u32 + 1),
        LeafRule::Reflexivity { .. } => Body::Reflexivity,
        LeafRule::MReflexivity { .. } => Body::MReflexivity,
    }
}

#[tactic(auto, unfolding(proof_grammar::specs::Printing::certificate_line_text))]
fn add_line(
    text: &mut Vec<u8>,
    alloc: Global,
    schema: &Schema,
    line: &Line,
) -> Result<(), OutOfMemory>
    requires stated { IsDepWithin (universe_of schema.now) line.now.stated }
    requires body { IsBodyWithin (universe_of schema.now) (body_of line.now.body) }
    ensures added { OnOk result (text.new.items
        ≡ text.old.items ++ certificate_line_text (printed_names_of schema.now) (line_of line.now)) }
{
    add_number(text, alloc, line.number)?;
    add(text, b": ")?;
    add_dep(text, schema, line.stated)?;
    add(text, b" : ")?;
    add_body(text, alloc, schema, line.body)?;
    add(text, b"\n")
}

/// Adds a rule with the lines of its premises and its sets.
#[tactic(auto, unfolding(proof_grammar::specs::Printing::body_text))]
pub fn add_body(
    text: &mut Vec<u8>,
    alloc: Global,
    schema: &Schema,
    body: Body,
) -> Result<(), OutOfMemory>
    requires body { IsBodyWithin (universe_of schema.now) (body_of body) }
    ensures added { OnOk result (text.new.items
        ≡ text.old.items ++ body_text (printed_names_of schema.now) (body_of body)) }
{
    match body {
        Body::Given(k) => {
            add(text, b"given ")?;
            add_number(text, alloc, k)
        }
        Body::Reflexivity => add(text, b"reflexivity"),
        Body::MReflexivity => add(text, b"mreflexivity"),
        Body::Step(rule, p) => {
            add_step_word(text, rule)?;
            add_number(text, alloc, p)?;
            add_sides(text, schema, rule)
        }
        Body::Pair(rule, p, q) => {
            add_pair_word(text, rule)?;
            add_number(text, alloc, p)?;
            add(text, b" ")?;
            add_number(text, alloc, q)
        }
    }
}

#[tactic(auto, unfolding(proof_grammar::specs::Printing::step_word))]
fn add_step_word(text: &mut Vec<u8>, rule: StepRule) -> Result<(), OutOfMemory>
    ensures added { OnOk result (text.new.items ≡ text.old.items ++ step_word (step_of rule)) }
{
    match rule {
        StepRule::Augmentation { .. } => add(text, b"augmentation "),
        StepRule::Complementation => add(text, b"complementation "),
        StepRule::MAugmentation { .. } => add(text, b"maugmentation "),
        StepRule::Replication => add(text, b"replication "),
    }
}

fn add_sides(text: &mut Vec<u8>, schema: &Schema, rule: StepRule) -> Result<(), OutOfMemory>
    requires rule { IsStepWithin (universe_of schema.now) (step_of rule) }
    ensures added { OnOk result (text.new.items
        ≡ text.old.items ++ sides_text (printed_names_of schema.now) (step_of rule)) }
{
    match rule {
        StepRule::Augmentation { by } => {
            add(text, b" with ")?;
            add_set(text, schema, by)
        }
        StepRule::MAugmentation { wide, narrow } => {
            add(text, b" with ")?;
            add_set(text, schema, wide)?;
            add(text, b" : ")?;
            add_set(text, schema, narrow)
        }
        StepRule::Complementation | StepRule::Replication => Ok(()),
    }
}

#[tactic(auto, unfolding(proof_grammar::specs::Printing::pair_word))]
fn add_pair_word(text: &mut Vec<u8>, rule: PairRule) -> Result<(), OutOfMemory>
    ensures added { OnOk result (text.new.items ≡ text.old.items ++ pair_word (pair_of rule)) }
{
    match rule {
        PairRule::Transitivity => add(text, b"transitivity "),
        PairRule::MTransitivity => add(text, b"mtransitivity "),
        PairRule::Coalescence => add(text, b"coalescence "),
    }
}
