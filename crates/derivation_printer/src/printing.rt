ghost use Rattle.std.specs.Prelude.{◌≡◌, ◌≤◌, ◌+◌, ◌++◌, [], OnOk, IfOk, length};
ghost use Rattle.schema_model.specs.Schemas.{universe_of, theory_in};
ghost use Rattle.derivation.specs.declared.measures.TheConstants.{MOST_NODES};
ghost use Rattle.derivation_rules.specs.Views.{further_of};
ghost use Rattle.schema_printer.specs.Spelling.{printed_names_of};
ghost use Rattle.short_derivations.specs.Inferences.{AreGiven};
ghost use Rattle.short_derivations.specs.Views.{why_of, line_of, lines_of};
ghost use Rattle.derivation_printer.specs.Printing.{body_of, numbered, further_word, derivation_body_text};
ghost use Rattle.derivation_printer.specs.Printing.{derivation_line_text, derivation_text, NumbersFit};
ghost use Rattle.derivation_printer.specs.Printing.{IsDerivationBodyWithin, IsLineWithin};

use byte_texts::{add, add_number};
use dep_model::OutOfMemory;
use derivation_rules::FurtherRule;
use proof_text::{Body, add_body, body_of_leaf};
use schema_model::Schema;
use schema_printer::add_dep;
use short_derivations::{Inference, Reason};
use std::alloc::Global;

/// A derivation as text: a line for each of its lines, numbered from 1.
pub fn print_derivation(
    alloc: Global,
    schema: &Schema,
    lines: &[Inference],
) -> Result<Vec<u8>, OutOfMemory>
    requires given { AreGiven (theory_in schema.now) [] (lines_of lines.now) }
    requires lines_within_limit { length lines.now ≤ MOST_NODES }
    ensures text { IfOk result (λ text. text.items ≡ derivation_text schema.now (lines_of lines.now)) }
{
    let mut text = Vec::new(alloc);
    for (k, line) in lines.iter().enumerate() {
        add_inference(&mut text, alloc, schema, k as u32 + 1, *line)?;
    }
    Ok(text)
}

// Adds a line with its number.
#[tactic(auto, unfolding(crate::specs::Printing::derivation_line_text))]
fn add_inference(
    text: &mut Vec<u8>,
    alloc: Global,
    schema: &Schema,
    number: u32,
    line: Inference,
) -> Result<(), OutOfMemory>
    requires within { IsLineWithin (universe_of schema.now) (line_of line) }
    ensures added { OnOk result (text.new.items ≡ text.old.items
        ++ derivation_line_text (printed_names_of schema.now) (numbered number (line_of line))) }
{
    add_number(text, alloc, number)?;
    add(text, b": ")?;
    add_dep(text, schema, line.stated)?;
    add(text, b" : ")?;
    add_reason(text, alloc, schema, line.reason)?;
    add(text, b"\n")
}

// Adds a rule with the lines of its premises and its sets.
#[tactic(auto, unfolding(crate::specs::Printing::derivation_body_text))]
fn add_reason(
    text: &mut Vec<u8>,
    alloc: Global,
    schema: &Schema,
    reason: Reason,
) -> Result<(), OutOfMemory>
    requires body { IsDerivationBodyWithin (universe_of schema.now) (body_of (why_of reason)) }
    requires numbers { NumbersFit (why_of reason) }
    ensures added { OnOk result (text.new.items ≡ text.old.items
        ++ derivation_body_text (printed_names_of schema.now) (body_of (why_of reason))) }
{
    match reason {
        Reason::Leaf(rule) => add_body(text, alloc, schema, body_of_leaf(rule)),
        Reason::Step(rule, p) => add_body(text, alloc, schema, Body::Step(rule, p + 1)),
        Reason::Pair(rule, p, q) => {
            add_body(text, alloc, schema, Body::Pair(rule, p + 1, q + 1))
        }
        Reason::Decomposition(p) => {
            add(text, b"decomposition ")?;
            add_number(text, alloc, p + 1)
        }
        Reason::Further(rule, p, q) => {
            add_further_word(text, rule)?;
            add_number(text, alloc, p + 1)?;
            add(text, b" ")?;
            add_number(text, alloc, q + 1)
        }
    }
}

// Adds the word of a further rule.
#[tactic(auto, unfolding(crate::specs::Printing::further_word))]
fn add_further_word(text: &mut Vec<u8>, rule: FurtherRule) -> Result<(), OutOfMemory>
    ensures added { OnOk result (text.new.items ≡ text.old.items ++ further_word (further_of rule)) }
{
    match rule {
        FurtherRule::Union => add(text, b"union "),
        FurtherRule::Pseudotransitivity => add(text, b"pseudotransitivity "),
        FurtherRule::Intersection => add(text, b"intersection "),
        FurtherRule::Difference => add(text, b"difference "),
        FurtherRule::MPseudotransitivity => add(text, b"mpseudotransitivity "),
    }
}
