ghost use Rattle.std.specs.Prelude.{◌≡◌, ◌++◌, All, IfOk, OnOk};
ghost use Rattle.attr_sets.specs.Attributes.{IsSubset};
ghost use Rattle.attr_sets.specs.Sets.{attributes};
ghost use Rattle.closure_steps.specs.Steps.{closure_step_value, closure_step_values};
ghost use Rattle.schema_model.specs.Schemas.{universe_of};
ghost use Rattle.schema_printer.specs.Spelling.{printed_names_of};
ghost use Rattle.desk_implication.specs.Closures.{GivesClosure, TellsClosure, ComesAbout, IsBesideText, closure_text};
ghost use Rattle.desk_implication.specs.Closures.{step_text, steps_text};
ghost use Rattle.desk_responses.specs.Responses.{response_value, RespondsAs};

use arguments::Argument;
use attr_sets::AttrSet;
use byte_texts::add;
use closure_steps::{ClosureStep, closure_steps};
use dep_basis::closure;
use dep_model::OutOfMemory;
use desk_arguments::set_of;
use desk_responses::{EarlyExit, Response, Status, put_dep, put_line, put_set_line};
use schema_model::Schema;
use schema_printer::add_set;
use std::alloc::Global;

/// How the closure of a set comes about, step by step.
pub fn give_closure(alloc: Global, schema: &Schema, set: &Argument) -> Result<Response, EarlyExit>
    ensures response { RespondsAs (GivesClosure schema.now set.now) result }
{
    let start = match set_of(alloc, schema, set) {
        Ok(start) => start,
        Err(exit) => return Err(exit),
    };
    Ok(tell_closure(alloc, schema, start)?)
}

// The answer to a set.
fn tell_closure(alloc: Global, schema: &Schema, start: AttrSet) -> Result<Response, OutOfMemory>
    requires within { IsSubset (attributes start) (universe_of schema.now) }
    ensures response { IfOk result (λ response. TellsClosure schema.now (attributes start)
        (response_value response)) }
{
    let text = closure_lines(alloc, schema, start)?;
    Ok(Response::with_text(Status::Yes, text))
}

// A set, the steps of its closure, what is beside them, and its closed set.
fn closure_lines(alloc: Global, schema: &Schema, start: AttrSet) -> Result<Vec<u8>, OutOfMemory>
    requires within { IsSubset (attributes start) (universe_of schema.now) }
    ensures text { IfOk result (λ text. ComesAbout schema.now (attributes start) text.items) }
{
    let theory = schema.theory();
    let found = closure_steps(alloc, &theory, start)?;
    let closed = closure(&theory, start);
    let beside = beside_line(alloc, schema, closed.difference(found.reached))?;
    let text = print_closure(alloc, schema, start, &found.steps, &beside, closed)?;
    Ok(text)
}

// A line for what multivalued dependencies give beside the steps, where that is something.
fn beside_line(alloc: Global, schema: &Schema, beside: AttrSet) -> Result<Vec<u8>, OutOfMemory>
    requires within { IsSubset (attributes beside) (universe_of schema.now) }
    ensures text { IfOk result (λ text.
        IsBesideText (printed_names_of schema.now) (attributes beside) text.items) }
{
    let mut text = Vec::new(alloc);
    if beside.is_empty() {
        return Ok(text);
    }
    put_set_line(&mut text, schema, b"by multivalued dependencies: ", beside)?;
    Ok(text)
}

fn print_closure(
    alloc: Global,
    schema: &Schema,
    start: AttrSet,
    steps: &[ClosureStep],
    beside: &[u8],
    closed: AttrSet,
) -> Result<Vec<u8>, OutOfMemory>
    requires start { IsSubset (attributes start) (universe_of schema.now) }
    requires closed { IsSubset (attributes closed) (universe_of schema.now) }
    requires steps { All (λ step. IsSubset (attributes step.added) (universe_of schema.now)) steps.now }
    ensures text { IfOk result (λ text. text.items
        ≡ closure_text schema.now (attributes start) (closure_step_values steps.now) beside.now (attributes closed)) }
{
    let mut text = Vec::new(alloc);
    put_set_line(&mut text, schema, b"start ", start)?;
    put_steps(alloc, &mut text, schema, steps)?;
    add(&mut text, beside)?;
    put_set_line(&mut text, schema, b"closure ", closed)?;
    Ok(text)
}

// A line for each step, at the end of a text.
fn put_steps(
    alloc: Global,
    text: &mut Vec<u8>,
    schema: &Schema,
    steps: &[ClosureStep],
) -> Result<(), OutOfMemory>
    requires within { All (λ step. IsSubset (attributes step.added) (universe_of schema.now)) steps.now }
    ensures added { OnOk result (text.new.items
        ≡ text.old.items ++ steps_text schema.now (closure_step_values steps.now)) }
{
    for step in steps {
        add(text, &step_line(alloc, schema, *step)?)?;
    }
    Ok(())
}

// The dependency of a step, with its line, and what it adds.
fn step_line(alloc: Global, schema: &Schema, step: ClosureStep) -> Result<Vec<u8>, OutOfMemory>
    requires within { IsSubset (attributes step.added) (universe_of schema.now) }
    ensures text { IfOk result (λ text. text.items ≡ step_text schema.now (closure_step_value step)) }
{
    let mut text = Vec::new(alloc);
    add(&mut text, b"line ")?;
    put_line(alloc, &mut text, schema, step.dep as usize)?;
    add(&mut text, b": ")?;
    put_dep(&mut text, schema, step.dep as usize)?;
    add(&mut text, b" adds ")?;
    add_set(&mut text, schema, step.added)?;
    add(&mut text, b"\n")?;
    Ok(text)
}
