ghost use Rattle.std.specs.Prelude.{◌≡◌, ◌≤◌, ◌++◌, [], length, IfOk};
ghost use Rattle.std.specs.Fmt.{decimal};
ghost use Rattle.dep_model.specs.Projections.{Covers};
ghost use Rattle.schema_model.specs.Schemas.{width_of, theory_of, theory_in};
ghost use Rattle.design_order.specs.Order.{AreNamesInOrder};
ghost use Rattle.schema_printer.specs.Spelling.{printed_names_of};
ghost use Rattle.plan_printer.specs.NamedPlans.{named_schemes};
ghost use Rattle.plans.specs.Plans.{plan_of, scheme_sets, IsPlanOver};
ghost use Rattle.plan_grammar.specs.RefusalTexts.{plan_reason_text};
ghost use Rattle.plans.specs.declared.bounds.TheConstants.{MOST_SCHEMES};
ghost use Rattle.plan_grammar.specs.declared.refusal.PlanRefusal.TheVariants as refusals;
ghost use Rattle.desk_inputs.specs.FileCalls.{OpensFile};
ghost use Rattle.desk_inputs.specs.Plans.{plan_file, plan_refusal_text};

use crate::read::open_file;
use arguments::Argument;
use byte_texts::{add, add_number};
use dep_model::{Failure, OutOfMemory};
use design_order::names_in_design_order;
use desk_outside::FileSource;
use desk_responses::{EarlyExit, Status, put_name};
use desk_texts::add_displayed;
use plan_printer::NamedPlan;
use plan_reader::{MOST_PLAN_BYTES, PlanRefusal, read_plan};
use schema_model::Schema;
use schema_reader::SchemaRefusal;
use std::alloc::Global;

/// The plan of a file, with the names of its tables in the order in which a design has these.
pub fn open_plan<F: FileSource>(
    alloc: Global,
    source: &mut F,
    schema: &Schema,
    name: &Argument,
) -> Result<NamedPlan, EarlyExit>
    ensures opens { OpensFile F.FileSource source.old source.new (plan_file schema.now) name.now
        (λ plan. named_schemes plan) result }
    ensures universe { IfOk result (λ plan. IsPlanOver (theory_in schema.now) plan.plan) }
    ensures within_limit { IfOk result (λ plan. length (plan_of plan.plan) ≤ MOST_SCHEMES) }
    ensures covers { IfOk result (λ plan. Covers (width_of schema.now) (plan_of plan.plan)) }
{
    let bytes = match open_file(alloc, source, name, MOST_PLAN_BYTES) {
        Ok(bytes) => bytes,
        Err(exit) => return Err(exit),
    };
    match read_plan(alloc, schema, &bytes) {
        Ok(plan) => Ok(in_order(alloc, schema, plan)?),
        Err(Failure::Refused(refusal)) => Err(EarlyExit::with_text(
            Status::Refused,
            plan_refusal_line(alloc, schema, name.bytes(), refusal),
        )),
        Err(Failure::OutOfMemory) => Err(EarlyExit::OutOfMemory),
    }
}

// A plan with the names of its tables in the order in which a design has these.
fn in_order(alloc: Global, schema: &Schema, read: NamedPlan) -> Result<NamedPlan, OutOfMemory>
    requires universe { IsPlanOver (theory_in schema.now) read.plan }
    requires beside { length read.names.items ≡ length (scheme_sets read.plan) }
    ensures plan { IfOk result (λ plan. plan.plan ≡ read.plan) }
    ensures order { IfOk result (λ plan. AreNamesInOrder (width_of schema.now) (theory_of schema.now)
        (plan_of read.plan) read.names.items plan.names.items) }
{
    let names = names_in_design_order(alloc, &schema.theory(), &read.plan, &read.names)?;
    Ok(NamedPlan {
        plan: read.plan,
        names,
    })
}

// The line that words a refusal of a plan.
fn plan_refusal_line(
    alloc: Global,
    schema: &Schema,
    name: &[u8],
    refusal: PlanRefusal,
) -> Result<Vec<u8>, OutOfMemory>
    ensures text { IfOk result (λ text.
        text.items ≡ plan_refusal_text (printed_names_of schema.now) name.now refusal) }
{
    let mut text = Vec::new(alloc);
    add(&mut text, b"refused: plan ")?;
    add_number(&mut text, alloc, refusal.number())?;
    add(&mut text, b" at ")?;
    add(&mut text, name)?;
    add(&mut text, b":")?;
    add(&mut text, &plan_reason(alloc, schema, refusal)?)?;
    add(&mut text, b"\n")?;
    Ok(text)
}

// The place of a refusal and its reason in words.
fn plan_reason(alloc: Global, schema: &Schema, refusal: PlanRefusal) -> Result<Vec<u8>, OutOfMemory>
    ensures text { IfOk result (λ text. text.items ≡ plan_reason_text (printed_names_of schema.now) refusal) }
{
    match refusal {
        PlanRefusal::Text(refusal) => text_reason(alloc, refusal),
        PlanRefusal::EmptyScheme { line } => line_reason(alloc, line, b" empty scheme"),
        PlanRefusal::NotCovered { attribute } => uncovered_reason(alloc, schema, attribute),
        PlanRefusal::TooManySchemes { line } => line_reason(alloc, line, b" too many schemes"),
    }
}

// A line, a column and a reason.
fn text_reason(alloc: Global, refusal: SchemaRefusal) -> Result<Vec<u8>, OutOfMemory>
    ensures text { IfOk result (λ text. text.items ≡ plan_reason_text [] (refusals.Text refusal)) }
{
    let mut text = Vec::new(alloc);
    add_displayed(&mut text, alloc, &refusal)?;
    Ok(text)
}

// A line and a reason.
fn line_reason(alloc: Global, line: u32, reason: &[u8]) -> Result<Vec<u8>, OutOfMemory>
    ensures text { IfOk result (λ text. text.items ≡ decimal line ++ reason.now) }
{
    let mut text = Vec::new(alloc);
    add_number(&mut text, alloc, line)?;
    add(&mut text, reason)?;
    Ok(text)
}

// An attribute that is in no scheme.
fn uncovered_reason(alloc: Global, schema: &Schema, attribute: u8) -> Result<Vec<u8>, OutOfMemory>
    ensures text { IfOk result
        (λ text. text.items ≡ plan_reason_text (printed_names_of schema.now) (refusals.NotCovered attribute)) }
{
    let mut text = Vec::new(alloc);
    add(&mut text, b" ")?;
    put_name(&mut text, schema, attribute)?;
    add(&mut text, b" is in no scheme")?;
    Ok(text)
}
