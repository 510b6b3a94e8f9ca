ghost use Rattle.std.specs.Prelude.{◌≡◌, ◌++◌, codes, IfOk, OnOk};
ghost use Rattle.std.specs.Fmt.{decimal};
ghost use Rattle.schema_model.specs.Schemas.{universe_of};
ghost use Rattle.schema_printer.specs.Spelling.{printed_names_of};
ghost use Rattle.dep_model.specs.Deps.{dependency_of, IsDepWithin};
ghost use Rattle.derivation.specs.FaultTexts.{fault_number, fault_text};
ghost use Rattle.proof_grammar.specs.Diagnostics.{states_other, diagnostic_of, line_diagnostic_of, IsRefusalWithin};
ghost use Rattle.proof_grammar.specs.RefusalTexts.{diagnostic_text, position_text};
ghost use Rattle.desk_refusals.specs.ProofTexts.{proof_refusal_text, derivation_refusal_text, refused_line_text};

use byte_texts::{add, add_number};
use dep_model::{Dep, OutOfMemory};
use derivation::FaultKind;
use desk_texts::add_displayed;
use proof_grammar::{ProofRefusal, ProofRefusalKind};
use schema_model::Schema;
use schema_printer::print_dep;
use std::alloc::Global;

/// The line that words a refusal of a certificate.
pub fn proof_refusal_line(
    alloc: Global,
    schema: &Schema,
    name: &[u8],
    refusal: ProofRefusal,
) -> Result<Vec<u8>, OutOfMemory>
    requires within { IsRefusalWithin (universe_of schema.now) refusal.kind }
    ensures text { IfOk result
        (λ text. text.items
        ≡ proof_refusal_text (printed_names_of schema.now) name.now (line_diagnostic_of refusal)) }
{
    refused_line(alloc, b"refused: proof ", schema, name, refusal)
}

/// The line that words a refusal of a derivation.
pub fn derivation_refusal_line(
    alloc: Global,
    schema: &Schema,
    name: &[u8],
    refusal: ProofRefusal,
) -> Result<Vec<u8>, OutOfMemory>
    requires within { IsRefusalWithin (universe_of schema.now) refusal.kind }
    ensures text { IfOk result
        (λ text. text.items
        ≡ derivation_refusal_text (printed_names_of schema.now) name.now (line_diagnostic_of refusal)) }
{
    refused_line(alloc, b"refused: derivation ", schema, name, refusal)
}

/// A refusal after these words.
fn refused_line(
    alloc: Global,
    words: &[u8],
    schema: &Schema,
    name: &[u8],
    refusal: ProofRefusal,
) -> Result<Vec<u8>, OutOfMemory>
    requires within { IsRefusalWithin (universe_of schema.now) refusal.kind }
    ensures text { IfOk result
        (λ text. text.items
        ≡ refused_line_text words.now (printed_names_of schema.now) name.now
        (line_diagnostic_of refusal)) }
{
    let mut text = Vec::new(alloc);
    add(&mut text, words)?;
    add_number(&mut text, alloc, refusal.kind.number())?;
    add(&mut text, b" at ")?;
    add(&mut text, name)?;
    add(&mut text, b":")?;
    put_position(alloc, &mut text, refusal)?;
    add(&mut text, b" ")?;
    put_reason(alloc, &mut text, schema, refusal.kind)?;
    add(&mut text, b"\n")?;
    Ok(text)
}

/// The place of a refusal, at the end of a text.
fn put_position(alloc: Global, text: &mut Vec<u8>, refusal: ProofRefusal) -> Result<(), OutOfMemory>
    ensures added { OnOk result (text.new.items
        ≡ text.old.items ++ position_text refusal.line (diagnostic_of refusal.kind)) }
{
    match refusal.kind {
        ProofRefusalKind::BadLine(bad) => add_displayed(text, alloc, &bad.span),
        _ => add_number(text, alloc, refusal.line),
    }
}

/// The reason of a refusal, at the end of a text.
fn put_reason(
    alloc: Global,
    text: &mut Vec<u8>,
    schema: &Schema,
    kind: ProofRefusalKind,
) -> Result<(), OutOfMemory>
    requires within { IsRefusalWithin (universe_of schema.now) kind }
    ensures added { OnOk result (text.new.items
        ≡ text.old.items ++ diagnostic_text (printed_names_of schema.now) (diagnostic_of kind)) }
{
    match kind {
        ProofRefusalKind::BadLine(bad) => add_displayed(text, alloc, &bad.kind),
        ProofRefusalKind::WrongNumber => add(text, b"wrong number"),
        ProofRefusalKind::NoSuchLine => add(text, b"no such line"),
        ProofRefusalKind::UsedTwice => add(text, b"line used twice"),
        ProofRefusalKind::NeverUsed => add(text, b"line never used"),
        ProofRefusalKind::TooManyLines => add(text, b"too many lines"),
        ProofRefusalKind::TooDeep => add(text, b"too deep"),
        ProofRefusalKind::Unsound(fault) => put_fault(alloc, text, fault.kind),
        ProofRefusalKind::StatesOther { stated, concluded } => put_states(
            alloc, text, schema, stated, concluded,
        ),
        ProofRefusalKind::EmptyProof => add(text, b"empty proof"),
    }
}

/// What a line states and what it concludes, at the end of a text.
fn put_states(
    alloc: Global,
    text: &mut Vec<u8>,
    schema: &Schema,
    stated: Dep,
    concluded: Dep,
) -> Result<(), OutOfMemory>
    requires stated { IsDepWithin (universe_of schema.now) stated }
    requires concluded { IsDepWithin (universe_of schema.now) concluded }
    ensures added { OnOk result (text.new.items
        ≡ text.old.items ++ diagnostic_text (printed_names_of schema.now)
        (states_other (dependency_of stated) (dependency_of concluded))) }
{
    let mut reason = Vec::new(alloc);
    add(&mut reason, b"line states ")?;
    add(&mut reason, &print_dep(alloc, schema, stated)?)?;
    add(&mut reason, b" but concludes ")?;
    add(&mut reason, &print_dep(alloc, schema, concluded)?)?;
    add(text, &reason)
}

/// Why a rule does not apply, at the end of a text.
fn put_fault(alloc: Global, text: &mut Vec<u8>, kind: FaultKind) -> Result<(), OutOfMemory>
    ensures added { OnOk result (text.new.items
        ≡ text.old.items ++ (codes "rule does not apply: " ++ decimal (fault_number kind) ++ codes " "
        ++ fault_text kind)) }
{
    let mut reason = Vec::new(alloc);
    add(&mut reason, b"rule does not apply: ")?;
    add_number(&mut reason, alloc, kind.number())?;
    add(&mut reason, b" ")?;
    add_displayed(&mut reason, alloc, &kind)?;
    add(text, &reason)
}
