ghost use Rattle.std.specs.Prelude.{◌≡◌, ◌+◌, ◌<◌, ◌≤◌, ◌^◌, length, IfOk, IfErr, OnOk, Ok};
ghost use Rattle.attr_sets.specs.Attributes.{Attributes};
ghost use Rattle.dep_model.specs.Failures.{RefusesAs};
ghost use Rattle.proof_grammar.specs.Diagnostics.{IsFound, IsFoundAt, IsRefusalWithin};
ghost use Rattle.derivation_grammar.specs.Meanings.{MeansDerivation};
ghost use Rattle.derivation_grammar.specs.Refusals.{RefusesDerivation};
ghost use Rattle.derivation_grammar.specs.Texts.{read_one, finished};
ghost use Rattle.derivation_text.specs.Views.{derivation_lines_of};

use crate::adding::add_line;
use crate::line::{DerivationLine, read_line};
use dep_model::Failure;
use lexer::{Mode, cut_line, without_mark};
use proof_grammar::{ProofRefusal, ProofRefusalKind};
use proof_text::{MOST_PROOF_BYTES, is_blank, is_yes};
use schema_model::Schema;
use std::alloc::Global;
use tokens::{Cursor, Guide, Names, NextToken};

/// The lines of which a text is a derivation, within the limit, or its refusal: the first line that goes
/// wrong, and there the first diagnostic in the order of `ProofRefusalKind`. What the rules of the lines
/// give is not looked at.
pub fn read_derivation(
    alloc: Global,
    schema: &Schema,
    text: &[u8],
) -> Result<Vec<DerivationLine>, Failure<ProofRefusal>>
    requires { length text.now ≤ MOST_PROOF_BYTES }
    ensures ok { IfOk result
        (λ lines. MeansDerivation schema.now text.now (derivation_lines_of lines.items)) }
    ensures err { IfErr result (RefusesAs (RefusesDerivation schema.now text.now)) }
    // A refusal names no dependency.
    ensures within { (u : Attributes)
        → IfErr result (RefusesAs (λ refusal. IsRefusalWithin u refusal.kind)) }
{
    let guide = Guide::of(schema);
    let mut before = Vec::new(alloc);
    let mut fresh = true;
    let mut number = 1;
    let mut rest = without_mark(text);
    'lines: loop {
        let (line, after) = cut_line(rest);
        match read_one(schema, &guide, &mut before, fresh, number, line) {
            Err(Failure::Refused(kind)) => {
                return Err(Failure::Refused(ProofRefusal { line: number, kind }));
            }
            Err(Failure::OutOfMemory) => return Err(Failure::OutOfMemory),
            Ok(still_fresh) => match after {
                None => {
                    return match finish(before, number) {
                        Ok(lines) => Ok(lines),
                        Err(refusal) => Err(Failure::Refused(refusal)),
                    };
                }
                Some(lines) => {
                    fresh = still_fresh;
                    rest = lines;
                    number += 1;
                }
            },
        }
    }
}

/// The lines of a text that ends with line `last`, if there is one.
#[tactic(auto, unfolding(derivation_grammar::specs::Texts::finished))]
fn finish(before: Vec<DerivationLine>, last: u32) -> Result<Vec<DerivationLine>, ProofRefusal>
    ensures ok { IfOk result
        (λ lines. finished last (derivation_lines_of before.items) ≡ Ok (derivation_lines_of lines.items)) }
    ensures err { IfErr result
        (λ e. IsFoundAt e (finished last (derivation_lines_of before.items))) }
    ensures within { (u : Attributes) → IfErr result (λ e. IsRefusalWithin u e.kind) }
{
    if before.is_empty() {
        let kind = ProofRefusalKind::EmptyProof;
        return Err(ProofRefusal { line: last, kind });
    }
    Ok(before)
}

/// Reads one line of the text. Whether a `yes` may still come is handed in and answered.
#[tactic(auto, unfolding(derivation_grammar::specs::Texts::read_one, proof_grammar::specs::Texts::line_kind,
// the first token says what the line is, and is taken as its number
proof_grammar::specs::Lines::line_by, schema_grammar::specs::Rests::take))]
fn read_one(
    schema: &Schema,
    guide: &Guide,
    before: &mut Vec<DerivationLine>,
    fresh: bool,
    number: u32,
    text: &[u8],
) -> Result<bool, Failure<ProofRefusalKind>>
    requires fits_u32 { 1 + length text.now < 2 ^ 32 }
    ensures ok { IfOk result
        (λ still. read_one schema.now fresh number (derivation_lines_of before.old.items) text.now
        ≡ Ok (still, derivation_lines_of before.new.items)) }
    ensures err { IfErr result
        (RefusesAs (λ why. IsFound why (read_one schema.now fresh number
        (derivation_lines_of before.old.items) text.now))) }
    ensures within { (u : Attributes) → IfErr result (RefusesAs (IsRefusalWithin u)) }
{
    let start = Cursor::start(number, Mode::numbered(schema.naming()), text);
    match start.next() {
        NextToken::End => Ok(fresh),
        NextToken::Refusal(refusal) => Err(Failure::Refused(ProofRefusalKind::BadLine(refusal))),
        NextToken::Token(first, word, rest) => {
            // A text that `implies` printed begins with a line `yes`, which is passed over.
            if fresh && is_yes(first.kind, &word) && is_blank(rest) {
                return Ok(false);
            }
            match read_line(&Names::Guided(schema, guide), first, &word, rest) {
                Err(refusal) => Err(Failure::Refused(ProofRefusalKind::BadLine(refusal))),
                Ok(line) => match add_line(before, line) {
                    Ok(()) => Ok(false),
                    Err(failure) => Err(failure),
                },
            }
        }
    }
}
