ghost use Rattle.lexer.specs.Tokens.{bytes_of};
ghost use Rattle.std.specs.Prelude.{◌≡◌, ◌+◌, ◌<◌, ◌≤◌, ◌^◌, length, IfOk, IfErr, Ok, Err};
ghost use Rattle.tokens.specs.Views.{rest_of};
ghost use Rattle.derivation.specs.Derivs.{tree_of};
ghost use Rattle.dep_model.specs.Failures.{RefusesAs};
ghost use Rattle.schema_model.specs.Schemas.{universe_of, theory_in};
ghost use Rattle.proof_grammar.specs.ValidStates.{IsCheckerState};
ghost use Rattle.proof_text.specs.Views.{checker_state_of};
ghost use Rattle.dep_model.specs.Deps.{dependency_of, IsDepWithin};
ghost use Rattle.derivation.specs.Conclusions.{Proves};
ghost use Rattle.proof_grammar.specs.Refusals.{RefusesProof};
ghost use Rattle.proof_grammar.specs.Spelling.{SpellsWithin};
ghost use Rattle.proof_grammar.specs.Checked.{IsChecked};
ghost use Rattle.proof_grammar.specs.Diagnostics.{IsFound, IsRefusalWithin};
ghost use Rattle.proof_grammar.specs.Texts.{is_yes, is_blank_from, read_one};

use crate::checker_state::CheckerState;
use crate::line::read_line;
use crate::node::Concluded;
use dep_model::Failure;
use lexer::{Mode, TokenKind, Word, cut_line, without_mark};
use proof_grammar::{ProofRefusal, ProofRefusalKind};
use schema_model::Schema;
use std::alloc::Global;
use tokens::{Cursor, Guide, Names, NextToken};

/// The most bytes of a certificate.
pub const MOST_PROOF_BYTES: usize = 268_435_456;

/// The derivation that a certificate spells, within the limits on lines and levels, and the dependency
/// that it concludes, or its refusal: the first line that goes wrong, and there the first diagnostic in
/// the order of `ProofRefusalKind`, but that an unused line is reported at the text's end.
pub fn read_concluded(
    alloc: Global,
    schema: &Schema,
    text: &[u8],
) -> Result<Concluded, Failure<ProofRefusal>>
    requires { length text.now ≤ MOST_PROOF_BYTES }
    ensures ok { IfOk result (λ read. SpellsWithin schema.now text.now (tree_of read.deriv.value)) }
    ensures concludes { IfOk result
        (λ read. Proves (theory_in schema.now) (tree_of read.deriv.value) (dependency_of read.dep)) }
    // It proves a dependency, within the limits of a certificate.
    ensures checked { IfOk result (λ read. IsChecked schema.now (tree_of read.deriv.value)) }
    ensures dep { IfOk result (λ read. IsDepWithin (universe_of schema.now) read.dep) }
    ensures err { IfErr result (RefusesAs (RefusesProof schema.now text.now)) }
    // The dependencies that it names can be printed.
    ensures within { IfErr result
        (RefusesAs (λ refusal. IsRefusalWithin (universe_of schema.now) refusal.kind)) }
{
    let guide = Guide::of(schema);
    let mut state = CheckerState::new(alloc);
    let mut fresh = true;
    let mut number = 1;
    let mut rest = without_mark(text);
    'lines: loop {
        let (line, after) = cut_line(rest);
        match read_one(alloc, schema, &guide, &mut state, fresh, number, line) {
            Err(Failure::Refused(kind)) => {
                return Err(Failure::Refused(ProofRefusal { line: number, kind }));
            }
            Err(Failure::OutOfMemory) => return Err(Failure::OutOfMemory),
            Ok(still_fresh) => match after {
                None => {
                    return match state.finish(number) {
                        Ok(read) => Ok(read),
                        Err(refusal) => Err(Failure::Refused(refusal)),
                    };
                }
                Some(lines) => {
                    fresh = still_fresh;
                    rest = lines;
                    number += 1;
                }
            },
        }
    }
}

/// Reads one line of the text. Whether a `yes` may still come is handed in and answered.
#[tactic(auto, unfolding(proof_grammar::specs::Texts::read_one, proof_grammar::specs::Texts::line_kind,
// the first token says what the line is, and is taken as its number
proof_grammar::specs::Lines::line_by, schema_grammar::specs::Rests::take))]
fn read_one(
    alloc: Global,
    schema: &Schema,
    guide: &Guide,
    state: &mut CheckerState,
    fresh: bool,
    number: u32,
    text: &[u8],
) -> Result<bool, Failure<ProofRefusalKind>>
    requires fits_u32 { 1 + length text.now < 2 ^ 32 }
    requires checker_state { IsCheckerState schema.now (checker_state_of state.old) }
    ensures ok { IfOk result
        (λ still. read_one schema.now fresh number (checker_state_of state.old) text.now
        ≡ Ok (still, checker_state_of state.new)) }
    ensures err { IfErr result
        (RefusesAs (λ why. IsFound why (read_one schema.now fresh number
        (checker_state_of state.old) text.now))) }
    ensures within { IfErr result (RefusesAs (IsRefusalWithin (universe_of schema.now))) }
{
    let start = Cursor::start(number, Mode::numbered(schema.naming()), text);
    match start.next() {
        NextToken::End => Ok(fresh),
        NextToken::Refusal(refusal) => Err(Failure::Refused(ProofRefusalKind::BadLine(refusal))),
        NextToken::Token(first, word, rest) => {
            // A text that `implies` printed begins with a line `yes`, which is passed over.
            if fresh && is_yes(first.kind, &word) && is_blank(rest) {
                return Ok(false);
            }
            match read_line(&Names::Guided(schema, guide), first, &word, rest) {
                Err(refusal) => Err(Failure::Refused(ProofRefusalKind::BadLine(refusal))),
                Ok(line) => {
                    state.enter(alloc, schema, number, &line)?;
                    Ok(false)
                }
            }
        }
    }
}

/// Whether no token stands in the rest of a line.
pub fn is_blank(rest: Cursor<'_>) -> bool
    ensures exact { result ≡ is_blank_from (rest_of rest.entry).marks (rest_of rest.entry).stop }
{
    match rest.next() {
        NextToken::End => true,
        NextToken::Refusal(_) => false,
        NextToken::Token(_, _, _) => false,
    }
}

/// Whether a token is the word `yes`, in lower case.
#[tactic(auto, unfolding(proof_grammar::specs::Texts::is_yes))]
pub fn is_yes(kind: TokenKind, word: &Word<'_>) -> bool
    ensures exact { result ≡ is_yes kind (bytes_of word.now) }
{
    match kind {
        TokenKind::Identifier => word.bytes().as_slice() == b"yes".as_slice(),
        _ => false,
    }
}
