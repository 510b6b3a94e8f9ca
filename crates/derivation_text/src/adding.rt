ghost use Rattle.std.specs.Prelude.{◌≡◌, IfErr, OnOk, Ok};
ghost use Rattle.attr_sets.specs.Attributes.{Attributes};
ghost use Rattle.dep_model.specs.Failures.{RefusesAs};
ghost use Rattle.proof_grammar.specs.Diagnostics.{IsFound, IsRefusalWithin};
ghost use Rattle.derivation_grammar.specs.Texts.{is_earlier, are_earlier, add_line};
ghost use Rattle.derivation_text.specs.Views.{body_of_line, derivation_line_of, derivation_lines_of};

use crate::line::{DerivationBody, DerivationLine};
use dep_model::Failure;
use derivation_grammar::MOST_NODES;
use proof_grammar::ProofRefusalKind;
use proof_text::Body;

/// Adds a line to those before, where it is numbered in its turn, names earlier lines, and is within the
/// limit. What its rule gives is not looked at.
#[tactic(auto, unfolding(derivation_grammar::specs::Texts::add_line))]
pub fn add_line(
    before: &mut Vec<DerivationLine>,
    line: DerivationLine,
) -> Result<(), Failure<ProofRefusalKind>>
    ensures ok { OnOk result
        (add_line (derivation_lines_of before.old.items) (derivation_line_of line)
        ≡ Ok (derivation_lines_of before.new.items)) }
    ensures err { IfErr result
        (RefusesAs (λ why. IsFound why (add_line (derivation_lines_of before.old.items)
        (derivation_line_of line)))) }
    ensures within { (u : Attributes) → IfErr result (RefusesAs (IsRefusalWithin u)) }
{
    let count = before.len();
    if line.number as usize != count + 1 {
        return Err(Failure::Refused(ProofRefusalKind::WrongNumber));
    }
    if !are_earlier(count, line.body) {
        return Err(Failure::Refused(ProofRefusalKind::NoSuchLine));
    }
    if count >= MOST_NODES as usize {
        return Err(Failure::Refused(ProofRefusalKind::TooManyLines));
    }
    before.push(line)?;
    Ok(())
}

/// Whether the lines that a rule names are among so many.
#[tactic(auto, unfolding(derivation_grammar::specs::Texts::are_earlier))]
fn are_earlier(count: usize, body: DerivationBody) -> bool
    ensures exact { result ≡ are_earlier count (body_of_line body) }
{
    match body {
        DerivationBody::Rule(Body::Step(_, p)) => is_earlier(count, p),
        DerivationBody::Rule(Body::Pair(_, p, q)) => is_earlier(count, p) && is_earlier(count, q),
        DerivationBody::Rule(_) => true,
        DerivationBody::Decomposition(p) => is_earlier(count, p),
        DerivationBody::Further(_, p, q) => is_earlier(count, p) && is_earlier(count, q),
    }
}

/// Whether a number is that of one of so many lines.
fn is_earlier(count: usize, p: u32) -> bool
    ensures exact { result ≡ is_earlier count p }
{
    p != 0 && p as usize <= count
}
