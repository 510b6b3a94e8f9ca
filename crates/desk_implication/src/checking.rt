ghost use Rattle.std.specs.Prelude.{◌≡◌, ◌<◌, [], All, length, IfOk};
ghost use Rattle.dep_model.specs.Deps.{dependency_of, IsDepWithin};
ghost use Rattle.schema_model.specs.Schemas.{universe_of, ImpliedBy};
ghost use Rattle.derivation_grammar.specs.Derivations.{LastStates};
ghost use Rattle.derivation_grammar.specs.Meanings.{IsDerivation};
ghost use Rattle.derivation_text.specs.Views.{derivation_lines_of};
ghost use Rattle.derivation_mistakes.specs.Views.{mistaken_lines_of, IsMistakenLineOf};
ghost use Rattle.desk_implication.specs.Derivations.{ChecksDerivation, DerivationChecked, DerivationJudged};
ghost use Rattle.desk_responses.specs.Responses.{response_value, RespondsAs};

use crate::mistakes::mistaken_line_texts;
use crate::{checked_line, concludes_lines};
use arguments::Argument;
use byte_texts::add;
use dep_model::{Dep, OutOfMemory};
use derivation_mistakes::{MistakenLine, mistaken_lines};
use derivation_text::DerivationLine;
use desk_arguments::goal_of;
use desk_responses::{EarlyExit, Response, Status};
use proof_text::same_dependency;
use schema_model::Schema;
use std::alloc::Global;

/// Whether a derivation of these lines derives a goal over a schema, and what is wrong with its lines.
pub fn check_derivation(
    alloc: Global,
    schema: &Schema,
    lines: &[DerivationLine],
    goal: &Argument,
) -> Result<Response, EarlyExit>
    requires derivation { IsDerivation schema.now (derivation_lines_of lines.now) }
    ensures response { RespondsAs
        (ChecksDerivation schema.now (derivation_lines_of lines.now) goal.now) result }
{
    let dep = match goal_of(alloc, schema, goal) {
        Ok(dep) => dep,
        Err(exit) => return Err(exit),
    };
    Ok(derivation_response(alloc, schema, lines, dep)?)
}

// The answer to a derivation's lines and what is asked.
fn derivation_response(
    alloc: Global,
    schema: &Schema,
    lines: &[DerivationLine],
    goal: Dep,
) -> Result<Response, OutOfMemory>
    requires derivation { IsDerivation schema.now (derivation_lines_of lines.now) }
    requires goal { IsDepWithin (universe_of schema.now) goal }
    ensures response { IfOk result
        (λ response. DerivationChecked schema.now (derivation_lines_of lines.now) (dependency_of goal)
        (response_value response)) }
{
    let found = mistaken_lines(alloc, schema, lines)?;
    let concluded = last_stated(lines);
    judged_response(alloc, schema, &found, concluded, goal)
}

// What the last of some lines states.
fn last_stated(lines: &[DerivationLine]) -> Dep
    requires some { 0 < length lines.now }
    ensures last { LastStates (derivation_lines_of lines.now) (dependency_of result) }
{
    lines[lines.len() - 1].stated
}

// The answer to the wrong lines of a derivation, what its last line states, and what is asked.
fn judged_response(
    alloc: Global,
    schema: &Schema,
    found: &[MistakenLine],
    concluded: Dep,
    goal: Dep,
) -> Result<Response, OutOfMemory>
    requires found { All (IsMistakenLineOf schema.now) found.now }
    requires concluded { IsDepWithin (universe_of schema.now) concluded }
    requires goal { IsDepWithin (universe_of schema.now) goal }
    requires implied { mistaken_lines_of found.now ≡ [] → ImpliedBy schema.now (dependency_of concluded) }
    ensures response { IfOk result
        (λ response. DerivationJudged schema.now (mistaken_lines_of found.now) (dependency_of concluded)
        (dependency_of goal) (response_value response)) }
{
    let mut text = mistaken_line_texts(alloc, schema, found)?;
    if !same_dependency(concluded, goal) {
        add(&mut text, &concludes_lines(alloc, schema, concluded, goal)?)?;
        return Ok(Response::with_text(Status::No, text));
    }
    if found.is_empty() {
        return Ok(Response::with_text(Status::Yes, checked_line(alloc, schema, goal)?));
    }
    Ok(Response::with_text(Status::No, text))
}
