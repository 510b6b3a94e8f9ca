ghost use Rattle.std.specs.Prelude.{◌++◌, ◌≤◌, [], List, IfOk, length};
ghost use Rattle.dep_model.specs.Deps.{dependency_of, IsDepWithin};
ghost use Rattle.schema_model.specs.Schemas.{universe_of, theory_in};
ghost use Rattle.derivation.specs.Derivs.{tree_of};
ghost use Rattle.derivation.specs.declared.measures.TheConstants.{MOST_NODES};
ghost use Rattle.derivation_printer.specs.Printing.{derivation_text};
ghost use Rattle.short_derivations.specs.Inferences.{Line, AreGiven};
ghost use Rattle.short_derivations.specs.Views.{lines_of};
ghost use Rattle.desk_implication.specs.Explanations.{ExplainsGoal, ExplainsImplication, IsCertificateOf};
ghost use Rattle.desk_implication.specs.Explanations.{IsExplanation};
ghost use Rattle.desk_responses.specs.ResponseValues.{Says};
ghost use Rattle.desk_responses.specs.Responses.{response_value, RespondsAs};
ghost use Rattle.desk_texts.specs.Texts.{yes_text};

use crate::implication::decision_response;
use arguments::Argument;
use basis_proofs::Proof;
use byte_texts::add;
use dep_model::{Dep, OutOfMemory};
use derivation::Deriv;
use derivation_printer::print_derivation;
use desk_arguments::goal_of;
use desk_responses::{EarlyExit, Response, Status};
use desk_texts::line_of;
use schema_model::Schema;
use short_derivations::{Inference, short_derivation};
use short_proofs::prove_shortly;
use std::alloc::Global;

/// Why a schema implies a goal: `yes` with a derivation as one would write it, or the answer of `implies`
/// where it does not.
pub fn explain_implication(
    alloc: Global,
    schema: &Schema,
    goal: &Argument,
) -> Result<Response, EarlyExit>
    ensures response { RespondsAs (ExplainsImplication schema.now goal.now) result }
{
    let dep = match goal_of(alloc, schema, goal) {
        Ok(dep) => dep,
        Err(exit) => return Err(exit),
    };
    Ok(explanation_response(alloc, schema, dep)?)
}

/// The answer to a goal.
fn explanation_response(alloc: Global, schema: &Schema, dep: Dep) -> Result<Response, OutOfMemory>
    requires { IsDepWithin (universe_of schema.now) dep }
    ensures response { IfOk result (λ response. ExplainsGoal schema.now (dependency_of dep)
        (response_value response)) }
{
    match prove_shortly(alloc, &schema.theory(), dep)? {
        Proof::Yes(certificate) => derivation_response(alloc, schema, dep, &certificate),
        Proof::No { .. } => decision_response(alloc, schema, dep),
    }
}

/// `yes`, and a derivation of few lines.
fn derivation_response(
    alloc: Global,
    schema: &Schema,
    dep: Dep,
    certificate: &Deriv,
) -> Result<Response, OutOfMemory>
    requires within { IsDepWithin (universe_of schema.now) dep }
    requires certifies { IsCertificateOf schema.now (dependency_of dep) (tree_of certificate.now) }
    ensures response { IfOk result (λ response. (lines : List Line)
        × IsExplanation schema.now (dependency_of dep) lines
        × Says Status.Yes (yes_text ++ derivation_text schema.now lines) (response_value response)) }
{
    let lines = short_derivation(alloc, &schema.theory(), dep, certificate)?;
    lines_response(alloc, schema, &lines)
}

/// `yes`, and the lines of a derivation.
fn lines_response(
    alloc: Global,
    schema: &Schema,
    lines: &[Inference],
) -> Result<Response, OutOfMemory>
    requires given { AreGiven (theory_in schema.now) [] (lines_of lines.now) }
    requires lines_within_limit { length lines.now ≤ MOST_NODES }
    ensures response { IfOk result (λ response. Says Status.Yes
        (yes_text ++ derivation_text schema.now (lines_of lines.now)) (response_value response)) }
{
    let mut text = line_of(alloc, b"yes", b"", b"")?;
    add(&mut text, &print_derivation(alloc, schema, lines)?)?;
    Ok(Response::with_text(Status::Yes, text))
}
