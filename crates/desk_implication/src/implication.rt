ghost use Rattle.std.specs.Prelude.{◌≤◌, ◌++◌, IfOk};
ghost use Rattle.attr_sets.specs.Attributes.{IsSubset};
ghost use Rattle.attr_sets.specs.Sets.{attributes};
ghost use Rattle.dep_model.specs.Deps.{dependency_of, IsDepWithin};
ghost use Rattle.schema_model.specs.Schemas.{names_of, universe_of};
ghost use Rattle.derivation.specs.Trees.{nodes, depth};
ghost use Rattle.derivation.specs.Derivs.{tree_of};
ghost use Rattle.proof_grammar.specs.Printing.{canonical_certificate, IsProof};
ghost use Rattle.desk_responses.specs.ResponseValues.{Says};
ghost use Rattle.desk_implication.specs.Implication.{Decided, DecidesGoal};
ghost use Rattle.desk_responses.specs.Responses.{response_value, RespondsAs};
ghost use Rattle.desk_texts.specs.Texts.{yes_text, no_text};
ghost use Rattle.typed_rows.specs.Shown.{shown_tuples};

use arguments::Argument;
use attr_sets::AttrSet;
use basis_proofs::Proof;
use byte_texts::add;
use dep_model::{Dep, OutOfMemory};
use derivation::{Deriv, MOST_LEVELS, MOST_NODES};
use desk_arguments::goal_of;
use desk_responses::{EarlyExit, Response, Status};
use desk_texts::line_of;
use proof_text::print_proof;
use schema_model::Schema;
use short_proofs::prove_shortly;
use std::alloc::Global;
use typed_rows::print_two_rows;

/// Whether a schema implies a goal: `yes` with a certificate, or `no` with two tuples that obey the
/// schema and break the goal.
pub fn implies(alloc: Global, schema: &Schema, goal: &Argument) -> Result<Response, EarlyExit>
    ensures response { RespondsAs (DecidesGoal schema.now goal.now) result }
{
    let dep = match goal_of(alloc, schema, goal) {
        Ok(dep) => dep,
        Err(exit) => return Err(exit),
    };
    Ok(decision_response(alloc, schema, dep)?)
}

/// The answer to a goal.
pub fn decision_response(alloc: Global, schema: &Schema, dep: Dep) -> Result<Response, OutOfMemory>
    requires { IsDepWithin (universe_of schema.now) dep }
    ensures response { IfOk result (λ response. Decided schema.now (dependency_of dep)
        (response_value response)) }
{
    match prove_shortly(alloc, &schema.theory(), dep)? {
        Proof::Yes(deriv) => certificate_response(alloc, schema, &deriv),
        Proof::No { agreement } => counterexample_response(alloc, schema, agreement),
    }
}

/// `yes`, and the certificate of a derivation.
fn certificate_response(
    alloc: Global,
    schema: &Schema,
    deriv: &Deriv,
) -> Result<Response, OutOfMemory>
    requires proof { IsProof schema.now (tree_of deriv.now) }
    requires lines_within_limit { nodes (tree_of deriv.now) ≤ MOST_NODES }
    requires within_limit { depth (tree_of deriv.now) ≤ MOST_LEVELS }
    ensures response { IfOk result
        (λ response. Says Status.Yes (yes_text
        ++ canonical_certificate schema.now (tree_of deriv.now)) (response_value response)) }
{
    let mut text = line_of(alloc, b"yes", b"", b"")?;
    add(&mut text, &print_proof(alloc, schema, deriv)?)?;
    Ok(Response::with_text(Status::Yes, text))
}

/// `no`, and the two tuples that agree just on a set, as they are shown.
fn counterexample_response(
    alloc: Global,
    schema: &Schema,
    agreement: AttrSet,
) -> Result<Response, OutOfMemory>
    requires within { IsSubset (attributes agreement) (universe_of schema.now) }
    ensures response { IfOk result
        (λ response. Says Status.No
        (no_text (names_of schema.now) (shown_tuples schema.now (attributes agreement)))
        (response_value response)) }
{
    let mut text = line_of(alloc, b"no", b"", b"")?;
    add(&mut text, &print_two_rows(alloc, schema, agreement)?)?;
    Ok(Response::with_text(Status::No, text))
}
