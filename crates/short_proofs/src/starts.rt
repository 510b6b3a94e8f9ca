//! Starts: a given dependency as a multivalued one, complemented or not.

ghost use Rattle.std.specs.Prelude.{◌≡◌, IfOk};
ghost use Rattle.derivation.specs.Derivs.{tree_of};
ghost use Rattle.derivation.specs.Shortened.{ConcludesOnly};
ghost use Rattle.short_proofs.specs.Short.{start};

use crate::shapes::{given_dep, step_taken, stepped};
use dep_model::{Dep, OutOfMemory, Theory};
use derivation::{Deriv, LeafRule, StepRule};
use std::alloc::Global;

/// A given dependency, by its number from 0, and whether replication and complementation follow.
#[derive(Clone, Copy, Debug)]
pub struct Start {
    pub number: u16,
    pub replicated: bool,
    pub complemented: bool,
}

// What a start concludes, if anything.
pub fn start_dep(theory: &Theory, from: Start) -> Option<Dep>
    ensures only { ConcludesOnly theory.now (start from.number from.replicated from.complemented) result }
{
    let given = given_dep(theory, from.number);
    let replica = step_taken(theory, from.replicated, StepRule::Replication, given);
    step_taken(
        theory,
        from.complemented,
        StepRule::Complementation,
        replica,
    )
}

// The derivation of a start.
pub fn start_deriv(alloc: Global, from: Start) -> Result<Box<Deriv>, OutOfMemory>
    ensures tree { IfOk result (λ b. tree_of b.value ≡ start from.number from.replicated from.complemented) }
{
    let given = Box::new(alloc, Deriv::Leaf(LeafRule::Given(from.number)))?;
    let replica = stepped(alloc, from.replicated, StepRule::Replication, given)?;
    stepped(alloc, from.complemented, StepRule::Complementation, replica)
}
