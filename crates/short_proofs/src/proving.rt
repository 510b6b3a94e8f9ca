//! Derivations that are no longer than the listed ones.

ghost use Rattle.std.specs.Prelude.{◌≡◌, ◌≤◌, ◌+◌, ◌↔◌, Bool, IsTrue, IfOk};
ghost use Rattle.attr_sets.specs.Attributes.{IsSubset, union, difference};
ghost use Rattle.attr_sets.specs.Sets.{attributes};
ghost use Rattle.dep_model.specs.Dependencies.{fd, mvd, functional_part};
ghost use Rattle.dep_model.specs.Deps.{dependency_of, IsDepWithin};
ghost use Rattle.dep_model.specs.Implication.{Implies};
ghost use Rattle.dep_model.specs.Theories.{universe_of, width_of, theory_of, ImpliedBy};
ghost use Rattle.derivation.specs.Trees.{Tree, nodes};
ghost use Rattle.derivation.specs.Derivs.{tree_of};
ghost use Rattle.derivation.specs.Conclusions.{Proves};
ghost use Rattle.derivation.specs.Chains.{IsFunctionalChain};
ghost use Rattle.basis_proofs.specs.JoinedProofs.{IsProofOf};
ghost use Rattle.basis_proofs.specs.Proofs.{IsAnswer, IsDirectAnswer, IsYes};
ghost use Rattle.short_proofs.specs.Short.{IsShape, IsShort, rest_of};
ghost use Rattle.short_proofs.specs.Shapes.{IsSameOrShorter, IsShortAnswer};

use crate::given_shapes::smallest_shape;
use crate::joints::unless_joined;
use crate::keeping::shorter;
use crate::shapes::{shape_deriv, stepped};
use attr_sets::AttrSet;
use basis_proofs::{Proof, functional_chain, prove};
use dep_model::{Dep, OutOfMemory, Theory};
use derivation::{Deriv, StepRule};
use std::alloc::Global;

/// A derivation of a dependency where the schema implies it, or two rows that show that it does not, as
/// `dep_basis::prove` gives them. Where the derivation is no functional chain and a listed one is shorter,
/// the shortest of these is given, and what is said twice left out of it.
pub fn prove_shortly(alloc: Global, theory: &Theory, dep: Dep) -> Result<Proof, OutOfMemory>
    requires within { IsDepWithin (universe_of theory.now) dep }
    ensures answer { IfOk result (IsAnswer theory.now (dependency_of dep)) }
    ensures direct { IfOk result (IsDirectAnswer theory.now (dependency_of dep)) }
    ensures yes { IfOk result (λ proof. IsYes proof ↔ ImpliedBy theory.now (dependency_of dep)) }
    ensures short { IfOk result (IsShortAnswer theory.now (dependency_of dep)) }
{
    let proof = prove(alloc, theory, dep)?;
    match (proof, dep) {
        (Proof::Yes(deriv), Dep::Mvd { lhs, rhs }) => {
            Ok(Proof::Yes(shortest(alloc, theory, lhs, rhs, deriv)?))
        }
        (Proof::Yes(deriv), Dep::Fd { lhs, rhs }) => {
            Ok(Proof::Yes(shortest_fd(alloc, theory, lhs, rhs, deriv)?))
        }
        (other, _) => Ok(other),
    }
}

// Of a derivation of `lhs ->> rhs` and the listed ones the shortest.
fn shortest(
    alloc: Global,
    theory: &Theory,
    lhs: AttrSet,
    rhs: AttrSet,
    deriv: Box<Deriv>,
) -> Result<Box<Deriv>, OutOfMemory>
    requires lhs { IsSubset (attributes lhs) (universe_of theory.now) }
    requires rhs { IsSubset (attributes rhs) (universe_of theory.now) }
    requires proof { IsProofOf theory.now (mvd (attributes lhs) (attributes rhs))
        (tree_of deriv.value) }
    ensures kept { IfOk result (λ b. IsSameOrShorter theory.now (mvd (attributes lhs) (attributes rhs))
        (tree_of deriv.value) (tree_of b.value)) }
    ensures short { IfOk result (λ b. IsShort theory.now (mvd (attributes lhs) (attributes rhs))
        (tree_of b.value)) }
{
    let shaped = unless_shape(alloc, theory, lhs, rhs, deriv)?;
    let chained = unless_chain(alloc, theory, lhs, rhs, shaped)?;
    let rested = unless_chain_of_rest(alloc, theory, lhs, rhs, chained)?;
    let joined = unless_joined(alloc, theory, Dep::Mvd { lhs, rhs }, rested)?;
    Ok(joined)
}

// Of a derivation of `lhs -> rhs` and the listed ones the shortest; a functional chain stays.
fn shortest_fd(
    alloc: Global,
    theory: &Theory,
    lhs: AttrSet,
    rhs: AttrSet,
    deriv: Box<Deriv>,
) -> Result<Box<Deriv>, OutOfMemory>
    requires lhs { IsSubset (attributes lhs) (universe_of theory.now) }
    requires rhs { IsSubset (attributes rhs) (universe_of theory.now) }
    requires proof { IsProofOf theory.now (fd (attributes lhs) (attributes rhs))
        (tree_of deriv.value) }
    ensures kept { IfOk result (λ b. IsSameOrShorter theory.now (fd (attributes lhs) (attributes rhs))
        (tree_of deriv.value) (tree_of b.value)) }
    ensures chain { IfOk result (λ b. Implies (width_of theory.now)
        (functional_part (theory_of theory.now)) (fd (attributes lhs) (attributes rhs))
        → tree_of b.value ≡ tree_of deriv.value) }
    ensures short { IfOk result (λ b. IsShort theory.now (fd (attributes lhs) (attributes rhs))
        (tree_of b.value)) }
{
    let chained = has_chain(alloc, theory, lhs, rhs)?;
    if chained {
        return Ok(deriv);
    }
    let joined = unless_joined(alloc, theory, Dep::Fd { lhs, rhs }, deriv)?;
    Ok(joined)
}

// Whether the functional dependencies alone imply `lhs -> rhs`.
fn has_chain(
    alloc: Global,
    theory: &Theory,
    lhs: AttrSet,
    rhs: AttrSet,
) -> Result<bool, OutOfMemory>
    requires lhs { IsSubset (attributes lhs) (universe_of theory.now) }
    requires rhs { IsSubset (attributes rhs) (universe_of theory.now) }
    ensures exact { IfOk result (λ chained. IsTrue chained ↔ Implies (width_of theory.now)
        (functional_part (theory_of theory.now)) (fd (attributes lhs) (attributes rhs))) }
{
    let found = functional_chain(alloc, theory, lhs, rhs)?;
    Ok(found.is_some())
}

// A derivation, unless a shape of a given dependency is shorter.
fn unless_shape(
    alloc: Global,
    theory: &Theory,
    lhs: AttrSet,
    rhs: AttrSet,
    deriv: Box<Deriv>,
) -> Result<Box<Deriv>, OutOfMemory>
    requires lhs { IsSubset (attributes lhs) (universe_of theory.now) }
    requires rhs { IsSubset (attributes rhs) (universe_of theory.now) }
    requires proof { IsProofOf theory.now (mvd (attributes lhs) (attributes rhs))
        (tree_of deriv.value) }
    ensures kept { IfOk result (λ b. IsSameOrShorter theory.now (mvd (attributes lhs) (attributes rhs))
        (tree_of deriv.value) (tree_of b.value)) }
    ensures shapes { IfOk result (λ b. (t : Tree) → IsShape t
        → Proves theory.now t (mvd (attributes lhs) (attributes rhs))
        → nodes (tree_of b.value) ≤ nodes t) }
{
    match smallest_shape(theory, lhs, rhs) {
        None => Ok(deriv),
        Some(shape) => Ok(shorter(theory, deriv, shape_deriv(alloc, shape)?)),
    }
}

// A derivation, unless the functional chain of the same sets and replication are shorter.
fn unless_chain(
    alloc: Global,
    theory: &Theory,
    lhs: AttrSet,
    rhs: AttrSet,
    deriv: Box<Deriv>,
) -> Result<Box<Deriv>, OutOfMemory>
    requires lhs { IsSubset (attributes lhs) (universe_of theory.now) }
    requires rhs { IsSubset (attributes rhs) (universe_of theory.now) }
    requires proof { IsProofOf theory.now (mvd (attributes lhs) (attributes rhs))
        (tree_of deriv.value) }
    ensures kept { IfOk result (λ b. IsSameOrShorter theory.now (mvd (attributes lhs) (attributes rhs))
        (tree_of deriv.value) (tree_of b.value)) }
    ensures chains { IfOk result (λ b. (t : Tree)
        → IsFunctionalChain theory.now (attributes lhs) (attributes rhs) t
        → nodes (tree_of b.value) ≤ nodes t + 1) }
{
    match functional_chain(alloc, theory, lhs, rhs)? {
        None => Ok(deriv),
        Some(chain) => {
            let other = Box::new(alloc, Deriv::Step(StepRule::Replication, chain))?;
            Ok(shorter(theory, deriv, other))
        }
    }
}

// A derivation, unless the functional chain of what is in neither side, replication and complementation
// are shorter, with what both sides share added at last.
fn unless_chain_of_rest(
    alloc: Global,
    theory: &Theory,
    lhs: AttrSet,
    rhs: AttrSet,
    deriv: Box<Deriv>,
) -> Result<Box<Deriv>, OutOfMemory>
    requires lhs { IsSubset (attributes lhs) (universe_of theory.now) }
    requires rhs { IsSubset (attributes rhs) (universe_of theory.now) }
    requires proof { IsProofOf theory.now (mvd (attributes lhs) (attributes rhs))
        (tree_of deriv.value) }
    ensures kept { IfOk result (λ b. IsSameOrShorter theory.now (mvd (attributes lhs) (attributes rhs))
        (tree_of deriv.value) (tree_of b.value)) }
    ensures chains { IfOk result (λ b. (t : Tree) (shared : Bool)
        → IsFunctionalChain theory.now (attributes lhs)
        (difference (universe_of theory.now) (union (attributes lhs) (attributes rhs))) t
        → Proves theory.now (rest_of (attributes lhs) (attributes rhs) shared t)
        (mvd (attributes lhs) (attributes rhs))
        → nodes (tree_of b.value) ≤ nodes (rest_of (attributes lhs) (attributes rhs) shared t)) }
{
    let rest = AttrSet::full(theory.width()).difference(lhs.union(rhs));
    match functional_chain(alloc, theory, lhs, rest)? {
        None => Ok(deriv),
        Some(chain) => {
            let other = rest_deriv(alloc, lhs, rhs, lhs.intersects(rhs), chain)?;
            Ok(shorter(theory, deriv, other))
        }
    }
}

// The derivation from a chain of what is in neither side.
fn rest_deriv(
    alloc: Global,
    lhs: AttrSet,
    rhs: AttrSet,
    is_shared: bool,
    chain: Box<Deriv>,
) -> Result<Box<Deriv>, OutOfMemory>
    ensures tree { IfOk result (λ b. tree_of b.value
        ≡ rest_of (attributes lhs) (attributes rhs) is_shared (tree_of chain.value)) }
{
    let shared = StepRule::MAugmentation {
        wide: lhs,
        narrow: lhs.intersection(rhs),
    };
    let replica = Box::new(alloc, Deriv::Step(StepRule::Replication, chain))?;
    let turned = Box::new(alloc, Deriv::Step(StepRule::Complementation, replica))?;
    stepped(alloc, is_shared, shared, turned)
}
