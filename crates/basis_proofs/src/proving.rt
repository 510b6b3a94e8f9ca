ghost use Rattle.std.specs.Prelude.{◌≡◌, ℕ, ◌↔◌, Some, slice_get, IsTrue, IsNone, IfSome, IfOk};
ghost use Rattle.attr_sets.specs.Attributes.{IsSubset};
ghost use Rattle.attr_sets.specs.Sets.{attributes};
ghost use Rattle.dep_model.specs.Dependencies.{fd, mvd};
ghost use Rattle.dep_model.specs.Deps.{dependency_of, IsDepWithin};
ghost use Rattle.dep_model.specs.Theories.{universe_of, theory_of, ImpliedBy};
ghost use Rattle.derivation.specs.Derivs.{tree_of};
ghost use Rattle.basis_proofs.specs.JoinedProofs.{IsProofOf};
ghost use Rattle.basis_proofs.specs.Proofs.{IsFirstGiven, IsAnswer, IsDirectAnswer, IsChainIfFunctional, IsDirectUnlessChain, IsYes};

use crate::chains::functional_chain;
use crate::joining::{join_fd, join_mvd};
use attr_sets::AttrSet;
use dep_basis::{Decision, decide};
use dep_model::{Dep, OutOfMemory, Theory};
use derivation::{Deriv, LeafRule, shorten};
use std::alloc::Global;

/// Why a schema implies a dependency, or that it does not.
#[derive(Debug, Drop)]
pub enum Proof {
    /// A derivation of the dependency.
    Yes(Box<Deriv>),
    /// Two rows that agree exactly on `agreement` obey the schema and break the dependency.
    No { agreement: AttrSet },
}

/// A derivation of a dependency where the schema implies it, and where it does not, two rows that show
/// it, as `decide` does. A derivation has at most `MOST_NODES` nodes and `MOST_LEVELS` levels. That of
/// a functional dependency which follows from the functional dependencies alone is their chain; a
/// multivalued one that the schema gives is its first; any other follows the refinement of the left
/// side's blocks (Beeri 1980), and no line of it concludes what a line that it stands on concludes.
pub fn prove(alloc: Global, theory: &Theory, dep: Dep) -> Result<Proof, OutOfMemory>
    requires within { IsDepWithin (universe_of theory.now) dep }
    ensures answer { IfOk result (IsAnswer theory.now (dependency_of dep)) }
    ensures direct { IfOk result (IsDirectAnswer theory.now (dependency_of dep)) }
    ensures yes { IfOk result (λ proof. IsYes proof ↔ ImpliedBy theory.now (dependency_of dep)) }
{
    match decide(theory, dep) {
        Decision::Broken { agreement } => Ok(Proof::No { agreement }),
        Decision::Implied => Ok(Proof::Yes(derivation_of(alloc, theory, dep)?)),
    }
}

// A derivation of an implied dependency.
fn derivation_of(alloc: Global, theory: &Theory, dep: Dep) -> Result<Box<Deriv>, OutOfMemory>
    requires within { IsDepWithin (universe_of theory.now) dep }
    requires implied { ImpliedBy theory.now (dependency_of dep) }
    ensures proof { IfOk result (λ b. IsProofOf theory.now (dependency_of dep) (tree_of b.value)) }
    ensures chain { IfOk result (λ b. IsChainIfFunctional theory.now (dependency_of dep) (tree_of b.value)) }
    ensures direct { IfOk result (λ b. IsDirectUnlessChain theory.now (dependency_of dep) (tree_of b.value)) }
{
    match dep {
        Dep::Fd { lhs, rhs } => derivation_of_fd(alloc, theory, lhs, rhs),
        Dep::Mvd { lhs, rhs } => derivation_of_mvd(alloc, theory, lhs, rhs),
    }
}

// A derivation of an implied functional dependency: the functional chain, if there is one.
fn derivation_of_fd(
    alloc: Global,
    theory: &Theory,
    lhs: AttrSet,
    rhs: AttrSet,
) -> Result<Box<Deriv>, OutOfMemory>
    requires lhs { IsSubset (attributes lhs) (universe_of theory.now) }
    requires rhs { IsSubset (attributes rhs) (universe_of theory.now) }
    requires implied { ImpliedBy theory.now (fd (attributes lhs) (attributes rhs)) }
    ensures proof { IfOk result (λ b. IsProofOf theory.now (fd (attributes lhs) (attributes rhs))
        (tree_of b.value)) }
    ensures chain { IfOk result
        (λ b. IsChainIfFunctional theory.now (fd (attributes lhs) (attributes rhs)) (tree_of b.value)) }
    ensures direct { IfOk result
        (λ b. IsDirectUnlessChain theory.now (fd (attributes lhs) (attributes rhs)) (tree_of b.value)) }
{
    match functional_chain(alloc, theory, lhs, rhs)? {
        Some(chain) => Ok(chain),
        None => {
            let joined = join_fd(alloc, theory, lhs, rhs)?;
            Ok(shorten(theory, joined))
        }
    }
}

// A derivation of an implied multivalued dependency: the first that the schema gives, if it does.
fn derivation_of_mvd(
    alloc: Global,
    theory: &Theory,
    lhs: AttrSet,
    rhs: AttrSet,
) -> Result<Box<Deriv>, OutOfMemory>
    requires lhs { IsSubset (attributes lhs) (universe_of theory.now) }
    requires rhs { IsSubset (attributes rhs) (universe_of theory.now) }
    requires implied { ImpliedBy theory.now (mvd (attributes lhs) (attributes rhs)) }
    ensures proof { IfOk result (λ b.
        IsProofOf theory.now (mvd (attributes lhs) (attributes rhs)) (tree_of b.value)) }
    ensures direct { IfOk result
        (λ b. IsDirectUnlessChain theory.now (mvd (attributes lhs) (attributes rhs))
        (tree_of b.value)) }
{
    match first_given(theory, lhs, rhs) {
        Some(k) => Ok(Box::new(alloc, Deriv::Leaf(LeafRule::Given(k)))?),
        None => {
            let united = join_mvd(alloc, theory, lhs, rhs)?;
            Ok(shorten(theory, united))
        }
    }
}

// The number, from 0, of the first given dependency that is `lhs ->> rhs`.
fn first_given(theory: &Theory, lhs: AttrSet, rhs: AttrSet) -> Option<u16>
    ensures none { IsNone result → (k : ℕ)
        → slice_get (theory_of theory.now) k ≡ Some (mvd (attributes lhs) (attributes rhs)) → ⊥ }
    ensures first { IfSome result (IsFirstGiven theory.now (mvd (attributes lhs) (attributes rhs))) }
{
    for (number, dep) in theory.deps().iter().enumerate() {
        if is_mvd(*dep, lhs, rhs) {
            return Some(number as u16);
        }
    }
    None
}

// Whether a dependency is `lhs ->> rhs`.
fn is_mvd(dep: Dep, lhs: AttrSet, rhs: AttrSet) -> bool
    ensures is_mvd { IsTrue result ↔ (dependency_of dep ≡ mvd (attributes lhs) (attributes rhs)) }
{
    match dep {
        Dep::Fd { .. } => false,
        Dep::Mvd { lhs: x, rhs: y } => x == lhs && y == rhs,
    }
}
