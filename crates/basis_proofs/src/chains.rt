ghost use Rattle.std.specs.Prelude.{◌≡◌, ◌↔◌, ◌<◌, ◌≤◌, ◌+◌, ◌*◌, IsTrue, IsNone, IsSome, IfSome, IfOk};
ghost use Rattle.attr_sets.specs.declared.set.TheConstants.{MOST_ATTRIBUTES};
ghost use Rattle.attr_sets.specs.Attributes.{Attributes, IsSubset};
ghost use Rattle.attr_sets.specs.Sets.{attributes};
ghost use Rattle.dep_model.specs.Dependencies.{fd, functional_part};
ghost use Rattle.dep_model.specs.Deps.{dependency_of};
ghost use Rattle.dep_model.specs.Implication.{Implies};
ghost use Rattle.dep_model.specs.Theories.{width_of, theory_of, universe_of};
ghost use Rattle.dep_model.proofs.DepLemmas.{IfFd};
ghost use Rattle.fd_closure.specs.FunctionallyClosed.{IsFunctionallyClosed};
ghost use Rattle.derivation.specs.Trees.{nodes, depth};
ghost use Rattle.derivation.specs.Derivs.{tree_of};
ghost use Rattle.derivation.specs.Conclusions.{Proves};
ghost use Rattle.derivation.specs.Chains.{IsFirstOut, IsFunctionalChain};
ghost use Rattle.basis_proofs.specs.Leads.{IsRightSideOut};

use attr_sets::AttrSet;
use dep_model::{Dep, OutOfMemory, Theory};
use derivation::{Deriv, LeafRule, PairRule, StepRule};
use std::alloc::Global;

// A functional dependency that leads out of a set: its number, from 0, and its right side.
#[derive(Clone, Copy)]
struct Lead {
    number: u16,
    rhs: AttrSet,
}

/// The functional chain of `lhs -> rhs`: a derivation by Armstrong's rules that closes the left side
/// by the first dependency that leads out of what is closed, again and again. None where the functional
/// dependencies alone do not imply `lhs -> rhs`.
pub fn functional_chain(
    alloc: Global,
    theory: &Theory,
    lhs: AttrSet,
    rhs: AttrSet,
) -> Result<Option<Box<Deriv>>, OutOfMemory>
    requires lhs { IsSubset (attributes lhs) (universe_of theory.now) }
    requires rhs { IsSubset (attributes rhs) (universe_of theory.now) }
    ensures found_where_implied { IfOk result
        (λ found. IsSome found ↔ Implies (width_of theory.now) (functional_part (theory_of theory.now))
        (fd (attributes lhs) (attributes rhs))) }
    ensures chain { IfOk result
        (λ found. IfSome found
        (λ b. IsFunctionalChain theory.now (attributes lhs) (attributes rhs) (tree_of b.value))) }
    ensures proves { IfOk result
        (λ found. IfSome found
        (λ b. Proves theory.now (tree_of b.value) (fd (attributes lhs) (attributes rhs)))) }
    ensures node_bound { IfOk result (λ found. IfSome found (λ b. nodes
        (tree_of b.value) ≤ 3 * MOST_ATTRIBUTES + 3)) }
    ensures level_bound { IfOk result (λ found. IfSome found (λ b. depth
        (tree_of b.value) ≤ MOST_ATTRIBUTES + 3)) }
{
    let mut closed = lhs;
    let mut chain = Box::new(alloc, Deriv::Leaf(LeafRule::Reflexivity { lhs, rhs: lhs }))?;
    while !rhs.is_subset(closed) {
        let Some(lead) = first_out(theory, closed) else {
            return Ok(None);
        };
        let given = Box::new(alloc, Deriv::Leaf(LeafRule::Given(lead.number)))?;
        let lifted = Box::new(
            alloc,
            Deriv::Step(StepRule::Augmentation { by: closed }, given),
        )?;
        chain = Box::new(alloc, Deriv::Pair(PairRule::Transitivity, chain, lifted))?;
        closed = closed.union(lead.rhs);
    }
    let last = Box::new(
        alloc,
        Deriv::Leaf(LeafRule::Reflexivity { lhs: closed, rhs }),
    )?;
    Ok(Some(Box::new(alloc, Deriv::Pair(PairRule::Transitivity, chain, last))?))
}

// The first functional dependency that leads out of a set.
fn first_out(theory: &Theory, closed: AttrSet) -> Option<Lead>
    ensures none { IsNone result → IsFunctionallyClosed (functional_part (theory_of theory.now))
        (attributes closed) }
    ensures first { IfSome result
        (λ lead. IsFirstOut theory.now (attributes closed) lead.number (attributes lead.rhs)) }
{
    for (number, dep) in theory.deps().iter().enumerate() {
        if let Some(rhs) = right_side_out(*dep, closed) {
            return Some(Lead {
                number: number as u16,
                rhs,
            });
        }
    }
    None
}

// The right side of a functional dependency that leads out of a set.
fn right_side_out(dep: Dep, closed: AttrSet) -> Option<AttrSet>
    ensures none { IsNone result → IfFd (λ x y. IsSubset x (attributes closed)
        → IsSubset y (attributes closed)) dep }
    ensures right_side { IfSome result (λ rhs. IsRightSideOut (attributes closed) (dependency_of dep)
        (attributes rhs)) }
{
    match dep {
        Dep::Fd { lhs, rhs } => {
            if lhs.is_subset(closed) && !rhs.is_subset(closed) {
                Some(rhs)
            } else {
                None
            }
        }
        Dep::Mvd { .. } => None,
    }
}
