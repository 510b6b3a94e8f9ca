//! Derivations of functional dependencies that follow from functional ones.

ghost use Rattle.std.specs.Prelude.{◌≡◌, ◌≤◌, ◌+◌, ◌*◌, ℕ, IsTrue, IfOk, length, All, Contains};
ghost use Rattle.attr_sets.specs.Attributes.{IsSubset};
ghost use Rattle.attr_sets.specs.Sets.{attributes};
ghost use Rattle.dep_model.specs.Dependencies.{fd};
ghost use Rattle.dep_model.specs.Deps.{dependency_of};
ghost use Rattle.dep_model.specs.Theories.{universe_of, theory_of};
ghost use Rattle.derivation.specs.Trees.{nodes};
ghost use Rattle.derivation.specs.Derivs.{tree_of};
ghost use Rattle.derivation.specs.Chains.{IsFunctionalChain};
ghost use Rattle.derivation.specs.declared.measures.TheConstants.{MOST_NODES};
ghost use Rattle.short_derivations.specs.Emitted.{AreWritten};
ghost use Rattle.short_derivations.specs.Inferences.{EachIsUsed, givens_of};
ghost use Rattle.short_derivations.specs.Links.{IsTried, said_by};
ghost use Rattle.short_derivations.specs.Short.{Concludes};
ghost use Rattle.short_derivations.specs.Thrift.{IsThriftyOf};
ghost use Rattle.short_derivations.specs.Views.{lines_of};

use crate::Inference;
use crate::certificates::certificate_links;
use crate::chaining::chain;
use crate::checking::{count_given, ends_with};
use crate::links::Link;
use crate::needing::needed_links;
use crate::substituting::substituted;
use attr_sets::AttrSet;
use dep_model::{Dep, OutOfMemory, Theory};
use derivation::Deriv;
use std::alloc::Global;

// A derivation of `lhs -> rhs` by those dependencies of its functional chain that it needs.
pub fn needed_chain(
    alloc: Global,
    theory: &Theory,
    lhs: AttrSet,
    rhs: AttrSet,
    certificate: &Deriv,
) -> Result<Vec<Inference>, OutOfMemory>
    requires lhs { IsSubset (attributes lhs) (universe_of theory.now) }
    requires rhs { IsSubset (attributes rhs) (universe_of theory.now) }
    requires missing { IsSubset (attributes rhs) (attributes lhs) → ⊥ }
    requires new { Contains (theory_of theory.now) (fd (attributes lhs) (attributes rhs)) → ⊥ }
    requires chain { IsFunctionalChain theory.now (attributes lhs) (attributes rhs)
        (tree_of certificate.now) }
    requires few { nodes (tree_of certificate.now) ≤ MOST_NODES }
    ensures thrifty { IfOk result (λ lines. IsThriftyOf theory.now
        (fd (attributes lhs) (attributes rhs)) (nodes (tree_of certificate.now)) (lines_of lines.items)) }
{
    let all = certificate_links(alloc, theory, certificate)?;
    let links = needed_links(alloc, theory, &all, Dep::Fd { lhs, rhs })?;
    let goal = Dep::Fd { lhs, rhs };
    let lines = chain(alloc, theory, &links, lhs, rhs)?;
    let other = substituted(alloc, theory, &links, lhs, rhs, AttrSet::empty())?;
    let lines = shorter(theory, &links, goal, lines, other);
    let other = substituted(alloc, theory, &links, lhs, rhs, lhs)?;
    Ok(shorter(theory, &links, goal, lines, other))
}

// Other lines, where they are a derivation of the same goal of fewer lines.
fn shorter(
    theory: &Theory,
    links: &[Link],
    goal: Dep,
    lines: Vec<Inference>,
    other: Vec<Inference>,
) -> Vec<Inference>
    requires written { AreWritten theory.now (lines_of other.items) }
    ensures tried { (most : ℕ) → IsTried theory.now links.now (dependency_of goal) most (lines_of lines.items)
        → IsTried theory.now links.now (dependency_of goal) most (lines_of result.items) }
{
    if is_shorter(links, goal, &lines, &other) {
        other
    } else {
        lines
    }
}

// Whether other lines are a derivation of a goal from links too, and fewer.
fn is_shorter(links: &[Link], goal: Dep, lines: &[Inference], other: &[Inference]) -> bool
    ensures fewer { IsTrue result → length other.now ≤ length lines.now }
    ensures concludes { IsTrue result → Concludes (lines_of other.now) (dependency_of goal) }
    ensures used { IsTrue result → EachIsUsed (lines_of other.now) }
    ensures from { IsTrue result → All (Contains (said_by links.now)) (givens_of (lines_of other.now)) }
    ensures few { IsTrue result → length other.now ≤ 3 * length (givens_of (lines_of other.now)) }
{
    if other.len() >= lines.len() || !ends_with(other, goal) {
        return false;
    }
    match count_given(other, links) {
        None => false,
        Some(count) => other.len() / 3 < count,
    }
}
