ghost use Rattle.std.specs.Prelude.{◌≡◌, ◌≤◌, [], ◌∷◌, length, ◌↔◌, IsTrue, IfOk, IsNone, IfSome, Contains};
ghost use Rattle.attr_sets.specs.Attributes.{Attributes, IsSubset};
ghost use Rattle.attr_sets.specs.Sets.{attributes};
ghost use Rattle.dep_model.specs.Dependencies.{fd, mvd};
ghost use Rattle.dep_model.specs.Deps.{dependency_of, IsDepWithin};
ghost use Rattle.dep_model.specs.Theories.{universe_of, theory_of, deps_of};
ghost use Rattle.derivation.specs.Trees.{nodes};
ghost use Rattle.derivation.specs.Derivs.{tree_of, leaf_of};
ghost use Rattle.basis_proofs.specs.JoinedProofs.{IsProofOf};
ghost use Rattle.basis_proofs.specs.Proofs.{IsChainIfFunctional, IsDirectUnlessChain};
ghost use Rattle.short_derivations.specs.Inferences.{by_leaf, by_decomposition, AreGiven, EachIsUsed, NoneIsRepeated};
ghost use Rattle.short_derivations.specs.Links.{given_line, IsCutOf, IsLinkOf};
ghost use Rattle.short_derivations.specs.Short.{Concludes, IsGivenAlone, IsPartOfGiven, SparesNone, IsThrifty};
ghost use Rattle.short_derivations.specs.Thrift.{IsShortOf};
ghost use Rattle.short_derivations.specs.Views.{lines_of};

use crate::emitting::emitted;
use crate::functional::needed_chain;
use crate::given::number_given;
use crate::lines::add_line;
use crate::links::Link;
use crate::sparing::sparing;
use crate::{Inference, Reason};
use attr_sets::AttrSet;
use dep_model::{Dep, OutOfMemory, Theory, sides};
use derivation::{Deriv, LeafRule, nodes};
use fd_closure::follows;
use std::alloc::Global;

/// A derivation of a dependency by all sixteen rules, of no more lines than its certificate has.
pub fn short_derivation(
    alloc: Global,
    theory: &Theory,
    goal: Dep,
    certificate: &Deriv,
) -> Result<Vec<Inference>, OutOfMemory>
    requires within { IsDepWithin (universe_of theory.now) goal }
    requires proof { IsProofOf theory.now (dependency_of goal) (tree_of certificate.now) }
    requires chain { IsChainIfFunctional theory.now (dependency_of goal) (tree_of certificate.now) }
    requires direct { IsDirectUnlessChain theory.now (dependency_of goal) (tree_of certificate.now) }
    ensures given { IfOk result (λ lines. AreGiven theory.now [] (lines_of lines.items)) }
    ensures concludes { IfOk result (λ lines. Concludes (lines_of lines.items) (dependency_of goal)) }
    ensures used { IfOk result (λ lines. EachIsUsed (lines_of lines.items)) }
    ensures once { IfOk result (λ lines. NoneIsRepeated (lines_of lines.items)) }
    ensures no_longer { IfOk result (λ lines. length lines.items ≤ nodes (tree_of certificate.now)) }
    ensures alone { Contains (theory_of theory.now) (dependency_of goal)
        → IfOk result (λ lines. IsGivenAlone (lines_of lines.items) (dependency_of goal)) }
    ensures two { IsPartOfGiven theory.now (dependency_of goal)
        → IfOk result (λ lines. length lines.items ≤ 2) }
    ensures spared { IfOk result (λ lines. SparesNone theory.now (dependency_of goal) (lines_of lines.items)) }
    ensures thrifty { IfOk result (λ lines. IsThrifty theory.now (dependency_of goal) (lines_of lines.items)) }
{
    let lines = short_lines(alloc, theory, goal, certificate)?;
    Ok(lines)
}

// The same, of all at once.
fn short_lines(
    alloc: Global,
    theory: &Theory,
    goal: Dep,
    certificate: &Deriv,
) -> Result<Vec<Inference>, OutOfMemory>
    requires within { IsDepWithin (universe_of theory.now) goal }
    requires proof { IsProofOf theory.now (dependency_of goal) (tree_of certificate.now) }
    requires chain { IsChainIfFunctional theory.now (dependency_of goal) (tree_of certificate.now) }
    requires direct { IsDirectUnlessChain theory.now (dependency_of goal) (tree_of certificate.now) }
    ensures short { IfOk result (λ lines. IsShortOf theory.now (dependency_of goal)
        (nodes (tree_of certificate.now)) (lines_of lines.items)) }
{
    if let Some(number) = number_given(theory, goal) {
        return single(alloc, goal, LeafRule::Given(number));
    }
    match goal {
        Dep::Fd { lhs, rhs } => functional(alloc, theory, lhs, rhs, certificate),
        Dep::Mvd { lhs, rhs } => multivalued(alloc, theory, lhs, rhs, certificate),
    }
}

// A single line, by a rule without premises.
fn single(alloc: Global, stated: Dep, rule: LeafRule) -> Result<Vec<Inference>, OutOfMemory>
    ensures line { IfOk result (λ lines. lines_of lines.items
        ≡ record { stated = dependency_of stated; why = by_leaf (leaf_of rule) } ∷ []) }
{
    let mut lines = Vec::new(alloc);
    add_line(&mut lines, stated, Reason::Leaf(rule))?;
    Ok(lines)
}

// A derivation of a functional dependency that is not given.
fn functional(
    alloc: Global,
    theory: &Theory,
    lhs: AttrSet,
    rhs: AttrSet,
    certificate: &Deriv,
) -> Result<Vec<Inference>, OutOfMemory>
    requires lhs { IsSubset (attributes lhs) (universe_of theory.now) }
    requires rhs { IsSubset (attributes rhs) (universe_of theory.now) }
    requires new { Contains (theory_of theory.now) (fd (attributes lhs) (attributes rhs)) → ⊥ }
    requires proof { IsProofOf theory.now (fd (attributes lhs) (attributes rhs)) (tree_of certificate.now) }
    requires chain { IsChainIfFunctional theory.now (fd (attributes lhs) (attributes rhs)) (tree_of certificate.now) }
    requires direct { IsDirectUnlessChain theory.now (fd (attributes lhs) (attributes rhs)) (tree_of certificate.now) }
    ensures short { IfOk result (λ lines. IsShortOf theory.now (fd (attributes lhs) (attributes rhs))
        (nodes (tree_of certificate.now)) (lines_of lines.items)) }
{
    if rhs.is_subset(lhs) {
        return single(
            alloc,
            Dep::Fd { lhs, rhs },
            LeafRule::Reflexivity { lhs, rhs },
        );
    }
    if let Some(link) = link_with(theory, lhs, rhs) {
        return cut(alloc, link, lhs, rhs);
    }
    if follows(theory.deps(), lhs, rhs) {
        return needed_chain(alloc, theory, lhs, rhs, certificate);
    }
    emitted(alloc, theory, certificate, Dep::Fd { lhs, rhs })
}

// The first functional dependency with this left side whose right side holds this one.
fn link_with(theory: &Theory, lhs: AttrSet, rhs: AttrSet) -> Option<Link>
    ensures none { IsNone result → (z : Attributes) → Contains (theory_of theory.now) (fd (attributes lhs) z)
        → IsSubset (attributes rhs) z → ⊥ }
    ensures link { IfSome result (IsLinkOf theory.now) }
    ensures left { IfSome result (λ link. attributes link.lhs ≡ attributes lhs) }
    ensures right { IfSome result (λ link. IsSubset (attributes rhs) (attributes link.rhs)) }
{
    for (k, dep) in theory.deps().iter().enumerate() {
        if is_part_of(*dep, lhs, rhs) {
            let (left, right) = sides(*dep);
            return Some(Link {
                position: k as u16,
                lhs: left,
                rhs: right,
            });
        }
    }
    None
}

// Whether a dependency is functional, with this left side and a right side that holds this one.
fn is_part_of(dep: Dep, lhs: AttrSet, rhs: AttrSet) -> bool
    ensures part { IsTrue result ↔ IsCutOf (attributes lhs) (attributes rhs) (dependency_of dep) }
{
    match dep {
        Dep::Fd {
            lhs: left,
            rhs: right,
        } => { left.is_subset(lhs) && lhs.is_subset(left) && rhs.is_subset(right) }
        Dep::Mvd { .. } => false,
    }
}

// A given dependency, and what it says of a part of its right side.
fn cut(alloc: Global, link: Link, lhs: AttrSet, rhs: AttrSet) -> Result<Vec<Inference>, OutOfMemory>
    ensures lines { IfOk result (λ lines. lines_of lines.items
        ≡ given_line link.position (attributes link.lhs) (attributes link.rhs)
        ∷ record { stated = fd (attributes lhs) (attributes rhs); why = by_decomposition 0 } ∷ []) }
{
    let mut lines = Vec::new(alloc);
    let given = Dep::Fd {
        lhs: link.lhs,
        rhs: link.rhs,
    };
    add_line(
        &mut lines,
        given,
        Reason::Leaf(LeafRule::Given(link.position)),
    )?;
    add_line(&mut lines, Dep::Fd { lhs, rhs }, Reason::Decomposition(0))?;
    Ok(lines)
}

// A derivation of a multivalued dependency that is not given.
fn multivalued(
    alloc: Global,
    theory: &Theory,
    lhs: AttrSet,
    rhs: AttrSet,
    certificate: &Deriv,
) -> Result<Vec<Inference>, OutOfMemory>
    requires lhs { IsSubset (attributes lhs) (universe_of theory.now) }
    requires rhs { IsSubset (attributes rhs) (universe_of theory.now) }
    requires new { Contains (theory_of theory.now) (mvd (attributes lhs) (attributes rhs)) → ⊥ }
    requires proof { IsProofOf theory.now (mvd (attributes lhs) (attributes rhs)) (tree_of certificate.now) }
    requires direct { IsDirectUnlessChain theory.now (mvd (attributes lhs) (attributes rhs)) (tree_of certificate.now) }
    ensures short { IfOk result (λ lines. IsShortOf theory.now (mvd (attributes lhs) (attributes rhs))
        (nodes (tree_of certificate.now)) (lines_of lines.items)) }
{
    if rhs.is_subset(lhs) {
        return single(
            alloc,
            Dep::Mvd { lhs, rhs },
            LeafRule::MReflexivity { lhs, rhs },
        );
    }
    let lines = emitted(alloc, theory, certificate, Dep::Mvd { lhs, rhs })?;
    sparing(alloc, theory, lhs, rhs, lines, nodes(certificate))
}
