//! The shorter of two derivations of a goal.

ghost use Rattle.std.specs.Prelude.{◌≡◌, ◌≤◌, ◌<◌, ◌^◌, IsTrue};
ghost use Rattle.dep_model.specs.Dependencies.{Dependency};
ghost use Rattle.dep_model.specs.Deps.{dependency_of};
ghost use Rattle.derivation.specs.Trees.{nodes};
ghost use Rattle.derivation.specs.Derivs.{tree_of};
ghost use Rattle.derivation.specs.Conclusions.{Proves};
ghost use Rattle.derivation.specs.declared.measures.TheConstants.{MOST_NODES, MOST_LEVELS};
ghost use Rattle.basis_proofs.specs.CutProofs.{HasSize};
ghost use Rattle.basis_proofs.specs.JoinedProofs.{IsProofOf};
ghost use Rattle.short_proofs.specs.Short.{IsNoLongerThan};
ghost use Rattle.short_proofs.specs.Shapes.{IsSameOrShorter};

use dep_model::{Dep, Theory};
use derivation::{Deriv, conclude, nodes, same_dep, shorten};

// The first of two derivations of the same, unless the second one is shorter once what it says twice is
// left out.
pub fn shorter(theory: &Theory, deriv: Box<Deriv>, other: Box<Deriv>) -> Box<Deriv>
    requires fits_u32 { nodes (tree_of deriv.value) < 2 ^ 32 }
    requires small { HasSize (tree_of other.value) MOST_NODES MOST_LEVELS }
    ensures kept { (d : Dependency) → Proves theory.now (tree_of other.value) d
        → IsSameOrShorter theory.now d (tree_of deriv.value) (tree_of result.value) }
    ensures than_other { nodes (tree_of result.value) ≤ nodes (tree_of other.value) }
{
    let short = shorten(theory, other);
    if nodes(&short) < nodes(&deriv) {
        short
    } else {
        deriv
    }
}

// A derivation of a goal, unless another one proves it and is shorter.
pub fn unless_other(theory: &Theory, goal: Dep, deriv: Box<Deriv>, other: Box<Deriv>) -> Box<Deriv>
    requires proof { IsProofOf theory.now (dependency_of goal) (tree_of deriv.value) }
    requires small { HasSize (tree_of other.value) 16 16 }
    ensures kept { IsSameOrShorter theory.now (dependency_of goal) (tree_of deriv.value) (tree_of result.value) }
    ensures short { IsNoLongerThan theory.now (dependency_of goal) (λ u. u ≡ tree_of other.value)
        (tree_of result.value) }
{
    match conclude(theory, &other) {
        Ok(dep) => {
            if same_dep(dep, goal) {
                shorter(theory, deriv, other)
            } else {
                deriv
            }
        }
        Err(_) => deriv,
    }
}

// Whether a derivation has this many nodes at most.
pub fn is_no_longer(deriv: &Box<Deriv>, most: u8) -> bool
    requires fits_u32 { nodes (tree_of deriv.now.value) < 2 ^ 32 }
    ensures most { IsTrue result → nodes (tree_of deriv.now.value) ≤ most }
{
    nodes(deriv) <= most as u32
}
