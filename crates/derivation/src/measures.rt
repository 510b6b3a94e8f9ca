ghost use Rattle.std.specs.Prelude.{◌≡◌, ℕ, ◌<◌, ◌^◌};
ghost use Rattle.derivation.specs.Trees.{nodes, depth};
ghost use Rattle.derivation.specs.Derivs.{tree_of};

use crate::Deriv;

/// The most nodes of a derivation that is given for a proof, and the most lines of a certificate.
pub const MOST_NODES: u32 = 262_144;

/// The most levels of such a derivation.
pub const MOST_LEVELS: u32 = 2_048;

/// How many nodes a derivation has.
pub fn nodes(deriv: &Deriv) -> u32
    requires fits_u32 { nodes (tree_of deriv.now) < 2 ^ 32 }
    ensures count { result ≡ nodes (tree_of deriv.now) }
{
    match deriv {
        Deriv::Leaf(_) => 1,
        Deriv::Step(_, premise) => nodes(premise) + 1,
        Deriv::Pair(_, first, second) => nodes(first) + nodes(second) + 1,
    }
}

/// How many nodes the longest path of a derivation has, from the root to a leaf.
pub fn depth(deriv: &Deriv) -> u32
    requires fits_u32 { nodes (tree_of deriv.now) < 2 ^ 32 }
    ensures levels { result ≡ depth (tree_of deriv.now) }
{
    match deriv {
        Deriv::Leaf(_) => 1,
        Deriv::Step(_, premise) => depth(premise) + 1,
        Deriv::Pair(_, first, second) => depth(first).max(depth(second)) + 1,
    }
}
