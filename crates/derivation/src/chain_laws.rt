//! Functional chains: the derivations by Armstrong's rules that follow the closure of a left side, one
//! dependency after another. Each law is a function that does nothing, whose clause is the law.

ghost use Rattle.std.specs.Prelude.{◌≡◌, ◌≤◌, ◌+◌, ◌*◌};
ghost use Rattle.attr_sets.specs.Attributes.{Attributes, IsSubset};
ghost use Rattle.attr_sets.specs.declared.set.TheConstants.{MOST_ATTRIBUTES};
ghost use Rattle.dep_model.specs.Theories.{Theory};
ghost use Rattle.dep_model.specs.Dependencies.{fd, functional_part};
ghost use Rattle.dep_model.specs.Implication.{Implies};
ghost use Rattle.dep_model.specs.Theories.{width_of, theory_of, universe_of};
ghost use Rattle.derivation.specs.Trees.{Tree, nodes, depth};
ghost use Rattle.derivation.specs.Conclusions.{Proves};
ghost use Rattle.derivation.specs.Chains.{IsFunctionalChain};

/// A dependency has one functional chain at most, which proves it; what has one is implied by the
/// functional dependencies alone. It has few nodes and levels.
pub fn one_chain()
    ensures unique { (s : Theory) (x y : Attributes) (t u : Tree) → IsFunctionalChain s x y t
        → IsFunctionalChain s x y u → t ≡ u }
    ensures proves { (s : Theory) (x y : Attributes) (t : Tree) → IsSubset x (universe_of s)
        → IsFunctionalChain s x y t → Proves s t (fd x y) }
    ensures functional { (s : Theory) (x y : Attributes) (t : Tree) → IsFunctionalChain s x y t
        → Implies (width_of s) (functional_part (theory_of s)) (fd x y) }
    ensures nodes { (s : Theory) (x y : Attributes) (t : Tree) → IsFunctionalChain s x y t
        → nodes t ≤ 3 * MOST_ATTRIBUTES + 3 }
    ensures levels { (s : Theory) (x y : Attributes) (t : Tree)
        → IsFunctionalChain s x y t → depth t ≤ MOST_ATTRIBUTES + 3 }
{}
