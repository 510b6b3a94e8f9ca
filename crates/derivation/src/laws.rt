//! What derivations prove, whoever made them. Each law is a function that does nothing, whose clause is
//! the law; so the gate asks for its proof.

ghost use Rattle.std.specs.Prelude.{◌≡◌, ℕ, ◌<◌, ◌≤◌, ◌+◌, ◌↔◌, Ok, Err};
ghost use Rattle.dep_model.specs.Theories.{Theory};
ghost use Rattle.dep_model.specs.Dependencies.{Dependency};
ghost use Rattle.dep_model.specs.Theories.{ImpliedBy};
ghost use Rattle.derivation.specs.declared.fault.Fault.{Fault};
ghost use Rattle.derivation.specs.Trees.{Tree, nodes};
ghost use Rattle.derivation.specs.Conclusions.{Proves, conclusion_after};

/// Soundness: what a tree proves is obeyed by every relation that obeys the schema's dependencies.
pub fn soundness()
    ensures law { (s : Theory) (t : Tree) (d : Dependency) → Proves s t d → ImpliedBy s d }
{}

/// A tree proves one dependency at most. What it concludes is what it proves, wherever its nodes are
/// counted from, and its first fault is at one of its nodes.
pub fn one_conclusion()
    ensures unique { (s : Theory) (t : Tree) (d e : Dependency) → Proves s t d → Proves s t e → d ≡ e }
    ensures proved { (s : Theory) (before : ℕ) (t : Tree) (d : Dependency)
        → conclusion_after s before t ≡ Ok d ↔ Proves s t d }
    ensures fault { (s : Theory) (before : ℕ) (t : Tree) (f : Fault) → conclusion_after s before t ≡ Err f
        → (before < f.node) × (f.node ≤ before + nodes t) }
{}
