ghost use Rattle.std.specs.Prelude.{ℕ, List, All, IfSome};
ghost use Rattle.attr_sets.specs.Sets.{attributes};
ghost use Rattle.dep_model.specs.Dependencies.{Dependency};
ghost use Rattle.fd_closure.specs.Closures.{IsClosureOf, IsKnownClosure};

use attr_sets::AttrSet;

/// A set, and what it determines.
#[derive(Clone, Copy, Drop)]
pub struct KnownClosure {
    pub of: AttrSet,
    pub closed: AttrSet,
}

/// What a set determines, where it stands in a table at a position. The position is a guess.
pub fn known_closure(table: &[KnownClosure], set: AttrSet, position: usize) -> Option<AttrSet>
    ensures known { (n : ℕ) (ds : List Dependency) → All (IsKnownClosure n ds) table.now
        → IfSome result (λ closed. IsClosureOf n ds (attributes set) (attributes closed)) }
{
    if let Some(known) = table.get(position) {
        if known.of == set {
            return Some(known.closed);
        }
    }
    None
}
