ghost use Rattle.std.specs.Prelude.{◌≡◌};
ghost use Rattle.attr_sets.specs.Sets.{attributes};
ghost use Rattle.dep_model.specs.Dependencies.{left_of, right_of};
ghost use Rattle.dep_model.specs.Deps.{dependency_of};

use attr_sets::AttrSet;

/// A dependency between two sets of attributes.
#[derive(Clone, Copy, Debug, PartialEq, Eq, Hash)]
pub enum Dep {
    /// Functional: tuples that agree on `lhs` agree on `rhs`.
    Fd { lhs: AttrSet, rhs: AttrSet },
    /// Multivalued: `lhs` determines the set of values on `rhs`, whatever the rest of the universe holds.
    Mvd { lhs: AttrSet, rhs: AttrSet },
}

/// The left side and the right side of a dependency.
pub fn sides(dep: Dep) -> (AttrSet, AttrSet)
    ensures left { attributes result.0 ≡ left_of (dependency_of dep) }
    ensures right { attributes result.1 ≡ right_of (dependency_of dep) }
{
    match dep {
        Dep::Fd { lhs, rhs } | Dep::Mvd { lhs, rhs } => (lhs, rhs),
    }
}
