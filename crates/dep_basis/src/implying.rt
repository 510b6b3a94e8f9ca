ghost use Rattle.std.specs.Prelude.{◌≤◌, ◌↔◌, IsTrue, All};
ghost use Rattle.attr_sets.specs.Attributes.{below, IsSubset};
ghost use Rattle.attr_sets.specs.Sets.{attributes};
ghost use Rattle.attr_sets.specs.declared.set.TheConstants.{MOST_ATTRIBUTES};
ghost use Rattle.dep_model.specs.Dependencies.{fd};
ghost use Rattle.dep_model.specs.Deps.{dependency_of, dependencies_of, IsDepWithin};
ghost use Rattle.dep_model.specs.Implication.{Implies};
ghost use Rattle.dep_model.specs.Theories.{universe_of, ImpliedBy};

use crate::bases::closure_by;
use crate::deciding::{Decision, decide_by};
use attr_sets::AttrSet;
use dep_model::{Dep, Theory};
use fd_closure::{follows, is_functional};

/// Whether a schema implies a dependency. Other than `decide` it names nothing where it does not, and
/// is found sooner.
pub fn is_implied(theory: &Theory, dep: Dep) -> bool
    requires within { IsDepWithin (universe_of theory.now) dep }
    ensures implied { IsTrue result ↔ ImpliedBy theory.now (dependency_of dep) }
{
    is_implied_by(theory.deps(), theory.width(), dep)
}

/// Whether a list of dependencies over this many attributes implies a dependency.
pub fn is_implied_by(deps: &[Dep], width: u8, dep: Dep) -> bool
    requires width { width ≤ MOST_ATTRIBUTES }
    requires deps { All (IsDepWithin (below width)) deps.now }
    requires within { IsDepWithin (below width) dep }
    ensures implied { IsTrue result ↔ Implies width (dependencies_of deps.now) (dependency_of dep) }
{
    match dep {
        Dep::Fd { lhs, rhs } => determines(deps, width, lhs, rhs),
        Dep::Mvd { .. } => is_implied_by_blocks(deps, width, dep),
    }
}

// Whether a left side determines a right side. All that it determines is found at once, so that a wide
// right side costs no more; where all dependencies are functional, no more is found than is asked.
fn determines(deps: &[Dep], width: u8, lhs: AttrSet, rhs: AttrSet) -> bool
    requires width { width ≤ MOST_ATTRIBUTES }
    requires deps { All (IsDepWithin (below width)) deps.now }
    requires lhs { IsSubset (attributes lhs) (below width) }
    requires rhs { IsSubset (attributes rhs) (below width) }
    ensures implied { IsTrue result ↔ Implies width (dependencies_of deps.now) (fd (attributes lhs)
        (attributes rhs)) }
{
    if is_functional(deps) {
        return follows(deps, lhs, rhs);
    }
    rhs.is_subset(closure_by(deps, width, lhs))
}

// Whether a dependency is implied, by the blocks of its left side.
pub fn is_implied_by_blocks(deps: &[Dep], width: u8, dep: Dep) -> bool
    requires width { width ≤ MOST_ATTRIBUTES }
    requires deps { All (IsDepWithin (below width)) deps.now }
    requires within { IsDepWithin (below width) dep }
    ensures implied { IsTrue result ↔ Implies width (dependencies_of deps.now) (dependency_of dep) }
{
    match decide_by(deps, width, dep) {
        Decision::Implied => true,
        Decision::Broken { .. } => false,
    }
}
