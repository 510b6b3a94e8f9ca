ghost use Rattle.std.specs.Prelude.{◌≡◌, ◌≤◌, ◌↔◌, IsNone, IfSome, All};
ghost use Rattle.attr_sets.specs.Attributes.{below, IsSubset, Intersects};
ghost use Rattle.attr_sets.specs.Sets.{attributes};
ghost use Rattle.attr_sets.specs.declared.set.TheConstants.{MOST_ATTRIBUTES};
ghost use Rattle.dep_model.specs.Dependencies.{fd, mvd};
ghost use Rattle.dep_model.specs.Deps.{dependency_of, dependencies_of, IsDepWithin};
ghost use Rattle.dep_model.specs.Implication.{Implies};
ghost use Rattle.dep_model.specs.Theories.{width_of, universe_of, theory_of, ImpliedBy};
ghost use Rattle.dep_basis.specs.Firsts.{IsFirstWith};
ghost use Rattle.dep_basis.specs.Breaking.{IsBreakingBlock};
ghost use Rattle.dep_basis.specs.Decisions.{IsDecided};

use crate::bases::{basis_by, block_by};
use attr_sets::AttrSet;
use dep_model::{Dep, Theory};
use fd_closure::functional_closure;

/// Whether a schema implies a dependency.
#[derive(Clone, Copy, Debug, PartialEq, Eq)]
pub enum Decision {
    /// Every relation that obeys the schema obeys the dependency.
    Implied,
    /// Two rows that agree exactly on `agreement` obey the schema and break the dependency.
    Broken { agreement: AttrSet },
}

/// Decides whether a schema implies a dependency. Where it does not, the two rows agree outside one
/// block of the left side: for a functional dependency that of the first attribute of the right side
/// outside the closed set, for a multivalued one the first that intersects both the right side and its
/// complement.
pub fn decide(theory: &Theory, dep: Dep) -> Decision
    requires within { IsDepWithin (universe_of theory.now) dep }
    ensures decision { IsDecided (width_of theory.now) (theory_of theory.now) (dependency_of dep) result }
    ensures implied { (result ≡ Decision.Implied) ↔ ImpliedBy theory.now (dependency_of dep) }
{
    decide_by(theory.deps(), theory.width(), dep)
}

/// Decides whether a list of dependencies over this many attributes implies a dependency.
pub fn decide_by(deps: &[Dep], width: u8, dep: Dep) -> Decision
    requires width { width ≤ MOST_ATTRIBUTES }
    requires deps { All (IsDepWithin (below width)) deps.now }
    requires within { IsDepWithin (below width) dep }
    ensures decision { IsDecided width (dependencies_of deps.now) (dependency_of dep) result }
    ensures implied { (result ≡ Decision.Implied)
        ↔ Implies width (dependencies_of deps.now) (dependency_of dep) }
{
    match breaking_block(deps, width, dep) {
        None => Decision::Implied,
        Some(block) => Decision::Broken {
            agreement: AttrSet::full(width).difference(block),
        },
    }
}

// The block that shows that a dependency is not implied.
fn breaking_block(deps: &[Dep], width: u8, dep: Dep) -> Option<AttrSet>
    requires width { width ≤ MOST_ATTRIBUTES }
    requires deps { All (IsDepWithin (below width)) deps.now }
    requires within { IsDepWithin (below width) dep }
    ensures none { IsNone result ↔ Implies width (dependencies_of deps.now) (dependency_of dep) }
    ensures block { IfSome result (λ p.
        IsBreakingBlock width (dependencies_of deps.now) (dependency_of dep) (attributes p)) }
{
    match dep {
        Dep::Fd { lhs, rhs } => block_beyond(deps, width, lhs, rhs),
        Dep::Mvd { lhs, rhs } => block_split(deps, width, lhs, rhs),
    }
}

// The block of the first attribute of the right side that the left side does not determine. Those that
// the functional dependencies alone determine are passed over at once.
fn block_beyond(deps: &[Dep], width: u8, lhs: AttrSet, rhs: AttrSet) -> Option<AttrSet>
    requires width { width ≤ MOST_ATTRIBUTES }
    requires deps { All (IsDepWithin (below width)) deps.now }
    requires lhs { IsSubset (attributes lhs) (below width) }
    requires rhs { IsSubset (attributes rhs) (below width) }
    ensures none { IsNone result ↔ Implies width (dependencies_of deps.now) (fd (attributes lhs)
        (attributes rhs)) }
    ensures block { IfSome result (λ p.
        IsBreakingBlock width (dependencies_of deps.now) (fd (attributes lhs) (attributes rhs)) (attributes p)) }
{
    let mut left = rhs.difference(functional_closure(deps, lhs));
    while let Some(first) = left.first() {
        let block = block_by(deps, width, lhs, first);
        if block.is_some() {
            return block;
        }
        left = left.without(first);
    }
    None
}

// The first block that intersects both the right side and its complement.
fn block_split(deps: &[Dep], width: u8, lhs: AttrSet, rhs: AttrSet) -> Option<AttrSet>
    requires width { width ≤ MOST_ATTRIBUTES }
    requires deps { All (IsDepWithin (below width)) deps.now }
    requires lhs { IsSubset (attributes lhs) (below width) }
    requires rhs { IsSubset (attributes rhs) (below width) }
    ensures none { IsNone result ↔ Implies width (dependencies_of deps.now) (mvd (attributes lhs)
        (attributes rhs)) }
    ensures block { IfSome result (λ p.
        IsBreakingBlock width (dependencies_of deps.now) (mvd (attributes lhs) (attributes rhs)) (attributes p)) }
{
    let found = basis_by(deps, width, lhs);
    first_intersecting(
        &found.blocks[..found.count as usize],
        rhs,
        AttrSet::full(width).difference(rhs),
    )
}

// The first block that intersects two sets.
fn first_intersecting(blocks: &[AttrSet], one: AttrSet, other: AttrSet) -> Option<AttrSet>
    ensures none { IsNone result
        ↔ All (λ p. Intersects (attributes p) (attributes one)
        × Intersects (attributes p) (attributes other) → ⊥) blocks.now }
    ensures first { IfSome result
        (IsFirstWith (λ p. Intersects (attributes p) (attributes one)
        × Intersects (attributes p) (attributes other)) blocks.now) }
{
    for block in blocks {
        if block.intersects(one) && block.intersects(other) {
            return Some(*block);
        }
    }
    None
}
