ghost use Rattle.std.specs.Prelude.{◌≡◌, ℕ, ◌<◌, ◌≤◌, ◌↔◌, true, All, IsNone, IfSome};
ghost use Rattle.attr_sets.specs.Attributes.{below, IsSubset};
ghost use Rattle.attr_sets.specs.Sets.{attributes};
ghost use Rattle.attr_sets.specs.declared.set.TheConstants.{MOST_ATTRIBUTES};
ghost use Rattle.dep_model.specs.Deps.{dependencies_of, IsDepWithin};
ghost use Rattle.dep_model.specs.Keys.{InClosure, IsBlock};
ghost use Rattle.dep_model.specs.Theories.{width_of, universe_of, theory_of};
ghost use Rattle.dep_basis.specs.Bases.{IsBasis, IsTraceBasis};

use crate::gathering::{Blocks, traces};
use crate::pieces::{all_pieces, outside_all};
use crate::refining::block_of;
use attr_sets::AttrSet;
use dep_model::{Dep, Theory};
use fd_closure::{functional_closure, is_functional};

/// The dependency basis of a left side: the attributes that it determines, and the blocks, the least
/// sets of other attributes that it multidetermines (Beeri 1980). A set is multidetermined exactly
/// where no block intersects both it and its complement.
pub fn basis(theory: &Theory, lhs: AttrSet) -> Blocks
    requires within { IsSubset (attributes lhs) (universe_of theory.now) }
    ensures basis { IsBasis (width_of theory.now) (theory_of theory.now) (attributes lhs) result }
{
    basis_by(theory.deps(), theory.width(), lhs)
}

/// The dependency basis by a list of dependencies over this many attributes.
pub fn basis_by(deps: &[Dep], width: u8, lhs: AttrSet) -> Blocks
    requires width { width ≤ MOST_ATTRIBUTES }
    requires deps { All (IsDepWithin (below width)) deps.now }
    requires lhs { IsSubset (attributes lhs) (below width) }
    ensures basis { IsBasis width (dependencies_of deps.now) (attributes lhs) result }
{
    traces(deps, width, AttrSet::full(width), lhs)
}

/// What a scheme has of a dependency basis by a list of dependencies over this many attributes. It
/// decides what is implied on the scheme.
pub fn trace_basis_by(deps: &[Dep], width: u8, scheme: AttrSet, lhs: AttrSet) -> Blocks
    requires width { width ≤ MOST_ATTRIBUTES }
    requires deps { All (IsDepWithin (below width)) deps.now }
    requires scheme { IsSubset (attributes scheme) (below width) }
    requires lhs { IsSubset (attributes lhs) (attributes scheme) }
    ensures basis { IsTraceBasis width (dependencies_of deps.now) (attributes scheme)
        (attributes lhs) result }
{
    traces(deps, width, scheme, lhs)
}

/// The attributes that a left side determines.
pub fn closure(theory: &Theory, lhs: AttrSet) -> AttrSet
    requires within { IsSubset (attributes lhs) (universe_of theory.now) }
    ensures closure { (a : ℕ) → (attributes result a ≡ true)
        ↔ InClosure (width_of theory.now) (theory_of theory.now) (attributes lhs) a }
{
    closure_by(theory.deps(), theory.width(), lhs)
}

/// The attributes that a left side determines by a list of dependencies over this many attributes.
/// Where all are functional they are found without the blocks.
pub fn closure_by(deps: &[Dep], width: u8, lhs: AttrSet) -> AttrSet
    requires width { width ≤ MOST_ATTRIBUTES }
    requires deps { All (IsDepWithin (below width)) deps.now }
    requires lhs { IsSubset (attributes lhs) (below width) }
    ensures closure { (a : ℕ) → (attributes result a ≡ true)
        ↔ InClosure width (dependencies_of deps.now) (attributes lhs) a }
{
    if is_functional(deps) {
        return functional_closure(deps, lhs);
    }
    let found = all_pieces(deps, width, lhs);
    outside_all(AttrSet::full(width), &found.sets[..found.count as usize])
}

/// The block of a left side with an attribute in it; none where the left side determines the attribute.
pub fn block(theory: &Theory, lhs: AttrSet, attribute: u8) -> Option<AttrSet>
    requires lhs { IsSubset (attributes lhs) (universe_of theory.now) }
    requires attribute { attribute < width_of theory.now }
    ensures none { IsNone result
        ↔ InClosure (width_of theory.now) (theory_of theory.now) (attributes lhs) attribute }
    ensures block { IfSome result
        (λ p. IsBlock (width_of theory.now) (theory_of theory.now) (attributes lhs) (attributes p)) }
    ensures member { IfSome result (λ p. attributes p attribute ≡ true) }
{
    block_by(theory.deps(), theory.width(), lhs, attribute)
}

/// The block with an attribute in it by a list of dependencies over this many attributes.
pub fn block_by(deps: &[Dep], width: u8, lhs: AttrSet, attribute: u8) -> Option<AttrSet>
    requires width { width ≤ MOST_ATTRIBUTES }
    requires deps { All (IsDepWithin (below width)) deps.now }
    requires lhs { IsSubset (attributes lhs) (below width) }
    requires attribute { attribute < width }
    ensures none { IsNone result ↔ InClosure width (dependencies_of deps.now)
        (attributes lhs) attribute }
    ensures block { IfSome result (λ p. IsBlock width (dependencies_of deps.now) (attributes lhs)
        (attributes p)) }
    ensures member { IfSome result (λ p. attributes p attribute ≡ true) }
{
    let found = block_of(deps, width, lhs, attribute);
    if found.is_empty() {
        return None;
    }
    Some(found)
}
