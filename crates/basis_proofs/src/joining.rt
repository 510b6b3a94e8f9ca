ghost use Rattle.std.specs.Prelude.{◌≡◌, ◌<◌, false, IfOk};
ghost use Rattle.attr_sets.specs.Attributes.{only, IsSubset};
ghost use Rattle.attr_sets.specs.Sets.{attributes};
ghost use Rattle.dep_model.specs.Dependencies.{fd, mvd};
ghost use Rattle.dep_model.specs.Theories.{width_of, universe_of, ImpliedBy};
ghost use Rattle.derivation.specs.Derivs.{tree_of};
ghost use Rattle.basis_proofs.specs.CutProofs.{IsClosedProof};
ghost use Rattle.basis_proofs.specs.JoinedProofs.{IsProofOf, IsSetProof};

use crate::makers::{mreflexivity, reflexivity};
use crate::showing::{PartProof, Shown, show_attribute};
use attr_sets::AttrSet;
use dep_model::{OutOfMemory, Theory};
use derivation::{Deriv, StepRule, unite_fd, unite_mvd};
use std::alloc::Global;

// A derivation of an implied functional dependency, which joins the attributes of its right side one
// by one.
pub fn join_fd(
    alloc: Global,
    theory: &Theory,
    lhs: AttrSet,
    rhs: AttrSet,
) -> Result<Box<Deriv>, OutOfMemory>
    requires lhs { IsSubset (attributes lhs) (universe_of theory.now) }
    requires rhs { IsSubset (attributes rhs) (universe_of theory.now) }
    requires implied { ImpliedBy theory.now (fd (attributes lhs) (attributes rhs)) }
    ensures proof { IfOk result (λ b. IsProofOf theory.now (fd (attributes lhs) (attributes rhs))
        (tree_of b.value)) }
{
    let mut joined = reflexivity(alloc, theory, lhs, lhs.intersection(rhs))?;
    let mut left = rhs.difference(lhs);
    while let Some(first) = left.first() {
        let next = show_closed(alloc, theory, lhs, first)?;
        let only = AttrSet::single(first);
        let Ok(more) = unite_fd(alloc, lhs, only, joined, next) else {
            return Err(OutOfMemory);
        };
        joined = more;
        left = left.without(first);
    }
    Ok(joined)
}

// A derivation of an implied multivalued dependency, which joins the parts of its right side.
pub fn join_mvd(
    alloc: Global,
    theory: &Theory,
    lhs: AttrSet,
    rhs: AttrSet,
) -> Result<Box<Deriv>, OutOfMemory>
    requires lhs { IsSubset (attributes lhs) (universe_of theory.now) }
    requires rhs { IsSubset (attributes rhs) (universe_of theory.now) }
    requires implied { ImpliedBy theory.now (mvd (attributes lhs) (attributes rhs)) }
    ensures proof { IfOk result (λ b.
        IsProofOf theory.now (mvd (attributes lhs) (attributes rhs)) (tree_of b.value)) }
{
    let mut joined = mreflexivity(alloc, theory, lhs, lhs.intersection(rhs))?;
    let mut left = rhs.difference(lhs);
    while let Some(first) = left.first() {
        let next = show_set(alloc, theory, lhs, first)?;
        let done = rhs.difference(left);
        let Ok(more) = unite_mvd(alloc, lhs, done, next.part, joined, next.deriv) else {
            return Err(OutOfMemory);
        };
        joined = more;
        left = left.difference(next.part);
    }
    Ok(joined)
}

// That the left side determines an attribute, where it is implied.
fn show_closed(
    alloc: Global,
    theory: &Theory,
    lhs: AttrSet,
    attribute: u8,
) -> Result<Box<Deriv>, OutOfMemory>
    requires lhs { IsSubset (attributes lhs) (universe_of theory.now) }
    requires attribute { attribute < width_of theory.now }
    requires outside { attributes lhs attribute ≡ false }
    requires implied { ImpliedBy theory.now (fd (attributes lhs) (only attribute)) }
    ensures proof { IfOk result (λ b. IsClosedProof theory.now (attributes lhs) attribute
        (tree_of b.value)) }
{
    match show_attribute(alloc, theory, lhs, attribute)? {
        Shown::Closed(deriv) => Ok(deriv),
        Shown::Part(_) => unreachable!(),
    }
}

// The block of an attribute, or the attribute alone where it is determined, and that the left side
// multidetermines it.
fn show_set(
    alloc: Global,
    theory: &Theory,
    lhs: AttrSet,
    attribute: u8,
) -> Result<PartProof, OutOfMemory>
    requires lhs { IsSubset (attributes lhs) (universe_of theory.now) }
    requires attribute { attribute < width_of theory.now }
    requires outside { attributes lhs attribute ≡ false }
    ensures proof { IfOk result (IsSetProof theory.now (attributes lhs) attribute) }
{
    match show_attribute(alloc, theory, lhs, attribute)? {
        Shown::Closed(deriv) => Ok(PartProof {
            lhs,
            part: AttrSet::single(attribute),
            deriv: Box::new(alloc, Deriv::Step(StepRule::Replication, deriv))?,
        }),
        Shown::Part(block) => Ok(block),
    }
}
