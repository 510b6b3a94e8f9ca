ghost use Rattle.std.specs.Prelude.{◌≡◌, ◌<◌, true, false, IfOk};
ghost use Rattle.attr_sets.specs.Attributes.{IsSubset};
ghost use Rattle.attr_sets.specs.Sets.{attributes};
ghost use Rattle.dep_model.specs.Dependencies.{is_fd, right_of};
ghost use Rattle.dep_model.specs.Deps.{dependency_of};
ghost use Rattle.dep_model.specs.Theories.{width_of, universe_of};
ghost use Rattle.derivation.specs.Derivs.{tree_of};
ghost use Rattle.basis_proofs.specs.CutProofs.{CanCut, IsNextPart, IsClosedProof, IsCutPart, IsProofOfAttribute};

use crate::makers::{coalesce_with_given, complementation, given_fd, given_mvd};
use attr_sets::AttrSet;
use dep_basis::best_cut;
use dep_model::{Dep, OutOfMemory, Theory, sides};
use derivation::{Deriv, split_inside, split_outside};
use std::alloc::Global;

// A derivation of `lhs ->> part`.
#[derive(Debug, Drop)]
pub struct PartProof {
    pub lhs: AttrSet,
    pub part: AttrSet,
    pub deriv: Box<Deriv>,
}

// What a derivation shows of an attribute.
#[derive(Debug, Drop)]
pub enum Shown {
    // That the left side determines it.
    Closed(Box<Deriv>),
    // That the left side multidetermines a part with it.
    Part(PartProof),
}

// A derivation for what is left of a part with the attribute in it, where given dependency `k` cuts
// the part; or one that the left side determines the attribute.
fn cut_part(
    alloc: Global,
    theory: &Theory,
    k: u16,
    dep: Dep,
    from: PartProof,
    attribute: u8,
) -> Result<Shown, OutOfMemory>
    requires cut { CanCut theory.now attribute k dep from }
    ensures proof { IfOk result (IsCutPart theory.now attribute from) }
{
    let (_, rhs) = sides(dep);
    if !rhs.contains(attribute) {
        return Ok(Shown::Part(cut_outside(alloc, theory, k, dep, from, attribute)?));
    }
    match dep {
        Dep::Fd { lhs, rhs } => Ok(Shown::Closed(cut_closed(
            alloc, theory, k, lhs, rhs, from, attribute,
        )?)),
        Dep::Mvd { .. } => Ok(Shown::Part(cut_inside(alloc, theory, k, dep, from, attribute)?)),
    }
}

// A derivation for the part without the right side of the given dependency.
fn cut_outside(
    alloc: Global,
    theory: &Theory,
    k: u16,
    dep: Dep,
    from: PartProof,
    attribute: u8,
) -> Result<PartProof, OutOfMemory>
    requires cut { CanCut theory.now attribute k dep from }
    requires without { right_of (dependency_of dep) attribute ≡ false }
    ensures proof { IfOk result (IsNextPart theory.now attribute from) }
{
    let (_, rhs) = sides(dep);
    let PartProof { lhs, part, deriv } = from;
    let given = given_mvd(alloc, theory, k, dep)?;
    match split_outside(alloc, theory, lhs, part, deriv, given) {
        Ok(deriv) => Ok(PartProof {
            lhs,
            part: part.difference(rhs),
            deriv,
        }),
        Err(_) => Err(OutOfMemory),
    }
}

// A derivation for what the part shares with the right side of the given multivalued dependency.
fn cut_inside(
    alloc: Global,
    theory: &Theory,
    k: u16,
    dep: Dep,
    from: PartProof,
    attribute: u8,
) -> Result<PartProof, OutOfMemory>
    requires cut { CanCut theory.now attribute k dep from }
    requires with { right_of (dependency_of dep) attribute ≡ true }
    requires multivalued { is_fd (dependency_of dep) ≡ false }
    ensures proof { IfOk result (IsNextPart theory.now attribute from) }
{
    let (_, rhs) = sides(dep);
    let PartProof { lhs, part, deriv } = from;
    let given = given_mvd(alloc, theory, k, dep)?;
    match split_inside(alloc, theory, lhs, part, deriv, given) {
        Ok(deriv) => Ok(PartProof {
            lhs,
            part: part.intersection(rhs),
            deriv,
        }),
        Err(_) => Err(OutOfMemory),
    }
}

// A derivation that the left side determines the attribute, which a given functional dependency has
// on the right.
fn cut_closed(
    alloc: Global,
    theory: &Theory,
    k: u16,
    lhs: AttrSet,
    rhs: AttrSet,
    from: PartProof,
    attribute: u8,
) -> Result<Box<Deriv>, OutOfMemory>
    requires cut { CanCut theory.now attribute k (Dep.Fd lhs rhs) from }
    requires with { attributes rhs attribute ≡ true }
    ensures proof { IfOk result (λ b.
        IsClosedProof theory.now (attributes from.lhs) attribute (tree_of b.value)) }
{
    let given = given_fd(alloc, theory, k, lhs, rhs)?;
    coalesce_with_given(alloc, theory, from.deriv, given, rhs, attribute)
}

// What is proved of an attribute outside the left side.
pub fn show_attribute(
    alloc: Global,
    theory: &Theory,
    lhs: AttrSet,
    attribute: u8,
) -> Result<Shown, OutOfMemory>
    requires lhs { IsSubset (attributes lhs) (universe_of theory.now) }
    requires attribute { attribute < width_of theory.now }
    requires outside { attributes lhs attribute ≡ false }
    ensures proof { IfOk result (IsProofOfAttribute theory.now (attributes lhs) attribute) }
{
    let deps = theory.deps();
    let mut from = PartProof {
        lhs,
        part: AttrSet::full(theory.width()).difference(lhs),
        deriv: complementation(alloc, theory, lhs)?,
    };
    while let Some(k) = best_cut(deps, from.part, attribute) {
        match cut_part(alloc, theory, k as u16, deps[k], from, attribute)? {
            Shown::Closed(deriv) => return Ok(Shown::Closed(deriv)),
            Shown::Part(rest) => from = rest,
        }
    }
    Ok(Shown::Part(from))
}
