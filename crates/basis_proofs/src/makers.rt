ghost use Rattle.std.specs.Prelude.{◌≡◌, ℕ, ◌+◌, ◌<◌, true, Some, slice_get, IfOk};
ghost use Rattle.attr_sets.specs.Attributes.{Attributes, only, difference, IsSubset, Disjoint};
ghost use Rattle.attr_sets.specs.Sets.{attributes};
ghost use Rattle.dep_model.specs.Dependencies.{fd, mvd, left_of, right_of};
ghost use Rattle.dep_model.specs.Deps.{dependency_of};
ghost use Rattle.dep_model.specs.Theories.{width_of, universe_of, deps_of};
ghost use Rattle.derivation.specs.Trees.{leaf, reflexivity};
ghost use Rattle.derivation.specs.Derivs.{tree_of};
ghost use Rattle.derivation.specs.Conclusions.{Proves};
ghost use Rattle.basis_proofs.specs.CutProofs.{HasSize};

use attr_sets::AttrSet;
use dep_model::{Dep, OutOfMemory, Theory};
use derivation::{Deriv, LeafRule, PairRule, StepRule};
use std::alloc::Global;

// `lhs -> rhs`, by reflexivity.
pub fn reflexivity(
    alloc: Global,
    theory: &Theory,
    lhs: AttrSet,
    rhs: AttrSet,
) -> Result<Box<Deriv>, OutOfMemory>
    requires lhs { IsSubset (attributes lhs) (universe_of theory.now) }
    requires rhs { IsSubset (attributes rhs) (attributes lhs) }
    ensures tree { IfOk result (λ b. tree_of b.value
        ≡ leaf (reflexivity (attributes lhs) (attributes rhs))) }
    ensures proves { IfOk result (λ b. Proves theory.now (tree_of b.value) (fd (attributes lhs)
        (attributes rhs))) }
    ensures size { IfOk result (λ b. HasSize (tree_of b.value) 1 1) }
{
    Ok(Box::new(alloc, Deriv::Leaf(LeafRule::Reflexivity { lhs, rhs }))?)
}

// `lhs ->> rhs`, by reflexivity.
pub fn mreflexivity(
    alloc: Global,
    theory: &Theory,
    lhs: AttrSet,
    rhs: AttrSet,
) -> Result<Box<Deriv>, OutOfMemory>
    requires lhs { IsSubset (attributes lhs) (universe_of theory.now) }
    requires rhs { IsSubset (attributes rhs) (attributes lhs) }
    ensures proves { IfOk result (λ b. Proves theory.now (tree_of b.value) (mvd (attributes lhs)
        (attributes rhs))) }
    ensures size { IfOk result (λ b. HasSize (tree_of b.value) 1 1) }
{
    Ok(Box::new(alloc, Deriv::Leaf(LeafRule::MReflexivity { lhs, rhs }))?)
}

// `lhs ->>` all attributes outside it.
pub fn complementation(
    alloc: Global,
    theory: &Theory,
    lhs: AttrSet,
) -> Result<Box<Deriv>, OutOfMemory>
    requires lhs { IsSubset (attributes lhs) (universe_of theory.now) }
    ensures proves { IfOk result
        (λ b. Proves theory.now (tree_of b.value)
        (mvd (attributes lhs) (difference (universe_of theory.now) (attributes lhs)))) }
    ensures size { IfOk result (λ b. HasSize (tree_of b.value) 2 2) }
{
    let from = mreflexivity(alloc, theory, lhs, lhs)?;
    Ok(Box::new(alloc, Deriv::Step(StepRule::Complementation, from))?)
}

// A given functional dependency.
pub fn given_fd(
    alloc: Global,
    theory: &Theory,
    k: u16,
    lhs: AttrSet,
    rhs: AttrSet,
) -> Result<Box<Deriv>, OutOfMemory>
    requires given { slice_get (deps_of theory.now) k ≡ Some (Dep.Fd lhs rhs) }
    ensures proves { IfOk result (λ b. Proves theory.now (tree_of b.value) (fd (attributes lhs)
        (attributes rhs))) }
    ensures size { IfOk result (λ b. HasSize (tree_of b.value) 1 1) }
{
    Ok(Box::new(alloc, Deriv::Leaf(LeafRule::Given(k)))?)
}

// A given dependency of either kind, as a multivalued one.
pub fn given_mvd(
    alloc: Global,
    theory: &Theory,
    k: u16,
    dep: Dep,
) -> Result<Box<Deriv>, OutOfMemory>
    requires given { slice_get (deps_of theory.now) k ≡ Some dep }
    ensures proves { IfOk result
        (λ b. Proves theory.now (tree_of b.value)
        (mvd (left_of (dependency_of dep)) (right_of (dependency_of dep)))) }
    ensures size { IfOk result (λ b. HasSize (tree_of b.value) 2 2) }
{
    match dep {
        Dep::Fd { lhs, rhs } => {
            let from = given_fd(alloc, theory, k, lhs, rhs)?;
            Ok(Box::new(alloc, Deriv::Step(StepRule::Replication, from))?)
        }
        Dep::Mvd { .. } => Ok(Box::new(alloc, Deriv::Leaf(LeafRule::Given(k)))?),
    }
}

// From `X ->> W` and a given `V -> T`, where `V` is apart from `W` and `a` is in `W` and in `T`: `X -> a`.
pub fn coalesce_with_given(
    alloc: Global,
    theory: &Theory,
    part: Box<Deriv>,
    given: Box<Deriv>,
    rhs: AttrSet,
    attribute: u8,
) -> Result<Box<Deriv>, OutOfMemory>
    requires attribute { attribute < 128 }
    requires rhs { IsSubset (attributes rhs) (universe_of theory.now) }
    requires member { attributes rhs attribute ≡ true }
    ensures proves { (x w v : Attributes) → Disjoint v w → w attribute ≡ true
        → Proves theory.now (tree_of part.value) (mvd x w)
        → Proves theory.now (tree_of given.value) (fd v (attributes rhs))
        → IfOk result (λ b. Proves theory.now (tree_of b.value) (fd x (only attribute))) }
    ensures size { (n m : ℕ) → HasSize (tree_of part.value) n m → HasSize (tree_of given.value) 1 1
        → IfOk result (λ b. HasSize (tree_of b.value) (n + 4) (m + 3)) }
{
    let only = reflexivity(alloc, theory, rhs, AttrSet::single(attribute))?;
    let gives = Box::new(alloc, Deriv::Pair(PairRule::Transitivity, given, only))?;
    Ok(Box::new(alloc, Deriv::Pair(PairRule::Coalescence, part, gives))?)
}
