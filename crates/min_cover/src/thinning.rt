ghost use Rattle.std.specs.Prelude.{◌≡◌, ◌≤◌, ℕ, true, ◌++◌, length, take, drop, IfOk, All};
ghost use Rattle.attr_sets.specs.Attributes.{below};
ghost use Rattle.attr_sets.specs.declared.set.TheConstants.{MOST_ATTRIBUTES};
ghost use Rattle.dep_model.specs.Tuples.{Relation};
ghost use Rattle.dep_model.specs.Dependencies.{is_fd, Obeys};
ghost use Rattle.dep_model.specs.Deps.{dependency_of, dependencies_of, IsDepWithin};
ghost use Rattle.min_cover.specs.Covers.{IsThinned, multivalued_part};

use attr_sets::AttrSet;
use dep_basis::is_implied_by;
use dep_model::{Dep, OutOfMemory};
use std::alloc::Global;

/// A dependency that every relation obeys, which stands where one was left out.
pub fn trivial_dependency() -> Dep
    ensures functional { is_fd (dependency_of result) ≡ true }
    ensures within { (n : ℕ) → IsDepWithin (below n) result }
    ensures obeyed { (n : ℕ) (r : Relation) → Obeys n (dependency_of result) r }
{
    Dep::Fd {
        lhs: AttrSet::empty(),
        rhs: AttrSet::empty(),
    }
}

/// What is left of a list where, from a position on, each dependency is left out that the others imply:
/// those kept before it and all after it.
pub fn nonredundant_from(
    alloc: Global,
    width: u8,
    mut others: Vec<Dep>,
    from: usize,
) -> Result<Vec<Dep>, OutOfMemory>
    requires width { width ≤ MOST_ATTRIBUTES }
    requires from { from ≤ length others.items }
    requires within { All (IsDepWithin (below width)) others.items }
    ensures thinned { IfOk result (λ kept. IsThinned width
        (dependencies_of (take from others.items)) (dependencies_of (drop from others.items))
        (dependencies_of kept.items)) }
    ensures within { IfOk result (λ kept. All (IsDepWithin (below width)) kept.items) }
{
    let mut kept = Vec::from_slice(alloc, &others[..from])?;
    for k in from..others.len() {
        let dep = others[k];
        others[k] = trivial_dependency();
        let implied = is_implied_by(&others, width, dep);
        if !implied {
            others[k] = dep;
            kept.push(dep)?;
        }
    }
    Ok(kept)
}

// Adds the multivalued dependencies of a list to others.
pub fn add_multivalued(deps: &[Dep], others: &mut Vec<Dep>) -> Result<(), OutOfMemory>
    ensures added { IfOk result (λ _. dependencies_of others.new.items
        ≡ dependencies_of others.old.items ++ multivalued_part (dependencies_of deps.now)) }
    ensures front { IfOk result (λ _. take (length others.old.items) others.new.items ≡ others.old.items) }
    ensures within { (n : ℕ) → All (IsDepWithin (below n)) others.old.items
        → All (IsDepWithin (below n)) deps.now
        → IfOk result (λ _. All (IsDepWithin (below n)) others.new.items) }
{
    for dep in deps {
        if let Dep::Mvd { .. } = *dep {
            others.push(*dep)?;
        }
    }
    Ok(())
}
