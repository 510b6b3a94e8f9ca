ghost use Rattle.std.specs.Prelude.{◌≡◌, ◌≤◌, ℕ, All, filter, IfOk};
ghost use Rattle.attr_sets.specs.Attributes.{Attributes};
ghost use Rattle.attr_sets.specs.declared.set.TheConstants.{MOST_ATTRIBUTES};
ghost use Rattle.dep_model.specs.Deps.{dependencies_of, dependency_of, IsDepWithin};
ghost use Rattle.dep_model.specs.Tuples.{Relation};
ghost use Rattle.fd_discovery.specs.Minimal.{AreAllMinimal};
ghost use Rattle.fd_search.specs.Small.{AreAllSmall, has_few};

use dep_model::{Dep, OutOfMemory, sides};
use std::alloc::Global;

/// Those of some dependencies that have at most `most` attributes on the left, in their order. Of all
/// minimal ones of rows they are all minimal ones of so many.
pub fn few_on_the_left(alloc: Global, most: u8, deps: &[Dep]) -> Result<Vec<Dep>, OutOfMemory>
    ensures few { IfOk result (λ few. few.items ≡ filter (λ d. has_few most (dependency_of d)) deps.now) }
    ensures small { (n : ℕ) (r : Relation) → n ≤ MOST_ATTRIBUTES → AreAllMinimal n r (dependencies_of deps.now)
        → IfOk result (λ few. AreAllSmall n most r (dependencies_of few.items)) }
    ensures within { (u : Attributes) → All (IsDepWithin u) deps.now
        → IfOk result (λ few. All (IsDepWithin u) few.items) }
{
    let mut few = Vec::new(alloc);
    for dep in deps {
        let (left, _) = sides(*dep);
        if left.len() <= most {
            few.push(*dep)?;
        }
    }
    Ok(few)
}
