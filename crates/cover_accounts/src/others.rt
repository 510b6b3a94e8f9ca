ghost use Rattle.std.specs.Prelude.{◌≡◌, ◌<◌, All, length, slice_get, Some, IfOk};
ghost use Rattle.std.specs.List.{remove};
ghost use Rattle.dep_model.specs.Deps.{dependency_of, dependencies_of, IsDepWithin};
ghost use Rattle.dep_model.specs.Theories.{deps_of, universe_of, theory_of};

use dep_model::{Dep, OutOfMemory, Theory};
use std::alloc::Global;

/// The dependency at a position of a schema, and the others in their order.
pub fn dependency_and_others(
    alloc: Global,
    theory: &Theory,
    k: usize,
) -> Result<(Dep, Vec<Dep>), OutOfMemory>
    requires position { k < length (deps_of theory.now) }
    ensures dep { IfOk result (λ found. slice_get (theory_of theory.now) k ≡ Some (dependency_of found.0)) }
    ensures others { IfOk result (λ found. dependencies_of found.1.items ≡ remove (theory_of theory.now) k) }
    ensures dep_within { IfOk result (λ found. IsDepWithin (universe_of theory.now) found.0) }
    ensures others_within { IfOk result (λ found. All (IsDepWithin (universe_of theory.now)) found.1.items) }
{
    let mut others = Vec::from_slice(alloc, theory.deps())?;
    let dep = others.remove(k);
    Ok((dep, others))
}
