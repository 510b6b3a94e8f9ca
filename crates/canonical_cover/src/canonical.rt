ghost use Rattle.std.specs.Prelude.{IfOk, All};
ghost use Rattle.dep_model.specs.Dependencies.{functional_part};
ghost use Rattle.dep_model.specs.Deps.{dependencies_of, IsDepWithin};
ghost use Rattle.dep_model.specs.Theories.{width_of, universe_of, theory_of};
ghost use Rattle.min_cover.specs.Covers.{IsWholeCover};
ghost use Rattle.canonical_cover.specs.Canonical.{IsCanonicalCover, IsFixedCanonicalCover};

use crate::merging::merge_left_sides;
use dep_model::{Dep, OutOfMemory, Theory};
use min_cover::whole_cover;
use std::alloc::Global;

/// A canonical cover of the functional dependencies of a schema, and the multivalued ones that it and the
/// others do not imply: the whole cover, in which the functional dependencies of one left side stand as
/// one, at the place of the first. It says all that the schema says.
pub fn canonical_cover(alloc: Global, theory: &Theory) -> Result<Vec<Dep>, OutOfMemory>
    ensures fixed { IfOk result (λ cover. IsFixedCanonicalCover (width_of theory.now) (theory_of theory.now)
        (dependencies_of cover.items)) }
    ensures canonical { IfOk result (λ cover. IsCanonicalCover (width_of theory.now) (theory_of theory.now)
        (functional_part (dependencies_of cover.items))) }
    ensures whole_cover { IfOk result (λ cover.
        IsWholeCover (width_of theory.now) (theory_of theory.now) (dependencies_of cover.items)) }
    ensures within { IfOk result (λ cover. All (IsDepWithin (universe_of theory.now)) cover.items) }
{
    let whole = whole_cover(alloc, theory)?;
    merge_left_sides(alloc, &whole)
}
