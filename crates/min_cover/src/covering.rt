ghost use Rattle.std.specs.Prelude.{IfOk, All};
ghost use Rattle.dep_model.specs.Dependencies.{functional_part};
ghost use Rattle.dep_model.specs.Deps.{dependencies_of, IsDepWithin};
ghost use Rattle.dep_model.specs.Theories.{width_of, universe_of, theory_of};
ghost use Rattle.min_cover.specs.Covers.{IsFixedCover, IsFixedWholeCover, IsMinimalCover, IsWholeCover};

use crate::shortening::left_reduced_members;
use crate::thinning::{add_multivalued, nonredundant_from};
use dep_model::{Dep, OutOfMemory, Theory};
use std::alloc::Global;

/// A minimal cover of the functional dependencies of a schema. Each is taken as its members, with one
/// attribute on the right; from each, the attributes of its left side are left out that can be, from the
/// first on; then, from the first member on, those are left out that the others imply.
pub fn minimal_cover(alloc: Global, theory: &Theory) -> Result<Vec<Dep>, OutOfMemory>
    ensures fixed { IfOk result (λ cover.
        IsFixedCover (width_of theory.now) (theory_of theory.now) (dependencies_of cover.items)) }
    ensures minimal { IfOk result (λ cover.
        IsMinimalCover (width_of theory.now) (theory_of theory.now) (dependencies_of cover.items)) }
    ensures within { IfOk result (λ cover. All (IsDepWithin (universe_of theory.now)) cover.items) }
{
    let members = left_reduced_members(alloc, theory)?;
    nonredundant_from(alloc, theory.width(), members, 0)
}

/// A minimal cover of the functional dependencies, and those multivalued ones that are left where, from
/// the first to the last, each is left out that the cover and the others imply. It says all that the
/// schema says.
pub fn whole_cover(alloc: Global, theory: &Theory) -> Result<Vec<Dep>, OutOfMemory>
    ensures fixed { IfOk result (λ whole.
        IsFixedWholeCover (width_of theory.now) (theory_of theory.now) (dependencies_of whole.items)) }
    ensures minimal { IfOk result (λ whole. IsMinimalCover (width_of theory.now) (theory_of theory.now)
        (functional_part (dependencies_of whole.items))) }
    ensures whole_cover { IfOk result (λ whole.
        IsWholeCover (width_of theory.now) (theory_of theory.now) (dependencies_of whole.items)) }
    ensures within { IfOk result (λ whole. All (IsDepWithin (universe_of theory.now)) whole.items) }
{
    let mut cover = minimal_cover(alloc, theory)?;
    let from = cover.len();
    add_multivalued(theory.deps(), &mut cover)?;
    nonredundant_from(alloc, theory.width(), cover, from)
}
