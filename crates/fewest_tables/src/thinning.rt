ghost use Rattle.std.specs.Prelude.{◌≤◌, ◌++◌, All, IfOk};
ghost use Rattle.attr_sets.specs.Attributes.{below};
ghost use Rattle.attr_sets.specs.declared.set.TheConstants.{MOST_ATTRIBUTES};
ghost use Rattle.dep_model.specs.Deps.{dependencies_of, IsDepWithin};
ghost use Rattle.min_cover.specs.Covers.{IsThinned};

use dep_model::{Dep, OutOfMemory};
use min_cover::nonredundant_from;
use std::alloc::Global;

// The members of a cover that are left where, from the first to the last, each is left out that the
// others imply together with rules that stay: those kept before it and all after it.
pub fn kept_beside(
    alloc: Global,
    width: u8,
    mut rules: Vec<Dep>,
    cover: &[Dep],
) -> Result<Vec<Dep>, OutOfMemory>
    requires width { width ≤ MOST_ATTRIBUTES }
    requires rules { All (IsDepWithin (below width)) rules.items }
    requires cover { All (IsDepWithin (below width)) cover.now }
    ensures thinned { IfOk result (λ kept. IsThinned width (dependencies_of rules.items)
        (dependencies_of cover.now) (dependencies_of rules.items ++ dependencies_of kept.items)) }
{
    let from = rules.len();
    rules.extend_from_slice(cover)?;
    let left = nonredundant_from(alloc, width, rules, from)?;
    let kept = Vec::from_slice(alloc, &left[from..])?;
    Ok(kept)
}
