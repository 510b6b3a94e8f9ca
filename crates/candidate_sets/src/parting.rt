ghost use Rattle.std.specs.Prelude.{◌≡◌, ◌<◌, ◌^◌, All, filter, IfOk};
ghost use Rattle.attr_sets.specs.Sets.{attributes};
ghost use Rattle.attr_sets.specs.declared.set.TheConstants.{MOST_ATTRIBUTES};
ghost use Rattle.candidate_sets.specs.Growing.{can_grow, is_apart};

use attr_sets::AttrSet;
use dep_model::OutOfMemory;
use std::alloc::Global;

// The sets that do not lie within a bound, in their order.
pub fn sets_apart(
    alloc: Global,
    sets: &[AttrSet],
    bound: AttrSet,
) -> Result<Vec<AttrSet>, OutOfMemory>
    ensures apart { IfOk result (λ apart.
        apart.items ≡ filter (is_apart (attributes bound)) sets.now) }
    ensures numbers { IfOk result (λ apart. All (λ s. s.0 < 2 ^ MOST_ATTRIBUTES) apart.items) }
{
    let mut apart = Vec::new(alloc);
    for set in sets {
        if !set.is_subset(bound) {
            apart.push(with_number(*set))?;
        }
    }
    Ok(apart)
}

// The set itself. What is read from a slice is not known to have a number that fits; a parameter
// is.
fn with_number(set: AttrSet) -> AttrSet
    ensures same { result ≡ set }
    ensures number { result.0 < 2 ^ MOST_ATTRIBUTES }
{
    set
}

// The sets within a bound that have fewer members than `most`, in their order.
pub fn sets_to_grow(
    alloc: Global,
    sets: &[AttrSet],
    bound: AttrSet,
    most: u8,
) -> Result<Vec<AttrSet>, OutOfMemory>
    ensures hits { IfOk result (λ hits.
        hits.items ≡ filter (can_grow (attributes bound) most) sets.now) }
{
    let mut hits = Vec::new(alloc);
    for set in sets {
        if set.is_subset(bound) && set.len() < most {
            hits.push(*set)?;
        }
    }
    Ok(hits)
}
