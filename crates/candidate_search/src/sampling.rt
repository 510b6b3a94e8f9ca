ghost use Rattle.std.specs.Prelude.{◌≤◌, All, IfOk};
ghost use Rattle.attr_sets.specs.declared.set.TheConstants.{MOST_ATTRIBUTES};
ghost use Rattle.candidate_sets.specs.Evidence.{AreEvidence};
ghost use Rattle.candidate_search.specs.Pairs.{IsRowPair};
ghost use Rattle.candidate_search.specs.Sides.{AreCoded};
ghost use Rattle.row_groups.specs.Interning.{count_of};
ghost use Rattle.dep_model.specs.Plans.{schemes_of};
ghost use Rattle.dep_model.specs.Tuples.{Relation};

use crate::neighbours::neighbour_pairs;
use crate::pairs::row_agreement;
use attr_sets::{AttrSet, MOST_ATTRIBUTES};
use dep_model::OutOfMemory;
use row_groups::Interned;
use std::alloc::Global;

// The most members of left sides for which neighbours are not looked at: it takes longer than to test them.
const FEW_MEMBERS: u8 = 1;

// Evidence to begin with: what neighbours in the orders of the columns agree on, where left sides may have
// some members, and what is given.
pub fn first_evidence(
    alloc: Global,
    codes: &Interned,
    width: u8,
    most: u8,
    seen: &[AttrSet],
) -> Result<Vec<AttrSet>, OutOfMemory>
    requires width { width ≤ MOST_ATTRIBUTES }
    requires rows { (r : Relation) × AreCoded width r codes.now }
    ensures evidence { (r : Relation) → AreCoded width r codes.now → AreEvidence width r (schemes_of seen.now)
        → IfOk result (λ found. AreEvidence width r (schemes_of found.items)) }
{
    let mut found = early_evidence(alloc, codes, width, most)?;
    found.extend_from_slice(seen)?;
    Ok(found)
}

// What neighbours in the orders of the columns agree on, larger sets first.
fn early_evidence(
    alloc: Global,
    codes: &Interned,
    width: u8,
    most: u8,
) -> Result<Vec<AttrSet>, OutOfMemory>
    requires width { width ≤ MOST_ATTRIBUTES }
    requires rows { (r : Relation) × AreCoded width r codes.now }
    ensures evidence { (r : Relation) → AreCoded width r codes.now
        → IfOk result (λ found. AreEvidence width r (schemes_of found.items)) }
{
    if most <= FEW_MEMBERS {
        return Ok(Vec::new(alloc));
    }
    let pairs = neighbour_pairs(alloc, codes, width)?;
    let mut found = agreements(alloc, codes, width, &pairs)?;
    found.sort_by_key(|set| set.len())?;
    found.reverse();
    Ok(found)
}

// What the rows of each pair agree on.
fn agreements(
    alloc: Global,
    codes: &Interned,
    width: u8,
    pairs: &[(u32, u32)],
) -> Result<Vec<AttrSet>, OutOfMemory>
    requires width { width ≤ MOST_ATTRIBUTES }
    requires rows { (r : Relation) × AreCoded width r codes.now }
    requires pairs { All (IsRowPair (count_of codes.now)) pairs.now }
    ensures evidence { (r : Relation) → AreCoded width r codes.now
        → IfOk result (λ found. AreEvidence width r (schemes_of found.items)) }
{
    let mut found = Vec::with_capacity(alloc, pairs.len())?;
    for pair in pairs {
        found.push(row_agreement(codes, width, pair.0 as usize, pair.1 as usize))?;
    }
    Ok(found)
}
