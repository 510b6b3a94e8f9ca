ghost use Rattle.std.specs.Prelude.{◌≡◌, ◌≢◌, ◌+◌, ◌<◌, ◌≤◌, ℕ, List, length, All, AllPairs, IfOk, IfErr};
ghost use Rattle.attr_sets.specs.Attributes.{Disjoint};
ghost use Rattle.attr_sets.specs.Sets.{attributes};
ghost use Rattle.attr_sets.specs.declared.set.AttrSet.{AttrSet};
ghost use Rattle.attr_sets.specs.declared.set.TheConstants.{MOST_ATTRIBUTES};
ghost use Rattle.dep_model.specs.Failures.{RefusesAs};
ghost use Rattle.candidate_sets.specs.Cuts.{Ascend};
ghost use Rattle.candidate_sets.specs.Growing.{AddsFresh, AreDifferent, AreFresh, HasManyFresh};
ghost use Rattle.candidate_sets.specs.declared.refusal.TheConstants.{MOST_CANDIDATES};

use crate::asking::is_any_within;
use crate::refusal::{MOST_CANDIDATES, TooManyCandidates};
use attr_sets::{AttrSet, MOST_ATTRIBUTES};
use dep_model::{Failure, OutOfMemory};
use std::alloc::Global;

// The hit sets with each one of the columns more that hold no kept set; or, where they are too many
// beside the kept ones, a refusal.
pub fn fresh_sets(
    alloc: Global,
    kept: &[AttrSet],
    hits: &[AttrSet],
    columns: AttrSet,
    width: u8,
) -> Result<Vec<AttrSet>, Failure<TooManyCandidates>>
    requires width { width ≤ MOST_ATTRIBUTES }
    requires ascending { Ascend kept.now }
    requires within_limit { length kept.now ≤ MOST_CANDIDATES }
    requires differ { AllPairs (λ s t. attributes s ≢ attributes t) hits.now }
    requires apart { All (λ s. Disjoint (attributes s) (attributes columns)) hits.now }
    ensures fresh { IfOk result (λ new.
        AreFresh kept.now (attributes columns) hits.now width new.items) }
    ensures within_limit { IfOk result (λ new.
        length kept.now + length new.items ≤ MOST_CANDIDATES) }
    ensures refusal { IfErr result (RefusesAs (λ _.
        HasManyFresh kept.now (attributes columns) hits.now width)) }
{
    let mut new = Vec::new(alloc);
    for hit in hits {
        add_grown(kept, *hit, columns, width, &mut new)?;
        if new.len() > MOST_CANDIDATES - kept.len() {
            return Err(Failure::Refused(TooManyCandidates));
        }
    }
    Ok(new)
}

// Adds a set with each one of the columns more that holds no kept set.
fn add_grown(
    kept: &[AttrSet],
    set: AttrSet,
    columns: AttrSet,
    width: u8,
    new: &mut Vec<AttrSet>,
) -> Result<(), OutOfMemory>
    requires width { width ≤ MOST_ATTRIBUTES }
    requires ascending { Ascend kept.now }
    requires apart { Disjoint (attributes set) (attributes columns) }
    ensures added { IfOk result (λ _.
        AddsFresh kept.now (attributes columns) set width new.old.items new.new.items) }
{
    for column in 0..width {
        if columns.contains(column) {
            let larger = set.with(column);
            if !is_any_within(kept, larger) {
                new.push(larger)?;
            }
        }
    }
    Ok(())
}
