ghost use Rattle.std.specs.Prelude.{◌≡◌, ◌∷◌, ◌<◌, ◌≤◌, ℕ, List, [], false, length, IfOk, IfErr};
ghost use Rattle.attr_sets.specs.Attributes.{Attributes};
ghost use Rattle.attr_sets.specs.Sets.{attributes};
ghost use Rattle.attr_sets.specs.declared.set.TheConstants.{MOST_ATTRIBUTES};
ghost use Rattle.dep_model.specs.Failures.{RefusesAs};
ghost use Rattle.dep_model.specs.Plans.{schemes_of};
ghost use Rattle.candidate_sets.specs.Standing.{AreCandidates, HasMoreCandidates};
ghost use Rattle.candidate_sets.specs.declared.refusal.TheConstants.{MOST_CANDIDATES};

use crate::asking::is_any_within;
use crate::growing::fresh_sets;
use crate::parting::{sets_apart, sets_to_grow};
use crate::refusal::TooManyCandidates;
use attr_sets::{AttrSet, MOST_ATTRIBUTES};
use dep_model::{Failure, OutOfMemory};
use std::alloc::Global;

/// The candidates for attribute `right` without evidence: the empty set alone.
pub fn first_candidates(alloc: Global) -> Result<Vec<AttrSet>, OutOfMemory>
    ensures candidates { (width most right : ℕ)
        → IfOk result (λ first. AreCandidates width most [] right (schemes_of first.items)) }
    ensures within_limit { IfOk result (λ first. length first.items ≤ MOST_CANDIDATES) }
{
    let mut first = Vec::new(alloc);
    first.push(AttrSet::empty())?;
    Ok(first)
}

/// Makes of the candidates for attribute `right`, of at most `most` of `width` columns, those with
/// one piece of evidence more. They are refused where there are more than `MOST_CANDIDATES`.
pub fn add_evidence(
    alloc: Global,
    width: u8,
    most: u8,
    right: u8,
    candidates: &mut Vec<AttrSet>,
    evidence: AttrSet,
) -> Result<(), Failure<TooManyCandidates>>
    requires width { width ≤ MOST_ATTRIBUTES }
    requires right { right < width }
    requires candidates { (es : List Attributes)
        × AreCandidates width most es right (schemes_of candidates.old.items) }
    requires within_limit { length candidates.old.items ≤ MOST_CANDIDATES }
    ensures candidates { (es : List Attributes)
        → AreCandidates width most es right (schemes_of candidates.old.items)
        → IfOk result (λ _. AreCandidates width most (attributes evidence ∷ es) right
        (schemes_of candidates.new.items)) }
    ensures within_limit { IfOk result (λ _. length candidates.new.items ≤ MOST_CANDIDATES) }
    ensures refusal { (es : List Attributes)
        → AreCandidates width most es right (schemes_of candidates.old.items)
        → IfErr result (RefusesAs (λ _.
        HasMoreCandidates width most (attributes evidence ∷ es) right MOST_CANDIDATES)) }
{
    if !evidence.contains(right) && is_any_within(candidates, evidence) {
        *candidates = next_candidates(alloc, width, most, right, candidates, evidence)?;
    }
    Ok(())
}

// The candidates after evidence without the right side: those that it does not hold, and the others
// with one column more.
fn next_candidates(
    alloc: Global,
    width: u8,
    most: u8,
    right: u8,
    candidates: &[AttrSet],
    evidence: AttrSet,
) -> Result<Vec<AttrSet>, Failure<TooManyCandidates>>
    requires width { width ≤ MOST_ATTRIBUTES }
    requires right { right < width }
    requires candidates { (es : List Attributes)
        × AreCandidates width most es right (schemes_of candidates.now) }
    requires within_limit { length candidates.now ≤ MOST_CANDIDATES }
    requires without { attributes evidence right ≡ false }
    ensures candidates { (es : List Attributes)
        → AreCandidates width most es right (schemes_of candidates.now)
        → IfOk result (λ next.
        AreCandidates width most (attributes evidence ∷ es) right (schemes_of next.items)) }
    ensures within_limit { IfOk result (λ next. length next.items ≤ MOST_CANDIDATES) }
    ensures refusal { (es : List Attributes)
        → AreCandidates width most es right (schemes_of candidates.now)
        → IfErr result (RefusesAs (λ _.
        HasMoreCandidates width most (attributes evidence ∷ es) right MOST_CANDIDATES)) }
{
    let mut next = sets_apart(alloc, candidates, evidence)?;
    let hits = sets_to_grow(alloc, candidates, evidence, most)?;
    let columns = AttrSet::full(width).difference(evidence).without(right);
    let new = fresh_sets(alloc, &next, &hits, columns, width)?;
    next.extend_from_slice(&new)?;
    next.sort()?;
    Ok(next)
}
