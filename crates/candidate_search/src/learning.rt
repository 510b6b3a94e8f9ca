ghost use Rattle.std.specs.Prelude.{◌≡◌, ℕ, ◌+◌, ◌++◌, ◌<◌, ◌≤◌, List, length, All, Contains, IfOk, IfErr};
ghost use Rattle.attr_sets.specs.Attributes.{Attributes};
ghost use Rattle.attr_sets.specs.declared.set.TheConstants.{MOST_ATTRIBUTES};
ghost use Rattle.candidate_sets.specs.Evidence.{AreEvidence};
ghost use Rattle.candidate_sets.specs.Standing.{AreCandidates, ExceedsCandidates};
ghost use Rattle.candidate_sets.specs.declared.refusal.TheConstants.{MOST_CANDIDATES};
ghost use Rattle.candidate_search.specs.Sides.{HasCandidates, IsAnsweredAt, IsTooManyLeftSides, IsTested, lefts_of};
ghost use Rattle.candidate_search.specs.Sides.{rights_of};
ghost use Rattle.dep_model.specs.Failures.{RefusesAs};
ghost use Rattle.dep_model.specs.Plans.{schemes_of};
ghost use Rattle.dep_model.specs.Tuples.{Relation};

use crate::side::{Side, TooManyLeftSides};
use attr_sets::{AttrSet, MOST_ATTRIBUTES};
use candidate_sets::{MOST_CANDIDATES, TooManyCandidates, add_evidence};
use dep_model::Failure;
use std::alloc::Global;

// The sides after further evidence.
pub fn sides_after(
    alloc: Global,
    width: u8,
    most: u8,
    sides: &[Side],
    found: &[AttrSet],
) -> Result<Vec<Side>, Failure<TooManyLeftSides>>
    requires width { width ≤ MOST_ATTRIBUTES }
    requires sides { All (HasCandidates width most) sides.now }
    ensures rights { IfOk result (λ next. rights_of next.items ≡ rights_of sides.now) }
    ensures untested { (r : Relation) → All (IsTested width most r 0) sides.now
        → AreEvidence width r (schemes_of found.now)
        → IfOk result (λ next. All (IsTested width most r 0) next.items) }
    ensures tested { (r : Relation) (size : ℕ) → All (IsTested width most r size) sides.now
        → AreEvidence width r (schemes_of found.now)
        → All (IsAnsweredAt width r (schemes_of found.now) size) sides.now
        → IfOk result (λ next. All (IsTested width most r (size + 1)) next.items) }
    ensures refusal { (r : Relation) (size : ℕ) → All (IsTested width most r size) sides.now
        → AreEvidence width r (schemes_of found.now)
        → IfErr result (RefusesAs (IsTooManyLeftSides width most r)) }
    ensures named { IfErr result (RefusesAs (λ refusal. Contains (rights_of sides.now) refusal.right)) }
{
    let mut next = Vec::new(alloc);
    for side in sides {
        let after = side_after(alloc, width, most, side, found)?;
        next.push(after)?;
    }
    Ok(next)
}

// A side after further evidence.
fn side_after(
    alloc: Global,
    width: u8,
    most: u8,
    side: &Side,
    found: &[AttrSet],
) -> Result<Side, Failure<TooManyLeftSides>>
    requires width { width ≤ MOST_ATTRIBUTES }
    requires side { HasCandidates width most side.now }
    ensures right { IfOk result (λ next. next.right ≡ side.now.right) }
    ensures within_limit { IfOk result (λ next. length next.lefts.items ≤ MOST_CANDIDATES) }
    ensures candidates { (es : List Attributes)
        → AreCandidates width most es side.now.right (lefts_of side.now)
        → IfOk result (λ next.
        AreCandidates width most (schemes_of found.now ++ es) side.now.right (lefts_of next)) }
    ensures refusal { (r : Relation) (size : ℕ) → IsTested width most r size side.now
        → AreEvidence width r (schemes_of found.now)
        → IfErr result (RefusesAs (IsTooManyLeftSides width most r)) }
    ensures named { IfErr result (RefusesAs (λ refusal. refusal.right ≡ side.now.right)) }
{
    let right = side.right;
    let mut lefts = Vec::from_slice(alloc, &side.lefts)?;
    match add_all(alloc, width, most, right, &mut lefts, found) {
        Ok(()) => Ok(Side { right, lefts }),
        Err(Failure::Refused(_)) => Err(Failure::Refused(TooManyLeftSides { right })),
        Err(Failure::OutOfMemory) => Err(Failure::OutOfMemory),
    }
}

// Makes of the candidates those with further evidence, one piece after the other.
fn add_all(
    alloc: Global,
    width: u8,
    most: u8,
    right: u8,
    candidates: &mut Vec<AttrSet>,
    found: &[AttrSet],
) -> Result<(), Failure<TooManyCandidates>>
    requires width { width ≤ MOST_ATTRIBUTES }
    requires right { right < width }
    requires candidates { (es : List Attributes)
        × AreCandidates width most es right (schemes_of candidates.old.items) }
    requires within_limit { length candidates.old.items ≤ MOST_CANDIDATES }
    ensures candidates { (es : List Attributes)
        → AreCandidates width most es right (schemes_of candidates.old.items)
        → IfOk result (λ _. AreCandidates width most (schemes_of found.now ++ es) right
        (schemes_of candidates.new.items)) }
    ensures within_limit { IfOk result (λ _. length candidates.new.items ≤ MOST_CANDIDATES) }
    ensures refusal { (r : Relation) (es : List Attributes) → AreEvidence width r es
        → AreEvidence width r (schemes_of found.now)
        → AreCandidates width most es right (schemes_of candidates.old.items)
        → IfErr result (RefusesAs (λ _. ExceedsCandidates width most r right MOST_CANDIDATES)) }
{
    for evidence in found {
        add_evidence(alloc, width, most, right, candidates, *evidence)?;
    }
    Ok(())
}
