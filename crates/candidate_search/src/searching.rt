ghost use Rattle.std.specs.Prelude.{◌≡◌, ◌<◌, ◌≤◌, All, Contains, IfOk, IfErr};
ghost use Rattle.attr_sets.specs.declared.set.TheConstants.{MOST_ATTRIBUTES};
ghost use Rattle.candidate_sets.specs.Evidence.{AreEvidence};
ghost use Rattle.candidate_search.specs.Levels.{AreTabled};
ghost use Rattle.candidate_search.specs.Sides.{HasMinimal, IsTooManyLeftSides, rights_of};
ghost use Rattle.dep_model.specs.Failures.{RefusesAs};
ghost use Rattle.dep_model.specs.Plans.{schemes_of};
ghost use Rattle.dep_model.specs.Tuples.{Relation};

use crate::asking::asked_of_size;
use crate::few_rows::left_sides_of_few;
use crate::findings::Findings;
use crate::learning::sides_after;
use crate::sampling::first_evidence;
use crate::side::{Side, TooManyLeftSides, first_sides};
use crate::testing::refuting_evidence;
use attr_sets::{AttrSet, MOST_ATTRIBUTES};
use dep_model::Failure;
use fd_discovery::CodeColumns;
use std::alloc::Global;

/// The left sides of the minimal dependencies on each of some attributes, of at most `most` columns;
/// or, where evidence of the rows has too many candidates for one of them, a refusal that names it.
///
/// `seen` is evidence to begin with, beside what is looked at here: the more there is, the fewer candidates ever arise.
pub fn minimal_left_sides(
    alloc: Global,
    table: &CodeColumns,
    width: u8,
    most: u8,
    rights: &[u8],
    seen: &[AttrSet],
) -> Result<Vec<Side>, Failure<TooManyLeftSides>>
    requires width { width ≤ MOST_ATTRIBUTES }
    requires most { most ≤ MOST_ATTRIBUTES }
    requires rights { All (λ right. right < width) rights.now }
    requires rows { (r : Relation) × AreTabled width r table.now × AreEvidence width r (schemes_of seen.now) }
    ensures rights { IfOk result (λ sides. rights_of sides.items ≡ rights.now) }
    ensures minimal { (r : Relation) → AreTabled width r table.now → AreEvidence width r (schemes_of seen.now)
        → IfOk result (λ sides. All (HasMinimal width most r) sides.items) }
    ensures refusal { (r : Relation) → AreTabled width r table.now → AreEvidence width r (schemes_of seen.now)
        → IfErr result (RefusesAs (IsTooManyLeftSides width most r)) }
    ensures named { IfErr result (RefusesAs (λ refusal. Contains rights.now refusal.right)) }
{
    match left_sides_of_few(alloc, &table.codes, width, most, rights)? {
        Some(sides) => Ok(sides),
        None => tested_left_sides(alloc, table, width, most, rights, seen),
    }
}

// The same by tests. The candidates are tested by their sizes. Those that the rows do not obey give evidence, so larger
// sets take their place.
fn tested_left_sides(
    alloc: Global,
    table: &CodeColumns,
    width: u8,
    most: u8,
    rights: &[u8],
    seen: &[AttrSet],
) -> Result<Vec<Side>, Failure<TooManyLeftSides>>
    requires width { width ≤ MOST_ATTRIBUTES }
    requires most { most ≤ MOST_ATTRIBUTES }
    requires rights { All (λ right. right < width) rights.now }
    requires rows { (r : Relation) × AreTabled width r table.now × AreEvidence width r (schemes_of seen.now) }
    ensures rights { IfOk result (λ sides. rights_of sides.items ≡ rights.now) }
    ensures minimal { (r : Relation) → AreTabled width r table.now → AreEvidence width r (schemes_of seen.now)
        → IfOk result (λ sides. All (HasMinimal width most r) sides.items) }
    ensures refusal { (r : Relation) → AreTabled width r table.now → AreEvidence width r (schemes_of seen.now)
        → IfErr result (RefusesAs (IsTooManyLeftSides width most r)) }
    ensures named { IfErr result (RefusesAs (λ refusal. Contains rights.now refusal.right)) }
{
    let begun = first_evidence(alloc, &table.codes, width, most, seen)?;
    let first = first_sides(alloc, rights)?;
    let mut sides = sides_after(alloc, width, most, &first, &begun)?;
    let mut findings = Findings::new(alloc);
    for size in 0..most + 1 {
        let asked = asked_of_size(alloc, &sides, size)?;
        let found = refuting_evidence(alloc, table, width, &asked, &mut findings)?;
        sides = sides_after(alloc, width, most, &sides, &found)?;
    }
    Ok(sides)
}
