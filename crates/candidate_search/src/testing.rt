ghost use Rattle.std.specs.Prelude.{◌≡◌, ◌<◌, ◌≤◌, true, All, IfOk};
ghost use Rattle.attr_sets.specs.Sets.{attributes};
ghost use Rattle.attr_sets.specs.declared.set.TheConstants.{MOST_ATTRIBUTES};
ghost use Rattle.candidate_sets.specs.Evidence.{AreEvidence};
ghost use Rattle.candidate_search.specs.Asking.{IsAskedWithin, HasAnswer, AnswersOrRefutes};
ghost use Rattle.candidate_search.specs.Findings.{AreFindings};
ghost use Rattle.candidate_search.specs.Levels.{AreTabled, IsLevel};
ghost use Rattle.candidate_search.specs.Pairs.{FindsBroken};
ghost use Rattle.candidate_search.specs.Sides.{IsRefutedBy};
ghost use Rattle.dep_model.specs.Plans.{schemes_of};
ghost use Rattle.dep_model.specs.Tuples.{Relation};

use crate::asking::Asked;
use crate::findings::{Findings, dependency_asked, is_implied};
use crate::levels::{Level, ends_at, lead_to};
use crate::pairs::{broken_in, broken_pair, row_agreement};
use attr_sets::{AttrSet, MOST_ATTRIBUTES};
use dep_model::OutOfMemory;
use fd_discovery::CodeColumns;
use std::alloc::Global;

// Evidence that refutes each of the dependencies that the rows do not obey. Those that they are found to
// obey are kept, and what these imply is not looked for in the rows.
pub fn refuting_evidence(
    alloc: Global,
    table: &CodeColumns,
    width: u8,
    asked: &[Asked],
    findings: &mut Findings,
) -> Result<Vec<AttrSet>, OutOfMemory>
    requires width { width ≤ MOST_ATTRIBUTES }
    requires rows { (r : Relation) × AreTabled width r table.now × AreFindings width r findings.old }
    requires within { All (IsAskedWithin width) asked.now }
    ensures findings { (r : Relation) → AreTabled width r table.now → AreFindings width r findings.old
        → IfOk result (λ _. AreFindings width r findings.new) }
    ensures evidence { (r : Relation) → AreTabled width r table.now → AreFindings width r findings.old
        → IfOk result (λ found. AreEvidence width r (schemes_of found.items)) }
    ensures answered { (r : Relation) → AreTabled width r table.now → AreFindings width r findings.old
        → IfOk result (λ found. All (HasAnswer r (schemes_of found.items)) asked.now) }
{
    let mut found = Vec::new(alloc);
    for one in asked {
        match refutation(alloc, table, width, *one, &found, findings)? {
            Some(evidence) => found.push(evidence)?,
            None => {}
        }
    }
    Ok(found)
}

// Evidence that refutes what is asked, where none that is found does and the rows do not obey it.
fn refutation(
    alloc: Global,
    table: &CodeColumns,
    width: u8,
    asked: Asked,
    found: &[AttrSet],
    findings: &mut Findings,
) -> Result<Option<AttrSet>, OutOfMemory>
    requires width { width ≤ MOST_ATTRIBUTES }
    requires rows { (r : Relation) × AreTabled width r table.now × AreFindings width r findings.old }
    requires within { IsAskedWithin width asked }
    ensures findings { (r : Relation) → AreTabled width r table.now → AreFindings width r findings.old
        → IfOk result (λ _. AreFindings width r findings.new) }
    ensures answers { (r : Relation) → AreTabled width r table.now → AreFindings width r findings.old
        → IfOk result (AnswersOrRefutes width r (schemes_of found.now) asked) }
{
    if is_refuted(found, asked) {
        return Ok(None);
    }
    if is_implied(&findings.obeyed, asked) {
        return Ok(None);
    }
    lead_to(alloc, table, width, asked.left, &mut findings.levels)?;
    match broken_at(alloc, table, width, asked, &findings.levels)? {
        Some((first, second)) => Ok(Some(row_agreement(&table.codes, width, first, second))),
        None => {
            findings.obeyed.push(dependency_asked(asked))?;
            Ok(None)
        }
    }
}

// Whether evidence that is found refutes what is asked.
fn is_refuted(found: &[AttrSet], asked: Asked) -> bool
    requires right { asked.right < MOST_ATTRIBUTES }
    ensures refuted { result ≡ true
        → IsRefutedBy (schemes_of found.now) (attributes asked.left) asked.right }
{
    for evidence in found {
        if !evidence.contains(asked.right) && asked.left.is_subset(*evidence) {
            return true;
        }
    }
    false
}

// Two rows that do not obey what is asked: by the last level, where it is that of the left side.
fn broken_at(
    alloc: Global,
    table: &CodeColumns,
    width: u8,
    asked: Asked,
    levels: &[Level],
) -> Result<Option<(usize, usize)>, OutOfMemory>
    requires rows { (r : Relation) × AreTabled width r table.now × All (IsLevel r) levels.now }
    requires within { IsAskedWithin width asked }
    ensures pair { (r : Relation) → AreTabled width r table.now → All (IsLevel r) levels.now
        → IfOk result (FindsBroken r (attributes asked.left) asked.right) }
{
    if ends_at(levels, asked.left) {
        return Ok(broken_in(&table.codes, width, &levels[levels.len() - 1], asked.right));
    }
    broken_pair(alloc, &table.codes, width, asked.left, asked.right)
}
