ghost use Rattle.std.specs.Prelude.{◌≡◌, ◌<◌, ◌≤◌, ℕ, length, map, All, IfOk};
ghost use Rattle.attr_sets.specs.Attributes.{IsSubset, below};
ghost use Rattle.attr_sets.specs.Sets.{attributes};
ghost use Rattle.attr_sets.specs.declared.set.TheConstants.{MOST_ATTRIBUTES};
ghost use Rattle.row_groups.specs.Interning.{IsInterned, count_of, firsts_of, groups_of, width_of_rows};
ghost use Rattle.row_groups.specs.Numberings.{number_at};
ghost use Rattle.dep_model.specs.Tuples.{Relation};
ghost use Rattle.row_store.specs.Rows.{row_at};
ghost use Rattle.candidate_sets.specs.Evidence.{agreement};
ghost use Rattle.candidate_search.specs.Levels.{IsLevel};
ghost use Rattle.candidate_search.specs.Pairs.{FindsBroken};

use crate::levels::Level;
use attr_sets::{AttrSet, MOST_ATTRIBUTES};
use dep_model::OutOfMemory;
use row_groups::{Groups, Interned};
use std::alloc::Global;

/// The columns on which two rows agree.
pub fn row_agreement(codes: &Interned, width: u8, first: usize, second: usize) -> AttrSet
    requires width { width ≤ MOST_ATTRIBUTES }
    requires columns { width_of_rows codes.now ≡ width }
    requires first { first < count_of codes.now }
    requires second { second < count_of codes.now }
    ensures agreement { (r : Relation) → IsInterned width r codes.now
        → attributes result ≡ agreement width (row_at r first) (row_at r second) }
{
    let mut agreed = AttrSet::empty();
    for attribute in 0..width {
        if codes.code(first, attribute) == codes.code(second, attribute) {
            agreed = agreed.with(attribute);
        }
    }
    agreed
}

/// Two rows that agree on a set and differ on an attribute.
pub fn broken_pair(
    alloc: Global,
    codes: &Interned,
    width: u8,
    set: AttrSet,
    right: u8,
) -> Result<Option<(usize, usize)>, OutOfMemory>
    requires rows { (r : Relation) × IsInterned width r codes.now }
    requires set { IsSubset (attributes set) (below width) }
    requires right { right < width }
    ensures pair { (r : Relation) → IsInterned width r codes.now
        → IfOk result (FindsBroken r (attributes set) right) }
{
    let groups = Groups::by_agreement(alloc, codes, set)?;
    let leaders = first_of_each(alloc, &groups)?;
    let level = Level { set, leaders };
    Ok(broken_in(codes, width, &level, right))
}

// For each row the first one of its group.
fn first_of_each(alloc: Global, groups: &Groups) -> Result<Vec<u32>, OutOfMemory>
    requires groups { All (λ group. group < length (firsts_of groups.now)) (groups_of groups.now) }
    ensures firsts { IfOk result (λ v. v.items ≡ map (number_at (firsts_of groups.now)) (groups_of groups.now)) }
{
    let mut firsts = Vec::with_capacity(alloc, groups.numbers().len())?;
    for group in groups.numbers() {
        firsts.push(groups.firsts()[*group as usize])?;
    }
    Ok(firsts)
}

// The same by the leaders of the rows on the set.
pub fn broken_in(codes: &Interned, width: u8, level: &Level, right: u8) -> Option<(usize, usize)>
    requires rows { (r : Relation) × IsInterned width r codes.now × IsLevel r level.now }
    requires right { right < width }
    ensures pair { (r : Relation) → IsInterned width r codes.now → IsLevel r level.now
        → FindsBroken r (attributes level.now.set) right result }
{
    let column = codes.column(right);
    for second in 0..codes.count() {
        let first = level.leaders[second] as usize;
        if column[first] != column[second] {
            return Some((first, second));
        }
    }
    None
}
