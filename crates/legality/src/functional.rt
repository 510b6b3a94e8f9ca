ghost use Rattle.std.specs.Prelude.{◌≡◌, ◌<◌, ◌≤◌, true, false, Some, None, IfOk};
ghost use Rattle.attr_sets.specs.Attributes.{IsSubset, below};
ghost use Rattle.attr_sets.specs.Sets.{attributes};
ghost use Rattle.row_groups.specs.Interning.{IsInterned, count_of, width_of_rows};
ghost use Rattle.dep_model.specs.Dependencies.{fd};
ghost use Rattle.dep_model.specs.Tuples.{Relation};
ghost use Rattle.legality.specs.Answers.{AreCodesOfRows, HaveSameCodes, IsLeastOffence};
ghost use Rattle.legality.specs.declared.pair.Pair.{Pair};

use crate::pair::Pair;
use attr_sets::{AttrSet, MOST_ATTRIBUTES};
use dep_model::OutOfMemory;
use row_groups::{Groups, Interned};
use std::alloc::Global;

// The least pair of rows that agree on `lhs` and differ on `rhs`. Its first row is the first of its
// group.
pub fn least_functional_pair(
    alloc: Global,
    width: u8,
    codes: &Interned,
    lhs: AttrSet,
    rhs: AttrSet,
) -> Result<Option<Pair>, OutOfMemory>
    requires width { width ≤ MOST_ATTRIBUTES }
    requires codes { AreCodesOfRows width codes.now }
    requires lhs { IsSubset (attributes lhs) (below width) }
    requires rhs { IsSubset (attributes rhs) (below width) }
    ensures pair { (rows : Relation) → IsInterned width rows codes.now → IfOk result
        (λ least. IsLeastOffence width rows (fd (attributes lhs) (attributes rhs)) least) }
{
    let groups = Groups::by_agreement(alloc, codes, lhs)?;
    let mut least = None;
    for second in 0..codes.count() {
        let group = groups.numbers()[second] as usize;
        let first = groups.firsts()[group] as usize;
        if !rows_agree(codes, rhs, first, second) {
            least = earlier_of(least, Pair { first, second });
        }
    }
    Ok(least)
}

// The pair of the lesser first row; of two with one first row the one that came earlier.
fn earlier_of(least: Option<Pair>, pair: Pair) -> Option<Pair>
    ensures first { least ≡ None → result ≡ Some pair }
    ensures kept { (p : Pair) → least ≡ Some p → p.first ≤ pair.first → result ≡ Some p }
    ensures replaced { (p : Pair) → least ≡ Some p → pair.first < p.first → result ≡ Some pair }
{
    match least {
        None => Some(pair),
        Some(least) => {
            if least.first <= pair.first {
                Some(least)
            } else {
                Some(pair)
            }
        }
    }
}

// Whether two rows agree on a set.
fn rows_agree(codes: &Interned, set: AttrSet, first: usize, second: usize) -> bool
    requires set { IsSubset (attributes set) (below (width_of_rows codes.now)) }
    requires first { first < count_of codes.now }
    requires second { second < count_of codes.now }
    ensures agree { result ≡ true → HaveSameCodes codes.now (attributes set) first second }
    ensures differ { result ≡ false
        → HaveSameCodes codes.now (attributes set) first second → ⊥ }
{
    let mut left = set;
    while let Some(attribute) = left.first() {
        if codes.code(first, attribute) != codes.code(second, attribute) {
            return false;
        }
        left = left.without(attribute);
    }
    true
}
