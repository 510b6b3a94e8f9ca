ghost use Rattle.std.specs.Prelude.{◌≡◌, ◌<◌, ◌≤◌, ◌^◌, ℕ, length, IfOk};
ghost use Rattle.attr_sets.specs.Attributes.{Attributes, below};
ghost use Rattle.row_groups.specs.Interning.{IsInterned, groups_of};
ghost use Rattle.dep_model.specs.Deps.{IsDepWithin, dependency_of};
ghost use Rattle.dep_model.specs.Tuples.{Relation};
ghost use Rattle.row_measures.specs.Answers.{IsMeasure, measure_by_classes, measure_by_parts};
ghost use Rattle.row_measures.specs.ByClass.{AreSorted, classes_of};
ghost use Rattle.row_measures.specs.ByPart.{ArePartsSorted};

use crate::Measure;
use crate::by_class::{ByClass, count_outside, sort_by_class};
use crate::by_part::{ByPart, sort_by_part};
use crate::counting::{count_groups, count_rows};
use attr_sets::MOST_ATTRIBUTES;
use dep_model::{Dep, OutOfMemory};
use row_groups::Interned;
use row_store::Rows;
use std::alloc::Global;

/// How far rows are from obeying a dependency, where `codes` are the rows by numbers.
pub fn measure(
    alloc: Global,
    rows: &Rows,
    width: u8,
    codes: &Interned,
    dep: Dep,
) -> Result<Measure, OutOfMemory>
    requires width { width ≤ MOST_ATTRIBUTES }
    requires codes { IsInterned width rows.now codes.now }
    requires dep { IsDepWithin (below width) dep }
    ensures measure { IfOk result (IsMeasure width rows.now (dependency_of dep)) }
{
    match dep {
        Dep::Fd { lhs, rhs } => {
            let sorted = sort_by_class(alloc, rows, width, codes, lhs, rhs)?;
            Ok(class_measure(&sorted))
        }
        Dep::Mvd { lhs, rhs } => {
            let sorted = sort_by_part(alloc, rows, width, codes, lhs, rhs)?;
            Ok(part_measure(&sorted))
        }
    }
}

// How many groups have two classes, how many rows are in them, and how many are outside the chosen ones.
fn class_measure(sorted: &ByClass) -> Measure
    requires sorted { (x y : Attributes) × (r : Relation) × AreSorted x y r sorted.now }
    requires fits_u32 { length (groups_of sorted.now.groups) < 2 ^ 32 }
    ensures measure { (x y : Attributes) (r : Relation) (are : AreSorted x y r sorted.now)
        → result ≡ measure_by_classes (classes_of are) }
{
    let numbers = sorted.groups.numbers();
    let groups = count_groups(&sorted.broken);
    let rows = count_rows(numbers, &sorted.broken);
    let amount = count_outside(numbers, sorted.classes.numbers(), &sorted.chosen);
    Measure {
        groups,
        rows,
        amount,
    }
}

// How many groups lack a pair, how many rows are in them, and how many pairs are missing.
fn part_measure(sorted: &ByPart) -> Measure
    requires sorted { (n : ℕ) × (x y : Attributes) × (r : Relation) × ArePartsSorted n x y r sorted.now }
    requires fits_u32 { length (groups_of sorted.now.groups) < 2 ^ 32 }
    ensures measure { (n : ℕ) (x y : Attributes) (r : Relation) (are : ArePartsSorted n x y r sorted.now)
        → result ≡ measure_by_parts are.parts }
{
    let groups = count_groups(&sorted.broken);
    let rows = count_rows(sorted.groups.numbers(), &sorted.broken);
    Measure {
        groups,
        rows,
        amount: sorted.missing,
    }
}
