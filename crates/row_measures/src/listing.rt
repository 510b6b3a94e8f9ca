ghost use Rattle.std.specs.Prelude.{◌≡◌, ◌<◌, ◌≤◌, ◌^◌, ℕ, length, map, IfOk};
ghost use Rattle.attr_sets.specs.Attributes.{Attributes, below};
ghost use Rattle.row_groups.specs.Interning.{IsInterned, firsts_of, groups_of};
ghost use Rattle.row_groups.specs.Numberings.{number_at};
ghost use Rattle.dep_model.specs.Deps.{IsDepWithin, dependency_of};
ghost use Rattle.dep_model.specs.Tuples.{Relation};
ghost use Rattle.row_measures.specs.Answers as Spec;
ghost use Rattle.row_measures.specs.Answers.{AreBrokenParts, AreBrokenRows, class_parts_of, class_rows_of};
ghost use Rattle.row_measures.specs.Answers.{group_parts_of, group_rows_of};
ghost use Rattle.row_measures.specs.Broken.{AreOrdinals, AreRowCounts};
ghost use Rattle.row_measures.specs.ByClass.{AreSorted, classes_of, part_by, row_by};
ghost use Rattle.row_measures.specs.ByPart.{ArePartsSorted, group_by, group_row_by};

use crate::by_class::{ByClass, sort_by_class};
use crate::by_part::{ByPart, sort_by_part};
use crate::counting::{numbers_of, ordinals, row_counts};
use crate::ordering::in_order;
use crate::{BrokenPart, BrokenRow, RowMark};
use attr_sets::MOST_ATTRIBUTES;
use dep_model::{Dep, OutOfMemory};
use row_groups::Interned;
use row_store::Rows;
use std::alloc::Global;

/// For each broken group in the order of its first row: of a functional dependency its classes in the
/// order of theirs, of a multivalued one the group itself.
pub fn broken_parts(
    alloc: Global,
    rows: &Rows,
    width: u8,
    codes: &Interned,
    dep: Dep,
) -> Result<Vec<BrokenPart>, OutOfMemory>
    requires width { width ≤ MOST_ATTRIBUTES }
    requires codes { IsInterned width rows.now codes.now }
    requires dep { IsDepWithin (below width) dep }
    ensures parts { IfOk result (λ v. AreBrokenParts width rows.now (dependency_of dep) v.items) }
{
    match dep {
        Dep::Fd { lhs, rhs } => {
            let sorted = sort_by_class(alloc, rows, width, codes, lhs, rhs)?;
            let parts = class_parts(alloc, &sorted)?;
            Ok(parts)
        }
        Dep::Mvd { lhs, rhs } => {
            let sorted = sort_by_part(alloc, rows, width, codes, lhs, rhs)?;
            let parts = group_parts(alloc, &sorted)?;
            Ok(parts)
        }
    }
}

// The classes of each broken group.
fn class_parts(alloc: Global, sorted: &ByClass) -> Result<Vec<BrokenPart>, OutOfMemory>
    requires sorted { (x y : Attributes) × (r : Relation) × AreSorted x y r sorted.now }
    requires fits_u32 { length (groups_of sorted.now.groups) < 2 ^ 32 }
    ensures parts { (x y : Attributes) (r : Relation) (are : AreSorted x y r sorted.now)
        → IfOk result (λ v. v.items ≡ class_parts_of (classes_of are)) }
{
    let owners = numbers_of(alloc, sorted.groups.numbers(), sorted.classes.firsts())?;
    let leaders = numbers_of(alloc, sorted.classes.numbers(), sorted.groups.firsts())?;
    let numbers = ordinals(alloc, &sorted.broken)?;
    let classes = in_order(alloc, &owners, &leaders, &sorted.broken)?;
    let mut parts = Vec::with_capacity(alloc, classes.len())?;
    for class in &classes {
        parts.push(class_part(sorted, &owners, &numbers, *class))?;
    }
    Ok(parts)
}

// A class, with the number of its group, and whether it is the chosen one.
fn class_part(sorted: &ByClass, owners: &[u32], numbers: &[u32], class: u32) -> BrokenPart
    requires sorted { (x y : Attributes) × (r : Relation) × AreSorted x y r sorted.now }
    requires owners { owners.now ≡ map (number_at (groups_of sorted.now.groups)) (firsts_of sorted.now.classes) }
    requires numbers { AreOrdinals sorted.now.broken.items numbers.now }
    requires class { class < length owners.now }
    ensures part { result ≡ part_by sorted.now class }
{
    let group = owners[class as usize] as usize;
    BrokenPart {
        group: numbers[group],
        rows: sorted.sizes[class as usize],
        first: sorted.classes.firsts()[class as usize],
        mark: mark_of(class == sorted.chosen[group]),
    }
}

// Whether a class is the chosen one of its group.
fn mark_of(is_chosen: bool) -> RowMark
    ensures mark { result ≡ Spec.mark_of is_chosen }
{
    if is_chosen {
        RowMark::Kept
    } else {
        RowMark::Removed
    }
}

// Each broken group.
fn group_parts(alloc: Global, sorted: &ByPart) -> Result<Vec<BrokenPart>, OutOfMemory>
    requires sorted { (n : ℕ) × (x y : Attributes) × (r : Relation) × ArePartsSorted n x y r sorted.now }
    requires fits_u32 { length (groups_of sorted.now.groups) < 2 ^ 32 }
    ensures parts { (n : ℕ) (x y : Attributes) (r : Relation) (are : ArePartsSorted n x y r sorted.now)
        → IfOk result (λ v. v.items ≡ group_parts_of are.parts) }
{
    let sizes = row_counts(alloc, sorted.groups.numbers(), sorted.groups.firsts().len())?;
    let numbers = ordinals(alloc, &sorted.broken)?;
    let mut parts = Vec::new(alloc);
    for group in 0..sorted.broken.len() {
        if sorted.broken[group] {
            parts.push(group_part(sorted, &sizes, &numbers, group))?;
        }
    }
    Ok(parts)
}

// A group, with its number.
fn group_part(sorted: &ByPart, sizes: &[u32], numbers: &[u32], group: usize) -> BrokenPart
    requires sorted { (n : ℕ) × (x y : Attributes) × (r : Relation) × ArePartsSorted n x y r sorted.now }
    requires sizes { AreRowCounts (groups_of sorted.now.groups) (length (firsts_of sorted.now.groups)) sizes.now }
    requires numbers { AreOrdinals sorted.now.broken.items numbers.now }
    requires group { group < length sorted.now.broken.items }
    ensures part { result ≡ group_by sorted.now group }
{
    BrokenPart {
        group: numbers[group],
        rows: sizes[group],
        first: sorted.groups.firsts()[group],
        mark: RowMark::Unmarked,
    }
}

/// For each broken group in the order of its first row its rows in their order.
pub fn broken_rows(
    alloc: Global,
    rows: &Rows,
    width: u8,
    codes: &Interned,
    dep: Dep,
) -> Result<Vec<BrokenRow>, OutOfMemory>
    requires width { width ≤ MOST_ATTRIBUTES }
    requires codes { IsInterned width rows.now codes.now }
    requires dep { IsDepWithin (below width) dep }
    ensures rows { IfOk result (λ v. AreBrokenRows width rows.now (dependency_of dep) v.items) }
{
    match dep {
        Dep::Fd { lhs, rhs } => {
            let sorted = sort_by_class(alloc, rows, width, codes, lhs, rhs)?;
            let marked = class_rows(alloc, &sorted)?;
            Ok(marked)
        }
        Dep::Mvd { lhs, rhs } => {
            let sorted = sort_by_part(alloc, rows, width, codes, lhs, rhs)?;
            let marked = group_rows(alloc, &sorted)?;
            Ok(marked)
        }
    }
}

// The rows of each broken group, with whether they are in its chosen class.
fn class_rows(alloc: Global, sorted: &ByClass) -> Result<Vec<BrokenRow>, OutOfMemory>
    requires sorted { (x y : Attributes) × (r : Relation) × AreSorted x y r sorted.now }
    requires fits_u32 { length (groups_of sorted.now.groups) < 2 ^ 32 }
    ensures rows { (x y : Attributes) (r : Relation) (are : AreSorted x y r sorted.now)
        → IfOk result (λ v. v.items ≡ class_rows_of (classes_of are)) }
{
    let numbers = ordinals(alloc, &sorted.broken)?;
    let rows = in_order(
        alloc,
        sorted.groups.numbers(),
        sorted.groups.firsts(),
        &sorted.broken,
    )?;
    let mut marked = Vec::with_capacity(alloc, rows.len())?;
    for row in &rows {
        marked.push(class_row(sorted, &numbers, *row))?;
    }
    Ok(marked)
}

// A row, with the number of its group, and whether it is in the chosen class.
fn class_row(sorted: &ByClass, numbers: &[u32], row: u32) -> BrokenRow
    requires sorted { (x y : Attributes) × (r : Relation) × AreSorted x y r sorted.now }
    requires numbers { AreOrdinals sorted.now.broken.items numbers.now }
    requires row { row < length (groups_of sorted.now.groups) }
    ensures row { result ≡ row_by sorted.now row }
{
    let group = sorted.groups.numbers()[row as usize] as usize;
    let class = sorted.classes.numbers()[row as usize];
    BrokenRow {
        group: numbers[group],
        row,
        mark: mark_of(class == sorted.chosen[group]),
    }
}

// The rows of each broken group.
fn group_rows(alloc: Global, sorted: &ByPart) -> Result<Vec<BrokenRow>, OutOfMemory>
    requires sorted { (n : ℕ) × (x y : Attributes) × (r : Relation) × ArePartsSorted n x y r sorted.now }
    requires fits_u32 { length (groups_of sorted.now.groups) < 2 ^ 32 }
    ensures rows { (n : ℕ) (x y : Attributes) (r : Relation) (are : ArePartsSorted n x y r sorted.now)
        → IfOk result (λ v. v.items ≡ group_rows_of are.parts) }
{
    let numbers = ordinals(alloc, &sorted.broken)?;
    let rows = in_order(
        alloc,
        sorted.groups.numbers(),
        sorted.groups.firsts(),
        &sorted.broken,
    )?;
    let mut marked = Vec::with_capacity(alloc, rows.len())?;
    for row in &rows {
        marked.push(group_row(sorted, &numbers, *row))?;
    }
    Ok(marked)
}

// A row, with the number of its group.
fn group_row(sorted: &ByPart, numbers: &[u32], row: u32) -> BrokenRow
    requires sorted { (n : ℕ) × (x y : Attributes) × (r : Relation) × ArePartsSorted n x y r sorted.now }
    requires numbers { AreOrdinals sorted.now.broken.items numbers.now }
    requires row { row < length (groups_of sorted.now.groups) }
    ensures row { result ≡ group_row_by sorted.now row }
{
    let group = sorted.groups.numbers()[row as usize] as usize;
    BrokenRow {
        group: numbers[group],
        row,
        mark: RowMark::Unmarked,
    }
}
