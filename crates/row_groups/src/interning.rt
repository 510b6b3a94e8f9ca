ghost use Rattle.std.specs.Prelude.{◌≡◌, ◌<◌, ◌^◌, ℕ, length, All, IfOk, IfSome, slice_index_or};
ghost use Rattle.attr_sets.specs.Attributes.{only};
ghost use Rattle.row_groups.specs.Numberings.{AreGroups, number_at};
ghost use Rattle.dep_model.specs.Tuples.{IsOver};

use crate::leaders::{leaders_of, numbers_by_leaders};
use dep_model::OutOfMemory;
use indexmap::IndexSet;
use row_store::{Hashing, LentValue, Rows};
use std::alloc::Global;
use std::marker::Model;

// The number of each row's value in one column.
#[derive(Debug, Drop)]
struct Codes {
    numbers: Vec<u32>,
}

impl Model for Codes {
    ghost use Rattle.std.specs.Prelude.{ℕ, List};

    ghost Value = { List ℕ };

    ghost view = { λ c. c.numbers.items };
}

/// Rows by numbers in place of their values. The values of a column are numbered from 0 in the order
/// of their first rows, so two rows have one number exactly where they have one value.
#[derive(Debug, Drop)]
pub struct Interned {
    hashing: Hashing,
    count: usize,
    columns: Vec<Codes>,
    pub ghost fits_u32: { count < 2 ^ 32 },
    pub ghost even: { All (λ c. length c ≡ count) columns.items },
}

impl Interned {
    ghost use Rattle.row_groups.specs.Interning.{IsInterned, codes_at, count_of, width_of_rows};

    /// The numbers of rows that have `width` values each.
    pub fn intern(
        alloc: Global,
        hashing: Hashing,
        width: u8,
        rows: &Rows,
    ) -> Result<Interned, OutOfMemory>
        requires over { IsOver width rows.now }
        requires fits_u32 { length rows.now < 2 ^ 32 }
        ensures codes { IfOk result (λ t. IsInterned width rows.now t) }
    {
        let mut columns = Vec::with_capacity(alloc, width as usize)?;
        for attribute in 0..width {
            let numbers = column_numbers(alloc, hashing, attribute, rows)?;
            columns.push(Codes { numbers })?;
        }
        Ok(Interned {
            hashing,
            count: rows.len(),
            columns,
        })
    }

    /// How the values were hashed.
    pub fn hashing(&self) -> Hashing
        ensures hashing { result ≡ self.now.hashing }
    {
        self.hashing
    }

    /// How many rows there are.
    pub fn count(&self) -> usize
        ensures count { result ≡ count_of self.now }
    {
        self.count
    }

    /// The number of the value that a row, counted from 0, has at an attribute.
    pub fn code(&self, row: usize, attribute: u8) -> u32
        requires row { row < count_of self.now }
        requires attribute { attribute < width_of_rows self.now }
        ensures code { result ≡ number_at (codes_at self.now attribute) row }
    {
        self.column(attribute)[row]
    }

    /// The number of each row's value at an attribute.
    pub fn column(&self, attribute: u8) -> &[u32]
        requires attribute { attribute < width_of_rows self.now }
        ensures codes { result.now ≡ codes_at self.now attribute }
        ensures count { length result.now ≡ count_of self.now }
    {
        &self.columns[attribute as usize].numbers
    }
}

// The number of each row's value at an attribute, in the order of first occurrence. Where there are many different
// values, a search among all of them would leave the nearest memory at each step.
fn column_numbers(
    alloc: Global,
    hashing: Hashing,
    attribute: u8,
    rows: &Rows,
) -> Result<Vec<u32>, OutOfMemory>
    requires attribute { All (λ t. attribute < length t) rows.now }
    requires fits_u32 { length rows.now < 2 ^ 32 }
    ensures groups { IfOk result (λ v. AreGroups rows.now (only attribute) v.items) }
{
    match numbers_of_few(alloc, hashing, attribute, rows)? {
        Some(numbers) => Ok(numbers),
        None => {
            let leaders = leaders_of(alloc, hashing, attribute, rows)?;
            let numbers = numbers_by_leaders(alloc, &leaders)?;
            Ok(numbers)
        }
    }
}

/// The most different values that are searched together.
pub const MOST_TOGETHER: usize = 32768;

// The number of each row's value at an attribute, or nothing where there are too many different ones.
fn numbers_of_few(
    alloc: Global,
    hashing: Hashing,
    attribute: u8,
    rows: &Rows,
) -> Result<Option<Vec<u32>>, OutOfMemory>
    requires attribute { All (λ t. attribute < length t) rows.now }
    requires fits_u32 { length rows.now < 2 ^ 32 }
    ensures groups { IfOk result (λ few. IfSome few (λ v. AreGroups rows.now (only attribute) v.items)) }
{
    let mut values = IndexSet::with_hasher(alloc, hashing);
    let mut numbers = Vec::with_capacity(alloc, rows.len())?;
    for row in 0..rows.len() {
        let bytes = rows.value(row, attribute as usize);
        let (number, _) = values.insert_full(LentValue { bytes })?;
        if number > MOST_TOGETHER {
            return Ok(None);
        }
        numbers.push(number as u32)?;
    }
    Ok(Some(numbers))
}
