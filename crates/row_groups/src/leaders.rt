//! The leader of each row, which is the first one with the same value in a column, and the numbers that leaders give.

ghost use Rattle.std.specs.Prelude.{◌≡◌, ◌≢◌, ◌<◌, ◌≤◌, ◌^◌, ℕ, List, [], length, All, IfOk, OnOk, slice_index_or};
ghost use Rattle.dep_model.specs.Tuples.{value_at};
ghost use Rattle.row_store.specs.Rows.{row_at};
ghost use Rattle.row_groups.specs.Buckets.{AreLeaders, IsBucket, IsLeader, bucket_of_bytes};
ghost use Rattle.row_groups.specs.Numberings.{AreNumbered, number_at};

use crate::buckets::{BUCKETS, Bucket, rows_in_buckets};
use crate::groups::{first_rows, one_group};
use dep_model::OutOfMemory;
use indexmap::IndexSet;
use row_store::{FlatValues, Hashing, LentValue, Rows};
use std::alloc::Global;

/// The leaders of rows by their values at an attribute. Rows with equal values are in one bucket, so each bucket
/// is searched alone.
pub fn leaders_of(
    alloc: Global,
    hashing: Hashing,
    attribute: u8,
    rows: &Rows,
) -> Result<Vec<u32>, OutOfMemory>
    requires attribute { All (λ t. attribute < length t) rows.now }
    requires fits_u32 { length rows.now < 2 ^ 32 }
    ensures count { IfOk result (λ leaders. length leaders.items ≡ length rows.now) }
    ensures leaders { IfOk result (λ leaders.
        AreLeaders (λ i. value_at (row_at rows.now i) attribute) leaders.items) }
{
    let buckets = rows_in_buckets(alloc, attribute, rows)?;
    let mut leaders = one_group(alloc, rows.len())?;
    for place in 0..BUCKETS {
        lead_bucket(alloc, hashing, &buckets[place], &mut leaders)?;
    }
    Ok(leaders)
}

// Finds the leaders of the rows of a bucket among themselves.
fn lead_bucket(
    alloc: Global,
    hashing: Hashing,
    bucket: &Bucket,
    leaders: &mut Vec<u32>,
) -> Result<(), OutOfMemory>
    requires even { length bucket.now.values ≡ length bucket.now.rows.items }
    requires ascending { (j k : ℕ) → j < k → k < length bucket.now.rows.items
        → number_at bucket.now.rows.items j < number_at bucket.now.rows.items k }
    requires within { All (λ row. row < length leaders.old.items) bucket.now.rows.items }
    requires fits_u32 { length bucket.now.rows.items < 2 ^ 32 }
    ensures count { OnOk result (length leaders.new.items ≡ length leaders.old.items) }
    ensures led { (value : ℕ → List ℕ) (n place : ℕ)
        → IsBucket bucket_of_bytes value n place bucket.now.rows.items bucket.now.values
        → OnOk result ((i : ℕ) → i < n → bucket_of_bytes (value i) ≡ place
        → IsLeader value i (number_at leaders.new.items i)) }
    ensures others { OnOk result ((i : ℕ)
        → ((k : ℕ) → k < length bucket.now.rows.items → number_at bucket.now.rows.items k ≢ i)
        → number_at leaders.new.items i ≡ number_at leaders.old.items i) }
{
    let numbers = value_numbers(alloc, hashing, &bucket.values)?;
    let firsts = first_rows(alloc, &numbers)?;
    lead_rows(&bucket.rows, &numbers, &firsts, leaders);
    Ok(())
}

// The number of each value, in the order of first occurrence.
fn value_numbers(
    alloc: Global,
    hashing: Hashing,
    values: &FlatValues,
) -> Result<Vec<u32>, OutOfMemory>
    requires fits_u32 { length values.now < 2 ^ 32 }
    ensures numbered { IfOk result (λ v. (seen : List (List ℕ))
        × AreNumbered (λ k. slice_index_or values.now k []) (length values.now) seen v.items) }
{
    let mut set = IndexSet::with_hasher(alloc, hashing);
    let mut numbers = Vec::with_capacity(alloc, values.len())?;
    for k in 0..values.len() {
        let bytes = values.value(k);
        let (number, _) = set.insert_full(LentValue { bytes })?;
        numbers.push(number as u32)?;
    }
    Ok(numbers)
}

/// The leader of each of these rows is the row at the first position of its number.
pub fn lead_rows(rows: &[u32], numbers: &[u32], firsts: &[u32], leaders: &mut Vec<u32>)
    requires even { length numbers.now ≡ length rows.now }
    requires numbers { All (λ number. number < length firsts.now) numbers.now }
    requires firsts { All (λ first. first < length rows.now) firsts.now }
    requires ascending { (j k : ℕ) → j < k → k < length rows.now → number_at rows.now j < number_at rows.now k }
    requires within { All (λ row. row < length leaders.old.items) rows.now }
    ensures count { length leaders.new.items ≡ length leaders.old.items }
    ensures led { (k : ℕ) → k < length rows.now → number_at leaders.new.items (number_at rows.now k)
        ≡ number_at rows.now (number_at firsts.now (number_at numbers.now k)) }
    ensures others { (i : ℕ) → ((k : ℕ) → k < length rows.now → number_at rows.now k ≢ i)
        → number_at leaders.new.items i ≡ number_at leaders.old.items i }
{
    for k in 0..rows.len() {
        leaders[rows[k] as usize] = rows[firsts[numbers[k] as usize] as usize];
    }
}

/// The number of each row by its leader, in the order of the leaders.
pub fn numbers_by_leaders(alloc: Global, leaders: &[u32]) -> Result<Vec<u32>, OutOfMemory>
    requires no_later { (i : ℕ) → i < length leaders.now → number_at leaders.now i ≤ i }
    requires fits_u32 { length leaders.now < 2 ^ 32 }
    ensures values { (value : ℕ → List ℕ) → AreLeaders value leaders.now → IfOk result
        (λ v. (seen : List (List ℕ)) × AreNumbered value (length leaders.now) seen v.items) }
    ensures pairs { (value : ℕ → ℕ × ℕ) → AreLeaders value leaders.now → IfOk result
        (λ v. (seen : List (ℕ × ℕ)) × AreNumbered value (length leaders.now) seen v.items) }
{
    let mut numbers = Vec::with_capacity(alloc, leaders.len())?;
    let mut count = 0;
    for row in 0..leaders.len() {
        let leader = leaders[row] as usize;
        if leader == row {
            numbers.push(count)?;
            count += 1;
        } else {
            let number = numbers[leader];
            numbers.push(number)?;
        }
    }
    Ok(numbers)
}
