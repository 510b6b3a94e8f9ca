//! Rows in buckets by their values in one column. Equal values are in one bucket, and each bucket is small enough to
//! be searched without leaving the nearest memory.

ghost use Rattle.std.specs.Prelude.{◌≡◌, ◌<◌, ◌^◌, ◌++◌, ◌∷◌, [], length, All, IfOk, OnOk};
ghost use Rattle.dep_model.specs.Tuples.{value_at};
ghost use Rattle.row_store.specs.Rows.{row_at};
ghost use Rattle.row_groups.specs.Buckets.{AreBuckets, bucket_of_bytes, mixed};

use dep_model::OutOfMemory;
use row_store::{FlatValues, Rows};
use std::alloc::Global;

/// How many buckets there are.
pub const BUCKETS: usize = 256;

/// What bytes are multiplied by when they are mixed: a prime near 2^32 divided by the golden ratio.
pub const FACTOR: u32 = 2654435761;

/// The rows of one bucket, ascending, and their values.
#[derive(Debug, Drop)]
pub struct Bucket {
    pub rows: Vec<u32>,
    pub values: FlatValues,
}

/// The rows in buckets by their values at an attribute.
pub fn rows_in_buckets(
    alloc: Global,
    attribute: u8,
    rows: &Rows,
) -> Result<Vec<Bucket>, OutOfMemory>
    requires attribute { All (λ t. attribute < length t) rows.now }
    requires fits_u32 { length rows.now < 2 ^ 32 }
    ensures buckets { IfOk result (λ buckets.
        AreBuckets (λ i. value_at (row_at rows.now i) attribute) (length rows.now) buckets.items) }
{
    let mut buckets = empty_buckets(alloc)?;
    for row in 0..rows.len() {
        let value = rows.value(row, attribute as usize);
        add_row(&mut buckets[bucket_of_bytes(value)], row as u32, value)?;
    }
    Ok(buckets)
}

fn empty_buckets(alloc: Global) -> Result<Vec<Bucket>, OutOfMemory>
    ensures count { IfOk result (λ buckets. length buckets.items ≡ BUCKETS) }
    ensures rows { IfOk result (λ buckets. All (λ b. b.rows.items ≡ []) buckets.items) }
    ensures values { IfOk result (λ buckets. All (λ b. b.values ≡ []) buckets.items) }
{
    let mut buckets = Vec::with_capacity(alloc, BUCKETS)?;
    for _ in 0..BUCKETS {
        buckets.push(Bucket {
            rows: Vec::new(alloc),
            values: FlatValues::new(alloc),
        })?;
    }
    Ok(buckets)
}

fn add_row(bucket: &mut Bucket, row: u32, value: &[u8]) -> Result<(), OutOfMemory>
    ensures rows { OnOk result (bucket.new.rows.items ≡ bucket.old.rows.items ++ row ∷ []) }
    ensures values { OnOk result (bucket.new.values ≡ bucket.old.values ++ value.now ∷ []) }
{
    bucket.rows.push(row)?;
    bucket.values.push(value)
}

fn bucket_of_bytes(bytes: &[u8]) -> usize
    ensures bucket { result ≡ bucket_of_bytes bytes.now }
    ensures below { result < BUCKETS }
{
    (mixed(bytes) >> 24) as usize
}

fn mixed(bytes: &[u8]) -> u32
    ensures mixed { result ≡ mixed 0 bytes.now }
{
    let mut sum = 0u32;
    for byte in bytes {
        sum = sum.wrapping_add(*byte as u32).wrapping_mul(FACTOR);
    }
    sum
}
