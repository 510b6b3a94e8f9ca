//! Pairs of numbers in buckets. Equal pairs are in one bucket.

ghost use Rattle.std.specs.Prelude.{◌≡◌, ◌<◌, ◌^◌, ◌++◌, ◌∷◌, [], length, All, IfOk, OnOk};
ghost use Rattle.row_groups.specs.Buckets.{ArePairBuckets, bucket_of_pair, pair_at};

use crate::buckets::BUCKETS;
use dep_model::OutOfMemory;
use std::alloc::Global;

/// The rows of one bucket, ascending, and their pairs.
#[derive(Debug, Drop)]
pub struct PairBucket {
    pub rows: Vec<u32>,
    pub pairs: Vec<(u32, u32)>,
}

/// The positions of two lists in buckets by the pairs that stand there.
pub fn pairs_in_buckets(
    alloc: Global,
    first: &[u32],
    second: &[u32],
) -> Result<Vec<PairBucket>, OutOfMemory>
    requires same_length { length first.now ≡ length second.now }
    requires fits_u32 { length first.now < 2 ^ 32 }
    ensures buckets { IfOk result (λ buckets.
        ArePairBuckets (pair_at first.now second.now) (length first.now) buckets.items) }
{
    let mut buckets = empty_buckets(alloc)?;
    for row in 0..first.len() {
        let pair = (first[row], second[row]);
        add_row(&mut buckets[bucket_of_pair(pair)], row as u32, pair)?;
    }
    Ok(buckets)
}

fn empty_buckets(alloc: Global) -> Result<Vec<PairBucket>, OutOfMemory>
    ensures count { IfOk result (λ buckets. length buckets.items ≡ BUCKETS) }
    ensures rows { IfOk result (λ buckets. All (λ b. b.rows.items ≡ []) buckets.items) }
    ensures pairs { IfOk result (λ buckets. All (λ b. b.pairs.items ≡ []) buckets.items) }
{
    let mut buckets = Vec::with_capacity(alloc, BUCKETS)?;
    for _ in 0..BUCKETS {
        buckets.push(PairBucket {
            rows: Vec::new(alloc),
            pairs: Vec::new(alloc),
        })?;
    }
    Ok(buckets)
}

fn add_row(bucket: &mut PairBucket, row: u32, pair: (u32, u32)) -> Result<(), OutOfMemory>
    ensures rows { OnOk result (bucket.new.rows.items ≡ bucket.old.rows.items ++ row ∷ []) }
    ensures pairs { OnOk result (bucket.new.pairs.items ≡ bucket.old.pairs.items ++ pair ∷ []) }
{
    bucket.rows.push(row)?;
    bucket.pairs.push(pair)?;
    Ok(())
}

fn bucket_of_pair(pair: (u32, u32)) -> usize
    ensures bucket { result ≡ bucket_of_pair pair }
    ensures below { result < BUCKETS }
{
    (31 * pair.0 as usize + pair.1 as usize) % BUCKETS
}
