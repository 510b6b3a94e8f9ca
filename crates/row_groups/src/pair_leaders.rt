//! The leader of each position of two lists, which is the first one with the same pair.

ghost use Rattle.std.specs.Prelude.{◌≡◌, ◌≢◌, ◌<◌, ◌^◌, ℕ, List, length, get_or, All, IfOk, OnOk};
ghost use Rattle.row_groups.specs.Buckets.{AreLeaders, IsBucket, IsLeader, bucket_of_pair, pair_at};
ghost use Rattle.row_groups.specs.Numberings.{AreNumbered, number_at};

use crate::buckets::BUCKETS;
use crate::groups::{first_rows, one_group};
use crate::hashed_pair::HashedPair;
use crate::leaders::lead_rows;
use crate::pair_buckets::{PairBucket, pairs_in_buckets};
use dep_model::OutOfMemory;
use indexmap::IndexSet;
use row_store::Hashing;
use std::alloc::Global;

/// The leaders of positions by the pairs that stand there. Each bucket of pairs is searched alone.
pub fn leaders_of_pairs(
    alloc: Global,
    hashing: Hashing,
    first: &[u32],
    second: &[u32],
) -> Result<Vec<u32>, OutOfMemory>
    requires same_length { length first.now ≡ length second.now }
    requires fits_u32 { length first.now < 2 ^ 32 }
    ensures count { IfOk result (λ leaders. length leaders.items ≡ length first.now) }
    ensures leaders { IfOk result (λ leaders.
        AreLeaders (pair_at first.now second.now) leaders.items) }
{
    let buckets = pairs_in_buckets(alloc, first, second)?;
    let mut leaders = one_group(alloc, first.len())?;
    for place in 0..BUCKETS {
        lead_pairs(alloc, hashing, &buckets[place], &mut leaders)?;
    }
    Ok(leaders)
}

// Finds the leaders of the rows of a bucket among themselves.
fn lead_pairs(
    alloc: Global,
    hashing: Hashing,
    bucket: &PairBucket,
    leaders: &mut Vec<u32>,
) -> Result<(), OutOfMemory>
    requires even { length bucket.now.pairs.items ≡ length bucket.now.rows.items }
    requires ascending { (j k : ℕ) → j < k → k < length bucket.now.rows.items
        → number_at bucket.now.rows.items j < number_at bucket.now.rows.items k }
    requires within { All (λ row. row < length leaders.old.items) bucket.now.rows.items }
    requires fits_u32 { length bucket.now.rows.items < 2 ^ 32 }
    ensures count { OnOk result (length leaders.new.items ≡ length leaders.old.items) }
    ensures led { (value : ℕ → ℕ × ℕ) (n place : ℕ)
        → IsBucket bucket_of_pair value n place bucket.now.rows.items bucket.now.pairs.items
        → OnOk result ((i : ℕ) → i < n → bucket_of_pair (value i) ≡ place
        → IsLeader value i (number_at leaders.new.items i)) }
    ensures others { OnOk result ((i : ℕ)
        → ((k : ℕ) → k < length bucket.now.rows.items → number_at bucket.now.rows.items k ≢ i)
        → number_at leaders.new.items i ≡ number_at leaders.old.items i) }
{
    let numbers = pair_numbers(alloc, hashing, &bucket.pairs)?;
    let firsts = first_rows(alloc, &numbers)?;
    lead_rows(&bucket.rows, &numbers, &firsts, leaders);
    Ok(())
}

// The number of each pair, in the order of first occurrence.
fn pair_numbers(
    alloc: Global,
    hashing: Hashing,
    pairs: &[(u32, u32)],
) -> Result<Vec<u32>, OutOfMemory>
    requires fits_u32 { length pairs.now < 2 ^ 32 }
    ensures numbered { IfOk result (λ v. (seen : List (ℕ × ℕ))
        × AreNumbered (λ k. get_or pairs.now k (0, 0)) (length pairs.now) seen v.items) }
{
    let mut set = IndexSet::with_hasher(alloc, hashing);
    let mut numbers = Vec::with_capacity(alloc, pairs.len())?;
    for k in 0..pairs.len() {
        let (number, _) = set.insert_full(HashedPair { numbers: pairs[k] })?;
        numbers.push(number as u32)?;
    }
    Ok(numbers)
}
