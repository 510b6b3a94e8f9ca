ghost use Rattle.std.specs.Prelude.{◌≡◌, ◌<◌, ◌≤◌, ◌^◌, ℕ, true, List, length, replicate, slice_get, Some, None, IfOk, IfSome, OnOk};
ghost use Rattle.attr_sets.specs.Attributes.{Attributes, IsSubset, below, only, union};
ghost use Rattle.attr_sets.specs.Sets.{attributes};
ghost use Rattle.row_groups.specs.Interning.{IsInterned, count_of, firsts_of, groups_of, width_of_rows};
ghost use Rattle.row_groups.specs.Numberings.{AreFirsts, AreGroups, AreInOrder, AreNumbered, number_at};
ghost use Rattle.row_groups.specs.Pairs.{AreKeptPairs, Gets};
ghost use Rattle.dep_model.specs.Tuples.{Relation};

use crate::Interned;
use crate::hashed_pair::HashedPair;
use crate::interning::MOST_TOGETHER;
use crate::leaders::numbers_by_leaders;
use crate::pair_leaders::leaders_of_pairs;
use attr_sets::{AttrSet, MOST_ATTRIBUTES};
use dep_model::OutOfMemory;
use indexmap::IndexSet;
use row_store::Hashing;
use std::alloc::Global;

/// Rows grouped by what they have on a set of attributes. The groups are numbered from 0 in the order
/// of their first rows.
#[derive(Debug, Drop)]
pub struct Groups {
    numbers: Vec<u32>,
    firsts: Vec<u32>,
}

impl Groups {
    /// The groups of rows that agree on a set.
    pub fn by_agreement(
        alloc: Global,
        codes: &Interned,
        set: AttrSet,
    ) -> Result<Groups, OutOfMemory>
        requires within { IsSubset (attributes set) (below (width_of_rows codes.now)) }
        ensures groups { (n : ℕ) (rows : Relation) → IsInterned n rows codes.now
            → IfOk result (λ g. AreGroups rows (attributes set) (groups_of g)) }
        ensures firsts { (n : ℕ) (rows : Relation) → IsInterned n rows codes.now
            → IfOk result (λ g. AreFirsts (groups_of g) (firsts_of g)) }
    {
        let all = one_group(alloc, codes.count())?;
        let numbers = refine_by(alloc, codes, all, set)?;
        let firsts = first_rows(alloc, &numbers)?;
        Ok(Groups { numbers, firsts })
    }

    /// The groups of rows that are in one of these groups and agree on a further set.
    pub fn refined(
        &self,
        alloc: Global,
        codes: &Interned,
        set: AttrSet,
    ) -> Result<Groups, OutOfMemory>
        requires within { IsSubset (attributes set) (below (width_of_rows codes.now)) }
        requires same_length { length (groups_of self.now) ≡ count_of codes.now }
        ensures groups { (n : ℕ) (rows : Relation) (x : Attributes) → IsInterned n rows codes.now
            → AreGroups rows x (groups_of self.now)
            → IfOk result (λ g. AreGroups rows (union x (attributes set)) (groups_of g)) }
        ensures firsts { (n : ℕ) (rows : Relation) (x : Attributes) → IsInterned n rows codes.now
            → AreGroups rows x (groups_of self.now)
            → IfOk result (λ g. AreFirsts (groups_of g) (firsts_of g)) }
    {
        let same = Vec::from_slice(alloc, &self.numbers)?;
        let numbers = refine_by(alloc, codes, same, set)?;
        let firsts = first_rows(alloc, &numbers)?;
        Ok(Groups { numbers, firsts })
    }

    /// The group of each row.
    pub fn numbers(&self) -> &[u32]
        ensures numbers { result.now ≡ groups_of self.now }
    {
        &self.numbers
    }

    /// The first row of each group.
    pub fn firsts(&self) -> &[u32]
        ensures firsts { result.now ≡ firsts_of self.now }
    {
        &self.firsts
    }

    /// The same as a list of its own, in place of the groups.
    pub fn into_firsts(self) -> Vec<u32>
        ensures firsts { result.items ≡ firsts_of self }
    {
        self.firsts
    }
}

// One group of this many rows.
pub fn one_group(alloc: Global, count: usize) -> Result<Vec<u32>, OutOfMemory>
    ensures zeros { IfOk result (λ v. v.items ≡ replicate count 0) }
{
    let mut numbers = Vec::new(alloc);
    numbers.resize(count, 0)?;
    Ok(numbers)
}

// The groups of rows that are in one group and agree on a set.
fn refine_by(
    alloc: Global,
    codes: &Interned,
    groups: Vec<u32>,
    set: AttrSet,
) -> Result<Vec<u32>, OutOfMemory>
    requires within { IsSubset (attributes set) (below (width_of_rows codes.now)) }
    requires same_length { length groups.items ≡ count_of codes.now }
    ensures count { IfOk result (λ v. length v.items ≡ length groups.items) }
    ensures groups { (n : ℕ) (rows : Relation) (x : Attributes) → IsInterned n rows codes.now
        → AreGroups rows x groups.items
        → IfOk result (λ v. AreGroups rows (union x (attributes set)) v.items) }
{
    let mut numbers = groups;
    for attribute in 0..MOST_ATTRIBUTES as u8 {
        if set.contains(attribute) {
            numbers = refine_groups(alloc, codes.hashing(), &numbers, codes.column(attribute))?;
        }
    }
    Ok(numbers)
}

// The groups of rows that are in one group and have one number in a column.
fn refine_groups(
    alloc: Global,
    hashing: Hashing,
    groups: &[u32],
    codes: &[u32],
) -> Result<Vec<u32>, OutOfMemory>
    requires same_length { length groups.now ≡ length codes.now }
    requires fits_u32 { length groups.now < 2 ^ 32 }
    ensures count { IfOk result (λ v. length v.items ≡ length groups.now) }
    ensures groups { (rows : Relation) (x : Attributes) (k : ℕ) → AreGroups rows x groups.now
        → AreGroups rows (only k) codes.now
        → IfOk result (λ v. AreGroups rows (union x (only k)) v.items) }
{
    if are_zeros(groups) {
        return Ok(Vec::from_slice(alloc, codes)?);
    }
    let numbers = numbered_pairs(alloc, hashing, groups, codes)?;
    Ok(numbers)
}

// Whether all is one group. It is a matter of speed alone: the column then numbers the rows itself.
fn are_zeros(groups: &[u32]) -> bool
    ensures zeros { result ≡ true → (i : ℕ) → i < length groups.now → number_at groups.now i ≡ 0 }
{
    for group in groups {
        if *group != 0 {
            return false;
        }
    }
    true
}

// The number of each pair, in the order of first occurrence, where the first halves are numbered in the
// order of theirs.
fn numbered_pairs(
    alloc: Global,
    hashing: Hashing,
    first: &[u32],
    second: &[u32],
) -> Result<Vec<u32>, OutOfMemory>
    requires same_length { length first.now ≡ length second.now }
    requires fits_u32 { length first.now < 2 ^ 32 }
    ensures count { IfOk result (λ v. length v.items ≡ length first.now) }
    ensures numbered { AreInOrder first.now → IfOk result
        (λ v. (seen : List (ℕ × ℕ))
        × AreNumbered (λ i. (number_at first.now i, number_at second.now i))
        (length first.now) seen v.items) }
{
    match numbers_of_few_pairs(alloc, hashing, first, second)? {
        Some(numbers) => Ok(numbers),
        None => {
            let leaders = leaders_of_pairs(alloc, hashing, first, second)?;
            let numbers = numbers_by_leaders(alloc, &leaders)?;
            Ok(numbers)
        }
    }
}

// The same, or nothing where there are too many different pairs besides the first one of each first half.
fn numbers_of_few_pairs(
    alloc: Global,
    hashing: Hashing,
    first: &[u32],
    second: &[u32],
) -> Result<Option<Vec<u32>>, OutOfMemory>
    requires same_length { length first.now ≡ length second.now }
    requires fits_u32 { length first.now < 2 ^ 32 }
    ensures count { IfOk result (λ few. IfSome few (λ v. length v.items ≡ length first.now)) }
    ensures numbered { AreInOrder first.now → IfOk result
        (λ few. IfSome few (λ v. (seen : List (ℕ × ℕ))
        × AreNumbered (λ i. (number_at first.now i, number_at second.now i))
        (length first.now) seen v.items)) }
{
    let mut leads = Vec::new(alloc);
    let mut others = IndexSet::with_hasher(alloc, hashing);
    let mut other_numbers = Vec::new(alloc);
    let mut count = 0;
    let mut numbers = Vec::with_capacity(alloc, first.len())?;
    for i in 0..first.len() {
        let pair = (first[i], second[i]);
        let number = pair_number(&mut leads, &mut others, &mut other_numbers, count, pair)?;
        if other_numbers.len() > MOST_TOGETHER {
            return Ok(None);
        }
        numbers.push(number)?;
        if number == count {
            count += 1;
        }
    }
    Ok(Some(numbers))
}

// The number of a pair, which is that of an equal one or the next one. The first pair of each first half
// stands among the leads, at the position of the first half: only the other pairs are hashed.
fn pair_number(
    leads: &mut Vec<(u32, u32)>,
    others: &mut IndexSet<HashedPair, Hashing>,
    other_numbers: &mut Vec<u32>,
    count: u32,
    pair: (u32, u32),
) -> Result<u32, OutOfMemory>
    requires even { length other_numbers.old.items ≡ length others.old.keys }
    ensures even { OnOk result (length other_numbers.new.items ≡ length others.new.keys) }
    ensures longer { OnOk result (length leads.old.items ≤ length leads.new.items) }
    ensures has_lead { OnOk result
        (pair.0 ≤ length leads.old.items → pair.0 < length leads.new.items) }
    ensures kept { (seen : List (ℕ × ℕ))
        → AreKeptPairs seen leads.old.items others.old.keys other_numbers.old.items
        → count ≡ length seen → pair.0 ≤ length leads.old.items
        → IfOk result (λ number. (after : List (ℕ × ℕ)) × Gets pair seen after number
        × AreKeptPairs after leads.new.items others.new.keys other_numbers.new.items) }
{
    if pair.0 as usize == leads.len() {
        leads.push((pair.1, count))?;
        return Ok(count);
    }
    match lead_number(leads, pair) {
        Some(number) => return Ok(number),
        None => {}
    }
    let (place, _) = others.insert_full(HashedPair { numbers: pair })?;
    if place == other_numbers.len() {
        other_numbers.push(count)?;
        return Ok(count);
    }
    Ok(other_numbers[place])
}

// The number of a pair that stands among the leads.
fn lead_number(leads: &[(u32, u32)], pair: (u32, u32)) -> Option<u32>
    ensures found { IfSome result (λ number. slice_get leads.now pair.0 ≡ Some (pair.1, number)) }
    ensures none { result ≡ None → (lead : ℕ × ℕ) → slice_get leads.now pair.0 ≡ Some lead
        → lead.0 ≡ pair.1 → ⊥ }
{
    match leads.get(pair.0 as usize) {
        Some(lead) if lead.0 == pair.1 => Some(lead.1),
        _ => None,
    }
}

// The first row of each group, where the groups are numbered in the order of their first rows.
pub fn first_rows(alloc: Global, numbers: &[u32]) -> Result<Vec<u32>, OutOfMemory>
    requires fits_u32 { length numbers.now < 2 ^ 32 }
    ensures firsts { AreInOrder numbers.now → IfOk result (λ v. AreFirsts numbers.now v.items) }
{
    let mut firsts = Vec::new(alloc);
    for i in 0..numbers.len() {
        if numbers[i] as usize == firsts.len() {
            firsts.push(i as u32)?;
        }
    }
    Ok(firsts)
}
