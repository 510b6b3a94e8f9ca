ghost use Rattle.std.specs.Prelude.{◌≡◌, ◌+◌, ◌-◌, ◌<◌, ◌≤◌, ◌^◌, ℕ, List, All, [], ◌∷◌, ◌++◌, length, map, take, drop, vec_capacity, slice_index_or, IfOk, OnOk, OnErr};

use dep_model::OutOfMemory;
use std::alloc::Global;
use std::marker::Model;

/// Values, each some bytes, one after another in one piece of memory.
#[derive(Debug, Drop)]
pub struct FlatValues {
    bytes: Vec<u8>,
    ends: Vec<u32>,
}

impl Model for FlatValues {
    ghost use Rattle.std.specs.Prelude.{ℕ, List, length};
    ghost use Rattle.row_store.specs.Pieces.{pieces, AreEnds};

    ghost Value = { List (List ℕ) };

    ghost view = { λ v. pieces 0 v.bytes.items v.ends.items };

    ghost invariant = { λ v. AreEnds 0 (length v.bytes.items) v.ends.items };
}

impl FlatValues {
    /// No values.
    pub fn new(alloc: Global) -> FlatValues
        ensures empty { result ≡ [] }
    {
        FlatValues {
            bytes: Vec::new(alloc),
            ends: Vec::new(alloc),
        }
    }

    /// No values, and room for so many bytes of them.
    pub fn with_room(alloc: Global, bytes: usize) -> Result<FlatValues, OutOfMemory>
        ensures empty { IfOk result (λ v. v ≡ []) }
    {
        Ok(FlatValues {
            bytes: Vec::with_capacity(alloc, bytes)?,
            ends: Vec::new(alloc),
        })
    }

    /// How many values there are.
    pub fn len(&self) -> usize
        ensures count { result ≡ length self.now }
        ensures small { result < 2 ^ 63 }
    {
        self.ends.len()
    }

    /// The value at position `i`.
    pub fn value(&self, i: usize) -> &[u8]
        requires within { i < length self.now }
        ensures value { result.now ≡ slice_index_or self.now i [] }
    {
        between(&self.bytes, start_of(&self.ends, i), self.ends[i] as usize)
    }

    /// Takes all values out, and keeps the memory.
    pub fn clear(&mut self)
        ensures empty { self.new ≡ [] }
    {
        self.bytes.clear();
        self.ends.clear();
    }

    /// Adds a value at the end.
    pub fn push(&mut self, value: &[u8]) -> Result<(), OutOfMemory>
        ensures values { OnOk result (self.new ≡ self.old ++ value.now ∷ []) }
        ensures memory { OnErr result (self.new ≡ self.old) }
    {
        let end = self.bytes.len() + value.len();
        if end > MOST_STORED {
            return Err(OutOfMemory);
        }
        self.ends.reserve(1)?;
        self.bytes.extend_from_slice(value)?;
        self.ends.push(end as u32).unwrap();
        Ok(())
    }

    /// Adds the values of another list at the end.
    pub fn append(&mut self, other: &FlatValues) -> Result<(), OutOfMemory>
        ensures values { OnOk result (self.new ≡ self.old ++ other.now) }
        ensures memory { OnErr result (self.new ≡ self.old) }
    {
        let count = self.bytes.len();
        if count + other.bytes.len() > MOST_STORED {
            return Err(OutOfMemory);
        }
        self.ends.reserve(other.ends.len())?;
        self.bytes.extend_from_slice(&other.bytes)?;
        add_ends(&mut self.ends, count, &other.ends);
        Ok(())
    }
}

/// The most bytes of values, and the most values of rows.
pub const MOST_STORED: usize = 0xFFFF_FFFF;

/// Where the piece at position `i` begins.
pub fn start_of(ends: &[u32], i: usize) -> usize
    requires within { i ≤ length ends.now }
    ensures start { result ≡ slice_index_or (0 ∷ ends.now) i 0 }
{
    if i == 0 { 0 } else { ends[i - 1] as usize }
}

// The bytes between two positions.
fn between(bytes: &[u8], start: usize, end: usize) -> &[u8]
    requires ordered { start ≤ end }
    requires within { end ≤ length bytes.now }
    ensures part { result.now ≡ take (end - start) (drop start bytes.now) }
{
    &bytes[start..end]
}

// Adds ends that are counted from another start, for which there is room.
fn add_ends(ends: &mut Vec<u32>, start: usize, more: &[u32])
    requires room { length ends.old.items + length more.now ≤ vec_capacity ends.old }
    requires fits_u32 { All (λ end. start + end < 2 ^ 32) more.now }
    ensures ends { ends.new.items ≡ ends.old.items ++ map (λ end. start + end) more.now }
{
    for end in more {
        ends.push((start + *end as usize) as u32).unwrap();
    }
}
