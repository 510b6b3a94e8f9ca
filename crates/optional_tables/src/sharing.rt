ghost use Rattle.std.specs.Prelude.{◌≡◌, ◌<◌, ◌≤◌, ℕ, length, IfNone, IfSome};
ghost use Rattle.attr_sets.specs.Sets.{attributes};
ghost use Rattle.attr_sets.specs.declared.set.TheConstants.{MOST_ATTRIBUTES};
ghost use Rattle.optional_tables.specs.Readable.{IsHomeAt};
ghost use Rattle.optional_tables.specs.Hindrances.{AreHomesBefore, IsFirstShared, IsLeastShared, IsSharedAt};

use crate::KeyedScheme;
use crate::homes::beside_key;
use attr_sets::AttrSet;

/// An attribute of which a value may be missing, with two homes. Tables are named by their positions, from 0.
#[derive(Clone, Copy, Debug, PartialEq, Eq)]
pub struct SharedHome {
    pub attribute: u8,
    pub earlier: usize,
    pub table: usize,
}

/// The first table that is a home of an attribute of which a value may be missing and an earlier table is a home too,
/// with its least such attribute and the first home of that.
pub fn first_shared(nullable: AttrSet, tables: &[KeyedScheme]) -> Option<SharedHome>
    ensures none { IfNone result ((j k a : ℕ) → IsSharedAt (attributes nullable) tables.now j k a → ⊥) }
    ensures first { IfSome result
        (λ s. IsFirstShared (attributes nullable) tables.now s.earlier s.table s.attribute) }
{
    let mut before = AttrSet::empty();
    for k in 0..tables.len() {
        let found = shared_at(nullable, tables, before, k);
        if found.is_some() {
            return found;
        }
        before = before.union(beside_key(tables[k]));
    }
    None
}

// The least attribute of which a table and an earlier one are homes, where those before it are homes of these.
fn shared_at(
    nullable: AttrSet,
    tables: &[KeyedScheme],
    before: AttrSet,
    k: usize,
) -> Option<SharedHome>
    requires position { k < length tables.now }
    requires before { AreHomesBefore tables.now k (attributes before) }
    ensures none { IfNone result ((j a : ℕ) → IsSharedAt (attributes nullable) tables.now j k a → ⊥) }
    ensures least { IfSome result
        (λ s. (s.table ≡ k) × IsLeastShared (attributes nullable) tables.now s.earlier k s.attribute) }
{
    let shared = beside_key(tables[k]).intersection(before);
    match shared.intersection(nullable).first() {
        Some(attribute) => Some(SharedHome {
            attribute,
            earlier: first_home(tables, k, attribute),
            table: k,
        }),
        None => None,
    }
}

// The first table that is a home of an attribute, where one before a position is.
fn first_home(tables: &[KeyedScheme], end: usize, attribute: u8) -> usize
    requires position { end ≤ length tables.now }
    requires attribute { attribute < MOST_ATTRIBUTES }
    requires some { (j : ℕ) × (j < end) × IsHomeAt tables.now attribute j }
    ensures before { result < end }
    ensures home { IsHomeAt tables.now attribute result }
    ensures first { (i : ℕ) → i < result → IsHomeAt tables.now attribute i → ⊥ }
{
    for j in 0..end {
        if beside_key(tables[j]).contains(attribute) {
            return j;
        }
    }
    unreachable!();
}

// The attributes that have a home.
pub fn with_home(tables: &[KeyedScheme]) -> AttrSet
    ensures homes { AreHomesBefore tables.now (length tables.now) (attributes result) }
{
    let mut before = AttrSet::empty();
    for k in 0..tables.len() {
        before = before.union(beside_key(tables[k]));
    }
    before
}
