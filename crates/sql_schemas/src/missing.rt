//! The columns of a table of which a value may be missing.

ghost use Rattle.std.specs.Prelude.{◌≡◌, ◌≤◌, ◌<◌, ℕ, ◌&&◌, length, map, slice_get};
ghost use Rattle.std.specs.List.{list_any};
ghost use Rattle.attr_sets.specs.Sets.{attributes};
ghost use Rattle.attr_sets.specs.declared.set.TheConstants.{MOST_ATTRIBUTES};
ghost use Rattle.sql_schemas.specs.KeyValues.{key_columns};
ghost use Rattle.sql_schemas.specs.Keys.{is_primary};
ghost use Rattle.sql_schemas.specs.Texts.{columns_missing, says_nothing};

use crate::keys::{TableKey, is_primary};
use attr_sets::AttrSet;
use sql_definitions::Column;

/// The columns of which a value may be missing: neither they say otherwise, nor a key.
pub fn columns_missing(columns: &[Column], keys: &[TableKey]) -> AttrSet
    requires within_limit { length columns.now ≤ MOST_ATTRIBUTES }
    ensures missing { (k : ℕ) → attributes result k ≡ columns_missing columns.now (map key_columns keys.now) k }
{
    let mut missing = AttrSet::empty();
    for column in 0..columns.len() as u8 {
        if may_be_missing(columns, keys, column) {
            missing = missing.with(column);
        }
    }
    missing
}

#[tactic(auto, using(crate::proofs::KeyLemmas::bound_mapped))]
fn may_be_missing(columns: &[Column], keys: &[TableKey], column: u8) -> bool
    requires within_limit { column < MOST_ATTRIBUTES }
    ensures exact { result ≡ columns_missing columns.now (map key_columns keys.now) column }
{
    says_nothing(columns, column) && !is_bound(keys, column)
}

// Whether a column does not say itself that no value is missing.
fn says_nothing(columns: &[Column], column: u8) -> bool
    ensures exact { result ≡ says_nothing (slice_get columns.now column) }
{
    match columns.get(column as usize) {
        Some(stated) => !stated.is_never_missing(),
        None => false,
    }
}

// Whether a PRIMARY KEY keeps values of a column from missing.
fn is_bound(keys: &[TableKey], column: u8) -> bool
    requires within_limit { column < MOST_ATTRIBUTES }
    ensures exact { result ≡ list_any (λ key. is_primary key.kind && attributes key.columns column) keys.now }
{
    keys.iter()
        .any(|key| is_primary(key.kind) && key.columns.contains(column))
}
