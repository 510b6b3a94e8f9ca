//! The keys of a table as sets of its columns.

ghost use Rattle.std.specs.Prelude.{◌≡◌, ◌≤◌, ◌<◌, [], length, map, IfErr, IfOk, IfSome, Ok};
ghost use Rattle.std.specs.List.{list_any};
ghost use Rattle.attr_sets.specs.Attributes.{none};
ghost use Rattle.attr_sets.specs.Sets.{attributes};
ghost use Rattle.attr_sets.specs.declared.set.TheConstants.{MOST_ATTRIBUTES};
ghost use Rattle.sql_definitions.specs.Facts.{Fails};
ghost use Rattle.sql_schemas.specs.KeyValues.{key_columns};
ghost use Rattle.sql_schemas.specs.Keys.{column_named, column_of_part, columns_of_parts, compares_missing, is_dependency, is_new, is_primary, key_of, keys_of, new_keys, says_so};

use attr_sets::AttrSet;
use dep_model::{Failure, OutOfMemory};
use schema_model::Name;
use sql_definitions::{Column, Definition, Key, KeyKind, Part, Reason, Refusal};
use std::alloc::Global;

/// A key of a table: what states it, and its columns.
#[derive(Clone, Copy, Debug)]
pub struct TableKey {
    pub kind: KeyKind,
    pub columns: AttrSet,
}

/// Whether PRIMARY KEY states a key: it keeps values of its columns from missing.
pub fn is_primary(kind: KeyKind) -> bool
    ensures exact { result ≡ is_primary kind }
{
    match kind {
        KeyKind::Primary => true,
        _ => false,
    }
}

fn compares_missing(kind: KeyKind) -> bool
    ensures exact { result ≡ compares_missing kind }
{
    match kind {
        KeyKind::UniqueMissing => true,
        _ => false,
    }
}

/// The keys of a table, in the order in which they are stated; or the refusal of the first part of one
/// that names no column.
#[tactic(auto, unfolding(crate::specs::Keys::keys_after))]
pub fn keys_of(alloc: Global, definition: &Definition) -> Result<Vec<TableKey>, Failure<Refusal>>
    ensures ok { IfOk result (λ keys. keys_of definition.now ≡ Ok (map key_columns keys.items)) }
    ensures err { IfErr result (λ failure. Fails failure (keys_of definition.now)) }
{
    let mut keys = Vec::new(alloc);
    let mut rest = definition.keys();
    while let [key, after @ ..] = rest {
        keys.push(key_of(definition.columns(), key)?)?;
        rest = after;
    }
    Ok(keys)
}

// A key that is stated, with its columns.
fn key_of(columns: &[Column], key: &Key) -> Result<TableKey, Failure<Refusal>>
    requires within_limit { length columns.now ≤ MOST_ATTRIBUTES }
    ensures ok { IfOk result (λ k. key_of columns.now key.now ≡ Ok (key_columns k)) }
    ensures err { IfErr result (λ failure. Fails failure (key_of columns.now key.now)) }
{
    let columns = columns_of_parts(columns, key.parts())?;
    Ok(TableKey {
        kind: key.kind(),
        columns,
    })
}

// The columns that parts name.
#[tactic(auto, unfolding(crate::specs::Keys::columns_of_parts))]
fn columns_of_parts(columns: &[Column], parts: &[Part]) -> Result<AttrSet, Failure<Refusal>>
    requires within_limit { length columns.now ≤ MOST_ATTRIBUTES }
    ensures ok { IfOk result (λ set. columns_of_parts columns.now none parts.now ≡ Ok (attributes set)) }
    ensures err { IfErr result (λ failure. Fails failure (columns_of_parts columns.now none parts.now)) }
{
    let mut set = AttrSet::empty();
    let mut rest = parts;
    while let [part, after @ ..] = rest {
        let Some(column) = column_of_part(columns, part) else {
            return Err(Failure::Refused(Refusal {
                reason: Reason::UnknownName,
                place: part.place(),
            }));
        };
        set = set.with(column);
        rest = after;
    }
    Ok(set)
}

// The column that a part of a key names.
fn column_of_part(columns: &[Column], part: &Part) -> Option<u8>
    requires within_limit { length columns.now ≤ MOST_ATTRIBUTES }
    ensures column { result ≡ column_of_part columns.now part.now }
    ensures within { IfSome result (λ k. k < length columns.now) }
{
    match part.name() {
        Some(name) => column_named(columns, &name),
        None => None,
    }
}

// The column of a name, ASCII case aside.
fn column_named(columns: &[Column], name: &Name) -> Option<u8>
    requires within_limit { length columns.now ≤ MOST_ATTRIBUTES }
    ensures column { result ≡ column_named columns.now name.now }
    ensures within { IfSome result (λ k. k < length columns.now) }
{
    match position_named(columns, name) {
        Some(k) => Some(k as u8),
        None => None,
    }
}

fn position_named(columns: &[Column], name: &Name) -> Option<usize>
    ensures column { result ≡ column_named columns.now name.now }
    ensures within { IfSome result (λ k. k < length columns.now) }
{
    columns
        .iter()
        .position(|column| column.name().is_same(name))
}

/// Whether a key states a dependency: no column of it may be missing, or missing values are compared.
pub fn is_dependency(missing: AttrSet, key: &TableKey) -> bool
    ensures exact { result ≡ is_dependency (attributes missing) (key_columns key.now) }
{
    compares_missing(key.kind) || !key.columns.intersects(missing)
}

/// The keys of n columns that say something, each once, where values of some columns may be missing.
#[tactic(auto, unfolding(crate::specs::Keys::new_keys))]
pub fn new_keys(
    alloc: Global,
    n: u8,
    missing: AttrSet,
    keys: &[TableKey],
) -> Result<Vec<TableKey>, OutOfMemory>
    requires within_limit { n ≤ MOST_ATTRIBUTES }
    ensures keys { IfOk result (λ kept.
        map key_columns kept.items ≡ new_keys n (attributes missing) [] (map key_columns keys.now)) }
{
    let mut kept = Vec::new(alloc);
    let mut rest = keys;
    while let [key, after @ ..] = rest {
        if is_new(n, missing, &kept, key) {
            kept.push(*key)?;
        }
        rest = after;
    }
    Ok(kept)
}

// Whether a key of n columns has one that is not in it, and none of these says what it says.
fn is_new(n: u8, missing: AttrSet, keys: &[TableKey], key: &TableKey) -> bool
    requires within_limit { n ≤ MOST_ATTRIBUTES }
    ensures exact { result ≡ is_new n (attributes missing) (map key_columns keys.now) (key_columns key.now) }
{
    !AttrSet::full(n).is_subset(key.columns) && !is_said(missing, keys, key)
}

// Whether one of these keys says what a key says.
fn is_said(missing: AttrSet, keys: &[TableKey], key: &TableKey) -> bool
    ensures exact { result
        ≡ list_any (λ other. says_so (attributes missing) (key_columns key.now) (key_columns other)) keys.now }
{
    keys.iter().any(|other| says_so(missing, key, other))
}

// Whether another key has the same columns, and states a dependency where a key does.
fn says_so(missing: AttrSet, key: &TableKey, other: &TableKey) -> bool
    ensures exact { result ≡ says_so (attributes missing) (key_columns key.now) (key_columns other.now) }
{
    other.columns == key.columns && (is_dependency(missing, other) || !is_dependency(missing, key))
}
