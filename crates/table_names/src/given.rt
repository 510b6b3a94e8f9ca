//! Names that a plan gives to its tables.

ghost use Rattle.std.specs.Prelude.{◌≡◌, ◌<◌};
ghost use Rattle.std.specs.Char.{is_ascii_digit};
ghost use Rattle.std.specs.List.{list_all, list_any};
ghost use Rattle.table_names.specs.TableNames.{is_given, is_numbered, is_taken, name_of_table};

use crate::numbered::{MOST_TABLES, table_name};
use schema_model::Name;

/// The name of the table at a position, from 0: the one that is given to it, or else that of its number.
pub fn name_of_table(names: &[Option<Name>], k: u32) -> Name
    requires within_limit { k < MOST_TABLES }
    ensures name { result ≡ name_of_table names.now k }
{
    if k as usize >= names.len() {
        return table_name(k + 1);
    }
    match names[k as usize] {
        Some(name) => name,
        None => table_name(k + 1),
    }
}

/// Whether a name is given to one of the tables, the case of letters aside.
pub fn is_given(names: &[Option<Name>], bytes: &[u8]) -> bool
    ensures given { result ≡ list_any (is_given bytes.now) names.now }
{
    names.iter().any(|name| is_name(name, bytes))
}

// Whether this is the name that is given.
fn is_name(name: &Option<Name>, bytes: &[u8]) -> bool
    ensures given { result ≡ is_given bytes.now name.now }
{
    match name {
        Some(name) => bytes.eq_ignore_ascii_case(name.bytes()),
        None => false,
    }
}

/// Whether a script gives this name to a table or a view itself: `joined`, or `t` and digits.
pub fn is_taken(bytes: &[u8]) -> bool
    ensures taken { result ≡ is_taken bytes.now }
{
    bytes.eq_ignore_ascii_case(b"joined") || is_numbered(bytes)
}

// Whether the bytes are `t` and a number.
fn is_numbered(bytes: &[u8]) -> bool
    ensures numbered { result ≡ is_numbered bytes.now }
{
    bytes.len() > 1 && bytes[..1].eq_ignore_ascii_case(b"t") && are_digits(&bytes[1..])
}

fn are_digits(bytes: &[u8]) -> bool
    ensures digits { result ≡ list_all is_ascii_digit bytes.now }
{
    bytes.iter().all(|b| b.is_ascii_digit())
}
