ghost use Rattle.std.specs.Prelude.{◌≡◌, ℕ, ◌↔◌, ◌≤◌, List, length, IsTrue, IsSome, IfSome};
ghost use Rattle.std.specs.List.{list_all, list_any};
ghost use Rattle.schema_model.specs.Names.{IsName, is_bare_name, is_name_byte, is_control, begins_with_mark, same_name};

use crate::held_bytes::HeldBytes;
use std::marker::Model;

/// The most bytes of a name.
pub const MOST_NAME_BYTES: usize = 63;

/// The most bytes of a bare name.
pub const MOST_BARE_NAME_BYTES: usize = 31;

/// A name: 1 to `MOST_NAME_BYTES` bytes of UTF-8 without control characters of ASCII, of which U+FEFF
/// is not the first character.
#[derive(Clone, Copy, Debug)]
pub struct Name {
    held: HeldBytes,
}

impl Model for Name {
    ghost Value = { List ℕ };

    ghost view = { λ n. n.held };

    ghost invariant = { λ n. IsName n.held };

    ghost inverse = { λ bytes. record { held = bytes } };
}

impl Name {
    /// The name of these bytes, where they are a name.
    pub fn new(bytes: &[u8]) -> Option<Name>
        ensures name { IsSome result ↔ IsName bytes.now }
        ensures value { IfSome result (λ name. name ≡ bytes.now) }
    {
        if !is_name(bytes) {
            return None;
        }
        Some(Name {
            held: HeldBytes::new(bytes),
        })
    }

    /// The bytes in their declared spelling.
    pub fn bytes(&self) -> &[u8]
        ensures value { result.now ≡ self.now }
        ensures name { IsName self.now }
    {
        self.held.bytes()
    }

    /// Whether the two are one name, ASCII case aside.
    pub fn is_same(&self, other: &Name) -> bool
        ensures same { result ≡ same_name self.now other.now }
    {
        self.bytes().eq_ignore_ascii_case(other.bytes())
    }
}

// Whether the bytes are a name.
fn is_name(bytes: &[u8]) -> bool
    ensures name { IsTrue result ↔ IsName bytes.now }
{
    if bytes.is_empty()
        || bytes.len() > MOST_NAME_BYTES
        || has_control(bytes)
        || begins_with_mark(bytes)
    {
        return false;
    }
    match str::from_utf8(bytes) {
        Ok(_) => true,
        Err(_) => false,
    }
}

// Whether some byte is a control character.
fn has_control(bytes: &[u8]) -> bool
    ensures control { result ≡ list_any is_control bytes.now }
{
    bytes.iter().any(|b| *b < 32 || *b == 127)
}

// Whether U+FEFF, the byte-order mark, stands in front.
fn begins_with_mark(bytes: &[u8]) -> bool
    ensures mark { result ≡ begins_with_mark bytes.now }
{
    bytes.starts_with(b"\xEF\xBB\xBF")
}

/// Whether the bytes are a bare name: a letter, then letters, digits and `_`, at most
/// `MOST_BARE_NAME_BYTES` in all. Letters are ASCII. Each bare name is a name.
pub fn is_bare_name(bytes: &[u8]) -> bool
    ensures bare { result ≡ is_bare_name bytes.now }
    ensures name { IsTrue (is_bare_name bytes.now) → IsName bytes.now }
{
    !bytes.is_empty()
        && bytes[0].is_ascii_alphabetic()
        && are_name_bytes(bytes)
        && bytes.len() <= MOST_BARE_NAME_BYTES
}

fn are_name_bytes(bytes: &[u8]) -> bool
    ensures name_bytes { result ≡ list_all is_name_byte bytes.now }
{
    bytes
        .iter()
        .all(|b| b.is_ascii_alphanumeric() || *b == b'_')
}
