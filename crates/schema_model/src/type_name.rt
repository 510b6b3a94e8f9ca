ghost use Rattle.std.specs.Prelude.{◌≡◌, ℕ, ◌↔◌, ◌≤◌, List, length, IsTrue, IsSome, IfSome};
ghost use Rattle.std.specs.List.{list_all};
ghost use Rattle.schema_model.specs.Names.{is_type_text, is_type_byte};

use crate::held_bytes::HeldBytes;
use std::marker::Model;

/// The most bytes of the text of a type.
pub const MOST_TYPE_BYTES: usize = 63;

/// The text of a type of SQL: 1 to `MOST_TYPE_BYTES` letters, digits, blanks and `_ ( ) , . [ ]`.
#[derive(Clone, Copy, Debug, PartialEq, Eq, Hash)]
pub struct TypeName {
    held: HeldBytes,
}

impl Model for TypeName {
    ghost Value = { List ℕ };

    ghost view = { λ t. t.held };

    ghost invariant = { λ t. IsTrue (is_type_text t.held) };

    ghost inverse = { λ bytes. record { held = bytes } };
}

impl TypeName {
    /// The type of these bytes, where they are the text of one.
    pub fn new(bytes: &[u8]) -> Option<TypeName>
        ensures type_text { IsSome result ↔ IsTrue (is_type_text bytes.now) }
        ensures value { IfSome result (λ name. name ≡ bytes.now) }
    {
        if !is_type_text(bytes) {
            return None;
        }
        Some(TypeName {
            held: HeldBytes::new(bytes),
        })
    }

    /// The bytes.
    pub fn bytes(&self) -> &[u8]
        ensures value { result.now ≡ self.now }
        ensures type_text { IsTrue (is_type_text self.now) }
    {
        self.held.bytes()
    }
}

// Whether the bytes are the text of a type.
fn is_type_text(bytes: &[u8]) -> bool
    ensures exact { result ≡ is_type_text bytes.now }
{
    !bytes.is_empty() && bytes.len() <= MOST_TYPE_BYTES && are_type_bytes(bytes)
}

fn are_type_bytes(bytes: &[u8]) -> bool
    ensures type_bytes { result ≡ list_all is_type_byte bytes.now }
{
    bytes.iter().all(|b| is_type_byte(*b))
}

fn is_type_byte(b: u8) -> bool
    ensures exact { result ≡ is_type_byte b }
{
    b.is_ascii_alphanumeric() || b" _(),.[]".contains(&b)
}
