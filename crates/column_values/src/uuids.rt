//! The texts of universally unique identifiers.

ghost use Rattle.std.specs.Prelude.{◌≡◌, ◌↔◌, ℕ, List, ◌∷◌, ◌++◌, IsTrue, IfSome, IfNone};
ghost use Rattle.std.specs.List.{list_all};
ghost use Rattle.column_values.specs.Uuids.{is_hex_digit, IsHexGroup, IsUuidText};

use crate::digits::cut;

// Whether bytes are the text of a universally unique identifier.
pub fn is_uuid_text(bytes: &[u8]) -> bool
    ensures uuid { IsTrue result ↔ IsUuidText bytes.now }
{
    let Some(second) = after_group(bytes, 8) else {
        return false;
    };
    let Some(third) = after_group(second, 4) else {
        return false;
    };
    let Some(fourth) = after_group(third, 4) else {
        return false;
    };
    let Some(fifth) = after_group(fourth, 4) else {
        return false;
    };
    is_hex_group(fifth, 12)
}

// What follows so many hexadecimal digits in lower case and a `-`.
fn after_group(bytes: &[u8], count: usize) -> Option<&[u8]>
    ensures rest { IfSome result
        (λ rest. (group : List ℕ) × IsHexGroup count group × (bytes.now ≡ group ++ 45 ∷ rest.now)) }
    ensures none { IfNone result
        ((group rest : List ℕ) → IsHexGroup count group → bytes.now ≡ group ++ 45 ∷ rest → ⊥) }
{
    match cut(bytes, count, b'-') {
        Some((group, rest)) => {
            if is_hex_group(group, count) {
                Some(rest)
            } else {
                None
            }
        }
        None => None,
    }
}

// Whether bytes are so many hexadecimal digits in lower case.
fn is_hex_group(bytes: &[u8], count: usize) -> bool
    ensures group { IsTrue result ↔ IsHexGroup count bytes.now }
{
    bytes.len() == count && are_hex_digits(bytes)
}

fn are_hex_digits(bytes: &[u8]) -> bool
    ensures digits { result ≡ list_all is_hex_digit bytes.now }
{
    bytes.iter().all(|b| is_hex_digit(*b))
}

fn is_hex_digit(b: u8) -> bool
    ensures digit { result ≡ is_hex_digit b }
{
    b.is_ascii_digit() || (b'a' <= b && b <= b'f')
}
