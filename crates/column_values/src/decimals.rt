//! The texts of decimal numbers.

ghost use Rattle.std.specs.Prelude.{◌≡◌, ◌≢◌, ◌==◌, ◌↔◌, ◌<◌, ◌≤◌, IsTrue};
ghost use Rattle.std.specs.List.{list_all};
ghost use Rattle.column_values.specs.Digits.{in_digits};
ghost use Rattle.column_values.specs.Decimals.{decimal_text, point_and_digits, IsDecimalText, IsUnsignedDecimal, IsWhole};

use crate::digits::{MOST_DIGITS, after_byte, are_digits, cut, number_of};
use schema_model::MOST_SCALE;

// Whether bytes are the text of a decimal number of this scale.
pub fn is_decimal_text(scale: u8, bytes: &[u8]) -> bool
    ensures decimal { IsTrue result ↔ IsDecimalText scale bytes.now }
{
    match after_byte(bytes, b'-') {
        Some(rest) => is_nonzero_decimal(scale, rest),
        None => is_unsigned_decimal(scale, bytes),
    }
}

// Whether bytes are the text of a decimal number of this scale without a sign that is not zero.
fn is_nonzero_decimal(scale: u8, bytes: &[u8]) -> bool
    ensures decimal { IsTrue result
        ↔ (IsUnsignedDecimal scale bytes.now × (bytes.now ≢ decimal_text scale 0 0)) }
{
    is_unsigned_decimal(scale, bytes) && !is_zero(scale, bytes)
}

// Whether bytes are the text of a decimal number of this scale without a sign.
fn is_unsigned_decimal(scale: u8, bytes: &[u8]) -> bool
    ensures decimal { IsTrue result ↔ IsUnsignedDecimal scale bytes.now }
{
    let digits = scale as usize;
    if scale > MOST_SCALE {
        return false;
    }
    if bytes.len() <= digits {
        return false;
    }
    if scale == 0 {
        return is_whole(bytes, MOST_DIGITS);
    }
    match cut(bytes, bytes.len() - 1 - digits, b'.') {
        Some((whole, fraction)) => {
            is_whole(whole, MOST_DIGITS - digits) && number_of(fraction).is_some()
        }
        None => false,
    }
}

// Whether bytes are a whole number of at most so many digits.
fn is_whole(bytes: &[u8], most: usize) -> bool
    requires some { 0 < most }
    requires most { most ≤ MOST_DIGITS }
    ensures whole { IsTrue result ↔ IsWhole most bytes.now }
{
    if bytes.is_empty() {
        return false;
    }
    if bytes.len() > most {
        return false;
    }
    if bytes[0] == b'0' {
        return bytes.len() == 1;
    }
    are_digits(bytes)
}

// Whether bytes are zero at this scale.
fn is_zero(scale: u8, bytes: &[u8]) -> bool
    ensures zero { IsTrue result ↔ (bytes.now ≡ decimal_text scale 0 0) }
{
    match after_byte(bytes, b'0') {
        Some(rest) => are_point_and_zeros(scale, rest),
        None => false,
    }
}

// Whether bytes are a point and so many zeros, and nothing where there are none.
fn are_point_and_zeros(scale: u8, bytes: &[u8]) -> bool
    ensures zeros { IsTrue result ↔ (bytes.now ≡ point_and_digits scale 0) }
{
    if scale == 0 || bytes.is_empty() {
        return scale == 0 && bytes.is_empty();
    }
    bytes[0] == b'.' && are_zeros(&bytes[1..], scale as usize)
}

// Whether bytes are so many zeros.
fn are_zeros(bytes: &[u8], count: usize) -> bool
    ensures zeros { IsTrue result ↔ (bytes.now ≡ in_digits count 0) }
{
    bytes.len() == count && are_all_zero(bytes)
}

// Whether each byte is `0`.
fn are_all_zero(bytes: &[u8]) -> bool
    ensures zeros { result ≡ list_all (λ b. b == 48) bytes.now }
{
    bytes.iter().all(|b| *b == b'0')
}
