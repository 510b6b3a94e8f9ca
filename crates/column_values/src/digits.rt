//! Numbers in a fixed count of decimal digits, and the parts of a text between separators.

ghost use Rattle.std.specs.Prelude.{◌≡◌, ℕ, ◌^◌, ◌<◌, ◌≤◌, List, ◌∷◌, ◌++◌, length, IfSome, IfNone, OnOk};
ghost use Rattle.std.specs.Char.{is_ascii_digit};
ghost use Rattle.std.specs.List.{list_all};
ghost use Rattle.column_values.specs.Digits.{in_digits, three_in_digits};

use dep_model::OutOfMemory;

// The most digits of a number that is read.
pub const MOST_DIGITS: usize = 15;

// The number that these digits write.
pub fn number_of(digits: &[u8]) -> Option<u64>
    requires few { length digits.now ≤ MOST_DIGITS }
    ensures fits { IfSome result (λ number. number < 10 ^ length digits.now) }
    ensures text { IfSome result (λ number. digits.now ≡ in_digits (length digits.now) number) }
    ensures none { IfNone result
        ((number : ℕ) → digits.now ≡ in_digits (length digits.now) number → ⊥) }
{
    let mut number = 0;
    for b in digits {
        if !b.is_ascii_digit() {
            return None;
        }
        number = number * 10 + (*b - b'0') as u64;
    }
    Some(number)
}

// The number in so many digits before a separator, and what follows the separator.
pub fn number_before(bytes: &[u8], count: usize, separator: u8) -> Option<(u64, &[u8])>
    requires few { count ≤ MOST_DIGITS }
    ensures fits { IfSome result (λ found. found.0 < 10 ^ count) }
    ensures text { IfSome result
        (λ found. bytes.now ≡ in_digits count found.0 ++ separator ∷ found.1.now) }
    ensures none { IfNone result
        ((number : ℕ) (rest : List ℕ) → bytes.now ≡ in_digits count number ++ separator ∷ rest → ⊥) }
{
    let Some((digits, rest)) = cut(bytes, count, separator) else {
        return None;
    };
    match number_of(digits) {
        Some(number) => Some((number, rest)),
        None => None,
    }
}

// Three numbers in so many digits, in two and in two, with a separator between.
pub fn three_numbers(bytes: &[u8], count: usize, separator: u8) -> Option<(u64, u64, u64)>
    requires few { count ≤ MOST_DIGITS }
    ensures first { IfSome result (λ numbers. numbers.0 < 10 ^ count) }
    ensures second { IfSome result (λ numbers. numbers.1 < 100) }
    ensures third { IfSome result (λ numbers. numbers.2 < 100) }
    ensures text { IfSome result
        (λ numbers. bytes.now ≡ three_in_digits separator count numbers.0 numbers.1 numbers.2) }
    ensures none { IfNone result
        ((x y z : ℕ) → bytes.now ≡ three_in_digits separator count x y z → ⊥) }
{
    let Some((first, rest)) = number_before(bytes, count, separator) else {
        return None;
    };
    let Some((second, digits)) = number_before(rest, 2, separator) else {
        return None;
    };
    if digits.len() != 2 {
        return None;
    }
    match number_of(digits) {
        Some(third) => Some((first, second, third)),
        None => None,
    }
}

// Whether all bytes are digits.
pub fn are_digits(bytes: &[u8]) -> bool
    ensures digits { result ≡ list_all is_ascii_digit bytes.now }
{
    bytes.iter().all(|b| b.is_ascii_digit())
}

// The first so many bytes and what follows the separator that stands after them.
pub fn cut(bytes: &[u8], count: usize, separator: u8) -> Option<(&[u8], &[u8])>
    ensures parts { IfSome result
        (λ parts. bytes.now ≡ parts.0.now ++ separator ∷ parts.1.now) }
    ensures counted { IfSome result (λ parts. length parts.0.now ≡ count) }
    ensures none { IfNone result
        ((front rest : List ℕ) → length front ≡ count → bytes.now ≡ front ++ separator ∷ rest → ⊥) }
{
    if count >= bytes.len() || bytes[count] != separator {
        return None;
    }
    Some((&bytes[..count], &bytes[count + 1..]))
}

// What follows this byte, where it is the first.
pub fn after_byte(bytes: &[u8], byte: u8) -> Option<&[u8]>
    ensures rest { IfSome result (λ rest. bytes.now ≡ byte ∷ rest.now) }
    ensures none { IfNone result ((rest : List ℕ) → bytes.now ≡ byte ∷ rest → ⊥) }
{
    if bytes.is_empty() || bytes[0] != byte {
        return None;
    }
    Some(&bytes[1..])
}

// Adds the last so many digits of a number at the end.
pub fn add_in_digits(bytes: &mut Vec<u8>, count: u8, number: u32) -> Result<(), OutOfMemory>
    ensures added { OnOk result (bytes.new.items ≡ bytes.old.items ++ in_digits count number) }
{
    if count == 0 {
        return Ok(());
    }
    add_in_digits(bytes, count - 1, number / 10)?;
    bytes.push(b'0' + (number % 10) as u8)?;
    Ok(())
}
