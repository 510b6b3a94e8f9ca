ghost use Rattle.std.specs.Prelude.{◌↔◌, IsTrue};
ghost use Rattle.schema_model.specs.Integers.{IsPositiveNumeral, IsIntegerText};

/// Whether the bytes are an integer text: `0`, or an optional `-` and then digits of which the first
/// is not `0`, of a value from -2^63 to 2^63 - 1. So equal numbers have equal texts.
pub fn is_integer_text(bytes: &[u8]) -> bool
    ensures integer { IsTrue result ↔ IsIntegerText bytes.now }
{
    match bytes {
        [b'0'] => true,
        [b'-', digits @ ..] => is_numeral(digits, 1 << 63),
        digits => is_numeral(digits, (1 << 63) - 1),
    }
}

// Whether the bytes are digits, the first of which is not `0`, of at most this value.
fn is_numeral(digits: &[u8], most: u64) -> bool
    ensures numeral { IsTrue result ↔ IsPositiveNumeral most digits.now }
{
    if digits.is_empty() || digits[0] == b'0' {
        return false;
    }
    let most = most as u128;
    let mut value = 0;
    for b in digits {
        if !b.is_ascii_digit() {
            return false;
        }
        value = value * 10 + (*b - b'0') as u128;
        if value > most {
            return false;
        }
    }
    true
}
