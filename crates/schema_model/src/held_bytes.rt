ghost use Rattle.std.specs.Prelude.{◌≡◌, ℕ, ◌-◌, ◌≤◌, ◌++◌, List, length, take, drop, replicate};
ghost use Rattle.schema_model.specs.HeldBytes.{AreHeldBytes, padded_is, front_length};
ghost use Rattle.schema_model.specs.declared.held_bytes.TheConstants.{MOST_HELD_BYTES};

use std::marker::Model;

/// The most bytes that are held.
pub const MOST_HELD_BYTES: usize = 63;

/// At most `MOST_HELD_BYTES` bytes, in no memory but their own.
#[derive(Clone, Copy, Debug, PartialEq, Eq, Hash)]
pub struct HeldBytes {
    bytes: [u8; MOST_HELD_BYTES],
    len: u8,
}

impl Model for HeldBytes {
    ghost Value = { List ℕ };

    ghost view = { λ n. take n.len n.bytes };

    // The unused bytes are zero, so the list determines the value.
    ghost invariant = { λ n. AreHeldBytes n.bytes n.len };

    ghost inverse = { λ bytes. record {
      bytes = bytes ++ replicate (MOST_HELD_BYTES - length bytes) 0;
      len = length bytes;
    } };

    ghost inverse_ok = { λ n held i. record {
      bytes = padded_is n.bytes n.len held i;
      len = front_length n.bytes n.len held i;
    } };
}

impl HeldBytes {
    /// Holds these bytes.
    pub fn new(bytes: &[u8]) -> HeldBytes
        requires within { length bytes.now ≤ MOST_HELD_BYTES }
        ensures value { result ≡ bytes.now }
    {
        HeldBytes {
            bytes: pad_with_zeros(bytes),
            len: bytes.len() as u8,
        }
    }

    /// The bytes.
    pub fn bytes(&self) -> &[u8]
        ensures value { result.now ≡ self.now }
        ensures within { length self.now ≤ MOST_HELD_BYTES }
    {
        &self.bytes[..self.len as usize]
    }
}

// The bytes, and zeros after them.
fn pad_with_zeros(bytes: &[u8]) -> [u8; MOST_HELD_BYTES]
    requires { length bytes.now ≤ MOST_HELD_BYTES }
    ensures padded { result ≡ bytes.now ++ replicate (MOST_HELD_BYTES - length bytes.now) 0 }
{
    let mut held = [0; MOST_HELD_BYTES];
    held[..bytes.len()].copy_from_slice(bytes);
    held
}
