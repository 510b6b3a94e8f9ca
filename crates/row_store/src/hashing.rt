ghost use Rattle.std.specs.Prelude.{◌≡◌, length, nat_eq};
ghost use Rattle.std.specs.Cmp.Lexicographic.{pointwise};
ghost use Rattle.std.specs.Cmp.Rules.{comparing, hashing};
ghost use Rattle.std.proofs.Common.{rules};
ghost use Rattle.row_store.specs.Packing.{packed, value_input};

use std::hash::{BuildHasher, DefaultHasher, Hash, Hasher, RandomState};
use std::random::RandomSource;

/// How values are hashed. It decides how long a search takes, and nothing else.
#[derive(Clone, Copy, Debug)]
pub enum Hashing {
    /// By a key of the system's, which no file can foresee.
    Random(RandomState),
    /// By the key 0, where the system has none.
    Fixed,
}

impl Hashing {
    /// By a key of the system's, where it has one.
    pub fn new<R: RandomSource>(source: &R) -> Hashing {
        match RandomState::new(source) {
            Ok(state) => Hashing::Random(state),
            Err(_) => Hashing::Fixed,
        }
    }
}

impl BuildHasher for Hashing {
    ghost use Rattle.row_store.specs.Hashers.{hasher_of};

    type Hasher = DefaultHasher;

    ghost build_hasher = { hasher_of };

    fn build_hasher(&self) -> DefaultHasher {
        match self {
            Hashing::Random(state) => state.build_hasher(),
            Hashing::Fixed => DefaultHasher::new(),
        }
    }
}

/// A value that is lent. All its bytes are hashed at once, where those of a slice are hashed one by
/// one; and up to seven bytes as one number, since the hasher takes whole words much faster.
#[derive(Clone, Copy, Debug)]
pub struct LentValue<'a> {
    pub bytes: &'a [u8],
}

impl<'a> PartialEq for LentValue<'a> {
    ghost eq = { λ x y. pointwise nat_eq x.bytes.now y.bytes.now };

    ghost laws = { Prim.search (comparing, rules) };

    fn eq(&self, other: &LentValue<'a>) -> bool {
        self.bytes == other.bytes
    }
}

impl<'a> Eq for LentValue<'a> {
    ghost laws = { Prim.search (comparing, rules) };
}

impl<'a> Hash for LentValue<'a> {
    ghost hash_input = { λ x. value_input x.bytes.now };

    ghost respects_eq = { Prim.search (hashing, rules) };

    fn hash<H: Hasher>(&self, state: &mut H) {
        if self.bytes.len() < 8 {
            state.write_u64(packed(self.bytes));
        } else {
            state.write(self.bytes);
        }
    }
}

// Up to seven bytes as one number, behind how many they are.
fn packed(bytes: &[u8]) -> u64
    ensures packed { result ≡ packed (length bytes.now) bytes.now }
{
    let mut sum = bytes.len() as u64;
    for byte in bytes {
        sum = sum.wrapping_mul(256).wrapping_add(*byte as u64);
    }
    sum
}
