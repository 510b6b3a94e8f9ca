//! A pair of numbers as a key of a set.

ghost use Rattle.std.specs.Prelude.{◌≡◌, ◌+◌, ◌*◌, ◌^◌, ◌&&◌, ◌==◌};
ghost use Rattle.std.specs.Hash as fed;
ghost use Rattle.std.specs.Cmp.Rules.{comparing, hashing};
ghost use Rattle.std.proofs.Common.{rules};

use std::hash::{Hash, Hasher};
use std::marker::Model;

/// A pair of numbers. Both are hashed by one write of eight bytes, where a tuple of them is hashed byte by byte.
#[derive(Clone, Copy, Debug)]
pub struct HashedPair {
    pub numbers: (u32, u32),
}

impl Model for HashedPair {
    ghost use Rattle.std.specs.Prelude.{ℕ};

    ghost Value = { ℕ × ℕ };

    ghost view = { λ p. p.numbers };

    ghost inverse = { λ v. record { numbers = v } };
}

impl PartialEq for HashedPair {
    ghost eq = { λ x y. (x.0 == y.0) && (x.1 == y.1) };

    ghost laws = { Prim.search (comparing, rules) };

    fn eq(&self, other: &HashedPair) -> bool {
        self.numbers == other.numbers
    }
}

impl Eq for HashedPair {
    ghost laws = { Prim.search (comparing, rules) };
}

impl Hash for HashedPair {
    ghost hash_input = { λ x. fed.u64 (x.0 * 2 ^ 32 + x.1) };

    ghost respects_eq = { Prim.search (hashing, rules) };

    fn hash<H: Hasher>(&self, state: &mut H) {
        let (first, second) = self.numbers;
        state.write_u64(first as u64 * 0x1_0000_0000 + second as u64);
    }
}
