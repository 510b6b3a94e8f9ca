ghost use Rattle.std.specs.Prelude.{◌≡◌};
ghost use Rattle.dep_model.specs.declared.failure.Failure.TheVariants.{OutOfMemory};

use crate::OutOfMemory;
use std::alloc::{AllocError, AllocFailed};

/// Why a call gives no value: it refuses what it was given, or memory ran out.
#[derive(Clone, Copy, Debug, PartialEq, Eq, Hash, Drop)]
pub enum Failure<R> {
    Refused(R),
    OutOfMemory,
}

impl<R> From<OutOfMemory> for Failure<R> {
    ghost from_gives = { λ _ e. e ≡ OutOfMemory };

    fn from(_error: OutOfMemory) -> Self {
        Failure::OutOfMemory
    }
}

impl<R> From<AllocError> for Failure<R> {
    ghost from_gives = { λ _ e. e ≡ OutOfMemory };

    fn from(_error: AllocError) -> Self {
        Failure::OutOfMemory
    }
}

impl<R, T: Drop> From<AllocFailed<T>> for Failure<R> {
    ghost from_gives = { λ _ e. e ≡ OutOfMemory };

    fn from(_error: AllocFailed<T>) -> Self {
        Failure::OutOfMemory
    }
}
