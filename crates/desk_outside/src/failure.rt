ghost use Rattle.std.specs.Prelude.{◌≡◌, ⊤};
ghost use Rattle.desk_outside.specs.declared.failure.OutsideFault.TheVariants as of_outside;
ghost use Rattle.desk_outside.specs.declared.failure.LoadRefusal.TheVariants.{CannotRead, OutOfMemory};
ghost use Rattle.desk_outside.specs.Causes.{refusal_of};

use dep_model::OutOfMemory;
use std::alloc::AllocError;
use thiserror::Error;

/// A call of the outside failed.
#[derive(Clone, Copy, Debug, PartialEq, Eq, Error)]
#[error("a call failed")]
pub struct Failed;

/// Why a call of the outside that may run out of memory did not succeed.
#[derive(Clone, Copy, Debug, PartialEq, Eq, Error)]
pub enum OutsideFault {
    /// It failed.
    #[error("a call failed")]
    Failed,
    /// It could not take the memory that it needed.
    #[error("out of memory")]
    OutOfMemory,
}

impl From<AllocError> for OutsideFault {
    ghost from_gives = { λ _ fault. fault ≡ of_outside.OutOfMemory };

    fn from(_error: AllocError) -> Self {
        OutsideFault::OutOfMemory
    }
}

impl From<OutOfMemory> for OutsideFault {
    ghost from_gives = { λ _ fault. fault ≡ of_outside.OutOfMemory };

    fn from(_error: OutOfMemory) -> Self {
        OutsideFault::OutOfMemory
    }
}

/// Why a file was not loaded.
#[derive(Clone, Copy, Debug, PartialEq, Eq, Error)]
pub enum LoadRefusal {
    /// A call failed, or there is no file of that name.
    #[error("the file cannot be read")]
    CannotRead,
    /// The file has more bytes than the limit.
    #[error("the file is too long")]
    TooLong,
    /// There was no memory for its bytes.
    #[error("out of memory")]
    OutOfMemory,
}

impl From<OutsideFault> for LoadRefusal {
    ghost from_gives = { λ fault refusal. refusal ≡ refusal_of fault };

    fn from(fault: OutsideFault) -> Self {
        match fault {
            OutsideFault::Failed => LoadRefusal::CannotRead,
            OutsideFault::OutOfMemory => LoadRefusal::OutOfMemory,
        }
    }
}

impl From<Failed> for LoadRefusal {
    ghost from_gives = { λ _ refusal. refusal ≡ CannotRead };

    fn from(_failed: Failed) -> Self {
        LoadRefusal::CannotRead
    }
}

impl From<AllocError> for LoadRefusal {
    ghost from_gives = { λ _ refusal. refusal ≡ OutOfMemory };

    fn from(_error: AllocError) -> Self {
        LoadRefusal::OutOfMemory
    }
}

/// A text was not written to its end.
#[derive(Clone, Copy, Debug, PartialEq, Eq, Error)]
#[error("the text cannot be written")]
pub struct CannotWrite;

impl From<Failed> for CannotWrite {
    ghost from_gives = { λ _ _. ⊤ };

    fn from(_failed: Failed) -> Self {
        CannotWrite
    }
}
