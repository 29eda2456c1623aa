ghost use Rattle.std.specs.Prelude.{◌≡◌};
ghost use Rattle.trace_reader.specs.declared.refusal.ReadError.TheVariants.{NoMemory};

use crate::Reason;
use std::alloc::{AllocError, AllocFailed};

/// Why no trace was read.
#[derive(Clone, Copy, Drop)]
pub enum ReadError {
    /// Memory was refused.
    NoMemory,
    /// The first line that is refused, and why.
    Refused { line: u32, reason: Reason },
}

impl From<AllocError> for ReadError {
    ghost from_gives = { λ _ e. e ≡ NoMemory };

    fn from(_: AllocError) -> Self {
        ReadError::NoMemory
    }
}

impl<T: Drop> From<AllocFailed<T>> for ReadError {
    ghost from_gives = { λ _ e. e ≡ NoMemory };

    fn from(_: AllocFailed<T>) -> Self {
        ReadError::NoMemory
    }
}
