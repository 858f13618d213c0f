ghost use Rattle.std.specs.Prelude.{◌≡◌};
ghost use Rattle.lru_trace.specs.Outcome.{status_of};

use crate::byte_curve::SizeError;
use std::alloc::AllocError;
use thiserror::Error;

/// How a trace ends if nothing fails.
#[derive(Clone, Copy, Debug, PartialEq, Eq)]
pub enum TraceEnd {
    /// The report was written.
    Done,
    /// The input is empty, or its first line names no sizes. Nothing was written.
    NoSizes,
}

/// Why a trace stops early.
#[derive(Clone, Copy, Debug, PartialEq, Eq, Error)]
pub enum TraceError {
    /// A read failed.
    #[error("read failed")]
    Read = 1,
    /// A write or the flush failed.
    #[error("write failed")]
    Write = 2,
    /// Memory ran out, or there are more than 2 ^ 32 - 1 keys.
    #[error("out of memory")]
    Memory = 3,
    /// The sizes of all keys sum to 2 ^ 64 or more.
    #[error("the sizes of the keys are too large")]
    TooLarge = 5,
}

impl From<AllocError> for TraceError {
    ghost use Rattle.lru_trace.specs.declared.outcome.TraceError.TheVariants.{Memory};

    ghost from_gives = { λ _ e. e ≡ Memory };

    fn from(_: AllocError) -> Self {
        TraceError::Memory
    }
}

impl From<SizeError> for TraceError {
    ghost use Rattle.lru_trace.specs.Outcome.{error_of};

    ghost from_gives = { λ error e. e ≡ error_of error };

    fn from(error: SizeError) -> Self {
        match error {
            SizeError::Memory => TraceError::Memory,
            SizeError::TooLarge => TraceError::TooLarge,
        }
    }
}

/// Returns the exit status: 0 if the report was written, 1 if the first line names no sizes, 2 if reading or writing
/// failed, 3 if memory ran out, and 5 after `TooLarge`.
pub fn status(end: &Result<TraceEnd, TraceError>) -> u8
    ensures { result ≡ status_of end.now }
{
    match end {
        Ok(TraceEnd::Done) => 0,
        Ok(TraceEnd::NoSizes) => 1,
        Err(TraceError::Read | TraceError::Write) => 2,
        Err(TraceError::Memory) => 3,
        Err(TraceError::TooLarge) => 5,
    }
}
