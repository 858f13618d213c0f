//! How a replay ends, and the exit status of each end.
ghost use Rattle.std.specs.Prelude.{◌≡◌};
ghost use Rattle.lru_replay.specs.Replay.{status_of};

use thiserror::Error;

/// How a replay ends if it does not fail.
///
/// ```
/// assert_eq!(rt; status(&Ok(ReplayEnd::NoLimiter)), 1);
/// ```
#[derive(Clone, Copy, Debug, PartialEq, Eq)]
pub enum ReplayEnd {
    /// All lines were carried out.
    Done,
    /// The first line names no limiter, or there is no line.
    NoLimiter,
}

/// Why a replay fails.
///
/// ```
/// let (read, write) = (ReplayError::Read, ReplayError::Write);
/// let text = format!(in alloc; "{read}, {write}")?;
/// assert_eq!(rt; text.as_str(), "read failed, write failed");
/// assert_eq!(rt; (read as u8, write as u8), (1, 2));
/// ```
#[derive(Clone, Copy, Debug, PartialEq, Eq, Error)]
pub enum ReplayError {
    /// A read failed, a line did not end within `u64::MAX` reads, or the input did not end within `u64::MAX` lines.
    #[error("read failed")]
    Read = 1,
    /// A write or the flush failed. A write that accepts no byte counts as failed.
    #[error("write failed")]
    Write = 2,
}

/// Returns the exit status: 0 if the lines were carried out, 1 if the first line names no limiter, and 2 if a read, a
/// write or the flush failed.
///
/// ```
/// assert_eq!(rt; status(&Ok(ReplayEnd::NoLimiter)), 1);
/// ```
pub fn status(end: &Result<ReplayEnd, ReplayError>) -> u8
    ensures { result ≡ status_of end.now }
{
    match end {
        Ok(ReplayEnd::Done) => 0,
        Ok(ReplayEnd::NoLimiter) => 1,
        Err(_) => 2,
    }
}
