//! The types that the calls of a map return.

use std::fmt::Display;
use thiserror::Error;

/// What an insert into a map did, with the value that the map does not keep.
///
/// - If the key was new, `unkept` is `None`. `kept` is false if the limiter rejected the new entry, if the map could
///   not store it, or if the map stored and then evicted it.
///
/// - If the limiter accepted a new value for a key of the map, `unkept` is the old value. `kept` is false if the entry
///   was then evicted, because the limiter was still over its limit.
///
/// - If the limiter rejected a new value for a key of the map, the entry was removed. `unkept` is the new value, and
///   `kept` is false.
///
/// If `kept` is false and `unkept` is `Some`, the callback got the entry of the key.
///
/// ```
/// let inserted = map.insert_full(1, 11, &mut |_, _| {})?;
/// assert_eq!(rt; (inserted.kept, inserted.unkept), (true, Some(10)));
/// ```
#[derive(Clone, Copy, Debug, Drop, PartialEq, Eq)]
pub struct Inserted<V> {
    /// Whether the key is in the map after the insert.
    pub kept: bool,
    /// The value that the map does not keep, or `None` if the key was new.
    pub unkept: Option<V>,
}

/// What an update did. Each variant contains a value that is not in the map afterwards.
///
/// ```
/// assert_eq!(rt; map.update(1, 11), Updated::Replaced(10));
/// ```
#[derive(Clone, Copy, Debug, Drop, PartialEq, Eq)]
pub enum Updated<V> {
    /// The old value, because the limiter accepted the new value. The entry may have been evicted afterwards, if the
    /// limiter was over its limit.
    Replaced(V),
    /// The new value, because the limiter rejected it. The entry was removed.
    Rejected(V),
    /// The new value, because the key is not in the map.
    Absent(V),
}

/// Why `try_reserve` fails.
///
/// ```
/// let mut map: LruMap<u64, u64, Unlimited> = LruMap::new(alloc, Unlimited, [1, 2, 3, 4], 32);
/// assert_eq!(rt; map.try_reserve(usize::MAX), Err(ReserveError::TooLarge));
/// assert_eq!(rt; map.try_reserve(1 << 50), Err(ReserveError::Memory));
/// let mut map: LruMap<u32, u32, ByMemoryUsage> = LruMap::with_memory_budget(alloc, 84, [1, 2, 3, 4], 16);
/// assert_eq!(rt; map.try_reserve(4), Err(ReserveError::Refused));
/// ```
#[derive(Clone, Copy, Debug, PartialEq, Eq, Error)]
pub enum ReserveError {
    /// No table can hold the old entries and the reserved entries together, or the sum of their numbers overflows.
    #[error("too large")]
    TooLarge = 1,
    /// The limiter refused the larger table.
    #[error("the limiter refused the larger table")]
    Refused = 2,
    /// Out of memory.
    #[error("out of memory")]
    Memory = 3,
}

/// Why `ensure_newest_fallible` or `get_or_insert_fallible` fails.
///
/// ```
/// let answer = map.ensure_newest_fallible(4, || Err(7u8));
/// assert_eq!(rt; answer, Err(GetOrInsertError::Caller(7)));
/// ```
#[derive(Debug, Drop, PartialEq, Eq, Error)]
#[error_bound(E: Display)]
pub enum GetOrInsertError<E> {
    /// Out of memory.
    #[error("out of memory")]
    Memory,
    /// The closure failed.
    #[error("the closure failed: {0}")]
    Caller(E),
}

/// The numbers of entries that inserts moved, that inserts stored, and that shrinks rehashed.
///
/// ```
/// let mut map: LruMap<u64, u64> = LruMap::with_limiter(alloc, ByLength::new(3));
/// assert!(rt; map.insert(1, 10)?);
/// assert_eq!(rt; map.move_report(), MoveReport { moved: 0, placed: 1, shrunk: 0 });
/// ```
#[derive(Clone, Copy, Debug, PartialEq, Eq)]
pub struct MoveReport {
    /// Entries that inserts moved, because the table grew or was rehashed. Moves by `try_reserve` and `try_insert` are
    /// not counted.
    pub moved: u64,
    /// New entries that inserts stored, including `try_insert`.
    pub placed: u64,
    /// Entries that `shrink_to_fit` rehashed.
    pub shrunk: u64,
}
