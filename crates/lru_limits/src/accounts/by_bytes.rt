ghost use Rattle.std.specs.Prelude.{◌≡◌, ◌+◌, Some, None, if◌then◌else◌};
ghost use Rattle.lru_limits.specs.Budget.{can_add};
ghost use Rattle.lru_limits.specs.Bytes.{both_own, left_for_entries, by_bytes, bytes_terms, bytes-sums};

use crate::accounts::{OwnedBytes, Summing, sum_with};
use crate::admission::Admission;
use crate::limiter::Limiter;
use std::marker::Model;

/// Limits the bytes of the table plus the bytes that the entries own. Contracts represent the limiter by its limit, the
/// bytes of the table, and the owned bytes.
///
/// `ByBytes` permits a table if the bytes of the table plus the owned bytes are within the limit. Let n be the limit
/// minus the bytes of the table, but at least 0. `ByBytes` rejects an entry or a new value if the entry alone owns more
/// than n bytes, or if the owned bytes would pass `u64::MAX`. Under the premises of `calls_keep_the_bytes` of
/// `lru_model`, the table plus the owned bytes are within the limit after each call of the map. While the table grows,
/// the old table also exists, but is not counted.
///
/// `shrink_to_fit` does not notify the limiter. To make the limiter count the smaller table, call
/// `map.set_limiter(map.limiter().with_table(map.memory_usage() as u64))`.
///
/// ```
/// let mut limiter = ByBytes::new(200);
/// assert!(rt; Limiter::<u64, Vec<u8>>::on_grow(&mut limiter, 152));
/// let block: Vec<u8> = Vec::with_capacity(alloc, 17)?;
/// assert!(rt; limiter.admit(0, &1u64, &block));
/// assert!(rt; !Limiter::<u64, Vec<u8>>::on_grow(&mut limiter, 153));
/// assert_eq!(rt; (limiter.owned(), limiter.table()), (48, 152));
/// ```
///
/// Cost: each callback reads the owned bytes of its keys and values at most twice, and takes no memory.
#[derive(Clone, Copy, Debug)]
pub struct ByBytes {
    limit: u64,
    owned: u64,
    table: u64,
}

impl Model for ByBytes {
    ghost use Rattle.lru_limits.specs.Bytes.{Bytes};

    ghost Value = { Bytes };

    ghost view = { λ b. record { limit = b.limit; owned = b.owned; table = b.table } };

    ghost inverse = { λ b. record { limit = b.limit; owned = b.owned; table = b.table } };
}

impl ByBytes {
    /// Makes a limiter for an empty map without a table.
    ///
    /// ```
    /// let mut limiter = ByBytes::new(200);
    /// ```
    pub const fn new(limit: u64) -> ByBytes
        ensures { result ≡ record { limit = limit; owned = 0; table = 0 } }
    {
        ByBytes {
            limit,
            owned: 0,
            table: 0,
        }
    }

    /// Returns the same limiter with another limit.
    ///
    /// ```
    /// assert_eq!(rt; limiter.with_limit(300).limit(), 300);
    /// ```
    pub const fn with_limit(&self, limit: u64) -> ByBytes
        ensures { result ≡ record self.now { limit = limit } }
    {
        ByBytes {
            limit,
            owned: self.owned,
            table: self.table,
        }
    }

    /// Returns the same limiter with another number of bytes for the table.
    ///
    /// ```
    /// assert_eq!(rt; limiter.with_table(0).table(), 0);
    /// ```
    pub const fn with_table(&self, table: u64) -> ByBytes
        ensures { result ≡ record self.now { table = table } }
    {
        ByBytes {
            limit: self.limit,
            owned: self.owned,
            table,
        }
    }

    /// Returns the limit.
    ///
    /// ```
    /// assert_eq!(rt; limiter.limit(), 200);
    /// ```
    pub const fn limit(&self) -> u64
        ensures { result ≡ self.now.limit }
    {
        self.limit
    }

    /// Returns the bytes that the entries own.
    ///
    /// ```
    /// assert_eq!(rt; limiter.owned(), 48);
    /// ```
    pub const fn owned(&self) -> u64
        ensures { result ≡ self.now.owned }
    {
        self.owned
    }

    /// Returns the bytes of the last table that the limiter permitted.
    ///
    /// ```
    /// assert_eq!(rt; limiter.table(), 152);
    /// ```
    pub const fn table(&self) -> u64
        ensures { result ≡ self.now.table }
    {
        self.table
    }

    #[inline]
    const fn left(&self) -> u64
        ensures { result ≡ left_for_entries self.now }
    {
        self.limit.saturating_sub(self.table)
    }
}

#[inline]
fn bytes_of_pair<K: OwnedBytes, V: OwnedBytes>(key: &K, value: &V) -> u64
    ensures { result ≡ both_own K.owned V.owned key.now value.now }
{
    key.owned_bytes().saturating_add(value.owned_bytes())
}

impl<K: OwnedBytes, V: OwnedBytes> Limiter<K, V> for ByBytes {
    type LinkType = u32;

    ghost rules = { by_bytes (both_own K.owned V.owned) };

    #[inline]
    fn is_over_the_limit(&self, _length: usize) -> bool {
        self.owned > self.left()
    }

    #[inline]
    fn on_removed(&mut self, key: &mut K, value: &mut V) {
        self.owned = self.owned.saturating_sub(bytes_of_pair(&*key, &*value));
    }

    #[inline]
    fn on_cleared(&mut self) {
        self.owned = 0;
    }

    #[inline]
    fn on_grow(&mut self, new_memory_usage: usize) -> bool {
        let bytes = new_memory_usage as u64;
        let fits = self.owned <= self.limit && bytes <= self.limit - self.owned;
        if fits {
            self.table = bytes;
        }
        fits
    }
}

impl<K: OwnedBytes, V: OwnedBytes> Summing<K, V> for ByBytes {
    ghost cost_of = { both_own K.owned V.owned };

    ghost account = { λ b. b.owned };

    #[inline]
    fn cost_of(key: &K, value: &V) -> u64 {
        bytes_of_pair(key, value)
    }

    #[inline]
    fn account(&self) -> u64 {
        self.owned
    }

    ghost laws = { bytes-sums (both_own K.owned V.owned) };
}

impl<K: OwnedBytes, V: OwnedBytes> Admission<K, V> for ByBytes {
    ghost terms = { bytes_terms (both_own K.owned V.owned) };

    #[inline]
    fn accepts(&self, _length: usize, key: &K, value: &V) -> bool {
        sum_with(self.left(), self.owned, bytes_of_pair(key, value)).is_some()
    }

    #[inline]
    fn admit(&mut self, _length: usize, key: &K, value: &V) -> bool {
        match sum_with(self.left(), self.owned, bytes_of_pair(key, value)) {
            Some(sum) => {
                self.owned = sum;
                true
            }
            None => false,
        }
    }

    #[inline]
    fn accepts_in_place(&self, _length: usize, key: &K, old_value: &V, new_value: &V) -> bool {
        let others = self.owned.saturating_sub(bytes_of_pair(key, old_value));
        sum_with(self.left(), others, bytes_of_pair(key, new_value)).is_some()
    }

    #[inline]
    fn admit_in_place(&mut self, _length: usize, key: &K, old_value: &V, new_value: &V) -> bool {
        let others = self.owned.saturating_sub(bytes_of_pair(key, old_value));
        match sum_with(self.left(), others, bytes_of_pair(key, new_value)) {
            Some(sum) => {
                self.owned = sum;
                true
            }
            None => false,
        }
    }
}
