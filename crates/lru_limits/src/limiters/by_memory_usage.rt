ghost use Rattle.std.specs.Prelude.{◌≡◌};
ghost use Rattle.lru_limits.specs.Limiters.{memory_rules, all_terms};

use crate::admission::Admission;
use crate::limiter::Limiter;
use std::marker::Model;

/// Limits the bytes of the table. Contracts represent the limiter by its limit.
///
/// `ByMemoryUsage` permits a growth if and only if the new table is within the limit. If `ByMemoryUsage` refuses a
/// growth, an insert evicts the oldest entries. The limiter does not count the memory that keys and values own, or the
/// old table, which exists during a growth.
///
/// ```
/// let mut limiter = ByMemoryUsage::new(152);
/// assert!(rt; Limiter::<u64, u64>::on_grow(&mut limiter, 152));
/// assert!(rt; !Limiter::<u64, u64>::on_grow(&mut limiter, 153));
/// ```
///
/// Cost: `O(1)` for each callback, and no memory.
#[derive(Clone, Copy, Debug)]
#[repr(transparent)]
pub struct ByMemoryUsage {
    max_bytes: usize,
}

impl Model for ByMemoryUsage {
    ghost use Rattle.std.specs.Prelude.{ℕ};

    ghost Value = { ℕ };

    ghost view = { λ l. l.max_bytes };

    ghost inverse = { λ n. record { max_bytes = n } };
}

impl ByMemoryUsage {
    /// Makes a limiter that permits tables of at most `max_bytes` bytes.
    ///
    /// ```
    /// let mut limiter = ByMemoryUsage::new(152);
    /// ```
    pub const fn new(max_bytes: usize) -> ByMemoryUsage
        ensures { result ≡ max_bytes }
    {
        ByMemoryUsage { max_bytes }
    }

    /// Returns the limit.
    ///
    /// ```
    /// assert_eq!(rt; limiter.max_memory_usage(), 152);
    /// ```
    pub const fn max_memory_usage(&self) -> usize
        ensures { result ≡ self.now }
    {
        self.max_bytes
    }
}

impl From<usize> for ByMemoryUsage {
    ghost from_gives = { λ n limiter. limiter ≡ n };

    fn from(max_bytes: usize) -> ByMemoryUsage {
        ByMemoryUsage::new(max_bytes)
    }
}

impl<K, V> Limiter<K, V> for ByMemoryUsage {
    type LinkType = u32;

    ghost rules = { memory_rules };

    #[inline]
    fn is_over_the_limit(&self, _length: usize) -> bool {
        false
    }

    #[inline]
    fn on_removed(&mut self, _key: &mut K, _value: &mut V) {}

    #[inline]
    fn on_cleared(&mut self) {}

    #[inline]
    fn on_grow(&mut self, new_memory_usage: usize) -> bool {
        new_memory_usage <= self.max_bytes
    }
}

impl<K, V> Admission<K, V> for ByMemoryUsage {
    ghost terms = { all_terms };

    #[inline]
    fn accepts(&self, _length: usize, _key: &K, _value: &V) -> bool {
        true
    }

    #[inline]
    fn admit(&mut self, _length: usize, _key: &K, _value: &V) -> bool {
        true
    }

    #[inline]
    fn accepts_in_place(&self, _length: usize, _key: &K, _old_value: &V, _new_value: &V) -> bool {
        true
    }

    #[inline]
    fn admit_in_place(&mut self, _length: usize, _key: &K, _old_value: &V, _new_value: &V) -> bool {
        true
    }
}
