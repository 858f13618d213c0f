ghost use Rattle.std.specs.Prelude.{◌≡◌};
ghost use Rattle.lru_limits.specs.Limiters.{length_rules, length_terms};

use crate::admission::Admission;
use crate::limiter::Limiter;
use std::marker::Model;

/// Limits the number of entries. Contracts represent the limiter by its limit.
///
/// A map under `ByLength` has at most `max_length` entries after each call. After the limit was lowered through
/// `limiter_mut`, the map may have more entries until the next `trim`, or until `ByLength` accepts an insert or an
/// update. `ByLength` rejects an entry only if `max_length` is 0.
///
/// ```
/// let limiter = ByLength::new(3);
/// assert!(rt; !Limiter::<u64, u64>::is_over_the_limit(&limiter, 3));
/// assert!(rt; Limiter::<u64, u64>::is_over_the_limit(&limiter, 4));
/// ```
///
/// Cost: `O(1)` for each callback, and no memory.
#[derive(Clone, Copy, Debug)]
#[repr(transparent)]
pub struct ByLength {
    max_length: u32,
}

impl Model for ByLength {
    ghost use Rattle.std.specs.Prelude.{ℕ};

    ghost Value = { ℕ };

    ghost view = { λ l. l.max_length };

    ghost inverse = { λ n. record { max_length = n } };
}

impl ByLength {
    /// Makes a limiter with a limit of `max_length` entries.
    ///
    /// ```
    /// let limiter = ByLength::new(3);
    /// ```
    pub const fn new(max_length: u32) -> ByLength
        ensures { result ≡ max_length }
    {
        ByLength { max_length }
    }

    /// Returns the limit.
    ///
    /// ```
    /// let limiter = ByLength::new(3);
    /// assert_eq!(rt; limiter.max_length(), 3);
    /// ```
    pub const fn max_length(&self) -> u32
        ensures { result ≡ self.now }
    {
        self.max_length
    }
}

impl From<u32> for ByLength {
    ghost from_gives = { λ n limiter. limiter ≡ n };

    fn from(max_length: u32) -> ByLength {
        ByLength::new(max_length)
    }
}

impl<K, V> Limiter<K, V> for ByLength {
    type LinkType = u32;

    ghost rules = { length_rules };

    #[inline]
    fn is_over_the_limit(&self, length: usize) -> bool {
        length > self.max_length as usize
    }

    #[inline]
    fn on_removed(&mut self, _key: &mut K, _value: &mut V) {}

    #[inline]
    fn on_cleared(&mut self) {}

    #[inline]
    fn on_grow(&mut self, _new_memory_usage: usize) -> bool {
        true
    }
}

impl<K, V> Admission<K, V> for ByLength {
    ghost terms = { length_terms };

    #[inline]
    fn accepts(&self, _length: usize, _key: &K, _value: &V) -> bool {
        self.max_length > 0
    }

    #[inline]
    fn admit(&mut self, _length: usize, _key: &K, _value: &V) -> bool {
        self.max_length > 0
    }

    #[inline]
    fn accepts_in_place(&self, _length: usize, _key: &K, _old_value: &V, _new_value: &V) -> bool {
        true
    }

    #[inline]
    fn admit_in_place(&mut self, _length: usize, _key: &K, _old_value: &V, _new_value: &V) -> bool {
        true
    }
}
