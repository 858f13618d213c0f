//! Limiters that accept each entry unchanged, or reject it.
ghost use Rattle.std.specs.Prelude.{◌≡◌};
ghost use Rattle.lru_limits.specs.Admissions.{Terms, offers_of, offers_of-lawful};

use crate::keys::LookupKey;
use crate::limiter::{Insertion, Limiter};
use std::alloc::{AllocError, Global};
use std::hash::Hash;

/// Accepts or rejects entries, and changes no accepted entry.
///
/// Every `Admission` is an [`Insertion`], and can be part of [`crate::Both`]. If the `Admission` is `Copy`, its map has
/// `try_insert`. `never_changes` of `specs/Admissions.antt` defines the terms of a limiter that never changes.
///
/// ```
/// let mut limiter = ByLength::new(0);
/// assert!(rt; !limiter.accepts(0, &1u64, &2u64) && !limiter.admit(0, &1u64, &2u64));
/// assert!(rt; limiter.accepts_in_place(1, &1u64, &2u64, &3u64));
/// ```
pub trait Admission<K, V>: Limiter<K, V> {
    /// Defines which entries the limiter accepts, and how an offer changes the limiter.
    ghost terms: { Terms K V Self };

    /// Returns whether `admit` would accept this entry.
    fn accepts(&self, length: usize, key: &K, value: &V) -> bool
        ensures { result ≡ terms.accepts self.now length key.now value.now };

    /// Returns whether the entry is accepted. Called by an insert with a new key and its value, before the insert
    /// evicts anything. The map has `length` entries. If the entry is rejected, they do not change. `try_insert` also
    /// calls `admit` on copies of the limiter.
    fn admit(&mut self, length: usize, key: &K, value: &V) -> bool
        ensures answer { result ≡ terms.accepts self.old length key.now value.now }
        ensures limiter { self.new ≡ terms.admit self.old length key.now value.now };

    /// Returns whether `admit_in_place` would accept this value.
    fn accepts_in_place(&self, length: usize, key: &K, old_value: &V, new_value: &V) -> bool
        ensures { result ≡ terms.accepts_in_place self.now length key.now old_value.now new_value.now };

    /// Returns whether the new value is accepted. Called by an insert or an update before `new_value` replaces
    /// `old_value` of a stored key. The map has `length` entries. If the value is rejected, the map removes the entry.
    fn admit_in_place(&mut self, length: usize, key: &K, old_value: &V, new_value: &V) -> bool
        ensures answer { result ≡ terms.accepts_in_place self.old length key.now old_value.now new_value.now }
        ensures limiter { self.new ≡ terms.admit_in_place self.old length key.now old_value.now new_value.now };
}

impl<K: Eq + Hash + Drop, V: Drop, L: Admission<K, V>> Insertion<K, V, K> for L {
    ghost offers = { offers_of L.terms };

    // Forced inline: the caller then uses the entry unchanged, and branches instead of selecting between `Some` and
    // `None`.
    #[inline(always)]
    fn on_insert(
        &mut self,
        _alloc: Global,
        length: usize,
        key: K,
        value: V,
    ) -> Result<Option<(K, V)>, AllocError> {
        if self.admit(length, &key, &value) {
            Ok(Some((key, value)))
        } else {
            Ok(None)
        }
    }

    #[inline]
    fn on_replace(
        &mut self,
        length: usize,
        old_key: &mut K,
        _new_key: K,
        old_value: &mut V,
        new_value: &mut V,
    ) -> bool {
        self.admit_in_place(length, &*old_key, &*old_value, &*new_value)
    }

    ghost laws = { offers_of-lawful L.terms K.eq K.Eq.laws };
}
