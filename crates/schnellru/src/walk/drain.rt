ghost use Rattle.std.specs.Prelude.{◌≡◌, length, Some, IfSome};
ghost use Rattle.std.specs.Iterator.{UpTo};
ghost use Rattle.std.specs.Iterator.SizeHint.{IsWithinCount};
ghost use Rattle.schnellru.specs.Drains.{drain_map, drain_lender};

use crate::map::LruMap;
use lru_limits::{KeyHasher, Limiter};
use std::hash::Hash;
use std::iter::FusedIterator;

/// An iterator that takes the entries out of a map, from both ends. Dropping the iterator clears the map. `mem::forget`
/// of the iterator leaves the remaining entries in the map.
///
/// ```
/// let mut sum = 0u64;
/// for (key, value) in map.drain() {
///     sum = sum.wrapping_add(key.wrapping_mul(value));
/// }
/// ```
///
/// Follows schnellru's `Drain`.
pub struct Drain<'a, K: Eq + Hash, V, L: Limiter<K, V>, S: KeyHasher<K>> {
    map: &'a mut LruMap<K, V, L, S>,
}

impl<'a, K: Eq + Hash + Drop, V: Drop, L: Limiter<K, V>, S: KeyHasher<K>> Drop
    for Drain<'a, K, V, L, S> {
    ghost use Rattle.lru_model.specs.Calls.{cleared};

    /// Clears the map, even if no entry is left. Cost: as `LruMap::clear`.
    fn drop(self)
        ensures { self.exit.0.now ≡ cleared L.rules (drain_map self.entry) }
    {
        let Drain { map } = self;
        map.clear();
    }
}

impl<'a, K: Eq + Hash + Drop, V: Drop, L: Limiter<K, V>, S: KeyHasher<K>> Iterator
    for Drain<'a, K, V, L, S> {
    ghost use Rattle.lru_model.specs.Calls.{PopNewest};
    ghost use Rattle.schnellru.specs.Drains.{TakesBy, drain_left};

    type Item = (K, V);

    ghost next_gives = { TakesBy (PopNewest L.rules) };

    ghost remaining = { drain_left };

    fn next(&mut self) -> Option<(K, V)> {
        self.map.pop_newest()
    }

    fn size_hint(&self) -> (usize, Option<usize>)
        ensures lower { IsWithinCount result.0 (drain_left self.now) }
        ensures upper { IfSome result.1 (UpTo (drain_left self.now)) }
        ensures exact { result ≡ (length (drain_map self.now).pairs, Some (length (drain_map self.now).pairs)) }
    {
        let len = self.map.len();
        (len, Some(len))
    }
}

impl<'a, K: Eq + Hash + Drop, V: Drop, L: Limiter<K, V>, S: KeyHasher<K>> DoubleEndedIterator
    for Drain<'a, K, V, L, S> {
    ghost use Rattle.lru_model.specs.Calls.{PopOldest};
    ghost use Rattle.schnellru.specs.Drains.{TakesBy};

    ghost next_back_gives = { TakesBy (PopOldest L.rules) };

    fn next_back(&mut self) -> Option<(K, V)> {
        self.map.pop_oldest()
    }
}

impl<'a, K: Eq + Hash + Drop, V: Drop, L: Limiter<K, V>, S: KeyHasher<K>> ExactSizeIterator
    for Drain<'a, K, V, L, S> {
    fn len(&self) -> usize {
        self.map.len()
    }
}

impl<'a, K: Eq + Hash + Drop, V: Drop, L: Limiter<K, V>, S: KeyHasher<K>> FusedIterator
    for Drain<'a, K, V, L, S> {}

impl<K: Eq + Hash, V, L: Limiter<K, V>, S: KeyHasher<K>> LruMap<K, V, L, S> {
    /// Returns an iterator that takes out the entries, newest first. Dropping the iterator clears the map.
    ///
    /// ```
    /// let mut sum = 0u64;
    /// for (key, value) in map.drain() {
    ///     sum = sum.wrapping_add(key.wrapping_mul(value));
    /// }
    /// assert!(rt; map.is_empty());
    /// ```
    ///
    /// Cost: `O(1)`, and `O(1)` for each entry that is taken. The drop costs as much as `clear`.
    ///
    /// Follows schnellru's `LruMap::drain`.
    pub fn drain(&mut self) -> Drain<'_, K, V, L, S>
        ensures map { drain_map result ≡ self.old }
        ensures same_reference { drain_lender result ≡ self.entry.ghost_name }
    {
        Drain { map: self }
    }
}
