//! Walking the entries of a map in their order of use.
ghost use Rattle.std.specs.Prelude.{◌≡◌, ◌<◌, ◌^◌, length, slice_get, position, option_map};
ghost use Rattle.std.specs.Map.{keys_of, values_of};
ghost use Rattle.std.specs.Map.Iter.{ShowsInOrder, ShowsInReverse, deref, deref_pair};
ghost use Rattle.lru_model.specs.Lists.{next_older, next_newer};
ghost use Rattle.lru_model.specs.State.{IsMap};

use crate::map::LruMap;
use group_table::LinkType;
use lru_limits::{KeyHasher, Limiter, LookupKey};
use ordered_table::{Keys, Values, Walk};
use std::hash::Hash;

pub(crate) mod drain;
pub(crate) mod into_iter;
pub(crate) mod iter_mut;
mod positions;

/// The iterator that `LruMap::iter` returns.
///
/// ```
/// let mut walk = map.iter();
/// assert!(rt; walk.next_back() == Some((&1, &10)) && walk.len() == 2);
/// ```
///
/// Follows schnellru's `Iter`.
pub type Iter<'a, K, V, L> = Walk<'a, K, V, <L as Limiter<K, V>>::LinkType>;

impl<K: Eq + Hash, V, L: Limiter<K, V>, S: KeyHasher<K>> LruMap<K, V, L, S> {
    /// Returns an iterator over the entries, newest first.
    ///
    /// ```
    /// let mut total = 0u64;
    /// for (key, value) in map.iter() {
    ///     total = total.wrapping_add(key.wrapping_mul(*value));
    /// }
    /// assert_eq!(rt; total, 140);
    /// ```
    ///
    /// Cost: `O(1)`, and `O(1)` for each step from either end.
    ///
    /// Follows schnellru's `LruMap::iter`.
    pub fn iter(&self) -> Iter<'_, K, V, L>
        ensures rest { result ≡ self.now.pairs }
        ensures runs { ShowsInOrder (deref_pair {K = K} {X = V}) }
        ensures runs_back { ShowsInReverse (deref_pair {K = K} {X = V}) }
        ensures map { IsMap K.eq self.now }
        ensures fits { length self.now.pairs < 2 ^ 64 }
    {
        self.entries.iter()
    }

    /// Returns an iterator over the keys, newest first.
    ///
    /// ```
    /// assert!(rt; map.keys().next() == Some(&3) && map.keys().next_back() == Some(&1));
    /// ```
    ///
    /// Cost: as `iter`.
    ///
    /// Follows std's `HashMap::keys`.
    pub fn keys(&self) -> Keys<'_, K, V, L::LinkType>
        ensures rest { result ≡ keys_of self.now.pairs }
        ensures runs { ShowsInOrder (deref {X = K}) }
    {
        self.entries.keys()
    }

    /// Returns an iterator over the values, newest first.
    ///
    /// ```
    /// assert!(rt; map.values().next() == Some(&30) && map.values().len() == 3);
    /// ```
    ///
    /// Cost: as `iter`.
    ///
    /// Follows std's `HashMap::values`.
    pub fn values(&self) -> Values<'_, K, V, L::LinkType>
        ensures rest { result ≡ values_of self.now.pairs }
        ensures runs { ShowsInOrder (deref {X = V}) }
    {
        self.entries.values()
    }

    /// Returns the entry at this index in the order of use. The newest entry has index 0.
    ///
    /// ```
    /// assert!(rt; map.get_index(0) == Some((&3, &30)) && map.get_index(3).is_none());
    /// ```
    ///
    /// Cost: `O(index)`, and `O(1)` if there is no such entry.
    ///
    /// Follows `get_index` of the crate `indexmap`.
    pub fn get_index(&self, index: usize) -> Option<(&K, &V)>
        ensures { option_map deref_pair result ≡ slice_get self.now.pairs index }
    {
        Some(self.entries.pair(self.entries.at_index(index)?))
    }

    /// Returns the index of a key in the order of use. The newest key has index 0.
    ///
    /// ```
    /// assert_eq!(rt; (map.get_index_of(&1), map.get_index_of(&9)), (Some(2), None));
    /// ```
    ///
    /// Cost: `O(1)` expected to find the key, and `O(index)` to count the newer entries.
    ///
    /// Follows `get_index_of` of the crate `indexmap`.
    pub fn get_index_of<Q: LookupKey<K>>(&self, key: &Q) -> Option<usize>
        ensures { result ≡ position (λ pair. Q.names key.now pair.0) self.now.pairs }
    {
        let b = self.find(key)?;
        Some(self.entries.index_of(b))
    }

    /// Returns the entry just older than a key's entry, or `None` if the key is not there or its entry is the oldest.
    /// With this call, code can step through a map without an iterator.
    ///
    /// ```
    /// assert!(rt; map.peek_older(&2) == Some((&1, &10)) && map.peek_older(&1).is_none());
    /// ```
    ///
    /// Cost: `O(1)` expected.
    pub fn peek_older<Q: LookupKey<K>>(&self, key: &Q) -> Option<(&K, &V)>
        ensures { option_map deref_pair result ≡ next_older (Q.names key.now) self.now.pairs }
    {
        let b = self.find(key)?;
        if b == self.entries.oldest() {
            return None;
        }
        Some(self.entries.pair(self.entries.older_unless_last(b)))
    }

    /// Returns the entry just newer than a key's entry, or `None` if the key is not there or its entry is the newest.
    ///
    /// ```
    /// assert!(rt; map.peek_newer(&2) == Some((&3, &30)) && map.peek_newer(&3).is_none());
    /// ```
    ///
    /// Cost: `O(1)` expected.
    pub fn peek_newer<Q: LookupKey<K>>(&self, key: &Q) -> Option<(&K, &V)>
        ensures { option_map deref_pair result ≡ next_newer (Q.names key.now) self.now.pairs }
    {
        let b = self.find(key)?;
        if b == self.entries.newest() {
            return None;
        }
        Some(self.entries.pair(self.entries.newer_unless_first(b)))
    }
}

/// `for (key, value) in &map` walks the entries, newest first.
impl<
    'a,
    K: Eq + Hash,
    V,
    N: LinkType + 'a,
    L: Limiter<K, V, LinkType = N>,
    S: KeyHasher<K>,
> IntoIterator for &'a LruMap<K, V, L, S> {
    type Item = (&'a K, &'a V);

    type IntoIter = Walk<'a, K, V, N>;

    ghost into_iter_gives = { λ m r. (r ≡ m.now.pairs) × (length m.now.pairs < 2 ^ 64)
        × ShowsInOrder (deref_pair {K = K} {X = V}) × IsMap K.eq m.now };

    fn into_iter(self) -> Walk<'a, K, V, N> {
        self.iter()
    }
}
