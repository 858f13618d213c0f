ghost use Rattle.std.specs.Prelude.{◌≡◌, ◌<◌, length, option_map, is_some, Some};
ghost use Rattle.std.specs.Option.{option_copied, option_copied_mut};
ghost use Rattle.std.specs.Borrow.{sem};
ghost use Rattle.std.specs.Map.Iter.{deref_pair};
ghost use Rattle.lru_model.specs.Lists.{lookup, lookup_entry, first, last, newest_value, set_newest};
ghost use Rattle.lru_model.specs.State.{State, IsMap};
ghost use Rattle.lru_model.specs.Calls.{promoted, demoted, written};

use crate::map::LruMap;
use lru_limits::{KeyHasher, Limiter, LookupKey};
use std::hash::Hash;

impl<K: Eq + Hash, V, L: Limiter<K, V>, S: KeyHasher<K>> LruMap<K, V, L, S> {
    ghost use Rattle.schnellru.specs.Lending.Values.{lends_value, lends_newest, lends_newest_value, ends_as};

    /// Lends the value of a key for writing, and makes its entry the newest.
    ///
    /// A `&str` looks up a `String` key: `map.get(&"a")`.
    ///
    /// ```
    /// if let Some(value) = map.get(&1) {
    ///     *value = 100;
    /// }
    /// assert!(rt; map.peek_newest() == Some((&1, &100)));
    /// ```
    ///
    /// Cost: `O(1)` expected.
    ///
    /// Follows schnellru's `LruMap::get`.
    #[inline(always)]
    pub fn get<Q: LookupKey<K>>(&mut self, key: &Q) -> Option<&mut V>
        ensures* writes_back { sem 𝓛 (lends_value K.row V.row L.row S.row L.LinkType.row S.Hasher.row K.Hash L.Limiter
            L.LinkType.LinkType S.KeyHasher S.Hasher.Hasher self.entry
            (Q.names key.now) (promoted (Q.names key.now) self.old) result) }
        ensures value { option_copied_mut result ≡ lookup (Q.names key.now) self.old.pairs }
        ensures before { IsMap K.eq self.old }
        ensures map { (last : V) → IsMap K.eq (written (Q.names key.now) last (promoted (Q.names key.now) self.old)) }
    {
        let b = self.find(key)?;
        self.promote_at(b);
        Some(self.value_in_mut(b))
    }

    /// Returns the entry of a key, and makes this entry the newest.
    ///
    /// The returned key is the stored key.
    ///
    /// ```
    /// assert!(rt; map.get_key_value(&1) == Some((&1, &10)));
    /// assert!(rt; map.peek_newest() == Some((&1, &10)));
    /// ```
    ///
    /// Cost: `O(1)` expected.
    ///
    /// Follows `get_key_value` of the crate `lru`.
    #[inline]
    pub fn get_key_value<Q: LookupKey<K>>(&mut self, key: &Q) -> Option<(&K, &V)>
        ensures* leaves { sem 𝓛 (ends_as K.row V.row L.row S.row L.LinkType.row S.Hasher.row K.Hash L.Limiter
            L.LinkType.LinkType S.KeyHasher S.Hasher.Hasher self.entry (promoted (Q.names key.now) self.old)) }
        ensures value { option_map deref_pair result ≡ lookup_entry (Q.names key.now) self.old.pairs }
        ensures map { IsMap K.eq (promoted (Q.names key.now) self.old) }
    {
        let b = self.find(key)?;
        self.promote_at(b);
        Some(self.pair_in(b))
    }

    /// Makes the entry of a key the newest, and returns whether the key is there.
    ///
    /// ```
    /// assert!(rt; map.promote(&1) && !map.promote(&9));
    /// assert!(rt; map.peek_newest() == Some((&1, &10)));
    /// ```
    ///
    /// Cost: `O(1)` expected.
    ///
    /// Follows `promote` of the crate `lru`.
    #[inline]
    pub fn promote<Q: LookupKey<K>>(&mut self, key: &Q) -> bool
        ensures there { result ≡ is_some (lookup (Q.names key.now) self.old.pairs) }
        ensures promoted { self.new ≡ promoted (Q.names key.now) self.old }
        ensures map { IsMap K.eq self.new }
    {
        match self.find(key) {
            Some(b) => {
                self.promote_at(b);
                true
            }
            None => false,
        }
    }

    /// Makes the entry of a key the oldest, and returns whether the key is there.
    ///
    /// ```
    /// assert!(rt; map.demote(&3) && !map.demote(&9));
    /// assert!(rt; map.peek_oldest() == Some((&3, &30)));
    /// ```
    ///
    /// Cost: `O(1)` expected.
    ///
    /// Follows `demote` of the crate `lru`.
    pub fn demote<Q: LookupKey<K>>(&mut self, key: &Q) -> bool
        ensures there { result ≡ is_some (lookup (Q.names key.now) self.old.pairs) }
        ensures demoted { self.new ≡ demoted (Q.names key.now) self.old }
        ensures map { IsMap K.eq self.new }
    {
        match self.find(key) {
            Some(b) => {
                self.demote_at(b);
                true
            }
            None => false,
        }
    }

    /// Lends the value of the newest entry for writing.
    ///
    /// Right after `ensure_newest(key, ..)` returned true, this is the value of `key`. Cost: `O(1)`.
    ///
    /// ```
    /// if let Some(count) = map.newest_mut() {
    ///     *count = count.saturating_add(1);
    /// }
    /// ```
    #[inline]
    pub fn newest_mut(&mut self) -> Option<&mut V>
        ensures* writes_back { sem 𝓛 (lends_newest K.row V.row L.row S.row L.LinkType.row S.Hasher.row K.Hash L.Limiter
            L.LinkType.LinkType S.KeyHasher S.Hasher.Hasher self.entry result) }
        ensures value { option_copied_mut result ≡ newest_value self.old.pairs }
        ensures map { (last : V) → IsMap K.eq (record self.old { pairs = set_newest self.old.pairs last }) }
    {
        if self.is_empty() {
            self.show_map();
            return None;
        }
        Some(self.newest_value_mut())
    }

    #[inline]
    pub(crate) fn newest_value_mut(&mut self) -> &mut V
        requires { 0 < length self.old.pairs }
        ensures* writes_back { sem 𝓛
            (lends_newest_value K.row V.row L.row S.row L.LinkType.row S.Hasher.row K.Hash L.Limiter
            L.LinkType.LinkType S.KeyHasher S.Hasher.Hasher self.entry result) }
        ensures value { newest_value self.old.pairs ≡ Some result.now }
        ensures map { (last : V) → IsMap K.eq (record self.old { pairs = set_newest self.old.pairs last }) }
    {
        let b = self.entries.newest();
        self.entries.pair_mut(b).1
    }

    /// Returns whether a key is in the map.
    ///
    /// ```
    /// assert!(rt; map.contains(&1) && !map.contains(&9));
    /// ```
    ///
    /// Cost: `O(1)` expected.
    ///
    /// Follows `contains` of the crate `lru`.
    #[inline]
    pub fn contains<Q: LookupKey<K>>(&self, key: &Q) -> bool
        ensures { result ≡ is_some (lookup (Q.names key.now) self.now.pairs) }
    {
        self.find(key).is_some()
    }

    /// Returns the value of a key. The order stays.
    ///
    /// Cost: `O(1)` expected.
    ///
    /// ```
    /// assert_eq!(rt; map.peek(&1), Some(&10));
    /// ```
    ///
    /// Follows schnellru's `LruMap::peek`.
    #[inline]
    pub fn peek<Q: LookupKey<K>>(&self, key: &Q) -> Option<&V>
        ensures { option_copied result ≡ lookup (Q.names key.now) self.now.pairs }
    {
        let b = self.find(key)?;
        Some(self.pair_in(b).1)
    }

    /// Returns the entry of a key.
    ///
    /// ```
    /// assert!(rt; map.peek_key_value(&1) == Some((&1, &10)));
    /// ```
    ///
    /// Cost: `O(1)` expected.
    ///
    /// Follows std's `HashMap::get_key_value`.
    #[inline]
    pub fn peek_key_value<Q: LookupKey<K>>(&self, key: &Q) -> Option<(&K, &V)>
        ensures { option_map deref_pair result ≡ lookup_entry (Q.names key.now) self.now.pairs }
    {
        let b = self.find(key)?;
        Some(self.pair_in(b))
    }

    /// Lends the value of a key for writing. The order stays.
    ///
    /// ```
    /// if let Some(value) = map.peek_mut(&1) {
    ///     *value = 100;
    /// }
    /// assert!(rt; map.peek_oldest() == Some((&1, &100)));
    /// ```
    ///
    /// Cost: `O(1)` expected.
    ///
    /// Follows schnellru's `LruMap::peek_mut`.
    #[inline]
    pub fn peek_mut<Q: LookupKey<K>>(&mut self, key: &Q) -> Option<&mut V>
        ensures* writes_back { sem 𝓛 (lends_value K.row V.row L.row S.row L.LinkType.row S.Hasher.row K.Hash L.Limiter
            L.LinkType.LinkType S.KeyHasher S.Hasher.Hasher self.entry (Q.names key.now) self.old result) }
        ensures value { option_copied_mut result ≡ lookup (Q.names key.now) self.old.pairs }
        ensures map { (last : V) → IsMap K.eq (written (Q.names key.now) last self.old) }
    {
        let b = self.find(key)?;
        Some(self.value_in_mut(b))
    }

    /// Returns the oldest entry.
    ///
    /// ```
    /// assert!(rt; map.peek_oldest() == Some((&1, &10)));
    /// ```
    ///
    /// Cost: `O(1)`.
    ///
    /// Follows schnellru's `LruMap::peek_oldest`.
    pub fn peek_oldest(&self) -> Option<(&K, &V)>
        ensures { option_map deref_pair result ≡ last self.now.pairs }
    {
        if self.is_empty() {
            return None;
        }
        Some(self.entries.pair(self.entries.oldest()))
    }

    /// Returns the newest entry.
    ///
    /// ```
    /// assert!(rt; map.peek_newest() == Some((&3, &30)));
    /// ```
    ///
    /// Cost: `O(1)`.
    ///
    /// Follows schnellru's `LruMap::peek_newest`.
    pub fn peek_newest(&self) -> Option<(&K, &V)>
        ensures { option_map deref_pair result ≡ first self.now.pairs }
    {
        if self.is_empty() {
            return None;
        }
        Some(self.entries.pair(self.entries.newest()))
    }
}
