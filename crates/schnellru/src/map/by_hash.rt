//! Searches by a hash, with a closure that recognises the entry.
ghost use Rattle.std.specs.Prelude.{◌≡◌, Contains, Some, IfSome, IfNone};
ghost use Rattle.std.specs.Borrow.{sem};
ghost use Rattle.lru_model.specs.ByHash.{GivesByHash, GivesNoneByHash};
ghost use Rattle.lru_model.specs.Lists.{lookup_entry};
ghost use Rattle.lru_model.specs.State.{IsMap, place_in};
ghost use Rattle.lru_model.specs.Calls.{promoted, written};

use crate::map::LruMap;
use lru_limits::{KeyHasher, Limiter};
use std::hash::Hash;

impl<K: Eq + Hash, V, L: Limiter<K, V>, S: KeyHasher<K>> LruMap<K, V, L, S> {
    ghost use Rattle.schnellru.specs.Lending.Values.{lends_given};

    /// Searches for an entry that `is_eq` accepts, lends its value for writing, and makes the entry the newest.
    ///
    /// `is_eq` gets only entries whose hashes agree with `hash` in the top 7 bits. It has to compare keys, because the
    /// hashes of other keys may agree, too. Tests, but no proof, show that `is_eq` gets each entry at most once, and is
    /// not called again after it returned true. If the result is `None`, `is_eq` rejected each entry with this hash,
    /// and nothing has changed. `map.hasher().hash_named(&key)` returns the hash of a key.
    ///
    /// Cost: `O(1)` expected, including the calls of `is_eq`.
    ///
    /// ```
    /// let hash = RandomState::default().hash_one(&1u64);
    /// assert_eq!(rt; map.get_by_hash(hash, |key, _| *key == 1).copied(), Some(10));
    /// assert!(rt; map.peek_newest() == Some((&1, &10)));
    /// ```
    ///
    /// Follows schnellru's `LruMap::get_by_hash`.
    #[inline]
    pub fn get_by_hash<F: FnMut(&K, &V) -> bool>(&mut self, hash: u64, is_eq: F) -> Option<&mut V>
        requires callable { F.IsAlwaysCallable is_eq }
        ensures* writes_back { sem 𝓛 (lends_given K.row V.row L.row S.row L.LinkType.row S.Hasher.row K.Hash L.Limiter
            L.LinkType.LinkType S.KeyHasher S.Hasher.Hasher self.entry
            (GivesByHash K.eq (S.hash_of self.old.hasher) self.old.pairs hash F.FnMut is_eq) promoted result) }
        ensures none { IfNone result (GivesNoneByHash K.eq (S.hash_of self.old.hasher) self.old.pairs
            hash F.FnMut is_eq) }
        ensures map { (key : K) (last : V) → IsMap K.eq (written (K.eq key) last (promoted (K.eq key) self.old)) }
    {
        let b = self.find_by(hash, is_eq)?;
        self.promote_at(b);
        Some(self.value_in_mut(b))
    }

    /// Searches as `get_by_hash` does, and returns the value. The order stays.
    ///
    /// ```
    /// let hash = RandomState::default().hash_one(&1u64);
    /// assert_eq!(rt; map.peek_by_hash(hash, |_, value| *value == 10).copied(), Some(10));
    /// ```
    ///
    /// Cost: as `get_by_hash`.
    ///
    /// Follows schnellru's `LruMap::peek_by_hash`.
    #[inline]
    pub fn peek_by_hash<F: FnMut(&K, &V) -> bool>(&self, hash: u64, is_eq: F) -> Option<&V>
        requires callable { F.IsAlwaysCallable is_eq }
        ensures found { IfSome result (λ value. (key : K)
            × GivesByHash K.eq (S.hash_of self.now.hasher) self.now.pairs hash F.FnMut is_eq (key, value.now)) }
        ensures none { IfNone result (GivesNoneByHash K.eq (S.hash_of self.now.hasher) self.now.pairs
            hash F.FnMut is_eq) }
    {
        let b = self.find_by(hash, is_eq)?;
        Some(self.pair_in(b).1)
    }

    /// Searches as `get_by_hash` does, and lends the value for writing. The order stays.
    ///
    /// ```
    /// let hash = RandomState::default().hash_one(&1u64);
    /// if let Some(value) = map.peek_by_hash_mut(hash, |key, _| *key == 1) {
    ///     *value = 100;
    /// }
    /// assert_eq!(rt; map.peek(&1), Some(&100));
    /// ```
    ///
    /// Cost: as `get_by_hash`.
    ///
    /// Follows schnellru's `LruMap::peek_by_hash_mut`.
    #[inline]
    pub fn peek_by_hash_mut<F: FnMut(&K, &V) -> bool>(
        &mut self,
        hash: u64,
        is_eq: F,
    ) -> Option<&mut V>
        requires callable { F.IsAlwaysCallable is_eq }
        ensures* writes_back { sem 𝓛 (lends_given K.row V.row L.row S.row L.LinkType.row S.Hasher.row K.Hash L.Limiter
            L.LinkType.LinkType S.KeyHasher S.Hasher.Hasher self.entry
            (GivesByHash K.eq (S.hash_of self.old.hasher) self.old.pairs hash F.FnMut is_eq)
            (λ names st. st) result) }
        ensures none { IfNone result (GivesNoneByHash K.eq (S.hash_of self.old.hasher) self.old.pairs
            hash F.FnMut is_eq) }
        ensures map { (key : K) (last : V) → IsMap K.eq (written (K.eq key) last self.old) }
    {
        let b = self.find_by(hash, is_eq)?;
        Some(self.value_in_mut(b))
    }

    #[inline]
    pub(super) fn find_by<F: FnMut(&K, &V) -> bool>(&self, hash: u64, is_eq: F) -> Option<usize>
        requires callable { F.IsAlwaysCallable is_eq }
        ensures found { IfSome result (λ b. (pair : K × V)
            × GivesByHash K.eq (S.hash_of self.now.hasher) self.now.pairs hash F.FnMut is_eq pair
            × (lookup_entry (K.eq pair.0) self.now.pairs ≡ Some pair)
            × (place_in (K.eq pair.0) self.now ≡ Some b)) }
        ensures there { IfSome result (Contains self.now.table.places) }
        ensures none { IfNone result (GivesNoneByHash K.eq (S.hash_of self.now.hasher) self.now.pairs
            hash F.FnMut is_eq) }
        ensures map { IsMap K.eq self.now }
    {
        self.entries.find_by(hash, is_eq)
    }
}
