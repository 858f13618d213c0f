ghost use Rattle.std.specs.Prelude.{◌≡◌, Bool, None, Some, true, nat_eq, IfSome, IfNone};
ghost use Rattle.std.specs.List.{list_any};
ghost use Rattle.std.specs.Borrow.{sem};
ghost use Rattle.lru_model.specs.ByHash.{GivesByHash, GivesNoneByHash};
ghost use Rattle.lru_model.specs.Lists.{lookup, lookup_entry};
ghost use Rattle.lru_model.specs.State.{IsMap, Frees, place_in};
ghost use Rattle.lru_model.specs.Calls.{promoted, demoted, written, RemoveEntry};

use crate::map::LruMap;
use lru_limits::{KeyHasher, Limiter, LookupKey};
use std::hash::Hash;

/// A handle on an entry that `find_entry` or `find_entry_by_hash` found. No call on the handle searches again.
///
/// ```
/// if let Some(mut entry) = map.find_entry(&1) {
///     *entry.get_mut() = 100;
///     entry.promote();
/// }
/// assert!(rt; map.peek_newest() == Some((&1, &100)));
/// ```
///
/// Follows `OccupiedEntry` of std's `HashMap`.
#[derive(Drop)]
pub struct OccupiedEntry<'a, K: Eq + Hash, V, L: Limiter<K, V>, S: KeyHasher<K>> {
    map: &'a mut LruMap<K, V, L, S>,
    bucket: usize,
    ghost there: { list_any (nat_eq bucket) map.now.table.places ≡ true },
}

impl<K: Eq + Hash, V, L: Limiter<K, V>, S: KeyHasher<K>> LruMap<K, V, L, S> {
    ghost use Rattle.schnellru.specs.Found.{entry_map, entry_lender, IsOn, keeps_if_none};

    /// Searches for a key, and returns a handle on its entry. The order stays.
    ///
    /// ```
    /// if let Some(entry) = map.find_entry(&1) {
    ///     if *entry.get() == 10 {
    ///         entry.remove_entry();
    ///     }
    /// }
    /// assert!(rt; !map.contains(&1) && map.find_entry(&9).is_none());
    /// ```
    ///
    /// Cost: `O(1)` expected.
    ///
    /// Follows `find_entry` of hashbrown's `HashTable`.
    #[inline]
    pub fn find_entry<Q: LookupKey<K>>(&mut self, key: &Q) -> Option<OccupiedEntry<'_, K, V, L, S>>
        ensures* unchanged { sem 𝓛 (keeps_if_none K.row V.row L.row S.row L.LinkType.row S.Hasher.row K.Hash L.Limiter
            L.LinkType.LinkType S.KeyHasher S.Hasher.Hasher self.entry result) }
        ensures same_map { IfSome result (λ entry. entry_map entry ≡ self.old) }
        ensures same_reference { IfSome result (λ entry. entry_lender entry ≡ self.entry.ghost_name) }
        ensures found { IfSome result (λ entry. IsOn entry (Q.names key.now)) }
        ensures none { IfNone result (lookup_entry (Q.names key.now) self.old.pairs ≡ None) }
        ensures map { IsMap K.eq self.old }
    {
        let bucket = self.find(key)?;
        Some(OccupiedEntry { map: self, bucket })
    }

    /// Searches as `get_by_hash` does, and returns a handle on the entry. The order stays.
    ///
    /// ```
    /// let hash = RandomState::default().hash_one(&1u64);
    /// if let Some(mut entry) = map.find_entry_by_hash(hash, |key, _| *key == 1) {
    ///     entry.promote();
    /// }
    /// assert!(rt; map.peek_newest() == Some((&1, &10)));
    /// ```
    ///
    /// Cost: as `get_by_hash`.
    ///
    /// Follows `find_entry` of hashbrown's `HashTable`.
    #[inline]
    pub fn find_entry_by_hash<F: FnMut(&K, &V) -> bool>(
        &mut self,
        hash: u64,
        is_eq: F,
    ) -> Option<OccupiedEntry<'_, K, V, L, S>>
        requires callable { F.IsAlwaysCallable is_eq }
        ensures* unchanged { sem 𝓛 (keeps_if_none K.row V.row L.row S.row L.LinkType.row S.Hasher.row K.Hash L.Limiter
            L.LinkType.LinkType S.KeyHasher S.Hasher.Hasher self.entry result) }
        ensures same_map { IfSome result (λ entry. entry_map entry ≡ self.old) }
        ensures same_reference { IfSome result (λ entry. entry_lender entry ≡ self.entry.ghost_name) }
        ensures found { IfSome result (λ entry. (pair : K × V)
            × GivesByHash K.eq (S.hash_of self.old.hasher) self.old.pairs hash F.FnMut is_eq pair
            × (lookup_entry (K.eq pair.0) self.old.pairs ≡ Some pair) × IsOn entry (K.eq pair.0)) }
        ensures none { IfNone result (GivesNoneByHash K.eq (S.hash_of self.old.hasher) self.old.pairs
            hash F.FnMut is_eq) }
        ensures map { IsMap K.eq self.old }
    {
        let bucket = self.find_by(hash, is_eq)?;
        Some(OccupiedEntry { map: self, bucket })
    }
}

impl<'a, K: Eq + Hash, V, L: Limiter<K, V>, S: KeyHasher<K>> OccupiedEntry<'a, K, V, L, S> {
    ghost use Rattle.schnellru.specs.Found.{entry_map, entry_lender, entry_written, IsOn, lends_found, lends_into};

    /// Returns the stored key, not the equal key that was looked up.
    ///
    /// ```
    /// assert!(rt; map.find_entry(&1).is_some_and(|entry| *entry.key() == 1));
    /// ```
    ///
    /// Cost: `O(1)`.
    #[inline]
    pub fn key(&self) -> &K
        ensures { (names : K → Bool) → IsOn self.now names →
            (value : V) × (lookup_entry names (entry_map self.now).pairs ≡ Some (result.now, value)) }
    {
        self.map.pair_in(self.bucket).0
    }

    /// Returns the value.
    ///
    /// ```
    /// assert!(rt; map.find_entry(&1).is_some_and(|entry| *entry.get() == 10));
    /// ```
    ///
    /// Cost: `O(1)`.
    #[inline]
    pub fn get(&self) -> &V
        ensures { (names : K → Bool) → IsOn self.now names →
            lookup names (entry_map self.now).pairs ≡ Some result.now }
    {
        self.map.pair_in(self.bucket).1
    }

    /// Lends the value for writing. The order stays.
    ///
    /// ```
    /// if let Some(mut entry) = map.find_entry(&1) {
    ///     *entry.get_mut() = 100;
    /// }
    /// assert!(rt; map.peek_oldest() == Some((&1, &100)));
    /// ```
    ///
    /// Cost: `O(1)`.
    #[inline]
    pub fn get_mut(&mut self) -> &mut V
        ensures* writes_back { sem 𝓛 (lends_found K.row V.row L.row S.row L.LinkType.row S.Hasher.row K.Hash L.Limiter
            L.LinkType.LinkType S.KeyHasher S.Hasher.Hasher self.entry result) }
        ensures value { (names : K → Bool) → IsOn self.old names →
            lookup names (entry_map self.old).pairs ≡ Some result.now }
        ensures written { (names : K → Bool) → IsOn self.old names → (last : V) →
            entry_map (entry_written self.old last) ≡ written names last (entry_map self.old) }
        ensures same_entry { (names : K → Bool) → IsOn self.old names → (last : V) →
            IsOn (entry_written self.old last) names }
        ensures map { (last : V) → IsMap K.eq (entry_map (entry_written self.old last)) }
    {
        let bucket = self.bucket;
        self.map.value_in_mut(bucket)
    }

    /// Lends the value for writing, until the loan of the map ends. The order stays.
    ///
    /// ```
    /// if let Some(entry) = map.find_entry(&1) {
    ///     let value = entry.into_mut();
    ///     *value = 100;
    /// }
    /// assert!(rt; map.peek_oldest() == Some((&1, &100)));
    /// ```
    ///
    /// Cost: `O(1)`.
    #[inline]
    pub fn into_mut(self) -> &'a mut V
        ensures* writes_back { sem 𝓛 (lends_into K.row V.row L.row S.row L.LinkType.row S.Hasher.row K.Hash L.Limiter
            L.LinkType.LinkType S.KeyHasher S.Hasher.Hasher self.entry result) }
        ensures value { (names : K → Bool) → IsOn self.entry names →
            lookup names (entry_map self.entry).pairs ≡ Some result.now }
        ensures written { (names : K → Bool) → IsOn self.entry names → (last : V) →
            entry_map (entry_written self.entry last) ≡ written names last (entry_map self.entry) }
        ensures map { (last : V) → IsMap K.eq (entry_map (entry_written self.entry last)) }
    {
        let OccupiedEntry { map, bucket } = self;
        map.value_in_mut(bucket)
    }

    /// Makes the entry the newest.
    ///
    /// ```
    /// if let Some(mut entry) = map.find_entry(&1) {
    ///     entry.promote();
    /// }
    /// assert!(rt; map.peek_newest() == Some((&1, &10)));
    /// ```
    ///
    /// Cost: `O(1)`.
    #[inline]
    pub fn promote(&mut self)
        ensures promoted { (names : K → Bool) → IsOn self.old names →
            entry_map self.new ≡ promoted names (entry_map self.old) }
        ensures same_entry { (names : K → Bool) → IsOn self.old names → IsOn self.new names }
        ensures same_reference { entry_lender self.new ≡ entry_lender self.old }
        ensures map { IsMap K.eq (entry_map self.new) }
    {
        self.map.promote_at(self.bucket);
    }

    /// Makes the entry the oldest.
    ///
    /// ```
    /// if let Some(mut entry) = map.find_entry(&3) {
    ///     entry.demote();
    /// }
    /// assert!(rt; map.peek_oldest() == Some((&3, &30)));
    /// ```
    ///
    /// Cost: `O(1)`.
    pub fn demote(&mut self)
        ensures demoted { (names : K → Bool) → IsOn self.old names →
            entry_map self.new ≡ demoted names (entry_map self.old) }
        ensures same_entry { (names : K → Bool) → IsOn self.old names → IsOn self.new names }
        ensures same_reference { entry_lender self.new ≡ entry_lender self.old }
        ensures map { IsMap K.eq (entry_map self.new) }
    {
        self.map.demote_at(self.bucket);
    }

    /// Removes the entry. Returns the stored key and its value.
    ///
    /// ```
    /// let removed = map.find_entry(&1).map(|entry| entry.remove_entry());
    /// assert!(rt; removed == Some((1, 10)) && !map.contains(&1));
    /// ```
    ///
    /// Cost: `O(1)`.
    // In the contract, `self.exit.0` is the reference to the map.
    #[inline]
    pub fn remove_entry(self) -> (K, V)
        ensures step { (names : K → Bool) → IsOn self.entry names →
            RemoveEntry L.rules names (entry_map self.entry) (Some result) self.exit.0.now }
        ensures freed { (names : K → Bool) → IsOn self.entry names →
            Frees (place_in names (entry_map self.entry)) (entry_map self.entry).table self.exit.0.now.table }
        ensures map { IsMap K.eq self.exit.0.now }
    {
        let bucket = self.bucket;
        self.map.take_at(bucket)
    }
}
