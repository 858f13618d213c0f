ghost use Rattle.std.specs.Prelude.{◌≡◌, ◌<◌, true, false, None, Ok, IsTrue};
ghost use Rattle.lru_limits.specs.Admissions.{offers_of};
ghost use Rattle.lru_model.specs.Lists.{lookup_entry};
ghost use Rattle.lru_model.specs.State.{IsMap, contents, growth_left};
ghost use Rattle.lru_model.specs.Inserts.{Insert};
ghost use Rattle.lru_model.specs.TryInserts.{TryInsert, TryInsertEnds, IsReady, IsUnready, can_store};

use crate::map::LruMap;
use crate::map::remove::discard;
use lru_limits::{Admission, KeyHasher};
use std::hash::Hash;

impl<K: Eq + Hash + Drop, V: Drop, L: Admission<K, V> + Copy, S: KeyHasher<K>> LruMap<K, V, L, S> {
    /// Inserts a new key with its value, as the newest entry, without an eviction.
    ///
    /// If no growth is left, `try_insert` reserves growth instead of filling a deleted bucket. So if the limiter
    /// refuses a larger table, `try_insert` may return an entry that `insert` would store without an eviction.
    ///
    /// ```
    /// assert_eq!(rt; map.try_insert(4, 40), Err((4, 40)));
    /// map.pop_oldest();
    /// assert_eq!(rt; (map.try_insert(4, 40), map.try_insert(4, 41)), (Ok(()), Err((4, 41))));
    /// ```
    ///
    /// Cost: `O(1)` expected, amortised over the inserts, with one search for the key. If no growth is left, the call
    /// also costs as much as `try_reserve(1)`. `move_report` does not count the entries that the reservation moves.
    ///
    /// # Errors
    ///
    /// Returns the key and the value, for one of five reasons. A caller can recognise only the first reason, by
    /// `contains`:
    ///
    /// - The key is there.
    /// - The limiter rejects the entry, before or after the table grew.
    /// - The limiter would be over its limit with the entry, before or after the table grew.
    /// - No growth is left, and either there is no larger table, or the limiter refuses the larger table.
    /// - No growth is left, and the allocation of the table fails.
    ///
    /// If growth was left, nothing has changed. If no growth was left, the table may be larger or rehashed, and
    /// `on_grow` may have changed the limiter.
    ///
    /// Follows std's `HashMap::try_insert`.
    pub fn try_insert(&mut self, key: K, value: V) -> Result<(), (K, V)>
        ensures step { TryInsert L.terms L.rules key value self.old K.eq S.hash_of result self.new }
        ensures ends { TryInsertEnds L.terms L.rules key value self.old K.eq S.hash_of result self.new }
        ensures map { IsMap K.eq self.new }
    {
        let hash = self.hasher.hash_named(&key);
        self.try_insert_hashed(hash, key, value)
    }

    /// Does what `try_insert` does, but gets the hash of the key from the caller, as `insert_hashed` does.
    ///
    /// ```
    /// let hash = map.hasher().hash_named(&4);
    /// assert_eq!(rt; map.try_insert_hashed(hash, 4, 40), Err((4, 40)));
    /// map.pop_oldest();
    /// assert_eq!(rt; map.try_insert_hashed(hash, 4, 40), Ok(()));
    /// ```
    ///
    /// Cost: as `try_insert`, without hashing.
    ///
    /// # Errors
    ///
    /// Fails as `try_insert` does.
    ///
    /// Follows `RawEntryMut::insert_hashed_nocheck` of the crate `hashlink`.
    pub fn try_insert_hashed(&mut self, hash: u64, key: K, value: V) -> Result<(), (K, V)>
        requires hash { (k : K) → IsTrue (K.eq key k) → hash ≡ S.hash_of self.old.hasher k }
        ensures step { TryInsert L.terms L.rules key value self.old K.eq S.hash_of result self.new }
        ensures ends { TryInsertEnds L.terms L.rules key value self.old K.eq S.hash_of result self.new }
        ensures map { IsMap K.eq self.new }
    {
        self.show_map();
        let inserted = self.try_insert_if_absent(hash, key, value);
        self.show_map();
        inserted
    }

    fn try_insert_if_absent(&mut self, hash: u64, key: K, value: V) -> Result<(), (K, V)>
        requires hash { (k : K) → IsTrue (K.eq key k) → hash ≡ S.hash_of self.old.hasher k }
        ensures { TryInsert L.terms L.rules key value self.old K.eq S.hash_of result self.new }
    {
        match self.find_hashed(hash, &key) {
            Some(_) => Err((key, value)),
            None => self.try_insert_new(hash, key, value),
        }
    }

    fn try_insert_new(&mut self, hash: u64, key: K, value: V) -> Result<(), (K, V)>
        requires hash { (k : K) → IsTrue (K.eq key k) → hash ≡ S.hash_of self.old.hasher k }
        requires absent { lookup_entry (K.eq key) self.old.pairs ≡ None }
        ensures { TryInsert L.terms L.rules key value self.old K.eq S.hash_of result self.new }
    {
        if !self.can_store(&key, &value) {
            return Err((key, value));
        }
        if !self.get_ready_for(&key, &value) {
            return Err((key, value));
        }
        self.add(hash, key, value);
        Ok(())
    }

    fn get_ready_for(&mut self, key: &K, value: &V) -> bool
        requires storable { can_store L.terms L.rules key.now value.now (contents self.old) ≡ true }
        ensures ready { IsTrue result → IsReady L.rules self.old self.new }
        ensures growth { IsTrue result → 0 < growth_left self.new }
        ensures storable { IsTrue result → can_store L.terms L.rules key.now value.now (contents self.new) ≡ true }
        ensures unready { result ≡ false → IsUnready L.terms L.rules key.now value.now self.old self.new }
    {
        if self.growth_left() > 0 {
            return true;
        }
        match self.try_reserve(1) {
            Ok(()) => self.can_store(key, value),
            Err(_) => false,
        }
    }

    fn can_store(&self, key: &K, value: &V) -> bool
        ensures storable { result ≡ can_store L.terms L.rules key.now value.now (contents self.now) }
        ensures map { IsMap K.eq self.now }
    {
        let length = self.entries.len();
        let mut limiter = self.limiter;
        if !limiter.admit(length, key, value) {
            return false;
        }
        !limiter.is_over_the_limit(length + 1)
    }

    fn add(&mut self, hash: u64, key: K, value: V)
        requires hash { (k : K) → IsTrue (K.eq key k) → hash ≡ S.hash_of self.old.hasher k }
        requires absent { lookup_entry (K.eq key) self.old.pairs ≡ None }
        requires growth_left { 0 < growth_left self.old }
        requires storable { can_store L.terms L.rules key value (contents self.old) ≡ true }
        ensures { Insert L.rules (offers_of L.terms) K.eq S.hash_of key value self.old (Ok true) self.new }
    {
        let _ = self.insert_new(hash, key, value, &mut discard);
    }
}
