ghost use Rattle.std.specs.Prelude.{◌≡◌, IfOk, List, IsTrue, None};
ghost use Rattle.lru_model.specs.Lists.{lookup_entry};
ghost use Rattle.lru_model.specs.State.{contents, IsMap};
ghost use Rattle.lru_model.specs.Inserts.{Insert, kept_of, unkept_value};
ghost use Rattle.lru_model.specs.Theorems.{InsertEnds};
ghost use Rattle.lru_model.specs.MayTake.{MayTakeInserted};
ghost use Rattle.lru_model.specs.Callbacks.{noting_offers, CalledWith, InsertPasses};
ghost use Rattle.schnellru.specs.Inside.Passing.{Passes};

use crate::map::LruMap;
use crate::map::remove::discard;
use lru_limits::{Insertion, KeyHasher, Limiter, LookupKey};
use lru_model::Inserted;
use std::alloc::AllocError;
use std::hash::Hash;

impl<K: Eq + Hash + Drop, V: Drop, L: Limiter<K, V>, S: KeyHasher<K>> LruMap<K, V, L, S> {
    /// Inserts a key with a value, as the newest entry. Returns whether the key is in the map afterwards.
    ///
    /// If the key is there, the stored key gets the new value. If the limiter rejects the new value, the entry is
    /// removed. If the key is new, the limiter returns the entry to store, or `None` to reject it. If the limiter would
    /// be over its limit with one more entry, the oldest entry is evicted first.
    ///
    /// If no bucket can take the new entry, the table grows, or is rehashed if it contains fewer than half of the
    /// entries that it may hold. If there is no larger table, or the limiter refuses it, the oldest entries are evicted
    /// until a bucket can take the new entry. If the evictions leave fewer than half of the entries that the table may
    /// hold, the table is rehashed. If there is no entry to evict, the new entry is not stored.
    ///
    /// At the end, if the key is in the map, the oldest entries are evicted while the limiter is over its limit. A
    /// replaced value is dropped before anything is evicted.
    ///
    /// ```
    /// assert!(rt; map.insert(1, 10)?);
    /// assert!(rt; map.insert(1, 20)?);
    /// assert_eq!(rt; map.peek(&1), Some(&20));
    /// ```
    ///
    /// Cost: `O(1)` expected, amortised over the inserts. An insert that grows or rehashes the table moves all entries.
    /// All inserts together move at most two entries for each new entry, plus one for each entry that a shrink
    /// rehashed.
    ///
    /// # Errors
    ///
    /// The insert of a new key ran out of memory. The key is not in the map. If `on_insert` ran out of memory, nothing
    /// has changed. If the allocation for a rehash or a larger table failed, some of the oldest entries may have been
    /// evicted. The limiter was notified of each evicted entry, and of the new entry.
    ///
    /// If growth is left, only `on_insert` allocates memory.
    ///
    /// Follows schnellru's `LruMap::insert`.
    #[inline(always)]
    pub fn insert<I: LookupKey<K>>(&mut self, key: I, value: V) -> Result<bool, AllocError>
    where
        L: Insertion<K, V, I>,
        ensures step { Insert L.rules L.offers I.names S.hash_of key value self.old result self.new }
        ensures ends { InsertEnds L.rules L.offers I.names S.hash_of key value self.old result self.new }
        ensures map { IsMap K.eq self.new }
    {
        self.insert_with(key, value, &mut discard)
    }
}

impl<K: Eq + Hash, V: Drop, L: Limiter<K, V>, S: KeyHasher<K>> LruMap<K, V, L, S> {
    /// Does what `insert` does, and passes each evicted entry to the callback, oldest first. The callback also gets an
    /// entry whose new value is rejected, and a new entry that the limiter accepted but the map could not store.
    ///
    /// The callback gets each of these entries once, even if the result is an `Err`. It gets an entry before the
    /// limiter is called again (tested, not proved). It does not get a replaced value.
    ///
    /// ```
    /// let mut left = None;
    /// map.insert_with(4, 40, &mut |key, value| left = Some((key, value)))?;
    /// assert_eq!(rt; left, Some((1, 10)));
    /// ```
    ///
    /// Cost: as `insert`, plus the calls of the callback.
    ///
    /// # Errors
    ///
    /// Fails as `insert` does.
    #[inline(always)]
    pub fn insert_with<I: LookupKey<K>, F: FnMut(K, V)>(
        &mut self,
        key: I,
        value: V,
        sink: &mut F,
    ) -> Result<bool, AllocError>
    where
        L: Insertion<K, V, I>,
        requires callable { MayTakeInserted L.rules F.FnMut L.offers I.names key value (contents self.old) sink.old }
        ensures step { Insert L.rules L.offers I.names S.hash_of key value self.old result self.new }
        ensures passed { (passed : List (K × V)) × CalledWith F.FnMut sink.old passed sink.new
            × InsertPasses L.rules L.offers I.names S.hash_of key value self.old result passed self.new }
        ensures callable { F.IsAlwaysCallable sink.old → F.IsAlwaysCallable sink.new }
        ensures ends { InsertEnds L.rules L.offers I.names S.hash_of key value self.old result self.new }
        ensures map { IsMap K.eq self.new }
    {
        let hash = self.hasher.hash_named(&key);
        self.show_map();
        let kept = self.insert_or_drop(hash, key, value, sink);
        self.show_map();
        kept
    }

    // Drops the replaced or rejected value before the evictions, because a limiter may count live values.
    #[inline(always)]
    fn insert_or_drop<I: LookupKey<K>, F: FnMut(K, V)>(
        &mut self,
        hash: u64,
        key: I,
        value: V,
        sink: &mut F,
    ) -> Result<bool, AllocError>
    where
        L: Insertion<K, V, I>,
        requires callable { MayTakeInserted L.rules F.FnMut L.offers I.names key value (contents self.old) sink.old }
        requires hash { (k : K) → IsTrue (I.names key k) → hash ≡ S.hash_of self.old.hasher k }
        ensures passed { Passes F.FnMut L.rules sink.old sink.new self.old self.new (λ rules old new.
            Insert rules (noting_offers L.offers) I.names S.hash_of key value old result new) }
    {
        match self.find_hashed(hash, &key) {
            Some(b) => {
                let (accepted, unkept) = self.offer_at(b, key, value, sink);
                drop(unkept);
                if !accepted {
                    return Ok(false);
                }
                self.promote_at(b);
                Ok(self.evict_over_limit(sink))
            }
            None => self.insert_new(hash, key, value, sink),
        }
    }
}

impl<K: Eq + Hash, V, L: Limiter<K, V>, S: KeyHasher<K>> LruMap<K, V, L, S> {
    /// Does what `insert_with` does. If the key is there, also returns the replaced or rejected value (see `Inserted`).
    /// `on_replace` may have written to the returned value.
    ///
    /// If the key is there, the limiter consumes the offered key. If `on_insert` rejects the entry or runs out of
    /// memory, the limiter consumes the key and the value.
    ///
    /// ```
    /// let inserted = map.insert_full(1, 11, &mut |_, _| {})?;
    /// assert_eq!(rt; (inserted.kept, inserted.unkept), (true, Some(10)));
    /// ```
    ///
    /// Cost: as `insert_with`.
    ///
    /// # Errors
    ///
    /// Fails as `insert_with` does.
    ///
    /// Follows `insert_full` of the crate `indexmap`.
    #[inline(always)]
    pub fn insert_full<I: LookupKey<K>, F: FnMut(K, V)>(
        &mut self,
        key: I,
        value: V,
        sink: &mut F,
    ) -> Result<Inserted<V>, AllocError>
    where
        L: Insertion<K, V, I>,
        requires callable { MayTakeInserted L.rules F.FnMut L.offers I.names key value (contents self.old) sink.old }
        ensures step { Insert L.rules L.offers I.names S.hash_of key value self.old (kept_of result) self.new }
        ensures unkept { IfOk result (λ inserted. inserted.unkept
            ≡ unkept_value L.rules L.offers I.names key value (contents self.old)) }
        ensures passed { (passed : List (K × V)) × CalledWith F.FnMut sink.old passed sink.new
            × InsertPasses L.rules L.offers I.names S.hash_of key value self.old (kept_of result) passed self.new }
        ensures callable { F.IsAlwaysCallable sink.old → F.IsAlwaysCallable sink.new }
        ensures ends { InsertEnds L.rules L.offers I.names S.hash_of key value self.old (kept_of result) self.new }
        ensures map { IsMap K.eq self.new }
    {
        let hash = self.hasher.hash_named(&key);
        self.insert_hashed(hash, key, value, sink)
    }

    /// Does what `insert_full` does, but gets the hash of the key from the caller.
    ///
    /// The hash must be the result of `map.hasher().hash_named(&key)`. The prover checks this.
    ///
    /// ```
    /// let hash = map.hasher().hash_named(&5);
    /// let inserted = map.insert_hashed(hash, 5, 50, &mut |_, _| {})?;
    /// assert!(rt; inserted.kept);
    /// ```
    ///
    /// Cost: as `insert_full`, without hashing.
    ///
    /// # Errors
    ///
    /// Fails as `insert_full` does.
    ///
    /// Follows `RawEntryMut::insert_hashed_nocheck` of the crate `hashlink`.
    #[inline(always)]
    pub fn insert_hashed<I: LookupKey<K>, F: FnMut(K, V)>(
        &mut self,
        hash: u64,
        key: I,
        value: V,
        sink: &mut F,
    ) -> Result<Inserted<V>, AllocError>
    where
        L: Insertion<K, V, I>,
        requires callable { MayTakeInserted L.rules F.FnMut L.offers I.names key value (contents self.old) sink.old }
        requires hash { (k : K) → IsTrue (I.names key k) → hash ≡ S.hash_of self.old.hasher k }
        ensures step { Insert L.rules L.offers I.names S.hash_of key value self.old (kept_of result) self.new }
        ensures unkept { IfOk result (λ inserted. inserted.unkept
            ≡ unkept_value L.rules L.offers I.names key value (contents self.old)) }
        ensures passed { (passed : List (K × V)) × CalledWith F.FnMut sink.old passed sink.new
            × InsertPasses L.rules L.offers I.names S.hash_of key value self.old (kept_of result) passed self.new }
        ensures callable { F.IsAlwaysCallable sink.old → F.IsAlwaysCallable sink.new }
        ensures ends { InsertEnds L.rules L.offers I.names S.hash_of key value self.old (kept_of result) self.new }
        ensures map { IsMap K.eq self.new }
    {
        self.show_map();
        let inserted = self.insert_or_replace(hash, key, value, sink);
        self.show_map();
        inserted
    }

    /// Inserts a key that is not in the map, without a search. Takes what `insert_hashed` takes, and returns what
    /// `insert` returns. Passes to the callback what `insert_with` passes.
    ///
    /// The prover checks that the key is absent. In Rust nothing checks this, so a map may contain a key twice.
    ///
    /// ```
    /// let hash = map.hasher().hash_named(&5);
    /// if map.peek_key_value(&5).is_none() {
    ///     map.insert_absent(hash, 5, 50, &mut |_, _| {})?;
    /// }
    /// assert!(rt; map.peek_newest() == Some((&5, &50)));
    /// ```
    ///
    /// Cost: as `insert_hashed`, without the search.
    ///
    /// # Errors
    ///
    /// Fails as `insert` does.
    #[inline(always)]
    pub fn insert_absent<I: LookupKey<K>, F: FnMut(K, V)>(
        &mut self,
        hash: u64,
        key: I,
        value: V,
        sink: &mut F,
    ) -> Result<bool, AllocError>
    where
        L: Insertion<K, V, I>,
        requires callable { MayTakeInserted L.rules F.FnMut L.offers I.names key value (contents self.old) sink.old }
        requires hash { (k : K) → IsTrue (I.names key k) → hash ≡ S.hash_of self.old.hasher k }
        requires absent { lookup_entry (I.names key) self.old.pairs ≡ None }
        ensures step { Insert L.rules L.offers I.names S.hash_of key value self.old result self.new }
        ensures passed { (passed : List (K × V)) × CalledWith F.FnMut sink.old passed sink.new
            × InsertPasses L.rules L.offers I.names S.hash_of key value self.old result passed self.new }
        ensures callable { F.IsAlwaysCallable sink.old → F.IsAlwaysCallable sink.new }
        ensures ends { InsertEnds L.rules L.offers I.names S.hash_of key value self.old result self.new }
        ensures map { IsMap K.eq self.new }
    {
        self.show_map();
        let kept = self.insert_new(hash, key, value, sink);
        self.show_map();
        kept
    }

    #[inline(always)]
    fn insert_or_replace<I: LookupKey<K>, F: FnMut(K, V)>(
        &mut self,
        hash: u64,
        key: I,
        value: V,
        sink: &mut F,
    ) -> Result<Inserted<V>, AllocError>
    where
        L: Insertion<K, V, I>,
        requires callable { MayTakeInserted L.rules F.FnMut L.offers I.names key value (contents self.old) sink.old }
        requires hash { (k : K) → IsTrue (I.names key k) → hash ≡ S.hash_of self.old.hasher k }
        ensures passed { Passes F.FnMut L.rules sink.old sink.new self.old self.new (λ rules old new.
            Insert rules (noting_offers L.offers) I.names S.hash_of key value old (kept_of result) new) }
        ensures unkept { IfOk result (λ inserted. inserted.unkept
            ≡ unkept_value L.rules L.offers I.names key value (contents self.old)) }
    {
        match self.find_hashed(hash, &key) {
            Some(b) => {
                let (accepted, unkept) = self.offer_at(b, key, value, sink);
                if !accepted {
                    return Ok(Inserted {
                        kept: false,
                        unkept: Some(unkept),
                    });
                }
                self.promote_at(b);
                let kept = self.evict_over_limit(sink);
                Ok(Inserted {
                    kept,
                    unkept: Some(unkept),
                })
            }
            None => match self.insert_new(hash, key, value, sink) {
                Ok(kept) => Ok(Inserted { kept, unkept: None }),
                Err(error) => Err(error),
            },
        }
    }
}
