//! `CountedMap`. Contracts represent it by its map and its counts.
ghost use Rattle.std.specs.Prelude.{◌≡◌, is_some};
ghost use Rattle.lru_model.specs.Calls.{promoted, Remove};
ghost use Rattle.lru_model.specs.Inserts.{Insert};
ghost use Rattle.lru_model.specs.Lists.{lookup, lookup_entry};
ghost use Rattle.lru_model.specs.State.{IsMap};
ghost use Rattle.lru_model.specs.Theorems.{InsertEnds};
ghost use Rattle.lru_caches.specs.Counted.{looked_up, inserted, evicted, zeros};

use schnellru::{Inserted, Insertion, KeyHasher, Limiter, LookupKey, LruMap, RandomState};
use std::alloc::AllocError;
use std::hash::Hash;
use std::marker::Model;

/// The counts of a cache. Each count stops at `u64::MAX`.
///
/// A call counts only if its documentation says so.
///
/// ```
/// let mut counts = Counts::default();
/// counts.count_look_up(true);
/// assert_eq!(rt; (counts.hits, counts.misses), (1, 0));
/// ```
#[derive(Clone, Copy, Debug, Default, PartialEq, Eq)]
pub struct Counts {
    /// How many look-ups found their key.
    pub hits: u64,
    /// How many look-ups did not find their key.
    pub misses: u64,
    /// The number of inserts that left their key in the map.
    pub insertions: u64,
    /// The number of inserts that did not leave their key in the map, because the limiter rejected the entry, no table
    /// could hold the entry, or the entry was evicted at once. An insert that runs out of memory counts neither as an
    /// insertion nor as a rejection.
    pub rejections: u64,
    /// The number of entries that were evicted by inserts of other keys.
    pub evictions: u64,
}

impl Counts {
    /// Counts a look-up.
    ///
    /// ```
    /// let mut counts = Counts::default();
    /// counts.count_look_up(false);
    /// assert_eq!(rt; counts.misses, 1);
    /// ```
    pub fn count_look_up(&mut self, found: bool)
        ensures { self.new ≡ looked_up found self.old }
    {
        if found {
            self.hits = self.hits.saturating_add(1);
        } else {
            self.misses = self.misses.saturating_add(1);
        }
    }

    /// Counts an insert with this result, and the entries that the insert evicted.
    ///
    /// ```
    /// let done: Result<bool, ()> = Ok(true);
    /// let mut counts = Counts::default();
    /// counts.count_insert(&done, 1);
    /// assert_eq!(rt; (counts.insertions, counts.rejections, counts.evictions), (1, 0, 1));
    /// ```
    pub fn count_insert<E>(&mut self, done: &Result<bool, E>, evicted: u64)
        ensures { self.new ≡ inserted done.now evicted self.old }
    {
        self.evictions = self.evictions.saturating_add(evicted);
        match done {
            Ok(true) => self.insertions = self.insertions.saturating_add(1),
            Ok(false) => self.rejections = self.rejections.saturating_add(1),
            Err(_) => {}
        }
    }
}

/// A map that counts its look-ups and its inserts.
///
/// In the examples, `counted` has room for three entries, and contains (1, 10), (2, 20) and (3, 30).
///
/// ```
/// assert_eq!(rt; (counted.get(&1), counted.get(&9)), (Some(10), None));
/// assert!(rt; counted.insert(4, 40)?);
/// let counts = counted.counts();
/// assert_eq!(rt; (counts.hits, counts.misses, counts.insertions, counts.evictions), (1, 1, 1, 1));
/// ```
#[derive(Drop)]
pub struct CountedMap<K: Eq + Hash, V, L: Limiter<K, V>, S: KeyHasher<K> = RandomState> {
    map: LruMap<K, V, L, S>,
    counts: Counts,
}

impl<K: Eq + Hash, V, L: Limiter<K, V>, S: KeyHasher<K>> Model for CountedMap<K, V, L, S> {
    ghost use Rattle.lru_caches.specs.Counted.{Counted};

    ghost Value = { Counted K V L S };

    ghost view = { λ m. record { map = m.map; counts = m.counts } };
}

impl<K: Eq + Hash, V, L: Limiter<K, V>, S: KeyHasher<K>> CountedMap<K, V, L, S> {
    /// Takes a map, and counts its look-ups and inserts from now on.
    ///
    /// ```
    /// let counted: CountedMap<u64, u64, ByLength> = CountedMap::new(LruMap::with_limiter(alloc, ByLength::new(3)));
    /// assert!(rt; counted.map().is_empty());
    /// ```
    ///
    /// Cost: `O(1)`.
    pub fn new(map: LruMap<K, V, L, S>) -> Self
        ensures map { result.map ≡ map }
        ensures counts { result.counts ≡ zeros }
    {
        CountedMap {
            map,
            counts: Counts::default(),
        }
    }

    /// Returns the counts.
    ///
    /// ```
    /// assert_eq!(rt; counted.counts(), Counts::default());
    /// ```
    ///
    /// Cost: `O(1)`.
    pub fn counts(&self) -> Counts
        ensures { result ≡ self.now.counts }
    {
        self.counts
    }

    /// Returns the counts, and sets them to zeros.
    ///
    /// ```
    /// counted.get(&1);
    /// assert_eq!(rt; (counted.take_counts().hits, counted.counts().hits), (1, 0));
    /// ```
    ///
    /// Cost: `O(1)`.
    pub fn take_counts(&mut self) -> Counts
        ensures taken { result ≡ self.old.counts }
        ensures zeros { self.new ≡ record self.old { counts = zeros } }
    {
        let counts = self.counts;
        self.counts = Counts::default();
        counts
    }

    /// Returns the map. Calls on it are not counted.
    ///
    /// ```
    /// assert_eq!(rt; (counted.map().len(), counted.map().peek(&2).copied()), (3, Some(20)));
    /// ```
    ///
    /// Cost: `O(1)`.
    pub fn map(&self) -> &LruMap<K, V, L, S>
        ensures { result.now ≡ self.now.map }
    {
        &self.map
    }

    /// Returns the map, and drops the counts.
    ///
    /// ```
    /// let counted: CountedMap<u64, u64, ByLength> = CountedMap::new(LruMap::with_limiter(alloc, ByLength::new(3)));
    /// assert!(rt; counted.into_map().is_empty());
    /// ```
    ///
    /// Cost: `O(1)`.
    pub fn into_map(self) -> LruMap<K, V, L, S>
        ensures { result ≡ self.map }
    {
        let CountedMap { map, counts: _ } = self;
        map
    }

    /// Makes the entry of a key the newest, and counts a hit. If the key is not there, counts a miss. Returns whether
    /// the key is there. If the key is there, `map().peek_newest()` returns the key's entry.
    ///
    /// ```
    /// assert!(rt; counted.promote(&1) && !counted.promote(&9));
    /// assert!(rt; counted.map().peek_newest() == Some((&1, &10)));
    /// assert_eq!(rt; (counted.counts().hits, counted.counts().misses), (1, 1));
    /// ```
    ///
    /// Cost: as `LruMap::promote`.
    pub fn promote<Q: LookupKey<K>>(&mut self, key: &Q) -> bool
        ensures there { result ≡ is_some (lookup (Q.names key.now) self.old.map.pairs) }
        ensures map { self.new.map ≡ promoted (Q.names key.now) self.old.map }
        ensures is_map { IsMap K.eq self.new.map }
        ensures counts { self.new.counts ≡ looked_up result self.old.counts }
    {
        let there = self.map.promote(key);
        self.counts.count_look_up(there);
        there
    }
}

impl<K: Eq + Hash, V: Copy, L: Limiter<K, V>, S: KeyHasher<K>> CountedMap<K, V, L, S> {
    /// Does what `promote` does, and returns the value of the key.
    ///
    /// ```
    /// assert_eq!(rt; (counted.get(&1), counted.get(&9)), (Some(10), None));
    /// ```
    ///
    /// Cost: as `LruMap::get`.
    pub fn get<Q: LookupKey<K>>(&mut self, key: &Q) -> Option<V>
        ensures value { result ≡ lookup (Q.names key.now) self.old.map.pairs }
        ensures map { self.new.map ≡ promoted (Q.names key.now) self.old.map }
        ensures is_map { IsMap K.eq self.new.map }
        ensures counts { self.new.counts ≡ looked_up (is_some result) self.old.counts }
    {
        let value = get(&mut self.map, key);
        self.counts.count_look_up(value.is_some());
        value
    }
}

impl<K: Eq + Hash + Drop, V: Drop, L: Limiter<K, V>, S: KeyHasher<K>> CountedMap<K, V, L, S> {
    /// Does what `LruMap::insert` does, and counts the insert.
    ///
    /// ```
    /// assert!(rt; counted.insert(4, 40)?);
    /// assert_eq!(rt; (counted.counts().insertions, counted.counts().evictions), (1, 1));
    /// ```
    ///
    /// Cost: as `LruMap::insert`.
    ///
    /// # Errors
    ///
    /// As `LruMap::insert`. The evicted entries are counted.
    pub fn insert<I: LookupKey<K>>(&mut self, key: I, value: V) -> Result<bool, AllocError>
    where
        L: Insertion<K, V, I>,
        ensures step { Insert L.rules L.offers I.names S.hash_of key value self.old.map result self.new.map }
        ensures ends { InsertEnds L.rules L.offers I.names S.hash_of key value self.old.map result self.new.map }
        ensures map { IsMap K.eq self.new.map }
        ensures counts { self.new.counts
            ≡ inserted result (evicted (I.names key) self.old.map.pairs self.new.map.pairs) self.old.counts }
    {
        let before = self.map.len();
        let (was_there, is_there, done) = insert_full(&mut self.map, key, value);
        let others = before - was_there as usize;
        let evicted = others.saturating_sub(self.map.len() - is_there as usize);
        self.counts.count_insert(&done, evicted as u64);
        done
    }

    /// Does what `LruMap::remove` does. A removal is not counted.
    ///
    /// ```
    /// assert_eq!(rt; (counted.remove(&1), counted.counts()), (Some(10), Counts::default()));
    /// ```
    ///
    /// Cost: as `LruMap::remove`.
    pub fn remove<Q: LookupKey<K>>(&mut self, key: &Q) -> Option<V>
        ensures step { Remove L.rules (Q.names key.now) self.old.map result self.new.map }
        ensures map { IsMap K.eq self.new.map }
        ensures counts { self.new.counts ≡ self.old.counts }
    {
        self.map.remove(key)
    }
}

fn get<K: Eq + Hash, V: Copy, Q: LookupKey<K>, L: Limiter<K, V>, S: KeyHasher<K>>(
    map: &mut LruMap<K, V, L, S>,
    key: &Q,
) -> Option<V>
    ensures value { result ≡ lookup (Q.names key.now) map.old.pairs }
    ensures promoted { map.new ≡ promoted (Q.names key.now) map.old }
    ensures map { IsMap K.eq map.new }
{
    let _len = map.len();
    match map.get(key) {
        Some(value) => Some(*value),
        None => None,
    }
}

// Returns whether the key was there before the insert, whether the key is there now, and the result of the insert.
fn insert_full<
    K: Eq + Hash + Drop,
    V: Drop,
    I: LookupKey<K>,
    L: Insertion<K, V, I>,
    S: KeyHasher<K>,
>(map: &mut LruMap<K, V, L, S>, key: I, value: V) -> (bool, bool, Result<bool, AllocError>)
    ensures was_there { result.0 ≡ is_some (lookup_entry (I.names key) map.old.pairs) }
    ensures is_there { result.1 ≡ is_some (lookup_entry (I.names key) map.new.pairs) }
    ensures step { Insert L.rules L.offers I.names S.hash_of key value map.old result.2 map.new }
    ensures ends { InsertEnds L.rules L.offers I.names S.hash_of key value map.old result.2 map.new }
    ensures map { IsMap K.eq map.new }
{
    match map.insert_full(key, value, &mut |_, _| {}) {
        Ok(Inserted { kept, unkept }) => (unkept.is_some(), kept, Ok(kept)),
        Err(error) => (false, false, Err(error)),
    }
}
