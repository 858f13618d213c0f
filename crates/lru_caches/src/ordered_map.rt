//! `OrderedMap`. Contracts represent a map by the list of its entries, oldest first.
ghost use Rattle.std.specs.Prelude.{◌≡◌, ◌<◌, ◌^◌, [], length, is_some, IsSome, IsOk, IfOk, OnOk, OnErr, option_map};
ghost use Rattle.std.specs.Borrow.{sem};
ghost use Rattle.std.specs.List.{IsDistinct};
ghost use Rattle.std.specs.List.Retain.{IsFiltered};
ghost use Rattle.std.specs.Map.{lookup, keys_of, values_of};
ghost use Rattle.std.specs.Map.Iter.{ShowsInOrder, ShowsInReverse, deref_pair, deref};
ghost use Rattle.std.specs.Option.{option_copied, option_copied_mut};
ghost use Rattle.lru_model.specs.ByHash.{Asks};
ghost use Rattle.lru_model.specs.Lists.{is_empty, first, last, without_first, without_last, without, lookup_entry};
ghost use Rattle.lru_caches.specs.Ordered.{put};

use crate::ordered_map::entries::Entries;
use crate::ordered_map::keys::{Keys, Values};
use schnellru::{KeyHasher, LookupKey, LruMap, RandomState, Unlimited};
use std::alloc::{AllocError, Global};
use std::hash::Hash;
use std::marker::Model;
use std::mem;

mod compared;
pub(crate) mod entries;
pub(crate) mod into_entries;
pub(crate) mod keys;
mod more;

/// A hash map whose entries are in the order of insertion, oldest first.
///
/// The map evicts nothing.
///
/// Each call follows the call with the same name in indexmap's `IndexMap`, unless its comment names another call. In
/// the examples, `map` contains (1, 11) and then (2, 20).
///
/// ```
/// let mut map: OrderedMap<u64, u64> = OrderedMap::new(alloc);
/// assert_eq!(rt; (map.insert(1, 10)?, map.insert(2, 20)?), (None, None));
/// assert_eq!(rt; map.insert(1, 11)?, Some(10));
/// assert!(rt; map.first() == Some((&1, &11)) && map.last() == Some((&2, &20)));
/// ```
#[derive(Drop)]
pub struct OrderedMap<K: Eq + Hash, V, S: KeyHasher<K> = RandomState> {
    map: LruMap<K, V, Unlimited, S>,
}

impl<K: Eq + Hash, V, S: KeyHasher<K>> Model for OrderedMap<K, V, S> {
    ghost use Rattle.std.specs.Prelude.{List, reverse};

    ghost Value = { List (K × V) };

    ghost view = { λ m. reverse m.map.pairs };
}

impl<K: Eq + Hash, V> OrderedMap<K, V, RandomState> {
    /// Makes an empty map with the default hasher.
    ///
    /// Cost: `O(1)`, and no memory.
    ///
    /// ```
    /// let mut map: OrderedMap<u64, u64> = OrderedMap::new(alloc);
    /// ```
    pub fn new(alloc: Global) -> Self
        ensures { result ≡ [] }
    {
        OrderedMap::with_hasher(alloc, RandomState::default())
    }
}

impl<K: Eq + Hash, V, S: KeyHasher<K>> OrderedMap<K, V, S> {
    ghost use Rattle.lru_caches.specs.OrderedLending.{lends_value};

    /// Makes an empty map with this hasher. Cost: `O(1)`, and no memory.
    ///
    /// ```
    /// let seeded = RandomState::with_seeds([5, 6, 7, 8]);
    /// let map: OrderedMap<u64, u64> = OrderedMap::with_hasher(alloc, seeded);
    /// assert!(rt; map.is_empty());
    /// ```
    pub fn with_hasher(alloc: Global, hasher: S) -> Self
        ensures { result ≡ [] }
    {
        OrderedMap {
            map: LruMap::with_limiter_and_hasher(alloc, Unlimited, hasher),
        }
    }

    /// Returns the number of entries. Cost: `O(1)`.
    ///
    /// ```
    /// assert_eq!(rt; map.len(), 2);
    /// ```
    pub fn len(&self) -> usize
        ensures len { result ≡ length self.now }
        ensures distinct { IsDistinct K.eq (keys_of self.now) }
    {
        self.map.len()
    }

    /// Returns whether there are no entries. Cost: `O(1)`.
    ///
    /// ```
    /// assert!(rt; !map.is_empty());
    /// ```
    pub fn is_empty(&self) -> bool
        ensures { result ≡ is_empty self.now }
    {
        self.map.is_empty()
    }

    /// Returns whether a key is in the map.
    ///
    /// Cost: `O(1)` expected.
    ///
    /// ```
    /// assert!(rt; map.contains_key(&1) && !map.contains_key(&9));
    /// ```
    pub fn contains_key<Q: LookupKey<K>>(&self, key: &Q) -> bool
        ensures { result ≡ is_some (lookup (Q.names key.now) self.now) }
    {
        distinct(&self.map);
        self.map.contains(key)
    }

    /// Returns the value of a key.
    ///
    /// ```
    /// assert_eq!(rt; (map.get(&1), map.get(&9)), (Some(&11), None));
    /// ```
    ///
    /// Cost: `O(1)` expected.
    pub fn get<Q: LookupKey<K>>(&self, key: &Q) -> Option<&V>
        ensures { option_copied result ≡ lookup (Q.names key.now) self.now }
    {
        distinct(&self.map);
        self.map.peek(key)
    }

    /// Lends the value of a key for writing. Does not change the order.
    ///
    /// ```
    /// if let Some(value) = map.get_mut(&2) {
    ///     *value = 22;
    /// }
    /// assert_eq!(rt; map.get(&2), Some(&22));
    /// ```
    ///
    /// Cost: `O(1)` expected.
    pub fn get_mut<Q: LookupKey<K>>(&mut self, key: &Q) -> Option<&mut V>
        ensures* writes_back { sem 𝓛 (lends_value K.row V.row S.row S.Hasher.row K.Hash S.KeyHasher S.Hasher.Hasher
            self.entry (Q.names key.now) result) }
        ensures value { option_copied_mut result ≡ lookup (Q.names key.now) self.old }
    {
        distinct(&self.map);
        self.map.peek_mut(key)
    }

    /// Returns the oldest entry.
    ///
    /// ```
    /// assert!(rt; map.first() == Some((&1, &11)) && map.last() == Some((&2, &20)));
    /// ```
    ///
    /// Cost: `O(1)`.
    pub fn first(&self) -> Option<(&K, &V)>
        ensures { option_map deref_pair result ≡ first self.now }
    {
        self.map.peek_oldest()
    }

    /// Returns the newest entry.
    ///
    /// ```
    /// assert!(rt; map.first() == Some((&1, &11)) && map.last() == Some((&2, &20)));
    /// ```
    ///
    /// Cost: `O(1)`.
    pub fn last(&self) -> Option<(&K, &V)>
        ensures { option_map deref_pair result ≡ last self.now }
    {
        self.map.peek_newest()
    }

    /// Removes and returns the oldest entry.
    ///
    /// ```
    /// assert_eq!(rt; map.pop_first(), Some((1, 11)));
    /// ```
    ///
    /// Cost: `O(1)`.
    ///
    /// Follows std's `BTreeMap::pop_first`.
    pub fn pop_first(&mut self) -> Option<(K, V)>
        ensures first { result ≡ first self.old }
        ensures rest { self.new ≡ without_first self.old }
    {
        self.map.pop_oldest()
    }

    /// Removes and returns the newest entry.
    ///
    /// ```
    /// assert_eq!(rt; map.pop_last(), Some((2, 20)));
    /// ```
    ///
    /// Cost: `O(1)`.
    ///
    /// Follows std's `BTreeMap::pop_last`.
    pub fn pop_last(&mut self) -> Option<(K, V)>
        ensures last { result ≡ last self.old }
        ensures rest { self.new ≡ without_last self.old }
    {
        self.map.pop_newest()
    }

    /// Removes a key, and returns the stored key and its value. The other entries keep their order.
    ///
    /// ```
    /// assert_eq!(rt; (map.remove_entry(&2), map.remove_entry(&2)), (Some((2, 20)), None));
    /// ```
    ///
    /// Cost: `O(1)` expected.
    ///
    /// Follows std's `HashMap::remove_entry`.
    pub fn remove_entry<Q: LookupKey<K>>(&mut self, key: &Q) -> Option<(K, V)>
        ensures entry { result ≡ lookup_entry (Q.names key.now) self.old }
        ensures entries { self.new ≡ without (Q.names key.now) self.old }
    {
        distinct(&self.map);
        self.map.remove_entry(key)
    }

    /// Returns an iterator over the keys, oldest first.
    ///
    /// ```
    /// assert!(rt; map.keys().next() == Some(&1) && map.values().next_back() == Some(&20));
    /// ```
    ///
    /// Cost: `O(1)`, and `O(1)` for each step from either end.
    pub fn keys(&self) -> Keys<'_, K, V>
        ensures rest { result ≡ keys_of self.now }
        ensures distinct { IsDistinct K.eq (keys_of self.now) }
        ensures runs { ShowsInOrder (deref {X = K}) }
    {
        Keys::new(self.iter())
    }

    /// Returns an iterator over the values, oldest first.
    ///
    /// ```
    /// assert!(rt; map.keys().next() == Some(&1) && map.values().next_back() == Some(&20));
    /// ```
    ///
    /// Cost: `O(1)`, and `O(1)` for each step from either end.
    pub fn values(&self) -> Values<'_, K, V>
        ensures rest { result ≡ values_of self.now }
        ensures runs { ShowsInOrder (deref {X = V}) }
    {
        Values::new(self.iter())
    }

    /// Returns an iterator over the entries, oldest first.
    ///
    /// ```
    /// let mut total = 0u64;
    /// for (key, value) in map.iter() {
    ///     total = total.wrapping_add(key.wrapping_mul(*value));
    /// }
    /// assert_eq!(rt; total, 51);
    /// ```
    ///
    /// Cost: `O(1)`, and `O(1)` for each step from either end.
    pub fn iter(&self) -> Entries<'_, K, V>
        ensures rest { result ≡ self.now }
        ensures runs { ShowsInOrder (deref_pair {K = K} {X = V}) }
        ensures runs_back { ShowsInReverse (deref_pair {K = K} {X = V}) }
        ensures distinct { IsDistinct K.eq (keys_of self.now) }
        ensures fits { length self.now < 2 ^ 64 }
    {
        Entries::new(self.map.iter())
    }
}

impl<K: Eq + Hash + Drop, V, S: KeyHasher<K>> OrderedMap<K, V, S> {
    /// Removes a key, and returns its value. The other entries keep their order.
    ///
    /// ```
    /// assert_eq!(rt; (map.remove(&2), map.remove(&2)), (Some(20), None));
    /// ```
    ///
    /// Cost: `O(1)` expected.
    ///
    /// Follows indexmap's `IndexMap::shift_remove`, which takes `O(len)`.
    pub fn remove<Q: LookupKey<K>>(&mut self, key: &Q) -> Option<V>
        ensures value { result ≡ lookup (Q.names key.now) self.old }
        ensures entries { self.new ≡ without (Q.names key.now) self.old }
    {
        distinct(&self.map);
        self.map.remove(key)
    }
}

impl<K: Eq + Hash + Drop, V: Drop, S: KeyHasher<K>> OrderedMap<K, V, S> {
    /// Inserts a key with a value as the newest entry. If the key is in the map, replaces and returns the old value,
    /// and the entry keeps its key and its place.
    ///
    /// ```
    /// let mut map: OrderedMap<u64, u64> = OrderedMap::new(alloc);
    /// assert_eq!(rt; (map.insert(1, 10)?, map.insert(2, 20)?), (None, None));
    /// assert_eq!(rt; map.insert(1, 11)?, Some(10));
    /// ```
    ///
    /// Cost: `O(1)` expected, amortised over the inserts.
    ///
    /// # Errors
    ///
    /// The key is new and cannot be stored: memory ran out, or there is no larger table. Nothing has changed.
    pub fn insert(&mut self, key: K, value: V) -> Result<Option<V>, AllocError>
        ensures old { IfOk result (λ was. was ≡ lookup (K.eq key) self.old) }
        ensures entries { OnOk result (self.new ≡ put (K.eq key) (key, value) self.old) }
        ensures failed { OnErr result (self.new ≡ self.old) }
        ensures there { IsSome (lookup (K.eq key) self.old) → IsOk result }
    {
        distinct(&self.map);
        let Err((key, value)) = self.map.try_insert(key, value) else {
            return Ok(None);
        };
        if let Some(place) = self.map.peek_mut(&key) {
            return Ok(Some(mem::replace(place, value)));
        }
        Err(AllocError)
    }

    /// Removes the entries for which the closure returns false.
    ///
    /// The closure is called with each entry, oldest first.
    ///
    /// ```
    /// map.retain(|key, value| *key == 1 || *value > 30);
    /// assert_eq!(rt; (map.len(), map.contains_key(&1)), (1, true));
    /// ```
    ///
    /// Cost: `O(len)`.
    ///
    /// Follows std's `HashMap::retain`, whose closure may write the value.
    pub fn retain<F: FnMut(&K, &V) -> bool>(&mut self, keep: F)
        requires callable { F.IsAlwaysCallable keep }
        ensures kept { IsFiltered (Asks F.FnMut) keep self.old self.new }
    {
        self.map.retain(keep);
    }

    /// Drops all entries. The table keeps its memory. Cost: as `LruMap::clear`.
    ///
    /// ```
    /// map.clear();
    /// assert!(rt; map.is_empty());
    /// ```
    pub fn clear(&mut self)
        ensures { self.new ≡ [] }
    {
        self.map.clear();
    }
}

#[inline]
fn distinct<K: Eq + Hash, V, S: KeyHasher<K>>(map: &LruMap<K, V, Unlimited, S>)
    ensures { IsDistinct K.eq (keys_of map.now.pairs) }
{
    let _ = map.len();
}
