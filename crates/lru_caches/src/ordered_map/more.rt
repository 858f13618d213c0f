ghost use Rattle.std.specs.Prelude.{◌≡◌, is_some, option_map};
ghost use Rattle.std.specs.Map.{lookup};
ghost use Rattle.std.specs.Map.Iter.{deref_pair};
ghost use Rattle.lru_model.specs.Lists.{back, lookup_entry};

use crate::ordered_map::{OrderedMap, distinct};
use schnellru::{KeyHasher, LookupKey, ReserveError};
use std::alloc::AllocError;
use std::hash::Hash;

impl<K: Eq + Hash, V, S: KeyHasher<K>> OrderedMap<K, V, S> {
    /// Returns the entry of a key, with the stored key.
    ///
    /// ```
    /// assert!(rt; map.get_key_value(&1) == Some((&1, &11)) && map.get_key_value(&9).is_none());
    /// ```
    ///
    /// Cost: `O(1)` expected.
    pub fn get_key_value<Q: LookupKey<K>>(&self, key: &Q) -> Option<(&K, &V)>
        ensures { option_map deref_pair result ≡ lookup_entry (Q.names key.now) self.now }
    {
        distinct(&self.map);
        self.map.peek_key_value(key)
    }

    /// Makes the entry of a key the newest, and returns whether the key is there.
    ///
    /// ```
    /// assert!(rt; map.move_to_back(&1) && !map.move_to_back(&9));
    /// assert!(rt; map.last() == Some((&1, &11)));
    /// ```
    ///
    /// Cost: `O(1)` expected.
    ///
    /// Follows linked_hash_map's `LinkedHashMap::get_refresh`, which also lends the value.
    pub fn move_to_back<Q: LookupKey<K>>(&mut self, key: &Q) -> bool
        ensures there { result ≡ is_some (lookup (Q.names key.now) self.old) }
        ensures entries { self.new ≡ back (Q.names key.now) self.old }
    {
        distinct(&self.map);
        self.map.promote(key)
    }

    /// Reserves memory for n more entries.
    ///
    /// ```
    /// assert_eq!(rt; map.try_reserve(100), Ok(()));
    /// ```
    ///
    /// Cost: `O(1)` if there is enough growth left, else `O(old buckets + new buckets)`.
    ///
    /// # Errors
    ///
    /// As `LruMap::try_reserve`.
    pub fn try_reserve(&mut self, n: usize) -> Result<(), ReserveError>
        ensures { self.new ≡ self.old }
    {
        self.map.try_reserve(n)
    }

    /// Shrinks the table to the smallest that can hold the entries. Returns whether the table was larger.
    ///
    /// ```
    /// assert_eq!(rt; map.try_reserve(100), Ok(()));
    /// assert_eq!(rt; (map.shrink_to_fit(), map.shrink_to_fit()), (Ok(true), Ok(false)));
    /// ```
    ///
    /// Cost: `O(1)` if the table stays, else `O(buckets)`.
    ///
    /// # Errors
    ///
    /// Out of memory.
    pub fn shrink_to_fit(&mut self) -> Result<bool, AllocError>
        ensures { self.new ≡ self.old }
    {
        self.map.shrink_to_fit()
    }
}
