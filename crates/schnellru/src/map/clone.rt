ghost use Rattle.std.specs.Prelude.{◌≡◌, IfOk, IsOk, IsTrue};
ghost use Rattle.lru_model.specs.Clones.{IsClone};
ghost use Rattle.lru_model.specs.State.{buckets};

use crate::map::LruMap;
use lru_limits::{KeyHasher, Limiter};
use std::alloc::AllocError;
use std::hash::Hash;

impl<
    K: Eq + Hash + Clone + Drop,
    V: Clone + Drop,
    L: Limiter<K, V> + Clone,
    S: KeyHasher<K> + Clone + Drop,
> LruMap<K, V, L, S> {
    /// Clones the limiter, the hasher, and the entries in their order. The clone has the same bucket states and counts.
    ///
    /// ```
    /// let mut copy = map.clone()?;
    /// assert_eq!(rt; copy.remove(&1), Some(10));
    /// assert_eq!(rt; (copy.len(), map.len()), (2, 3));
    /// ```
    ///
    /// A clone of a key must equal the key, and a clone of the hasher must return the same hashes. Cost: `O(buckets)`,
    /// plus what the clones of keys, values, limiter and hasher allocate, plus two allocations if the map has buckets.
    ///
    /// # Errors
    ///
    /// Out of memory, or a clone failed. The entries cloned so far are dropped.
    ///
    /// Follows schnellru's `LruMap::clone`.
    pub fn clone(&self) -> Result<Self, AllocError>
        requires keys { (key copy : K) → K.is_clone key copy → IsTrue (K.eq key copy) }
        requires hashers { (hasher copy : S) → S.is_clone hasher copy → (key : K) →
            S.hash_of copy key ≡ S.hash_of hasher key }
        ensures clone { IfOk result (IsClone K.is_clone V.is_clone L.is_clone S.is_clone self.now) }
        ensures succeeds { buckets self.now ≡ 0 → L.is_infallible self.now.limiter → S.is_infallible self.now.hasher
            → IsOk result }
    {
        let entries = self.entries.copy()?;
        let hasher = self.hasher.clone()?;
        let limiter = self.limiter.clone()?;
        Ok(LruMap {
            entries,
            limiter,
            hasher,
            entry_bytes: self.entry_bytes,
            moved: self.moved,
            shrunk: self.shrunk,
            alloc: self.alloc,
        })
    }
}
