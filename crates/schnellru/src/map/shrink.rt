ghost use Rattle.lru_model.specs.State.{IsMap};
ghost use Rattle.lru_model.specs.Shrinks.{Shrink};

use crate::map::LruMap;
use group_table::{LinkType, buckets_for_capacity};
use lru_limits::{KeyHasher, Limiter};
use std::alloc::AllocError;
use std::hash::Hash;

impl<K: Eq + Hash, V, L: Limiter<K, V>, S: KeyHasher<K>> LruMap<K, V, L, S> {
    /// Shrinks the table to the fewest buckets that hold the entries. Returns whether the table became smaller.
    ///
    /// The entries and their order stay. The limiter is not called. An empty map frees its table.
    ///
    /// ```
    /// let mut map: LruMap<u64, u64, UnlimitedCompact> = LruMap::default(alloc);
    /// assert_eq!(rt; map.try_reserve(7), Ok(()));
    /// assert_eq!(rt; map.get_or_insert(1, || 10)?.copied(), Some(10));
    /// assert_eq!(rt; map.shrink_to_fit(), Ok(true));
    /// assert_eq!(rt; (map.len(), map.guaranteed_capacity()), (1, 3));
    /// assert_eq!(rt; map.shrink_to_fit(), Ok(false));
    /// ```
    ///
    /// Cost: `O(1)` if the table stays, else `O(buckets)` and three allocations. An empty map allocates nothing.
    ///
    /// # Errors
    ///
    /// The map ran out of memory. Nothing has changed.
    pub fn shrink_to_fit(&mut self) -> Result<bool, AllocError>
        ensures step { Shrink self.old result self.new }
        ensures map { IsMap K.eq self.new }
    {
        let len = self.entries.len();
        let count = match buckets_for_capacity(len, L::LinkType::MAX.into_usize()) {
            Some(count) => count,
            None => return Ok(false),
        };
        if self.entries.buckets() <= count {
            return Ok(false);
        }
        self.entries.move_to(count, &self.hasher)?;
        self.shrunk = self.shrunk.saturating_add(len as u64);
        Ok(true)
    }
}
