//! The length, the capacity, the memory, the limiter and the hasher of a map.
ghost use Rattle.std.specs.Prelude.{◌≡◌, ◌+◌, ◌<◌, length, Some};
ghost use Rattle.std.specs.Borrow.{sem};
ghost use Rattle.lru_model.specs.Lists.{is_empty};
ghost use Rattle.lru_model.specs.Sizes.{usage, IsGreatestUsage};
ghost use Rattle.lru_model.specs.State.{IsMap, buckets, growth_left};

use crate::map::LruMap;
use group_table::LinkType;
use lru_limits::{KeyHasher, Limiter};
use lru_model::sizes;
use std::fmt;
use std::hash::Hash;

impl<K: Eq + Hash, V, L: Limiter<K, V>, S: KeyHasher<K>> LruMap<K, V, L, S> {
    ghost use Rattle.schnellru.specs.Lending.Values.{lends_limiter};

    /// Returns the number of entries. Cost: `O(1)`.
    ///
    /// ```
    /// assert_eq!(rt; map.len(), 3);
    /// ```
    ///
    /// Follows schnellru's `LruMap::len`.
    #[inline]
    pub fn len(&self) -> usize
        ensures len { result ≡ length self.now.pairs }
        ensures map { IsMap K.eq self.now }
    {
        self.entries.len()
    }

    // Only for the prover.
    #[inline(always)]
    pub(crate) fn show_map(&self)
        ensures { IsMap K.eq self.now }
    {
        let _ = &self.entries;
    }

    /// Returns whether the map is empty. Cost: `O(1)`.
    ///
    /// ```
    /// let map: LruMap<u64, u32> = LruMap::with_hasher(alloc, ByLength::new(3), RandomState::default(), 24);
    /// assert!(rt; map.is_empty() && map.memory_usage() == 0);
    /// ```
    ///
    /// Follows schnellru's `LruMap::is_empty`.
    #[inline]
    pub fn is_empty(&self) -> bool
        ensures { result ≡ is_empty self.now.pairs }
    {
        self.entries.len() == 0
    }

    /// Returns the number of entries that the table can surely hold without growing: `len` plus the growth left.
    ///
    /// This capacity may fall when an entry is removed from a table of more than 16 buckets. Cost: `O(1)`.
    ///
    /// ```
    /// let mut map: LruMap<u64, u64, UnlimitedCompact> = LruMap::default(alloc);
    /// assert_eq!(rt; map.try_reserve(7), Ok(()));
    /// assert_eq!(rt; (map.guaranteed_capacity(), map.len()), (7, 0));
    /// ```
    ///
    /// Follows schnellru's `LruMap::guaranteed_capacity`.
    pub fn guaranteed_capacity(&self) -> usize
        ensures { result ≡ length self.now.pairs + growth_left self.now }
    {
        self.entries.len() + self.entries.growth_left()
    }

    /// Returns the number of bytes of the table, or 0 if it has no buckets. For n buckets, the number is
    /// `n * entry_bytes` rounded up to a multiple of 16, plus n, plus 16.
    ///
    /// Cost: `O(1)`.
    ///
    /// ```
    /// let mut map: LruMap<u32, u32, ByMemoryUsage> = LruMap::with_memory_budget(alloc, 84, [1, 2, 3, 4], 16);
    /// for n in 1..=4 {
    ///     map.insert(n, n)?;
    /// }
    /// assert!(rt; map.len() == 3 && map.memory_usage() == 84 && map.peek(&1).is_none());
    /// ```
    ///
    /// Follows schnellru's `LruMap::memory_usage`.
    pub fn memory_usage(&self) -> usize
        ensures { usage self.now.entry_bytes (buckets self.now) ≡ Some result }
    {
        let buckets = self.bucket_count();
        if buckets == 0 {
            return 0;
        }
        sizes::bytes_of(self.entry_bytes, buckets)
    }

    /// Returns the greatest `memory_usage` within a budget, if an entry has `entry_bytes` bytes. Returns 0 if no table
    /// fits.
    ///
    /// ```
    /// let usage = LruMap::<u32, u32, UnlimitedCompact>::memory_usage_for_memory_budget(512, 16);
    /// assert_eq!(rt; usage, 288);
    /// ```
    ///
    /// Cost: at most 62 steps.
    ///
    /// Follows schnellru's `LruMap::memory_usage_for_memory_budget`.
    pub fn memory_usage_for_memory_budget(budget: usize, entry_bytes: usize) -> usize
        ensures { IsGreatestUsage (L.LinkType.number L.LinkType.MAX) entry_bytes budget result }
    {
        sizes::usage_within(L::LinkType::MAX.into_usize(), entry_bytes, budget)
    }

    /// Returns the limiter. Cost: `O(1)`.
    ///
    /// ```
    /// map.set_limiter(ByLength::new(1));
    /// assert_eq!(rt; map.limiter().max_length(), 1);
    /// ```
    ///
    /// Follows schnellru's `LruMap::limiter`.
    pub fn limiter(&self) -> &L
        ensures { result.now ≡ self.now.limiter }
    {
        &self.limiter
    }

    /// Returns the hasher of the map. `map.hasher().hash_named(&key)` returns the hash of a key. Cost: `O(1)`.
    ///
    /// ```
    /// let hash = map.hasher().hash_named(&5);
    /// let inserted = map.insert_hashed(hash, 5, 50, &mut |_, _| {})?;
    /// assert!(rt; inserted.kept);
    /// ```
    ///
    /// Follows std's `HashMap::hasher`.
    pub fn hasher(&self) -> &S
        ensures { result.now ≡ self.now.hasher }
    {
        &self.hasher
    }

    /// Lends the limiter for writing. A lower limit takes effect at the next `trim`, or at the next insert or update
    /// that the limiter accepts. A lower limit of `ByMemoryUsage` takes effect at the next growth.
    ///
    /// Do not assign a limiter with another running total. After `*map.limiter_mut() = ByCost::new(n)`, the limiter
    /// would count the stored entries as 0. To change the limit, call `set_limiter` with `map.limiter().with_limit(n)`.
    ///
    /// ```
    /// *map.limiter_mut() = ByLength::new(1);
    /// assert_eq!(rt; map.len(), 3);
    /// map.insert(4, 40)?;
    /// assert_eq!(rt; map.len(), 1);
    /// ```
    ///
    /// Cost: `O(1)`.
    ///
    /// Follows schnellru's `LruMap::limiter_mut`.
    pub fn limiter_mut(&mut self) -> &mut L
        ensures* writes_back { sem 𝓛 (lends_limiter K.row V.row L.row S.row L.LinkType.row S.Hasher.row K.Hash L.Limiter
            L.LinkType.LinkType S.KeyHasher S.Hasher.Hasher self.entry result) }
        ensures value { result.now ≡ self.old.limiter }
    {
        &mut self.limiter
    }
}

impl<K: Eq + Hash, V, L: Limiter<K, V>, S: KeyHasher<K>> LruMap<K, V, L, S> {
    #[inline]
    pub(super) fn bucket_count(&self) -> usize
        ensures count { result ≡ buckets self.now }
        ensures reached { result < L.LinkType.number L.LinkType.MAX }
        ensures max { self.now.max ≡ L.LinkType.number L.LinkType.MAX }
        ensures map { IsMap K.eq self.now }
    {
        self.entries.buckets()
    }

    #[inline]
    pub(super) fn growth_left(&self) -> usize
        ensures growth_left { result ≡ growth_left self.now }
        ensures map { IsMap K.eq self.now }
    {
        self.entries.growth_left()
    }

    #[inline]
    pub(super) fn is_over_the_limit(&self) -> bool
        ensures { result ≡ L.rules.is_over_the_limit self.now.limiter (length self.now.pairs) }
    {
        self.limiter.is_over_the_limit(self.entries.len())
    }
}

/// Shows only the number of entries, as `LruMap { len: 3, .. }`.
impl<K: Eq + Hash, V, L: Limiter<K, V>, S: KeyHasher<K>> fmt::Debug for LruMap<K, V, L, S> {
    fn fmt<W: fmt::Write>(&self, f: &mut fmt::Formatter<W>) -> fmt::Result {
        let len = self.len();
        f.debug_struct("LruMap")
            .field("len", &len)
            .finish_non_exhaustive()
    }
}
