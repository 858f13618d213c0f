//! The type `LruMap`. Contracts represent a map by a `State`: the limiter, the hasher, the states of the buckets, the
//! counts, and the entries, newest first.
ghost use Rattle.std.specs.Prelude.{◌≡◌};
ghost use Rattle.lru_limits.specs.Mixing.{seeded};
ghost use Rattle.lru_model.specs.Sizes.{max_of_32_bits};
ghost use Rattle.ordered_table.specs.EntrySize.{entry_size};
ghost use Rattle.lru_model.specs.State.{State, empty_map};

use lru_limits::{ByLength, ByMemoryUsage, KeyHasher, Limiter, RandomState};
use ordered_table::OrderedTable;
use std::alloc::Global;
use std::hash::Hash;
use std::marker::Model;

mod by_hash;
mod clone;
pub(crate) mod entry;
mod equal;
mod extend;
mod figures;
mod find;
pub(crate) mod get_or_insert;
pub(crate) mod insert;
mod insert_and_keep;
mod insert_new;
mod look_up;
mod pop_if;
mod remove;
mod replace;
mod report;
pub(crate) mod reserve;
mod resize;
mod retain;
mod shrink;
mod store;
mod trim;
mod try_insert;
pub(crate) mod update;

/// A hash map that keeps its entries in the order of their use, within the limit of a limiter.
///
/// `get` and `insert` make an entry the newest. A call that takes `&self` keeps the order. The limiter decides which
/// entries the map accepts, and how large the table may grow. When the limiter is over its limit, the oldest entries
/// are evicted.
///
/// The limiter's `on_removed` may write to an evicted or removed entry before the caller or the callback gets it. The
/// limiter is not notified when the caller writes to a lent value.
///
/// In the examples of the calls, `map` has a limit of three entries, and contains (1, 10), (2, 20) and the newest entry
/// (3, 30).
///
/// ```
/// let mut map: LruMap<u64, u64> = LruMap::with_limiter(alloc, ByLength::new(2));
/// map.insert(1, 10)?;
/// map.insert(2, 20)?;
/// map.get(&1);
/// map.insert(3, 30)?;
/// assert!(rt; map.peek(&2).is_none());
/// ```
///
/// # The bytes of an entry
///
/// An entry contains a key, a value and two links to its neighbours in the order of use. The links have the type `N`,
/// the limiter's `LinkType`. `default`, `with_limiter` and `with_limiter_and_hasher` compute the entry's size. If you
/// call another constructor, pass `size_of::<(K, V, N, N)>()` as `entry_bytes`.
///
/// `entry_bytes` does not change how much memory a table takes. If `entry_bytes` is too small, `ByMemoryUsage` and
/// `ByBytes` permit tables above their limit. If `entry_bytes` is too great, they refuse tables that would fit.
///
/// # The width of links
///
/// The width of `LinkType` bounds the number of entries: 112 with `u8`, 28,672 with `u16`, 1,879,048,192 with `u32`.
/// With `usize`, only memory bounds the number of entries. `limiters_fix_their_links` lists the width for each limiter.
///
/// Follows schnellru's `LruMap`.
pub struct LruMap<K: Eq + Hash, V, L: Limiter<K, V> = ByLength, S: KeyHasher<K> = RandomState> {
    pub(crate) entries: OrderedTable<K, V, L::LinkType>,
    limiter: L,
    hasher: S,
    entry_bytes: usize,
    moved: u64,
    shrunk: u64,
    alloc: Global,
}

impl<K: Eq + Hash, V, L: Limiter<K, V>, S: KeyHasher<K>> Model for LruMap<K, V, L, S> {
    ghost use Rattle.lru_model.specs.State.{State};
    ghost use Rattle.schnellru.specs.Inside.Fields.{fields_of};
    ghost use Rattle.schnellru.specs.Inside.Holds.{state_of, Holds};

    ghost Value = { State K V L S };

    ghost view = { λ m. state_of m.entries (fields_of m (L.LinkType.number L.LinkType.MAX)) };

    ghost invariant = { λ m. Holds K.eq S.hash_of m.entries (fields_of m (L.LinkType.number L.LinkType.MAX)) };
}

impl<K: Eq + Hash + Drop, V: Drop, L: Limiter<K, V> + Drop, S: KeyHasher<K> + Drop> Drop
    for LruMap<K, V, L, S> {
    fn drop(self) {
        let LruMap {
            entries,
            limiter,
            hasher,
            entry_bytes: _,
            moved: _,
            shrunk: _,
            alloc: _,
        } = self;
        drop(entries);
        drop(limiter);
        drop(hasher);
    }
}

impl<K: Eq + Hash, V, L: Limiter<K, V>, S: KeyHasher<K>> LruMap<K, V, L, S> {
    /// Makes an empty map with this limiter and this hasher. Cost: `O(1)`, and no memory.
    ///
    /// ```
    /// let map: LruMap<u64, u32> = LruMap::with_hasher(alloc, ByLength::new(3), RandomState::default(), 24);
    /// assert!(rt; map.is_empty() && map.memory_usage() == 0);
    /// ```
    ///
    /// Follows schnellru's `LruMap::with_hasher`.
    pub fn with_hasher(alloc: Global, limiter: L, hasher: S, entry_bytes: usize) -> Self
        ensures { result ≡ empty_map limiter hasher entry_bytes (L.LinkType.number L.LinkType.MAX) }
    {
        LruMap {
            entries: OrderedTable::new(alloc),
            limiter,
            hasher,
            entry_bytes,
            moved: 0,
            shrunk: 0,
            alloc,
        }
    }

    /// Calls `with_limiter` with the default limiter.
    ///
    /// ```
    /// let mut map: LruMap<u64, u64, UnlimitedCompact> = LruMap::default(alloc);
    /// ```
    ///
    /// Follows schnellru's `Default` for `LruMap`.
    pub fn default(alloc: Global) -> Self
    where
        L: Default,
        S: Default,
        ensures { (limiter : L) × (hasher : S) × L.is_default limiter × S.is_default hasher
            × (result ≡ empty_map limiter hasher (entry_size K.row V.row L.LinkType.row)
            (L.LinkType.number L.LinkType.MAX)) }
    {
        LruMap::with_limiter(alloc, L::default())
    }

    /// Makes an empty map with this limiter and the default hasher, and computes the bytes of an entry.
    ///
    /// If strangers choose the keys, call `with_limiter_and_hasher`, because the default seeds are known. Cost: `O(1)`,
    /// and no memory.
    ///
    /// ```
    /// let mut map: LruMap<u64, u64> = LruMap::with_limiter(alloc, ByLength::new(3));
    /// assert!(rt; map.insert(1, 10)?);
    /// ```
    ///
    /// Follows schnellru's `LruMap::new`, which takes only a limiter.
    pub fn with_limiter(alloc: Global, limiter: L) -> Self
    where
        S: Default,
        ensures { (hasher : S) × S.is_default hasher
            × (result ≡ empty_map limiter hasher (entry_size K.row V.row L.LinkType.row)
            (L.LinkType.number L.LinkType.MAX)) }
    {
        LruMap::with_limiter_and_hasher(alloc, limiter, S::default())
    }

    /// Makes an empty map with this limiter and this hasher, and computes the bytes of an entry. Cost: `O(1)`, and no
    /// memory.
    ///
    /// ```
    /// let seeded = RandomState::with_seeds([5, 6, 7, 8]);
    /// let map: LruMap<u64, u64> = LruMap::with_limiter_and_hasher(alloc, ByLength::new(3), seeded);
    /// assert!(rt; map.is_empty());
    /// ```
    ///
    /// Follows schnellru's `LruMap::with_hasher`, which takes no allocator.
    pub fn with_limiter_and_hasher(alloc: Global, limiter: L, hasher: S) -> Self
        ensures { result ≡ empty_map limiter hasher (entry_size K.row V.row L.LinkType.row)
            (L.LinkType.number L.LinkType.MAX) }
    {
        let entry_bytes = OrderedTable::<K, V, L::LinkType>::entry_bytes();
        LruMap::with_hasher(alloc, limiter, hasher, entry_bytes)
    }
}

impl<K: Eq + Hash, V, L: Limiter<K, V>> LruMap<K, V, L, RandomState> {
    /// Makes an empty map whose hasher has these seeds.
    ///
    /// Equal seeds give equal hashes. If strangers choose the keys, take seeds that nobody can guess. Cost: `O(1)`, and
    /// no memory.
    ///
    /// ```
    /// let mut map: LruMap<u64, u64, Unlimited> = LruMap::new(alloc, Unlimited, [1, 2, 3, 4], 32);
    /// assert_eq!(rt; map.try_reserve(usize::MAX), Err(ReserveError::TooLarge));
    /// ```
    ///
    /// Follows schnellru's `LruMap::new`.
    pub fn new(alloc: Global, limiter: L, seeds: [u64; 4], entry_bytes: usize) -> Self
        ensures { result ≡ empty_map limiter (seeded seeds) entry_bytes (L.LinkType.number L.LinkType.MAX) }
    {
        LruMap::with_hasher(alloc, limiter, RandomState::with_seeds(seeds), entry_bytes)
    }

    /// Calls `new`.
    ///
    /// ```
    /// let mut map: LruMap<u64, u64> = LruMap::with_seed(alloc, ByLength::new(3), [5, 6, 7, 8], 24);
    /// map.insert(1, 10)?;
    /// let hash = RandomState::with_seeds([5, 6, 7, 8]).hash_one(&1u64);
    /// assert_eq!(rt; map.peek_by_hash(hash, |key, _| *key == 1).copied(), Some(10));
    /// ```
    ///
    /// Follows schnellru's `LruMap::with_seed`.
    pub fn with_seed(alloc: Global, limiter: L, seeds: [u64; 4], entry_bytes: usize) -> Self
        ensures { result ≡ empty_map limiter (seeded seeds) entry_bytes (L.LinkType.number L.LinkType.MAX) }
    {
        LruMap::new(alloc, limiter, seeds, entry_bytes)
    }
}

impl<K: Eq + Hash, V, S: KeyHasher<K>> LruMap<K, V, ByMemoryUsage, S> {
    /// Makes an empty map with this hasher. `ByMemoryUsage` limits the table to `budget` bytes.
    ///
    /// Cost: `O(1)`, and no memory.
    ///
    /// ```
    /// let seeded = RandomState::with_seeds([5, 6, 7, 8]);
    /// let map: LruMap<u32, u32, ByMemoryUsage> = LruMap::with_memory_budget_and_hasher(alloc, 84, seeded, 16);
    /// assert_eq!(rt; map.limiter().max_memory_usage(), 84);
    /// ```
    ///
    /// Follows schnellru's `LruMap::with_memory_budget_and_hasher`.
    pub fn with_memory_budget_and_hasher(
        alloc: Global,
        budget: usize,
        hasher: S,
        entry_bytes: usize,
    ) -> Self
        ensures { result ≡ empty_map budget hasher entry_bytes max_of_32_bits }
    {
        LruMap::with_hasher(alloc, ByMemoryUsage::new(budget), hasher, entry_bytes)
    }
}

impl<K: Eq + Hash, V> LruMap<K, V, ByMemoryUsage, RandomState> {
    /// Makes an empty map whose hasher has these seeds. `ByMemoryUsage` limits the table to `budget` bytes.
    ///
    /// Cost: `O(1)`, and no memory.
    ///
    /// ```
    /// let mut map: LruMap<u32, u32, ByMemoryUsage> = LruMap::with_memory_budget(alloc, 84, [1, 2, 3, 4], 16);
    /// for n in 1..=4 {
    ///     map.insert(n, n)?;
    /// }
    /// assert!(rt; map.len() == 3 && map.memory_usage() == 84 && map.peek(&1).is_none());
    /// ```
    ///
    /// Follows schnellru's `LruMap::with_memory_budget`.
    pub fn with_memory_budget(
        alloc: Global,
        budget: usize,
        seeds: [u64; 4],
        entry_bytes: usize,
    ) -> Self
        ensures { result ≡ empty_map budget (seeded seeds) entry_bytes max_of_32_bits }
    {
        LruMap::with_memory_budget_and_hasher(
            alloc,
            budget,
            RandomState::with_seeds(seeds),
            entry_bytes,
        )
    }
}
