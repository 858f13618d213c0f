ghost use Rattle.std.specs.Prelude.{◌≡◌, []};
ghost use Rattle.std.specs.Result.{OnErr};
ghost use Rattle.lru_limits.specs.Admissions.{offers_of};
ghost use Rattle.lru_limits.specs.Mixing.{seeded};
ghost use Rattle.lru_tenants.specs.Pool.{opened, is_over, IsPool, On, SparesOthers};
ghost use Rattle.lru_tenants.specs.Pool.{Puts, PutsIfOpen, Closes};
ghost use Rattle.lru_model.specs.Lists.{lookup};
ghost use Rattle.ordered_table.specs.EntrySize.{entry_size};
ghost use Rattle.lru_tenants.specs.Inside.{has_entries};
ghost use Rattle.lru_tenants.specs.TenantRuns.{OfOpen, Opens};

use crate::error::TenantError;
use crate::tenant::insert;
use lru_limits::Budgeted;
use schnellru::{ByCost, Costed, KeyHasher, LookupKey, LruMap, RandomState, Unlimited};
use std::alloc::Global;
use std::hash::Hash;
use std::marker::Model;

mod evict;
mod part;
mod reading;

use evict::settle;
use part::{Part, cost_of, opened};

/// A cache for many tenants. Each tenant has its own share of one limit, and any tenant may use the rest.
///
/// All costs add up to at most the limit. While a tenant's cost is within its share, calls on other tenants do not
/// change this tenant.
///
/// In the examples of the calls, `pool` has a limit of 5 and two tenants. Tenant 1 has a share of 3 and the entry
/// (7, 2). Tenant 2 has a share of 1 and no entry.
///
/// ```
/// let mut pool: TenantPool<u64, u64, u64> = TenantPool::new(alloc, [1, 2, 3, 4], 5);
/// assert_eq!(rt; (pool.open(1, 3), pool.open(2, 1)), (Ok(()), Ok(())));
/// assert_eq!(rt; (pool.put(&1, 7, 2), pool.put(&2, 8, 3)), (Ok(true), Ok(true)));
/// assert_eq!(rt; (pool.put(&1, 9, 1), pool.cost(&2), pool.cost(&1)), (Ok(true), Ok(0), Ok(3)));
/// ```
pub struct TenantPool<
    N: Eq + Hash,
    K: Eq + Hash,
    V,
    L: Budgeted<K, V> = ByCost,
    S: KeyHasher<K> + Copy = RandomState,
> {
    tenants: LruMap<N, Part<K, V, L, S>, Unlimited, S>,
    hasher: S,
    limit: u64,
    shares: u64,
    total: u128,
    alloc: Global,
}

impl<N: Eq + Hash, K: Eq + Hash, V, L: Budgeted<K, V>, S: KeyHasher<K> + Copy> Model
    for TenantPool<N, K, V, L, S> {
    ghost use Rattle.lru_tenants.specs.Pool.{Pool};
    ghost use Rattle.lru_tenants.specs.Inside.{HoldsPool};

    ghost Value = { Pool N K V L S };

    ghost view = { λ p. record {
      tenants = p.tenants.pairs;
      limit = p.limit;
      hasher = p.hasher;
    } };

    ghost invariant = { λ p. HoldsPool K.eq L.cost_of L.account L.budget_of p.tenants.pairs p.limit p.shares p.total };
}

impl<
    N: Eq + Hash + Drop,
    K: Eq + Hash + Drop,
    V: Drop,
    L: Budgeted<K, V> + Drop,
    S: KeyHasher<K> + Copy,
> Drop for TenantPool<N, K, V, L, S> {
    fn drop(self) {
        let TenantPool {
            tenants,
            hasher: _,
            limit: _,
            shares: _,
            total: _,
            alloc: _,
        } = self;
        drop(tenants);
    }
}

impl<N: Eq + Hash, K: Eq + Hash + Drop, V: Costed + Drop> TenantPool<N, K, V> {
    /// Makes a pool without tenants (see `TenantCache::new`). Cost: `O(1)`, and no memory.
    ///
    /// ```
    /// let mut pool: TenantPool<u64, u64, u64> = TenantPool::new(alloc, [1, 2, 3, 4], 5);
    /// assert!(rt; pool.is_empty());
    /// ```
    pub fn new(alloc: Global, seeds: [u64; 4], limit: u64) -> Self
        ensures { result ≡ record { tenants = []; limit = limit; hasher = seeded seeds } }
    {
        TenantPool::with_hasher(alloc, RandomState::with_seeds(seeds), limit)
    }
}

impl<N: Eq + Hash, K: Eq + Hash, V, L: Budgeted<K, V>, S: KeyHasher<K> + Copy> TenantPool<
    N,
    K,
    V,
    L,
    S,
> {
    /// Makes a pool without tenants (see `TenantCache::with_hasher`). Cost: `O(1)`, and no memory.
    ///
    /// ```
    /// let mut weighed: TenantPool<u64, u64, u64, ByWeight<16>, _> =
    ///     TenantPool::with_hasher(alloc, std::collections::hash_map::RandomState::new(&rt)?, 40);
    /// assert_eq!(rt; (weighed.open(1, 0), weighed.put(&1, 7, 2)), (Ok(()), Ok(true)));
    /// assert_eq!(rt; weighed.cost(&1), Ok(25));
    /// ```
    pub fn with_hasher(alloc: Global, hasher: S, limit: u64) -> Self
        ensures { result ≡ record { tenants = []; limit = limit; hasher = hasher } }
    {
        TenantPool {
            tenants: LruMap::<N, Part<K, V, L, S>, Unlimited, S>::with_limiter_and_hasher(
                alloc, Unlimited, hasher,
            ),
            hasher,
            limit,
            shares: 0,
            total: 0,
            alloc,
        }
    }
}

impl<
    N: Eq + Hash + Drop,
    K: Eq + Hash + Drop,
    V: Drop,
    L: Budgeted<K, V> + Drop,
    S: KeyHasher<K> + Copy,
> TenantPool<N, K, V, L, S> {
    /// Opens a tenant with an empty map and its own share of the limit.
    ///
    /// ```
    /// assert_eq!(rt; pool.open(1, 0), Err(TenantError::AlreadyOpen));
    /// assert_eq!(rt; (pool.open(3, 2), pool.open(3, 1)), (Err(TenantError::OverTotal), Ok(())));
    /// ```
    ///
    /// Cost: `O(1)` expected, amortised over the tenants.
    ///
    /// # Errors
    ///
    /// `AlreadyOpen`, `OverTotal` or `Memory`: nothing has changed.
    pub fn open(&mut self, name: N, share: u64) -> Result<(), TenantError>
        ensures opens { On N.eq (N.eq name) (Opens (is_over self.old share)
            (opened L.made (entry_size K.row V.row L.LinkType.row) (L.LinkType.number L.LinkType.MAX) self.old share))
            self.old result self.new }
        ensures unchanged { OnErr result (self.new ≡ self.old) }
        ensures pool { IsPool K.eq L.cost_of L.account L.budget_of self.new }
    {
        if self.tenants.contains(&name) {
            return Err(TenantError::AlreadyOpen);
        }
        let left = self.limit - self.shares;
        if share > left {
            return Err(TenantError::OverTotal);
        }
        let own = opened(self.alloc, self.hasher, self.limit, share);
        let Ok(()) = self.tenants.try_insert(name, own) else {
            return Err(TenantError::Memory);
        };
        self.shares += share;
        Ok(())
    }

    /// Inserts a key with a value, as the newest entry of the tenant. Returns whether the key is there afterwards.
    ///
    /// First does what `TenantCache::put` does for a tenant whose budget is the limit of the pool. Then, while the
    /// total cost is above the limit, evicts the oldest entry of the tenant furthest above its share. The new entry may
    /// be evicted, too. If several tenants are equally far above, any of them may lose an entry.
    ///
    /// ```
    /// assert_eq!(rt; (pool.put(&2, 8, 3), pool.put(&1, 9, 1)), (Ok(true), Ok(true)));
    /// assert_eq!(rt; (pool.cost(&1), pool.cost(&2)), (Ok(3), Ok(0)));
    /// assert_eq!(rt; (pool.put(&2, 8, 6), pool.put(&2, 8, 3)), (Ok(false), Ok(false)));
    /// ```
    ///
    /// Cost: as `LruMap::insert`, and `O(1)` for each tenant at each eviction.
    ///
    /// # Errors
    ///
    /// As `TenantCache::put`. No other tenant has changed.
    pub fn put<T: LookupKey<N>>(&mut self, name: &T, key: K, value: V) -> Result<bool, TenantError>
        ensures puts { PutsIfOpen (Puts L.rules (offers_of L.terms) L.account N.eq K.eq S.hash_of (T.names name.now) key value)
            (lookup (T.names name.now) self.old.tenants) self.old result self.new }
        ensures spares { SparesOthers L.account N.eq (T.names name.now) self.old self.new }
        ensures pool { IsPool K.eq L.cost_of L.account L.budget_of self.new }
    {
        let Some(own) = self.tenants.peek_mut(name) else {
            return Err(TenantError::NotOpen);
        };
        let (_, map) = own;
        let before = cost_of(map);
        let inserted = insert(map, key, value, &mut |_, _| {});
        let after = cost_of(map);
        let total = self.total - before as u128 + after as u128;
        let Ok(kept) = inserted else {
            self.total = total;
            return Err(TenantError::Memory);
        };
        self.total = settle(&mut self.tenants, total, self.limit);
        let is_left = has_entries(&self.tenants, name);
        Ok(kept & is_left)
    }

    /// Closes a tenant, drops its entries and frees its share. Returns how many entries there were.
    ///
    /// ```
    /// assert_eq!(rt; (pool.len(), pool.close(&1), pool.len()), (2, Ok(1), 1));
    /// ```
    ///
    /// Cost: `O(buckets)` of the tenant's table.
    ///
    /// # Errors
    ///
    /// `NotOpen`.
    pub fn close<T: LookupKey<N>>(&mut self, name: &T) -> Result<usize, TenantError>
        ensures closes { On N.eq (T.names name.now) (OfOpen Closes) self.old result self.new }
        ensures pool { IsPool K.eq L.cost_of L.account L.budget_of self.new }
    {
        let _len = self.tenants.len();
        let Some(own) = self.tenants.remove(name) else {
            return Err(TenantError::NotOpen);
        };
        let (share, map) = own;
        self.shares -= share;
        self.total -= cost_of(&map) as u128;
        Ok(map.len())
    }
}

fn has_entries<
    N: Eq + Hash,
    K: Eq + Hash,
    V,
    L: Budgeted<K, V>,
    S: KeyHasher<K>,
    H: KeyHasher<N>,
    T: LookupKey<N>,
>(tenants: &LruMap<N, Part<K, V, L, S>, Unlimited, H>, name: &T) -> bool
    ensures { result ≡ has_entries (lookup (T.names name.now) tenants.now.pairs) }
{
    match tenants.peek(name) {
        Some((_, map)) => !map.is_empty(),
        None => false,
    }
}
