ghost use Rattle.std.specs.Prelude.{◌≡◌, ◌+◌, [], length, Ok, None};
ghost use Rattle.std.specs.Result.{OnErr};
ghost use Rattle.std.specs.List.{IsDistinct};
ghost use Rattle.std.specs.Map.{keys_of};
ghost use Rattle.lru_limits.specs.Mixing.{seeded};
ghost use Rattle.lru_limits.specs.Admissions.{offers_of};
ghost use Rattle.lru_model.specs.Lists.{is_empty};
ghost use Rattle.ordered_table.specs.EntrySize.{entry_size};
ghost use Rattle.lru_tenants.specs.Cache.{budgets, budgets_with, is_over, fresh, IsTenant, AreTenants, On};
ghost use Rattle.lru_tenants.specs.TenantRuns.{OfOpen, Opens, SetsBudget, Puts, Closes, Takes};

use crate::error::TenantError;
use lru_limits::Budgeted;
use schnellru::{ByCost, Costed, KeyHasher, LookupKey, LruMap, RandomState, Unlimited, laws};
use std::alloc::Global;
use std::hash::Hash;
use std::marker::Model;

mod counted;
mod get_or_put;
mod passing;
mod reading;
mod removing;
mod totals;

use totals::is_above;

/// A cache for many tenants. Each tenant has a name, and a map limited by its own budget.
///
/// The limiter `L` says what an entry costs. `S` hashes names and keys.
///
/// In the examples of the calls, `cache` has one tenant, 1, with a budget of 3 and the entry (7, 2).
///
/// ```
/// let mut cache: TenantCache<u64, u64, u64> = TenantCache::new(alloc, [1, 2, 3, 4]);
/// assert_eq!(rt; cache.open(1, 3), Ok(()));
/// assert_eq!(rt; cache.put(&1, 7, 2), Ok(true));
/// assert_eq!(rt; cache.cost(&1), Ok(2));
/// ```
pub struct TenantCache<
    N: Eq + Hash,
    K: Eq + Hash,
    V,
    L: Budgeted<K, V> = ByCost,
    S: KeyHasher<K> + Copy = RandomState,
> {
    tenants: LruMap<N, LruMap<K, V, L, S>, Unlimited, S>,
    hasher: S,
    budgets: u128,
    total_limit: Option<u64>,
    alloc: Global,
}

impl<N: Eq + Hash, K: Eq + Hash, V, L: Budgeted<K, V>, S: KeyHasher<K> + Copy> Model
    for TenantCache<N, K, V, L, S> {
    ghost use Rattle.lru_tenants.specs.Cache.{Cache};
    ghost use Rattle.lru_tenants.specs.Inside.{Holds};

    ghost Value = { Cache N K V L S };

    ghost view = { λ c. record {
      tenants = c.tenants.pairs;
      hasher = c.hasher;
      total_limit = c.total_limit;
    } };

    ghost invariant = { λ c. Holds K.eq L.cost_of L.account L.budget_of c.tenants.pairs c.budgets c.total_limit };
}

impl<
    N: Eq + Hash + Drop,
    K: Eq + Hash + Drop,
    V: Drop,
    L: Budgeted<K, V> + Drop,
    S: KeyHasher<K> + Copy,
> Drop for TenantCache<N, K, V, L, S> {
    fn drop(self) {
        let TenantCache {
            tenants,
            hasher: _,
            budgets: _,
            total_limit: _,
            alloc: _,
        } = self;
        drop(tenants);
    }
}

impl<N: Eq + Hash, K: Eq + Hash + Drop, V: Costed + Drop> TenantCache<N, K, V> {
    /// Makes a cache without tenants and without a total limit. An entry costs what its value costs.
    ///
    /// If strangers choose names or keys, take seeds that nobody can guess. Cost: `O(1)`, and no memory.
    ///
    /// ```
    /// let mut cache: TenantCache<u64, u64, u64> = TenantCache::new(alloc, [1, 2, 3, 4]);
    /// assert!(rt; cache.is_empty());
    /// ```
    pub fn new(alloc: Global, seeds: [u64; 4]) -> Self
        ensures { result ≡ record { tenants = []; hasher = seeded seeds; total_limit = None } }
    {
        TenantCache::with_hasher(alloc, RandomState::with_seeds(seeds))
    }
}

impl<N: Eq + Hash, K: Eq + Hash, V, L: Budgeted<K, V>, S: KeyHasher<K> + Copy> TenantCache<
    N,
    K,
    V,
    L,
    S,
> {
    /// Makes a cache without tenants, with any limiter that has a budget.
    ///
    /// If strangers choose names or keys, take std's `RandomState::new(&rt)?`, whose hashes nobody can guess. Cost:
    /// `O(1)`, and no memory.
    ///
    /// ```
    /// let mut weighed: TenantCache<u64, u64, u64, ByWeight<16>, _> =
    ///     TenantCache::with_hasher(alloc, std::collections::hash_map::RandomState::new(&rt)?);
    /// assert_eq!(rt; (weighed.open(1, 40), weighed.put(&1, 7, 2)), (Ok(()), Ok(true)));
    /// assert_eq!(rt; weighed.cost(&1), Ok(25));
    /// ```
    pub fn with_hasher(alloc: Global, hasher: S) -> Self
        ensures { result ≡ record { tenants = []; hasher = hasher; total_limit = None } }
    {
        TenantCache {
            tenants: LruMap::<N, LruMap<K, V, L, S>, Unlimited, S>::with_limiter_and_hasher(
                alloc, Unlimited, hasher,
            ),
            hasher,
            budgets: 0,
            total_limit: None,
            alloc,
        }
    }

    /// Returns how many tenants are open.
    ///
    /// ```
    /// assert_eq!(rt; (cache.len(), cache.close(&1), cache.len()), (1, Ok(1), 0));
    /// ```
    ///
    /// Cost: `O(1)`.
    pub fn len(&self) -> usize
        ensures len { result ≡ length self.now.tenants }
        ensures names { IsDistinct N.eq (keys_of self.now.tenants) }
        ensures tenants { AreTenants K.eq L.cost_of L.account L.budget_of self.now }
    {
        self.tenants.len()
    }

    /// Returns whether no tenant is open.
    ///
    /// ```
    /// assert!(rt; !cache.is_empty());
    /// ```
    ///
    /// Cost: `O(1)`.
    pub fn is_empty(&self) -> bool
        ensures { result ≡ is_empty self.now.tenants }
    {
        self.tenants.is_empty()
    }
}

impl<
    N: Eq + Hash + Drop,
    K: Eq + Hash + Drop,
    V: Drop,
    L: Budgeted<K, V> + Drop,
    S: KeyHasher<K> + Copy,
> TenantCache<N, K, V, L, S> {
    /// Opens a tenant with an empty map and a budget for the total cost of its entries.
    ///
    /// ```
    /// assert_eq!(rt; cache.open(2, 3), Ok(()));
    /// assert_eq!(rt; cache.open(1, 5), Err(TenantError::AlreadyOpen));
    /// ```
    ///
    /// Cost: `O(1)` expected, amortised over the tenants.
    ///
    /// # Errors
    ///
    /// `AlreadyOpen`, `OverTotal` or `Memory`: nothing has changed.
    pub fn open(&mut self, name: N, budget: u64) -> Result<(), TenantError>
        ensures opens { On N.eq (N.eq name) (Opens (is_over L.budget_of (N.eq name) budget self.old)
            (fresh L.made (entry_size K.row V.row L.LinkType.row) (L.LinkType.number L.LinkType.MAX) self.old budget))
            self.old result self.new }
        ensures total { result ≡ Ok tt → budgets L.budget_of self.new ≡ budgets L.budget_of self.old + budget }
        ensures unchanged { OnErr result (self.new ≡ self.old) }
        ensures tenants { AreTenants K.eq L.cost_of L.account L.budget_of self.new }
    {
        if self.tenants.contains(&name) {
            return Err(TenantError::AlreadyOpen);
        }
        let _len = self.tenants.len();
        let sum = self.budgets + budget as u128;
        if is_above(self.total_limit, sum) {
            return Err(TenantError::OverTotal);
        }
        let map = self.fresh(budget);
        let Ok(()) = self.tenants.try_insert(name, map) else {
            return Err(TenantError::Memory);
        };
        self.budgets = sum;
        Ok(())
    }

    fn fresh(&self, budget: u64) -> LruMap<K, V, L, S>
        ensures map { result ≡ fresh L.made (entry_size K.row V.row L.LinkType.row) (L.LinkType.number L.LinkType.MAX)
            self.now budget }
        ensures tenant { IsTenant K.eq L.cost_of L.account L.budget_of result }
    {
        laws::runs_begin_with_maps::<K, V, L, S>();
        LruMap::with_limiter_and_hasher(self.alloc, L::with_budget(budget), self.hasher)
    }

    /// Inserts a key with a value, as the newest entry of the tenant. Returns whether the key is there afterwards.
    ///
    /// `ByCost` and `ByWeight` reject the entry if its cost alone is above the budget, or if the tenant's total would
    /// be above `u64::MAX`. A rejection removes the key's old entry. If the limiter accepts the entry, the tenant's
    /// oldest entries are evicted until the total cost is within the budget.
    ///
    /// ```
    /// assert_eq!(rt; cache.put(&1, 8, 1), Ok(true));
    /// assert_eq!(rt; cache.put(&1, 9, 4), Ok(false));
    /// ```
    ///
    /// Cost: as `LruMap::insert`.
    ///
    /// # Errors
    ///
    /// `NotOpen` or `Memory`. After `Memory`, some of the tenant's oldest entries may have been evicted.
    pub fn put<T: LookupKey<N>>(&mut self, name: &T, key: K, value: V) -> Result<bool, TenantError>
        ensures puts { On N.eq (T.names name.now) (OfOpen (Puts L.rules (offers_of L.terms) L.budget_of K.eq S.hash_of key value))
            self.old result self.new }
        ensures total { budgets L.budget_of self.new ≡ budgets L.budget_of self.old }
        ensures tenants { AreTenants K.eq L.cost_of L.account L.budget_of self.new }
    {
        self.put_with(name, key, value, &mut |_, _| {})
    }

    /// Sets the budget of a tenant, and evicts the tenant's oldest entries while its total cost is above the budget.
    ///
    /// ```
    /// assert_eq!(rt; (cache.set_budget(&1, 1), cache.cost(&1)), (Ok(()), Ok(0)));
    /// ```
    ///
    /// Cost: `O(1)` expected, and `O(1)` for each entry that is evicted.
    ///
    /// # Errors
    ///
    /// `NotOpen` or `OverTotal`.
    pub fn set_budget<T: LookupKey<N>>(&mut self, name: &T, budget: u64) -> Result<(), TenantError>
        ensures sets { On N.eq (T.names name.now)
            (OfOpen (SetsBudget L.rules (L.rebudgeted budget) (is_over L.budget_of (T.names name.now) budget self.old)))
            self.old result self.new }
        ensures total { result ≡ Ok tt →
            budgets L.budget_of self.new ≡ budgets_with L.budget_of (T.names name.now) budget self.old }
        ensures unchanged { OnErr result (self.new ≡ self.old) }
        ensures tenants { AreTenants K.eq L.cost_of L.account L.budget_of self.new }
    {
        self.set_budget_with(name, budget, &mut |_, _| {})
    }

    /// Closes a tenant and drops its entries. Returns their number.
    ///
    /// ```
    /// assert_eq!(rt; (cache.len(), cache.close(&1), cache.len()), (1, Ok(1), 0));
    /// ```
    ///
    /// Cost: `O(buckets)` of the tenant's table.
    ///
    /// # Errors
    ///
    /// `NotOpen`.
    pub fn close<T: LookupKey<N>>(&mut self, name: &T) -> Result<usize, TenantError>
        ensures closes { On N.eq (T.names name.now) (OfOpen Closes) self.old result self.new }
        ensures total { budgets L.budget_of self.new ≡ budgets_with L.budget_of (T.names name.now) 0 self.old }
        ensures tenants { AreTenants K.eq L.cost_of L.account L.budget_of self.new }
    {
        let Some(map) = self.take_tenant(name) else {
            return Err(TenantError::NotOpen);
        };
        Ok(map.len())
    }

    pub(crate) fn take_tenant<T: LookupKey<N>>(&mut self, name: &T) -> Option<LruMap<K, V, L, S>>
        ensures takes { On N.eq (T.names name.now) Takes self.old result self.new }
        ensures total { budgets L.budget_of self.new ≡ budgets_with L.budget_of (T.names name.now) 0 self.old }
        ensures tenants { AreTenants K.eq L.cost_of L.account L.budget_of self.new }
    {
        let _len = self.tenants.len();
        let Some(map) = self.tenants.remove(name) else {
            return None;
        };
        self.budgets -= map.limiter().budget() as u128;
        Some(map)
    }
}
