//! Calls that count. Each tenant's limiter stores the tenant's counts.
ghost use Rattle.std.specs.Prelude.{◌≡◌, None, Some, Ok, Err, IfSome};
ghost use Rattle.std.specs.Borrow.{sem};
ghost use Rattle.lru_limits.specs.Admissions.{offers_of};
ghost use Rattle.lru_model.specs.Lists.{lookup};
ghost use Rattle.lru_tenants.specs.Cache.{budgets, AreTenants, On};
ghost use Rattle.lru_tenants.specs.Counting.{counting_rules, counting_terms, AreCountingTenants, CountsGet, CountsPut};
ghost use Rattle.lru_tenants.specs.Counting.{CountsGetOrPut, SetsCounts, TakesCounts};
ghost use Rattle.lru_tenants.specs.GetOrPuts.{GetsOrPuts};
ghost use Rattle.lru_tenants.specs.Lending.{read};
ghost use Rattle.lru_tenants.specs.TenantRuns.{read_of, IfOpen, OfOpen, Puts};
ghost use Rattle.lru_tenants.specs.declared.error.TenantError.TheVariants.{NotOpen};

use crate::cache::TenantCache;
use crate::cache::passing::put_answer;
use crate::counting::Counting;
use crate::error::TenantError;
use crate::tenant::counted::{get_or_insert_counted, insert_counted, look_up, set_counts};
use crate::tenant::newest;
use lru_caches::Counts;
use lru_limits::Budgeted;
use schnellru::{KeyHasher, LookupKey};
use std::hash::Hash;

impl<N: Eq + Hash, K: Eq + Hash, V, L: Budgeted<K, V>, S: KeyHasher<K> + Copy> TenantCache<
    N,
    K,
    V,
    Counting<L>,
    S,
> {
    ghost use Rattle.lru_tenants.specs.CountedLending.{counted_ends_so};

    /// Returns the counts of a tenant since it was opened, or since its last `take_counts`.
    ///
    /// ```
    /// assert_eq!(rt; counted.counts(&1)?.insertions, 1);
    /// ```
    ///
    /// Cost: `O(1)` expected.
    ///
    /// # Errors
    ///
    /// `NotOpen`.
    pub fn counts<T: LookupKey<N>>(&self, name: &T) -> Result<Counts, TenantError>
        ensures { result ≡ read_of (λ map. map.limiter.counts) (lookup (T.names name.now) self.now.tenants) }
    {
        let Some(map) = self.tenants.peek(name) else {
            return Err(TenantError::NotOpen);
        };
        Ok(map.limiter().counts)
    }

    /// Sets the counts of a tenant.
    ///
    /// To count calls without a `_counted` form, use the methods of [`Counts`].
    ///
    /// ```
    /// let mut counts = counted.counts(&1)?;
    /// counts.count_look_up(false);
    /// assert_eq!(rt; (counted.set_counts(&1, counts), counted.counts(&1)), (Ok(()), Ok(counts)));
    /// ```
    ///
    /// Cost: `O(1)` expected.
    ///
    /// # Errors
    ///
    /// `NotOpen`.
    pub fn set_counts<T: LookupKey<N>>(
        &mut self,
        name: &T,
        counts: Counts,
    ) -> Result<(), TenantError>
        ensures sets { On N.eq (T.names name.now) (IfOpen (SetsCounts counts)) self.old result self.new }
        ensures tenants { AreCountingTenants K.eq L.cost_of L.account L.budget_of self.new }
    {
        let Some(own) = self.tenants.peek_mut(name) else {
            return Err(TenantError::NotOpen);
        };
        set_counts(own, counts);
        Ok(())
    }

    /// Returns the counts of a tenant, and sets them to zeros.
    ///
    /// ```
    /// assert_eq!(rt; counted.take_counts(&1)?.insertions, 1);
    /// assert_eq!(rt; counted.counts(&1), Ok(Counts::default()));
    /// ```
    ///
    /// Cost: `O(1)` expected.
    ///
    /// # Errors
    ///
    /// `NotOpen`.
    pub fn take_counts<T: LookupKey<N>>(&mut self, name: &T) -> Result<Counts, TenantError>
        ensures takes { On N.eq (T.names name.now) (IfOpen TakesCounts) self.old result self.new }
        ensures tenants { AreCountingTenants K.eq L.cost_of L.account L.budget_of self.new }
    {
        let Some(own) = self.tenants.peek_mut(name) else {
            return Err(TenantError::NotOpen);
        };
        let counts = own.limiter().counts;
        set_counts(own, Counts::default());
        Ok(counts)
    }

    /// Does what `get` does, and counts a hit or a miss.
    ///
    /// ```
    /// assert_eq!(rt; counted.get_counted(&1, &7), Ok(Some(&2)));
    /// assert_eq!(rt; counted.counts(&1)?.hits, 1);
    /// ```
    ///
    /// Cost: `O(1)` expected.
    ///
    /// # Errors
    ///
    /// `NotOpen`.
    pub fn get_counted<T: LookupKey<N>, Q: LookupKey<K>>(
        &mut self,
        name: &T,
        key: &Q,
    ) -> Result<Option<&V>, TenantError>
        ensures* leaves { sem 𝓛 (counted_ends_so N.row K.row V.row L.row S.row L.LinkType.row S.Hasher.row N.Hash K.Hash
            L.Budgeted L.LinkType.LinkType S.KeyHasher S.Hasher.Hasher self.entry
            (On N.eq (T.names name.now) (IfOpen (CountsGet (Q.names key.now))) self.old (read result))) }
        ensures value { read result
            ≡ read_of (λ map. lookup (Q.names key.now) map.pairs) (lookup (T.names name.now) self.old.tenants) }
    {
        let Some(own) = self.tenants.peek_mut(name) else {
            return Err(TenantError::NotOpen);
        };
        if !look_up(own, key) {
            return Ok(None);
        }
        Ok(newest(own))
    }
}

impl<
    N: Eq + Hash + Drop,
    K: Eq + Hash + Drop,
    V: Drop,
    L: Budgeted<K, V> + Drop,
    S: KeyHasher<K> + Copy,
> TenantCache<N, K, V, Counting<L>, S> {
    ghost use Rattle.lru_tenants.specs.CountedLending.{counted_ends_so};

    /// Does what `put` does, and counts an insertion or a rejection, and the evictions.
    ///
    /// ```
    /// assert_eq!(rt; (counted.put_counted(&1, 8, 2), counted.put_counted(&1, 9, 4)), (Ok(true), Ok(false)));
    /// let counts = counted.counts(&1)?;
    /// assert_eq!(rt; (counts.insertions, counts.rejections, counts.evictions), (2, 1, 1));
    /// ```
    ///
    /// Cost: as `put`, plus a search.
    ///
    /// # Errors
    ///
    /// As `put`. The evicted entries are counted.
    pub fn put_counted<T: LookupKey<N>>(
        &mut self,
        name: &T,
        key: K,
        value: V,
    ) -> Result<bool, TenantError>
        ensures puts { On N.eq (T.names name.now) (OfOpen (CountsPut (Puts (counting_rules L.rules)
            (offers_of (counting_terms L.terms)) (λ s. L.budget_of s.limiter) K.eq S.hash_of key value) (K.eq key)))
            self.old result self.new }
        ensures total { budgets (λ s. L.budget_of s.limiter) self.new ≡ budgets (λ s. L.budget_of s.limiter) self.old }
        ensures tenants { AreCountingTenants K.eq L.cost_of L.account L.budget_of self.new }
    {
        let Some(own) = self.tenants.peek_mut(name) else {
            return Err(TenantError::NotOpen);
        };
        put_answer(insert_counted(own, key, value))
    }

    /// Does what `get_or_put` does. If the key is there, counts a hit. Otherwise counts a miss, and the put (see
    /// `put_counted`).
    ///
    /// ```
    /// assert_eq!(rt; counted.get_or_put_counted(&1, 7, || 3), Ok(Some(&2)));
    /// assert_eq!(rt; counted.get_or_put_counted(&1, 8, || 2), Ok(Some(&2)));
    /// let counts = counted.counts(&1)?;
    /// assert_eq!(rt; (counts.hits, counts.misses, counts.insertions, counts.evictions), (1, 1, 2, 1));
    /// ```
    ///
    /// Cost: as `get` if the key is there, else as `put_counted`.
    ///
    /// # Errors
    ///
    /// As `put`. If the error is `Memory`, the closure was called, and the miss and the evicted entries are counted.
    pub fn get_or_put_counted<T: LookupKey<N>, F: FnOnce() -> V>(
        &mut self,
        name: &T,
        key: K,
        make: F,
    ) -> Result<Option<&V>, TenantError>
        requires callable { IfSome (lookup (T.names name.now) self.old.tenants) (λ map.
            lookup (K.eq key) map.pairs ≡ None → F.pre make) }
        ensures* leaves { sem 𝓛 (counted_ends_so N.row K.row V.row L.row S.row L.LinkType.row S.Hasher.row N.Hash K.Hash
            L.Budgeted L.LinkType.LinkType S.KeyHasher S.Hasher.Hasher self.entry
            (On N.eq (T.names name.now) (OfOpen (CountsGetOrPut (GetsOrPuts (counting_rules L.rules)
            (offers_of (counting_terms L.terms)) (λ s. L.budget_of s.limiter) K.eq S.hash_of (F.post make) key)
            (K.eq key))) self.old (read result))) }
        ensures not_open { lookup (T.names name.now) self.old.tenants ≡ None → read result ≡ Err NotOpen }
        ensures there { IfSome (lookup (T.names name.now) self.old.tenants) (λ map.
            IfSome (lookup (K.eq key) map.pairs) (λ value. read result ≡ Ok (Some value))) }
    {
        let Some(own) = self.tenants.peek_mut(name) else {
            return Err(TenantError::NotOpen);
        };
        let Ok(there) = get_or_insert_counted(own, key, make) else {
            return Err(TenantError::Memory);
        };
        if !there {
            return Ok(None);
        }
        Ok(newest(own))
    }
}
