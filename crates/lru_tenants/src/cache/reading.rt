ghost use Rattle.std.specs.Prelude.{◌≡◌, ◌<◌, ◌^◌, length, is_some, IfOk, IfSome};
ghost use Rattle.std.specs.Borrow.{sem};
ghost use Rattle.std.specs.Map.{keys_of};
ghost use Rattle.std.specs.Map.Iter.{ShowsInOrder, ShowsInReverse, deref, deref_pair};
ghost use Rattle.lru_model.specs.Lists.{lookup};
ghost use Rattle.lru_tenants.specs.Cache.{AreTenants, On};
ghost use Rattle.lru_tenants.specs.TenantRuns.{read_of, Gets};
ghost use Rattle.lru_tenants.specs.Lending.{read};

use crate::cache::TenantCache;
use crate::error::TenantError;
use lru_limits::Budgeted;
use schnellru::{Iter, KeyHasher, Keys, LookupKey, LruMap};
use std::hash::Hash;

impl<N: Eq + Hash, K: Eq + Hash, V, L: Budgeted<K, V>, S: KeyHasher<K> + Copy> TenantCache<
    N,
    K,
    V,
    L,
    S,
> {
    ghost use Rattle.lru_tenants.specs.Lending.{ends_so};

    /// Returns the value of a tenant's key, and makes the key's entry the tenant's newest.
    ///
    /// ```
    /// assert_eq!(rt; cache.get(&1, &7), Ok(Some(&2)));
    /// ```
    ///
    /// Cost: `O(1)` expected.
    ///
    /// # Errors
    ///
    /// `NotOpen`.
    pub fn get<T: LookupKey<N>, Q: LookupKey<K>>(
        &mut self,
        name: &T,
        key: &Q,
    ) -> Result<Option<&V>, TenantError>
        ensures* leaves { sem 𝓛 (ends_so N.row K.row V.row L.row S.row L.LinkType.row S.Hasher.row N.Hash K.Hash
            L.Budgeted L.LinkType.LinkType S.KeyHasher S.Hasher.Hasher self.entry
            (On N.eq (T.names name.now) (Gets (Q.names key.now)) self.old (read result))) }
        ensures value { read result
            ≡ read_of (λ map. lookup (Q.names key.now) map.pairs) (lookup (T.names name.now) self.old.tenants) }
    {
        let Some(map) = self.tenants.peek_mut(name) else {
            return Err(TenantError::NotOpen);
        };
        match map.get(key) {
            Some(value) => Ok(Some(&*value)),
            None => Ok(None),
        }
    }

    /// Returns the value of a tenant's key. The order stays.
    ///
    /// ```
    /// assert_eq!(rt; cache.peek(&1, &7), Ok(Some(&2)));
    /// ```
    ///
    /// Cost: `O(1)` expected.
    ///
    /// # Errors
    ///
    /// `NotOpen`.
    pub fn peek<T: LookupKey<N>, Q: LookupKey<K>>(
        &self,
        name: &T,
        key: &Q,
    ) -> Result<Option<&V>, TenantError>
        ensures { read result
            ≡ read_of (λ map. lookup (Q.names key.now) map.pairs) (lookup (T.names name.now) self.now.tenants) }
    {
        let Some(map) = self.tenants.peek(name) else {
            return Err(TenantError::NotOpen);
        };
        Ok(map.peek(key))
    }

    /// Returns whether a tenant has an entry for a key.
    ///
    /// ```
    /// assert_eq!(rt; cache.contains(&1, &7), Ok(true));
    /// ```
    ///
    /// Cost: `O(1)` expected.
    ///
    /// # Errors
    ///
    /// `NotOpen`.
    pub fn contains<T: LookupKey<N>, Q: LookupKey<K>>(
        &self,
        name: &T,
        key: &Q,
    ) -> Result<bool, TenantError>
        ensures { result
            ≡ read_of (λ map. is_some (lookup (Q.names key.now) map.pairs)) (lookup (T.names name.now) self.now.tenants) }
    {
        let Some(map) = self.tenants.peek(name) else {
            return Err(TenantError::NotOpen);
        };
        Ok(map.contains(key))
    }

    /// Returns an iterator over a tenant's entries, newest first.
    ///
    /// ```
    /// assert!(rt; cache.iter(&1)?.next() == Some((&7, &2)));
    /// ```
    ///
    /// Cost: `O(1)` expected, and `O(1)` for each step from either end.
    ///
    /// # Errors
    ///
    /// `NotOpen`.
    pub fn iter<T: LookupKey<N>>(&self, name: &T) -> Result<Iter<'_, K, V, L>, TenantError>
        ensures rest { result ≡ read_of (λ map. map.pairs) (lookup (T.names name.now) self.now.tenants) }
        ensures runs { IfOk result (λ walk. ShowsInOrder (deref_pair {K = K} {X = V})) }
        ensures runs_back { IfOk result (λ walk. ShowsInReverse (deref_pair {K = K} {X = V})) }
        ensures fits { IfSome (lookup (T.names name.now) self.now.tenants) (λ map. length map.pairs < 2 ^ 64) }
    {
        let Some(map) = self.tenants.peek(name) else {
            return Err(TenantError::NotOpen);
        };
        Ok(map.iter())
    }

    /// Returns how many entries a tenant has.
    ///
    /// ```
    /// assert_eq!(rt; cache.entries(&1), Ok(1));
    /// ```
    ///
    /// Cost: `O(1)` expected.
    ///
    /// # Errors
    ///
    /// `NotOpen`.
    pub fn entries<T: LookupKey<N>>(&self, name: &T) -> Result<usize, TenantError>
        ensures { result ≡ read_of (λ map. length map.pairs) (lookup (T.names name.now) self.now.tenants) }
    {
        let Some(map) = self.tenants.peek(name) else {
            return Err(TenantError::NotOpen);
        };
        Ok(map.len())
    }

    /// Returns the budget of a tenant.
    ///
    /// ```
    /// assert_eq!(rt; cache.budget(&1), Ok(3));
    /// ```
    ///
    /// Cost: `O(1)` expected.
    ///
    /// # Errors
    ///
    /// `NotOpen`.
    pub fn budget<T: LookupKey<N>>(&self, name: &T) -> Result<u64, TenantError>
        ensures { result ≡ read_of (λ map. L.budget_of map.limiter) (lookup (T.names name.now) self.now.tenants) }
    {
        let Some(map) = self.tenants.peek(name) else {
            return Err(TenantError::NotOpen);
        };
        Ok(map.limiter().budget())
    }

    /// Returns the sum of the costs of a tenant's entries.
    ///
    /// ```
    /// assert_eq!(rt; cache.cost(&1), Ok(2));
    /// ```
    ///
    /// Cost: `O(1)` expected.
    ///
    /// # Errors
    ///
    /// `NotOpen`.
    pub fn cost<T: LookupKey<N>>(&self, name: &T) -> Result<u64, TenantError>
        ensures cost { result ≡ read_of (λ map. L.account map.limiter) (lookup (T.names name.now) self.now.tenants) }
        ensures tenants { AreTenants K.eq L.cost_of L.account L.budget_of self.now }
    {
        let Some(map) = self.tenants.peek(name) else {
            return Err(TenantError::NotOpen);
        };
        Ok(map.limiter().account())
    }

    /// Returns the names of the open tenants, in no particular order.
    ///
    /// ```
    /// assert_eq!(rt; cache.names().next(), Some(&1));
    /// ```
    ///
    /// Cost: `O(1)`, and `O(1)` for each name.
    pub fn names(&self) -> Keys<'_, N, LruMap<K, V, L, S>, usize>
        ensures names { result ≡ keys_of self.now.tenants }
        ensures runs { ShowsInOrder (deref {X = N}) }
    {
        self.tenants.keys()
    }
}
