ghost use Rattle.std.specs.Prelude.{◌≡◌, ◌≤◌, length, is_some};
ghost use Rattle.std.specs.Borrow.{sem};
ghost use Rattle.std.specs.List.{IsDistinct};
ghost use Rattle.std.specs.Map.{keys_of};
ghost use Rattle.lru_model.specs.Lists.{is_empty, lookup};
ghost use Rattle.lru_tenants.specs.Lending.{read};
ghost use Rattle.lru_tenants.specs.Pool.{read_part, cost, total_cost, IsPool, On, Gets, Removes};
ghost use Rattle.lru_tenants.specs.TenantRuns.{OfOpen};

use crate::error::TenantError;
use crate::pool::TenantPool;
use crate::pool::part::cost_of;
use crate::tenant::remove;
use lru_limits::Budgeted;
use schnellru::{KeyHasher, LookupKey};
use std::hash::Hash;

impl<N: Eq + Hash, K: Eq + Hash, V, L: Budgeted<K, V>, S: KeyHasher<K> + Copy> TenantPool<
    N,
    K,
    V,
    L,
    S,
> {
    ghost use Rattle.lru_tenants.specs.PoolLending.{ends_so};

    /// Returns how many tenants are open.
    ///
    /// ```
    /// assert_eq!(rt; pool.len(), 2);
    /// ```
    ///
    /// Cost: `O(1)`.
    pub fn len(&self) -> usize
        ensures len { result ≡ length self.now.tenants }
        ensures names { IsDistinct N.eq (keys_of self.now.tenants) }
        ensures pool { IsPool K.eq L.cost_of L.account L.budget_of self.now }
    {
        self.tenants.len()
    }

    /// Returns whether no tenant is open.
    ///
    /// ```
    /// assert!(rt; !pool.is_empty());
    /// ```
    ///
    /// Cost: `O(1)`.
    pub fn is_empty(&self) -> bool
        ensures { result ≡ is_empty self.now.tenants }
    {
        self.tenants.is_empty()
    }

    /// Returns the limit of the total cost.
    ///
    /// ```
    /// assert_eq!(rt; pool.limit(), 5);
    /// ```
    ///
    /// Cost: `O(1)`.
    pub fn limit(&self) -> u64
        ensures { result ≡ self.now.limit }
    {
        self.limit
    }

    /// Returns the sum of the costs of all entries.
    ///
    /// ```
    /// assert_eq!(rt; pool.total_cost(), 2);
    /// ```
    ///
    /// Cost: `O(1)`.
    pub fn total_cost(&self) -> u128
        ensures total { result ≡ total_cost L.account self.now.tenants }
        ensures within { result ≤ self.now.limit }
    {
        self.total
    }

    /// Returns the sum of the costs of a tenant's entries.
    ///
    /// ```
    /// assert_eq!(rt; (pool.cost(&1), pool.cost(&9)), (Ok(2), Err(TenantError::NotOpen)));
    /// ```
    ///
    /// Cost: `O(1)` expected.
    ///
    /// # Errors
    ///
    /// `NotOpen`.
    pub fn cost<T: LookupKey<N>>(&self, name: &T) -> Result<u64, TenantError>
        ensures { result ≡ read_part (λ own. cost L.account own) (lookup (T.names name.now) self.now.tenants) }
    {
        let Some((_, map)) = self.tenants.peek(name) else {
            return Err(TenantError::NotOpen);
        };
        Ok(cost_of(map))
    }

    /// Returns the share of a tenant.
    ///
    /// ```
    /// assert_eq!(rt; pool.share(&1), Ok(3));
    /// ```
    ///
    /// Cost: `O(1)` expected.
    ///
    /// # Errors
    ///
    /// `NotOpen`.
    pub fn share<T: LookupKey<N>>(&self, name: &T) -> Result<u64, TenantError>
        ensures { result ≡ read_part (λ own. own.0) (lookup (T.names name.now) self.now.tenants) }
    {
        let Some((share, _)) = self.tenants.peek(name) else {
            return Err(TenantError::NotOpen);
        };
        Ok(*share)
    }

    /// Returns whether a tenant has an entry for a key.
    ///
    /// ```
    /// assert_eq!(rt; pool.contains(&1, &7), Ok(true));
    /// ```
    ///
    /// Cost: `O(1)` expected.
    ///
    /// # Errors
    ///
    /// `NotOpen`.
    pub fn contains<T: LookupKey<N>, Q: LookupKey<K>>(
        &self,
        name: &T,
        key: &Q,
    ) -> Result<bool, TenantError>
        ensures { result ≡ read_part (λ own. is_some (lookup (Q.names key.now) own.1.pairs))
            (lookup (T.names name.now) self.now.tenants) }
    {
        let Some((_, map)) = self.tenants.peek(name) else {
            return Err(TenantError::NotOpen);
        };
        Ok(map.contains(key))
    }

    /// Returns the value of a tenant's key. The order stays.
    ///
    /// ```
    /// assert_eq!(rt; pool.peek(&1, &7), Ok(Some(&2)));
    /// ```
    ///
    /// Cost: `O(1)` expected.
    ///
    /// # Errors
    ///
    /// `NotOpen`.
    pub fn peek<T: LookupKey<N>, Q: LookupKey<K>>(
        &self,
        name: &T,
        key: &Q,
    ) -> Result<Option<&V>, TenantError>
        ensures { read result ≡ read_part (λ own. lookup (Q.names key.now) own.1.pairs)
            (lookup (T.names name.now) self.now.tenants) }
    {
        let Some((_, map)) = self.tenants.peek(name) else {
            return Err(TenantError::NotOpen);
        };
        Ok(map.peek(key))
    }

    /// Returns the value of a tenant's key, and makes the key's entry the tenant's newest.
    ///
    /// ```
    /// assert_eq!(rt; pool.get(&1, &7), Ok(Some(&2)));
    /// ```
    ///
    /// Cost: `O(1)` expected.
    ///
    /// # Errors
    ///
    /// `NotOpen`.
    pub fn get<T: LookupKey<N>, Q: LookupKey<K>>(
        &mut self,
        name: &T,
        key: &Q,
    ) -> Result<Option<&V>, TenantError>
        ensures* leaves { sem 𝓛 (ends_so N.row K.row V.row L.row S.row L.LinkType.row S.Hasher.row N.Hash K.Hash
            L.Budgeted L.LinkType.LinkType S.KeyHasher S.Hasher.Hasher self.entry
            (On N.eq (T.names name.now) (Gets (Q.names key.now)) self.old (read result))) }
        ensures value { read result ≡ read_part (λ own. lookup (Q.names key.now) own.1.pairs)
            (lookup (T.names name.now) self.old.tenants) }
    {
        let Some(own) = self.tenants.peek_mut(name) else {
            return Err(TenantError::NotOpen);
        };
        let (_, map) = own;
        match map.get(key) {
            Some(value) => Ok(Some(&*value)),
            None => Ok(None),
        }
    }
}

impl<
    N: Eq + Hash + Drop,
    K: Eq + Hash + Drop,
    V: Drop,
    L: Budgeted<K, V> + Drop,
    S: KeyHasher<K> + Copy,
> TenantPool<N, K, V, L, S> {
    /// Removes a key of a tenant. Returns its value.
    ///
    /// ```
    /// assert_eq!(rt; (pool.remove(&1, &7), pool.remove(&1, &7)), (Ok(Some(2)), Ok(None)));
    /// ```
    ///
    /// Cost: `O(1)` expected.
    ///
    /// # Errors
    ///
    /// `NotOpen`.
    pub fn remove<T: LookupKey<N>, Q: LookupKey<K>>(
        &mut self,
        name: &T,
        key: &Q,
    ) -> Result<Option<V>, TenantError>
        ensures removes { On N.eq (T.names name.now) (OfOpen (Removes L.rules (Q.names key.now))) self.old result self.new }
        ensures pool { IsPool K.eq L.cost_of L.account L.budget_of self.new }
    {
        let Some(own) = self.tenants.peek_mut(name) else {
            return Err(TenantError::NotOpen);
        };
        let (_, map) = own;
        let before = cost_of(map);
        let value = remove(map, key);
        let after = cost_of(map);
        self.total = self.total - before as u128 + after as u128;
        Ok(value)
    }
}
