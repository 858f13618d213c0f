ghost use Rattle.std.specs.Prelude.{◌≡◌};
ghost use Rattle.lru_model.specs.Calls.{Remove, cleared};
ghost use Rattle.lru_model.specs.Retains.{Retains};
ghost use Rattle.lru_tenants.specs.Cache.{budgets, AreTenants, On};
ghost use Rattle.lru_tenants.specs.TenantRuns.{IfOpen};

use crate::cache::TenantCache;
use crate::error::TenantError;
use crate::tenant::{clear, remove, retain};
use lru_limits::Budgeted;
use schnellru::{KeyHasher, LookupKey};
use std::hash::Hash;

impl<
    N: Eq + Hash + Drop,
    K: Eq + Hash + Drop,
    V: Drop,
    L: Budgeted<K, V> + Drop,
    S: KeyHasher<K> + Copy,
> TenantCache<N, K, V, L, S> {
    /// Removes a key of a tenant. Returns its value.
    ///
    /// ```
    /// assert_eq!(rt; (cache.remove(&1, &7), cache.remove(&1, &7)), (Ok(Some(2)), Ok(None)));
    /// ```
    ///
    /// Cost: `O(1)` expected.
    ///
    /// # Errors
    ///
    /// `NotOpen`.
    pub fn remove<T: LookupKey<N>, Q: LookupKey<K>>(
        &mut self,
        name: &T,
        key: &Q,
    ) -> Result<Option<V>, TenantError>
        ensures removes { On N.eq (T.names name.now) (IfOpen (Remove L.rules (Q.names key.now))) self.old result self.new }
        ensures total { budgets L.budget_of self.new ≡ budgets L.budget_of self.old }
        ensures tenants { AreTenants K.eq L.cost_of L.account L.budget_of self.new }
    {
        let Some(own) = self.tenants.peek_mut(name) else {
            return Err(TenantError::NotOpen);
        };
        Ok(remove(own, key))
    }

    /// Removes a tenant's entries for which the closure returns false. The closure is called with each entry, oldest
    /// first.
    ///
    /// ```
    /// assert_eq!(rt; (cache.put(&1, 8, 1), cache.retain(&1, |key, _| *key == 8)), (Ok(true), Ok(())));
    /// assert_eq!(rt; (cache.contains(&1, &7), cache.cost(&1)), (Ok(false), Ok(1)));
    /// ```
    ///
    /// Cost: `O(n)` for n entries of the tenant.
    ///
    /// # Errors
    ///
    /// `NotOpen`.
    pub fn retain<T: LookupKey<N>, F: FnMut(&K, &V) -> bool>(
        &mut self,
        name: &T,
        keep: F,
    ) -> Result<(), TenantError>
        requires callable { F.IsAlwaysCallable keep }
        ensures retains { On N.eq (T.names name.now) (IfOpen (λ old done new. Retains F.FnMut L.rules keep old new))
            self.old result self.new }
        ensures total { budgets L.budget_of self.new ≡ budgets L.budget_of self.old }
        ensures tenants { AreTenants K.eq L.cost_of L.account L.budget_of self.new }
    {
        let Some(own) = self.tenants.peek_mut(name) else {
            return Err(TenantError::NotOpen);
        };
        retain(own, keep);
        Ok(())
    }

    /// Drops the entries of a tenant. The tenant stays open.
    ///
    /// ```
    /// assert_eq!(rt; (cache.clear(&1), cache.entries(&1), cache.cost(&1)), (Ok(()), Ok(0), Ok(0)));
    /// ```
    ///
    /// Cost: as `LruMap::clear`.
    ///
    /// # Errors
    ///
    /// `NotOpen`.
    pub fn clear<T: LookupKey<N>>(&mut self, name: &T) -> Result<(), TenantError>
        ensures clears { On N.eq (T.names name.now) (IfOpen (λ old done new. new ≡ cleared L.rules old))
            self.old result self.new }
        ensures total { budgets L.budget_of self.new ≡ budgets L.budget_of self.old }
        ensures tenants { AreTenants K.eq L.cost_of L.account L.budget_of self.new }
    {
        let Some(own) = self.tenants.peek_mut(name) else {
            return Err(TenantError::NotOpen);
        };
        clear(own);
        Ok(())
    }
}
