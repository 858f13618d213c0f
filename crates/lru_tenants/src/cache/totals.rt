ghost use Rattle.std.specs.Prelude.{◌≡◌, ◌≤◌, true, false, Ok, Err, IfSome, sum_by};
ghost use Rattle.std.specs.Map.{values_of};
ghost use Rattle.lru_tenants.specs.Cache.{budgets, is_above};
ghost use Rattle.lru_tenants.specs.declared.error.TenantError.TheVariants.{OverTotal};

use crate::cache::TenantCache;
use crate::error::TenantError;
use lru_limits::Budgeted;
use schnellru::KeyHasher;
use std::hash::Hash;

impl<N: Eq + Hash, K: Eq + Hash, V, L: Budgeted<K, V>, S: KeyHasher<K> + Copy> TenantCache<
    N,
    K,
    V,
    L,
    S,
> {
    /// Limits the sum of all tenants' budgets. `None` lifts the limit.
    ///
    /// ```
    /// assert_eq!(rt; cache.set_total_limit(Some(5)), Ok(()));
    /// assert_eq!(rt; cache.open(2, 3), Err(TenantError::OverTotal));
    /// ```
    ///
    /// Cost: `O(1)`.
    ///
    /// # Errors
    ///
    /// `OverTotal`: the sum is above the limit.
    pub fn set_total_limit(&mut self, limit: Option<u64>) -> Result<(), TenantError>
        ensures over { is_above limit (budgets L.budget_of self.old) ≡ true →
            (result ≡ Err OverTotal) × (self.new ≡ self.old) }
        ensures sets { is_above limit (budgets L.budget_of self.old) ≡ false →
            (result ≡ Ok tt) × (self.new ≡ record self.old { total_limit = limit }) }
    {
        if is_above(limit, self.budgets) {
            return Err(TenantError::OverTotal);
        }
        self.total_limit = limit;
        Ok(())
    }

    /// Returns the limit of the sum of all tenants' budgets, if there is one.
    ///
    /// ```
    /// assert_eq!(rt; cache.set_total_limit(Some(5)), Ok(()));
    /// assert_eq!(rt; cache.total_limit(), Some(5));
    /// ```
    ///
    /// Cost: `O(1)`.
    pub fn total_limit(&self) -> Option<u64>
        ensures { result ≡ self.now.total_limit }
    {
        self.total_limit
    }

    /// Returns the sum of the budgets of all tenants.
    ///
    /// ```
    /// assert_eq!(rt; (cache.total_cost(), cache.total_budget()), (2, 3));
    /// ```
    ///
    /// Cost: `O(1)`.
    pub fn total_budget(&self) -> u128
        ensures total { result ≡ budgets L.budget_of self.now }
        ensures limit { IfSome self.now.total_limit (λ limit. result ≤ limit) }
    {
        self.budgets
    }

    /// Returns the sum of the costs of all entries.
    ///
    /// ```
    /// assert_eq!(rt; (cache.total_cost(), cache.total_budget()), (2, 3));
    /// ```
    ///
    /// Cost: `O(1)` for each tenant.
    pub fn total_cost(&self) -> u128
        ensures total { result ≡ sum_by (λ map. L.account map.limiter) (values_of self.now.tenants) }
        ensures within { result ≤ budgets L.budget_of self.now }
        ensures limit { IfSome self.now.total_limit (λ limit. result ≤ limit) }
    {
        let _len = self.tenants.len();
        let mut sum = 0u128;
        for map in self.tenants.values() {
            sum += map.limiter().account() as u128;
        }
        sum
    }
}

pub(super) fn is_above(limit: Option<u64>, sum: u128) -> bool
    ensures { result ≡ is_above limit sum }
{
    match limit {
        Some(most) => sum > most as u128,
        None => false,
    }
}
