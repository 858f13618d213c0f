ghost use Rattle.std.specs.Prelude.{◌≡◌, List, Some, true, false, Ok, IfOk, IfSome};
ghost use Rattle.std.specs.Result.{OnErr};
ghost use Rattle.lru_limits.specs.Admissions.{offers_of};
ghost use Rattle.lru_model.specs.Callbacks.{CalledWith};
ghost use Rattle.lru_model.specs.Inserts.{kept_of};
ghost use Rattle.lru_model.specs.Lists.{lookup};
ghost use Rattle.lru_tenants.specs.Cache.{budgets, budgets_with, is_over, AreTenants, On};
ghost use Rattle.lru_tenants.specs.PutFulls.{comes_back, rejects};
ghost use Rattle.lru_tenants.specs.TenantRuns.{put_answer, OfOpen, PassesOn, Puts, PutPasses, SetsBudget};
ghost use Rattle.lru_tenants.specs.TenantRuns.{BudgetPasses, Closes, ClosePasses};

use crate::cache::TenantCache;
use crate::cache::totals::is_above;
use crate::error::TenantError;
use crate::tenant::{empty, insert, insert_full, set_budget};
use lru_limits::Budgeted;
use schnellru::{Inserted, KeyHasher, LookupKey};
use std::alloc::AllocError;
use std::hash::Hash;

impl<
    N: Eq + Hash + Drop,
    K: Eq + Hash + Drop,
    V: Drop,
    L: Budgeted<K, V> + Drop,
    S: KeyHasher<K> + Copy,
> TenantCache<N, K, V, L, S> {
    /// Does what `put` does, and passes to the callback the entries that `LruMap::insert_with` passes.
    ///
    /// ```
    /// let mut left = 0u64;
    /// assert_eq!(rt; cache.put_with(&1, 8, 3, &mut |key, _| left = key), Ok(true));
    /// assert_eq!(rt; left, 7);
    /// ```
    ///
    /// Cost: as `put`, plus the calls of the callback.
    ///
    /// # Errors
    ///
    /// As `put`.
    pub fn put_with<T: LookupKey<N>, F: FnMut(K, V)>(
        &mut self,
        name: &T,
        key: K,
        value: V,
        sink: &mut F,
    ) -> Result<bool, TenantError>
        requires callable { F.IsAlwaysCallable sink.old }
        ensures puts { On N.eq (T.names name.now) (OfOpen (Puts L.rules (offers_of L.terms) L.budget_of K.eq S.hash_of key value))
            self.old result self.new }
        ensures passed { (passed : List (K × V)) × CalledWith F.FnMut sink.old passed sink.new × On N.eq (T.names name.now)
            (PassesOn (PutPasses L.rules (offers_of L.terms) L.budget_of K.eq S.hash_of key value)) self.old passed self.new }
        ensures callable { F.IsAlwaysCallable sink.new }
        ensures total { budgets L.budget_of self.new ≡ budgets L.budget_of self.old }
        ensures tenants { AreTenants K.eq L.cost_of L.account L.budget_of self.new }
    {
        let Some(own) = self.tenants.peek_mut(name) else {
            return Err(TenantError::NotOpen);
        };
        put_answer(insert(own, key, value, sink))
    }

    /// Does what `put_with` does, and returns the value that the tenant does not keep, as [`Inserted`] says. If the
    /// limiter rejects the entry of a new key, returns the given value, and `kept` is false. Such a rejection leaves
    /// the tenant as it is, passes nothing to the callback, and drops the key.
    ///
    /// If the key was there and is not kept, the callback got the key's entry. This entry has the old value if the
    /// limiter rejected the new value. Otherwise it has the new value.
    ///
    /// ```
    /// let replaced = cache.put_full(&1, 7, 3, &mut |_, _| {})?;
    /// assert_eq!(rt; (replaced.kept, replaced.unkept), (true, Some(2)));
    /// let rejected = cache.put_full(&1, 8, 9, &mut |_, _| {})?;
    /// assert_eq!(rt; (rejected.kept, rejected.unkept), (false, Some(9)));
    /// ```
    ///
    /// Cost: as `put_with`.
    ///
    /// # Errors
    ///
    /// As `put`. After `NotOpen`, the key and the value are dropped. After `Memory`, the callback got the key and the
    /// value.
    pub fn put_full<T: LookupKey<N>, F: FnMut(K, V)>(
        &mut self,
        name: &T,
        key: K,
        value: V,
        sink: &mut F,
    ) -> Result<Inserted<V>, TenantError>
        requires callable { F.IsAlwaysCallable sink.old }
        ensures puts { On N.eq (T.names name.now) (OfOpen (Puts L.rules (offers_of L.terms) L.budget_of K.eq S.hash_of key value))
            self.old (kept_of result) self.new }
        ensures unkept { IfOk result (λ inserted. IfSome (lookup (T.names name.now) self.old.tenants) (λ map. inserted.unkept
            ≡ comes_back L.terms K.eq key value L.rules map)) }
        ensures rejects { IfSome (lookup (T.names name.now) self.old.tenants) (λ map.
            rejects L.terms K.eq key value map ≡ true →
            (result ≡ Ok (record { kept = false; unkept = Some value }))
            × (lookup (T.names name.now) self.new.tenants ≡ Some map)) }
        ensures passed { (passed : List (K × V)) × CalledWith F.FnMut sink.old passed sink.new × On N.eq (T.names name.now)
            (PassesOn (PutPasses L.rules (offers_of L.terms) L.budget_of K.eq S.hash_of key value)) self.old passed self.new }
        ensures callable { F.IsAlwaysCallable sink.new }
        ensures total { budgets L.budget_of self.new ≡ budgets L.budget_of self.old }
        ensures tenants { AreTenants K.eq L.cost_of L.account L.budget_of self.new }
    {
        let Some(own) = self.tenants.peek_mut(name) else {
            return Err(TenantError::NotOpen);
        };
        put_answer(insert_full(own, key, value, sink))
    }

    /// Does what `set_budget` does, and passes each evicted entry to the callback, oldest first.
    ///
    /// ```
    /// let mut evicted = 0u64;
    /// assert_eq!(rt; cache.set_budget_with(&1, 1, &mut |key, _| evicted = key), Ok(()));
    /// assert_eq!(rt; evicted, 7);
    /// ```
    ///
    /// Cost: as `set_budget`, plus the calls of the callback.
    ///
    /// # Errors
    ///
    /// As `set_budget`.
    pub fn set_budget_with<T: LookupKey<N>, F: FnMut(K, V)>(
        &mut self,
        name: &T,
        budget: u64,
        sink: &mut F,
    ) -> Result<(), TenantError>
        requires callable { F.IsAlwaysCallable sink.old }
        ensures sets { On N.eq (T.names name.now)
            (OfOpen (SetsBudget L.rules (L.rebudgeted budget) (is_over L.budget_of (T.names name.now) budget self.old)))
            self.old result self.new }
        ensures total { result ≡ Ok tt →
            budgets L.budget_of self.new ≡ budgets_with L.budget_of (T.names name.now) budget self.old }
        ensures unchanged { OnErr result (self.new ≡ self.old) }
        ensures passed { (passed : List (K × V)) × CalledWith F.FnMut sink.old passed sink.new × On N.eq (T.names name.now)
            (PassesOn (BudgetPasses L.rules (L.rebudgeted budget)
            (is_over L.budget_of (T.names name.now) budget self.old))) self.old passed self.new }
        ensures callable { F.IsAlwaysCallable sink.new }
        ensures tenants { AreTenants K.eq L.cost_of L.account L.budget_of self.new }
    {
        let _len = self.tenants.len();
        let Some(own) = self.tenants.peek_mut(name) else {
            return Err(TenantError::NotOpen);
        };
        let sum = self.budgets - own.limiter().budget() as u128 + budget as u128;
        if is_above(self.total_limit, sum) {
            return Err(TenantError::OverTotal);
        }
        self.budgets = sum;
        set_budget(own, budget, sink);
        Ok(())
    }

    /// Does what `close` does, and passes each entry to the callback, oldest first.
    ///
    /// ```
    /// let mut last = 0u64;
    /// assert_eq!(rt; cache.close_with(&1, &mut |key, _| last = key), Ok(1));
    /// assert_eq!(rt; last, 7);
    /// ```
    ///
    /// Cost: `O(1)` and one call of the callback for each entry.
    ///
    /// # Errors
    ///
    /// `NotOpen`.
    pub fn close_with<T: LookupKey<N>, F: FnMut(K, V)>(
        &mut self,
        name: &T,
        sink: &mut F,
    ) -> Result<usize, TenantError>
        requires callable { F.IsAlwaysCallable sink.old }
        ensures closes { On N.eq (T.names name.now) (OfOpen Closes) self.old result self.new }
        ensures total { budgets L.budget_of self.new ≡ budgets_with L.budget_of (T.names name.now) 0 self.old }
        ensures passed { (passed : List (K × V)) × CalledWith F.FnMut sink.old passed sink.new × On N.eq (T.names name.now)
            (PassesOn ClosePasses) self.old passed self.new }
        ensures callable { F.IsAlwaysCallable sink.new }
        ensures tenants { AreTenants K.eq L.cost_of L.account L.budget_of self.new }
    {
        let Some(mut map) = self.take_tenant(name) else {
            return Err(TenantError::NotOpen);
        };
        Ok(empty(&mut map, sink))
    }
}

pub(super) fn put_answer<R>(inserted: Result<R, AllocError>) -> Result<R, TenantError>
    ensures { result ≡ put_answer inserted }
{
    match inserted {
        Ok(inserted) => Ok(inserted),
        Err(_) => Err(TenantError::Memory),
    }
}
