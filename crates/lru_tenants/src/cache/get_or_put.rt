ghost use Rattle.std.specs.Prelude.{◌≡◌, None, Some, Ok, Err, IfSome};
ghost use Rattle.std.specs.Borrow.{sem};
ghost use Rattle.lru_limits.specs.Admissions.{offers_of};
ghost use Rattle.lru_model.specs.Lists.{lookup};
ghost use Rattle.lru_tenants.specs.Cache.{On};
ghost use Rattle.lru_tenants.specs.GetOrPuts.{GetsOrPuts};
ghost use Rattle.lru_tenants.specs.Lending.{read};
ghost use Rattle.lru_tenants.specs.TenantRuns.{OfOpen};
ghost use Rattle.lru_tenants.specs.declared.error.TenantError.TheVariants.{NotOpen};

use crate::cache::TenantCache;
use crate::error::TenantError;
use crate::tenant::{get_or_insert, newest};
use lru_limits::Budgeted;
use schnellru::{KeyHasher, LookupKey};
use std::hash::Hash;

impl<
    N: Eq + Hash + Drop,
    K: Eq + Hash + Drop,
    V: Drop,
    L: Budgeted<K, V> + Drop,
    S: KeyHasher<K> + Copy,
> TenantCache<N, K, V, L, S> {
    ghost use Rattle.lru_tenants.specs.Lending.{ends_so};

    /// Does what `get` does if the key is there. If not, puts the value that the closure returns, and returns this
    /// value.
    ///
    /// `None` means that the tenant does not keep the new entry.
    ///
    /// ```
    /// assert_eq!(rt; cache.get_or_put(&1, 7, || 3), Ok(Some(&2)));
    /// assert_eq!(rt; cache.get_or_put(&1, 8, || 1), Ok(Some(&1)));
    /// ```
    ///
    /// Cost: as `get` if the key is there, else as `put`.
    ///
    /// # Errors
    ///
    /// As `put`. If the error is `Memory`, the closure was called.
    pub fn get_or_put<T: LookupKey<N>, F: FnOnce() -> V>(
        &mut self,
        name: &T,
        key: K,
        make: F,
    ) -> Result<Option<&V>, TenantError>
        requires callable { IfSome (lookup (T.names name.now) self.old.tenants) (λ map.
            lookup (K.eq key) map.pairs ≡ None → F.pre make) }
        ensures* leaves { sem 𝓛 (ends_so N.row K.row V.row L.row S.row L.LinkType.row S.Hasher.row N.Hash K.Hash
            L.Budgeted L.LinkType.LinkType S.KeyHasher S.Hasher.Hasher self.entry
            (On N.eq (T.names name.now) (OfOpen (GetsOrPuts L.rules (offers_of L.terms) L.budget_of K.eq S.hash_of (F.post make) key))
            self.old (read result))) }
        ensures not_open { lookup (T.names name.now) self.old.tenants ≡ None → read result ≡ Err NotOpen }
        ensures there { IfSome (lookup (T.names name.now) self.old.tenants) (λ map.
            IfSome (lookup (K.eq key) map.pairs) (λ value. read result ≡ Ok (Some value))) }
    {
        let Some(own) = self.tenants.peek_mut(name) else {
            return Err(TenantError::NotOpen);
        };
        let Ok(there) = get_or_insert(own, key, make) else {
            return Err(TenantError::Memory);
        };
        if !there {
            return Ok(None);
        }
        Ok(newest(own))
    }
}
