//! Calls that remove no tenant and no entry.
ghost use Rattle.std.specs.Prelude.{◌≡◌, ◌+◌, length};
ghost use Rattle.std.specs.Borrow.{sem};
ghost use Rattle.std.specs.List.{All, IsDistinct};
ghost use Rattle.std.specs.Map.{keys_of, values_of};
ghost use Rattle.lru_limits.specs.Bytes.{both_own};
ghost use Rattle.lru_model.specs.Theorems.{KeepsBytes};
ghost use Rattle.lru_model.specs.Lists.{lookup};
ghost use Rattle.lru_tenants.specs.Bytes.{IsWithin, reserved, On};
ghost use Rattle.lru_tenants.specs.Lending.{read};
ghost use Rattle.lru_tenants.specs.TenantRuns.{read_of, Gets};

use crate::bytes::ByteTenants;
use crate::error::TenantError;
use schnellru::{KeyHasher, LookupKey, OwnedBytes};
use std::hash::Hash;

impl<
    N: Eq + Hash + OwnedBytes,
    K: Eq + Hash + OwnedBytes,
    V: OwnedBytes,
    S: KeyHasher<K> + Copy,
> ByteTenants<N, K, V, S> {
    /// Returns how many tenants are open.
    ///
    /// ```
    /// assert_eq!(rt; bytes.len(), 1);
    /// ```
    ///
    /// Cost: `O(1)`.
    pub fn len(&self) -> usize
        ensures len { result ≡ length self.now.tenants }
        ensures names { IsDistinct N.eq (keys_of self.now.tenants) }
        ensures tenants { All (KeepsBytes (both_own K.owned V.owned)) (values_of self.now.tenants) }
        ensures within { IsWithin N.owned (both_own K.owned V.owned) self.now }
    {
        self.tenants.len()
    }

    /// Returns the limit of all bytes.
    ///
    /// ```
    /// assert_eq!(rt; bytes.limit(), 4000);
    /// ```
    ///
    /// Cost: `O(1)`.
    pub fn limit(&self) -> u64
        ensures { result ≡ self.now.limit }
    {
        self.tenants.limiter().limit()
    }

    /// Returns how many bytes a new tenant's limit and name may take, if the table of tenants does not grow.
    ///
    /// ```
    /// assert!(rt; bytes.left() < 3500);
    /// ```
    ///
    /// Cost: `O(1)`.
    pub fn left(&self) -> u64
        ensures { result + reserved N.owned self.now ≡ self.now.limit }
    {
        let table = self.tenants.memory_usage() as u64;
        let limiter = self.tenants.limiter();
        limiter.limit() - limiter.owned() - table
    }

    /// Returns the value of a tenant's key. The order stays.
    ///
    /// ```
    /// assert_eq!(rt; bytes.peek(&1, &7), Ok(Some(&2)));
    /// ```
    ///
    /// Cost: `O(1)` expected.
    ///
    /// # Errors
    ///
    /// `NotOpen`.
    pub fn peek<T: LookupKey<N>, Q: LookupKey<K>>(
        &self,
        name: &T,
        key: &Q,
    ) -> Result<Option<&V>, TenantError>
        ensures { read result
            ≡ read_of (λ map. lookup (Q.names key.now) map.pairs) (lookup (T.names name.now) self.now.tenants) }
    {
        let Some(own) = self.tenants.peek(name) else {
            return Err(TenantError::NotOpen);
        };
        Ok(own.map.peek(key))
    }
}

impl<
    N: Eq + Hash + OwnedBytes + Drop,
    K: Eq + Hash + OwnedBytes + Drop,
    V: OwnedBytes + Drop,
    S: KeyHasher<K> + Copy,
> ByteTenants<N, K, V, S> {
    ghost use Rattle.lru_tenants.specs.ByteLending.{ends_so};

    /// Returns the value of a tenant's key, and makes the key's entry the tenant's newest.
    ///
    /// ```
    /// assert_eq!(rt; bytes.get(&1, &7), Ok(Some(&2)));
    /// ```
    ///
    /// Cost: `O(1)` expected.
    ///
    /// # Errors
    ///
    /// `NotOpen`.
    pub fn get<T: LookupKey<N>, Q: LookupKey<K>>(
        &mut self,
        name: &T,
        key: &Q,
    ) -> Result<Option<&V>, TenantError>
        ensures* leaves { sem 𝓛 (ends_so N.row K.row V.row S.row S.Hasher.row N.Hash K.Hash N.owned K.owned V.owned
            S.KeyHasher S.Hasher.Hasher self.entry
            (On N.eq (T.names name.now) (Gets (Q.names key.now)) self.old (read result))) }
        ensures value { read result
            ≡ read_of (λ map. lookup (Q.names key.now) map.pairs) (lookup (T.names name.now) self.old.tenants) }
    {
        let Some(own) = self.tenants.peek_mut(name) else {
            return Err(TenantError::NotOpen);
        };
        Ok(own.get(key))
    }
}
