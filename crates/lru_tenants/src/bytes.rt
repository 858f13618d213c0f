//! `ByteTenants`.
ghost use Rattle.std.specs.Prelude.{◌≡◌, ◌+◌, [], length};
ghost use Rattle.std.specs.Borrow.{u32 as link};
ghost use Rattle.std.specs.Result.{OnErr};
ghost use Rattle.std.specs.List.{All, IsDistinct};
ghost use Rattle.std.specs.Map.{keys_of, values_of};
ghost use Rattle.lru_limits.specs.Bytes.{both_own, by_bytes, bytes_offers};
ghost use Rattle.lru_limits.specs.Mixing.{seeded};
ghost use Rattle.lru_model.specs.Theorems.{KeepsBytes};
ghost use Rattle.ordered_table.specs.EntrySize.{entry_size};
ghost use Rattle.lru_tenants.specs.Bytes.{IsWithin, reserved, is_over, fresh, On};
ghost use Rattle.lru_tenants.specs.TenantRuns.{OfOpen, Opens, Puts, Closes, IfOpen};
ghost use Rattle.lru_model.specs.Calls.{Remove};

use crate::error::TenantError;
use schnellru::{ByBytes, KeyHasher, LookupKey, LruMap, OwnedBytes, RandomState, laws};
use std::alloc::Global;
use std::hash::Hash;
use std::marker::Model;

mod reading;
mod tenant;

use tenant::ByteTenant;

/// A cache for many tenants within one limit of bytes. The limit covers the table of tenants, the names and tables of
/// the tenants, and the bytes that entries own.
///
/// [`ByBytes`] limits each tenant's map to the tenant's own limit. While a table grows, the old table is not counted.
///
/// In the examples of the calls, `bytes` has a limit of 4,000 bytes, and one tenant, 1, with a limit of 500 bytes and
/// the entry (7, 2).
///
/// ```
/// let mut bytes: ByteTenants<u64, u64, u64> = ByteTenants::new(alloc, [1, 2, 3, 4], 4000);
/// assert_eq!(rt; (bytes.open(1, 500), bytes.put(&1, 7, 2)), (Ok(()), Ok(true)));
/// ```
pub struct ByteTenants<
    N: Eq + Hash + OwnedBytes,
    K: Eq + Hash + OwnedBytes,
    V: OwnedBytes,
    S: KeyHasher<K> + Copy = RandomState,
> {
    tenants: LruMap<N, ByteTenant<K, V, S>, ByBytes, S>,
    alloc: Global,
}

impl<
    N: Eq + Hash + OwnedBytes,
    K: Eq + Hash + OwnedBytes,
    V: OwnedBytes,
    S: KeyHasher<K> + Copy,
> Model for ByteTenants<N, K, V, S> {
    ghost use Rattle.lru_limits.specs.Bytes.{both_own};
    ghost use Rattle.lru_tenants.specs.Bytes.{ByteCache, table_bytes, limit_of};
    ghost use Rattle.lru_tenants.specs.Inside.{HoldsBytes};

    ghost Value = { ByteCache N K V S };

    ghost view = { λ c. record {
      tenants = c.tenants.pairs;
      table = table_bytes c.tenants;
      limit = limit_of c.tenants;
      hasher = c.tenants.hasher;
    } };

    ghost invariant = { λ c. HoldsBytes N.owned (both_own K.owned V.owned) c.tenants };
}

impl<
    N: Eq + Hash + OwnedBytes + Drop,
    K: Eq + Hash + OwnedBytes + Drop,
    V: OwnedBytes + Drop,
    S: KeyHasher<K> + Copy,
> Drop for ByteTenants<N, K, V, S> {
    fn drop(self) {
        let ByteTenants { tenants, alloc: _ } = self;
        drop(tenants);
    }
}

impl<
    N: Eq + Hash + OwnedBytes + Drop,
    K: Eq + Hash + OwnedBytes + Drop,
    V: OwnedBytes + Drop,
> ByteTenants<N, K, V> {
    /// Makes a cache without tenants (see `TenantCache::new`). Cost: `O(1)`, and no memory.
    ///
    /// ```
    /// let bytes: ByteTenants<u64, u64, u64> = ByteTenants::new(alloc, [1, 2, 3, 4], 4000);
    /// assert_eq!(rt; bytes.left(), 4000);
    /// ```
    pub fn new(alloc: Global, seeds: [u64; 4], limit: u64) -> Self
        ensures { result ≡ record { tenants = []; table = 0; limit = limit; hasher = seeded seeds } }
    {
        ByteTenants::with_hasher(alloc, RandomState::with_seeds(seeds), limit)
    }
}

impl<
    N: Eq + Hash + OwnedBytes + Drop,
    K: Eq + Hash + OwnedBytes + Drop,
    V: OwnedBytes + Drop,
    S: KeyHasher<K> + Copy,
> ByteTenants<N, K, V, S> {
    /// Makes a cache without tenants (see `TenantCache::with_hasher`). Cost: `O(1)`, and no memory.
    ///
    /// ```
    /// let bytes: ByteTenants<u64, u64, u64, _> =
    ///     ByteTenants::with_hasher(alloc, std::collections::hash_map::RandomState::new(&rt)?, 4000);
    /// assert_eq!(rt; bytes.len(), 0);
    /// ```
    pub fn with_hasher(alloc: Global, hasher: S, limit: u64) -> Self
        ensures { result ≡ record { tenants = []; table = 0; limit = limit; hasher = hasher } }
    {
        laws::calls_keep_the_bytes::<N, ByteTenant<K, V, S>, S>();
        ByteTenants {
            tenants: LruMap::<N, ByteTenant<K, V, S>, ByBytes, S>::with_limiter_and_hasher(
                alloc,
                ByBytes::new(limit),
                hasher,
            ),
            alloc,
        }
    }

    /// Opens a tenant with an empty map, and reserves the tenant's limit until the tenant is closed.
    ///
    /// ```
    /// assert_eq!(rt; (bytes.open(1, 100), bytes.open(2, 100)), (Err(TenantError::AlreadyOpen), Ok(())));
    /// assert_eq!(rt; bytes.open(3, 3500), Err(TenantError::OverTotal));
    /// ```
    ///
    /// Cost: as `LruMap::try_insert`.
    ///
    /// # Errors
    ///
    /// The tenants are unchanged. `AlreadyOpen`. `OverTotal`: `limit` plus the bytes of the name is above `left()`.
    /// `Memory`: the table of tenants must grow, but memory ran out, or the cache's limit does not permit a larger
    /// table. After `Memory` the table may be larger, so `left` may be lower.
    pub fn open(&mut self, name: N, limit: u64) -> Result<(), TenantError>
        ensures opens { On N.eq (N.eq name) (Opens (is_over N.owned name limit self.old)
            (fresh (entry_size K.row V.row link) self.old.hasher limit)) self.old result
            (record self.new { table = self.old.table }) }
        ensures unchanged { OnErr result (self.new.tenants ≡ self.old.tenants) }
        ensures within { IsWithin N.owned (both_own K.owned V.owned) self.new }
    {
        laws::runs_keep_the_bytes::<N, ByteTenant<K, V, S>, S>();
        let _len = self.tenants.len();
        if self.tenants.contains(&name) {
            return Err(TenantError::AlreadyOpen);
        }
        let bytes = name.owned_bytes().saturating_add(limit);
        if bytes > self.left() {
            return Err(TenantError::OverTotal);
        }
        let own = ByteTenant::new(self.alloc, *self.tenants.hasher(), limit);
        let Ok(()) = self.tenants.try_insert(name, own) else {
            return Err(TenantError::Memory);
        };
        Ok(())
    }

    /// Does what `TenantCache::put` does, under [`ByBytes`] with the tenant's limit.
    ///
    /// ```
    /// assert_eq!(rt; (bytes.put(&1, 8, 3), bytes.put(&9, 8, 3)), (Ok(true), Err(TenantError::NotOpen)));
    /// ```
    ///
    /// Cost: as `LruMap::insert`.
    ///
    /// # Errors
    ///
    /// As `TenantCache::put`.
    pub fn put<T: LookupKey<N>>(&mut self, name: &T, key: K, value: V) -> Result<bool, TenantError>
        ensures puts { On N.eq (T.names name.now) (OfOpen (Puts (by_bytes (both_own K.owned V.owned))
            (bytes_offers (both_own K.owned V.owned)) (λ limiter. limiter.limit) K.eq S.hash_of key value))
            self.old result self.new }
        ensures within { IsWithin N.owned (both_own K.owned V.owned) self.new }
    {
        let _len = self.tenants.len();
        let Some(own) = self.tenants.peek_mut(name) else {
            return Err(TenantError::NotOpen);
        };
        match own.insert(key, value) {
            Ok(kept) => Ok(kept),
            Err(_) => Err(TenantError::Memory),
        }
    }

    /// Closes a tenant and drops its entries. Returns their number. The table of tenants keeps its size.
    ///
    /// ```
    /// assert_eq!(rt; (bytes.close(&1), bytes.open(2, 500)), (Ok(1), Ok(())));
    /// ```
    ///
    /// Cost: `O(buckets)` of the tenant's table.
    ///
    /// # Errors
    ///
    /// `NotOpen`.
    pub fn close<T: LookupKey<N>>(&mut self, name: &T) -> Result<usize, TenantError>
        ensures closes { On N.eq (T.names name.now) (OfOpen Closes) self.old result self.new }
        ensures within { IsWithin N.owned (both_own K.owned V.owned) self.new }
    {
        laws::calls_keep_the_bytes::<N, ByteTenant<K, V, S>, S>();
        let _len = self.tenants.len();
        let Some(own) = self.tenants.remove(name) else {
            return Err(TenantError::NotOpen);
        };
        Ok(own.map.len())
    }

    /// Removes a key of a tenant. Returns its value.
    ///
    /// ```
    /// assert_eq!(rt; (bytes.remove(&1, &7), bytes.remove(&1, &7)), (Ok(Some(2)), Ok(None)));
    /// ```
    ///
    /// Cost: `O(1)` expected.
    ///
    /// # Errors
    ///
    /// `NotOpen`.
    pub fn remove<T: LookupKey<N>, Q: LookupKey<K>>(
        &mut self,
        name: &T,
        key: &Q,
    ) -> Result<Option<V>, TenantError>
        ensures removes { On N.eq (T.names name.now) (IfOpen (Remove (by_bytes (both_own K.owned V.owned)) (Q.names key.now)))
            self.old result self.new }
        ensures within { IsWithin N.owned (both_own K.owned V.owned) self.new }
    {
        let _len = self.tenants.len();
        let Some(own) = self.tenants.peek_mut(name) else {
            return Err(TenantError::NotOpen);
        };
        Ok(own.remove(key))
    }
}
