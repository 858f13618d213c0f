ghost use Rattle.std.specs.Prelude.{◌≡◌};
ghost use Rattle.std.specs.Borrow.{sem, u32 as link};
ghost use Rattle.std.specs.Option.{option_copied};
ghost use Rattle.lru_limits.specs.Bytes.{both_own, by_bytes, bytes_offers};
ghost use Rattle.lru_model.specs.Theorems.{KeepsBytes};
ghost use Rattle.lru_model.specs.Calls.{promoted, Remove};
ghost use Rattle.lru_model.specs.Inserts.{Insert};
ghost use Rattle.lru_model.specs.Lists.{lookup};
ghost use Rattle.ordered_table.specs.EntrySize.{entry_size};
ghost use Rattle.lru_tenants.specs.Bytes.{fresh, limit_of};

use schnellru::{ByBytes, KeyHasher, LookupKey, LruMap, OwnedBytes, laws};
use std::alloc::{AllocError, Global};
use std::hash::Hash;
use std::marker::Model;

/// A tenant's map. The map takes at most the tenant's limit, so the cache counts this limit instead of the map's bytes.
#[derive(Drop)]
pub(super) struct ByteTenant<K: Eq + Hash + OwnedBytes, V: OwnedBytes, S: KeyHasher<K>> {
    pub(super) map: LruMap<K, V, ByBytes, S>,
}

impl<K: Eq + Hash + OwnedBytes, V: OwnedBytes, S: KeyHasher<K>> Model for ByteTenant<K, V, S> {
    ghost use Rattle.lru_limits.specs.Bytes.{Bytes};
    ghost use Rattle.lru_model.specs.State.{State};

    ghost Value = { State K V Bytes S };

    ghost view = { λ own. own.map };
}

impl<K: Eq + Hash + OwnedBytes, V: OwnedBytes, S: KeyHasher<K>> OwnedBytes for ByteTenant<K, V, S> {
    ghost owned = { limit_of };

    fn owned_bytes(&self) -> u64 {
        self.map.limiter().limit()
    }
}

impl<K: Eq + Hash + OwnedBytes + Drop, V: OwnedBytes + Drop, S: KeyHasher<K>> ByteTenant<K, V, S> {
    ghost use Rattle.lru_tenants.specs.ByteLending.{ends_as};

    pub(super) fn new(alloc: Global, hasher: S, limit: u64) -> Self
        ensures map { result ≡ fresh (entry_size K.row V.row link) hasher limit }
        ensures keeps { KeepsBytes (both_own K.owned V.owned) result }
    {
        laws::calls_keep_the_bytes::<K, V, S>();
        ByteTenant {
            map: LruMap::with_limiter_and_hasher(alloc, ByBytes::new(limit), hasher),
        }
    }

    pub(super) fn insert(&mut self, key: K, value: V) -> Result<bool, AllocError>
        requires { KeepsBytes (both_own K.owned V.owned) self.old }
        ensures inserts { Insert (by_bytes (both_own K.owned V.owned)) (bytes_offers (both_own K.owned V.owned)) K.eq
            S.hash_of key value self.old result self.new }
        ensures limit { limit_of self.new ≡ limit_of self.old }
        ensures keeps { KeepsBytes (both_own K.owned V.owned) self.new }
    {
        laws::calls_keep_the_bytes::<K, V, S>();
        let _len = self.map.len();
        self.map.insert(key, value)
    }

    pub(super) fn get<Q: LookupKey<K>>(&mut self, key: &Q) -> Option<&V>
        ensures* ends { sem 𝓛 (ends_as K.row V.row S.row S.Hasher.row K.Hash K.owned V.owned S.KeyHasher S.Hasher.Hasher
            self.entry (promoted (Q.names key.now) self.old)) }
        ensures value { option_copied result ≡ lookup (Q.names key.now) self.old.pairs }
    {
        match self.map.get(key) {
            Some(value) => Some(&*value),
            None => None,
        }
    }

    pub(super) fn remove<Q: LookupKey<K>>(&mut self, key: &Q) -> Option<V>
        requires { KeepsBytes (both_own K.owned V.owned) self.old }
        ensures removes { Remove (by_bytes (both_own K.owned V.owned)) (Q.names key.now) self.old result self.new }
        ensures limit { limit_of self.new ≡ limit_of self.old }
        ensures keeps { KeepsBytes (both_own K.owned V.owned) self.new }
    {
        laws::calls_keep_the_bytes::<K, V, S>();
        let _len = self.map.len();
        self.map.remove(key)
    }
}
