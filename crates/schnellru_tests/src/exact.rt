//! Callers of the laws on exact inserts.
ghost use Rattle.std.specs.Prelude.{◌≡◌, ◌≤◌, OnOk};
ghost use Rattle.lru_model.specs.Exact.{HasTables, InsertsAsReported, InsertsGiven, InsertsInSmallTable, Report};
ghost use Rattle.lru_model.specs.State.{buckets, contents};

use schnellru::{ByLength, Insertion, KeyHasher, LruMap, RandomState, laws};
use std::alloc::AllocError;
use std::hash::Hash;

fn put_exactly<K: Eq + Hash + Drop, V: Drop, L: Insertion<K, V, K>, S: KeyHasher<K>>(
    map: &mut LruMap<K, V, L, S>,
    key: K,
    value: V,
) -> Result<bool, AllocError>
    ensures reported { InsertsAsReported L.rules L.offers K.eq map.old S.hash_of key value result (contents map.new) }
    ensures given { (report : Report) × InsertsGiven L.rules L.offers K.eq (λ s pair. report) key value
        (contents map.old) result (contents map.new) }
    ensures small { buckets map.old ≤ 16 →
        InsertsInSmallTable L.rules L.offers K.eq map.old key value result (contents map.new) }
{
    laws::inserts_are_exact_unless_refused::<K, V, K, L, S>();
    laws::small_inserts_are_exact::<K, V, K, L, S>();
    map.insert(key, value)
}

fn put_into_both(
    one: &mut LruMap<u64, u64>,
    other: &mut LruMap<u64, u64>,
    key: u64,
    value: u64,
) -> Result<(bool, bool), AllocError>
    requires same { contents one.old ≡ contents other.old }
    requires tables { HasTables one.old × HasTables other.old }
    ensures { OnOk result (contents one.new ≡ contents other.new) }
{
    laws::granted_inserts_are_exact::<u64, u64, u64, ByLength, RandomState>();
    laws::inserts_are_exact_unless_refused::<u64, u64, u64, ByLength, RandomState>();
    Ok((one.insert(key, value)?, other.insert(key, value)?))
}
