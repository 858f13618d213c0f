//! Public calls that may change a map are steps, so the laws on steps and on runs hold for these calls.
//!
//! A call that gets a hash has the clauses of a call below. A `drain` pops each entry that it returns. The loan of
//! `get_or_insert` is a step (`writes_newest` of `EveryCall`), but no caller's proof can use it.
ghost use Rattle.lru_limits.specs.Admissions.{offers_of};
ghost use Rattle.lru_model.specs.Runs.{Step, AnyStep, Run, RunWithoutInsert};
ghost use Rattle.lru_model.specs.Theorems.{PaysForInsertions};

use schnellru::{Admission, Insertion, KeyHasher, Limiter, LookupKey, LruMap, laws};
use std::hash::Hash;

fn look_up<K: Eq + Hash, V, Q: LookupKey<K>, L: Limiter<K, V>, S: KeyHasher<K>>(
    map: &mut LruMap<K, V, L, S>,
    key: &Q,
)
    ensures { RunWithoutInsert L.rules S.hash_of map.new map.old }
{
    map.promote(key);
    map.demote(key);
    let _ = map.get_key_value(key);
}

fn remove<K: Eq + Hash + Drop, V: Drop, Q: LookupKey<K>, L: Limiter<K, V>, S: KeyHasher<K>>(
    map: &mut LruMap<K, V, L, S>,
    key: &Q,
)
    ensures { RunWithoutInsert L.rules S.hash_of map.new map.old }
{
    map.remove(key);
    map.remove_entry(key);
    map.pop_oldest();
    map.pop_newest();
    map.pop_oldest_if(|_, _| true);
    map.clear();
}

fn release<K: Eq + Hash + Drop, V: Drop, L: Limiter<K, V>, S: KeyHasher<K>>(
    map: &mut LruMap<K, V, L, S>,
)
    ensures { RunWithoutInsert L.rules S.hash_of map.new map.old }
{
    let _ = map.try_pop_oldest(|_, _| -> Result<(), ()> { Ok(()) });
}

fn resize<K: Eq + Hash + Drop, V: Drop, L: Limiter<K, V> + Drop, S: KeyHasher<K>>(
    map: &mut LruMap<K, V, L, S>,
    limiter: L,
)
    ensures { RunWithoutInsert L.rules S.hash_of map.new map.old }
{
    map.trim();
    map.set_limiter(limiter);
    let _ = map.try_reserve(1);
    let _ = map.shrink_to_fit();
    map.retain(|_, _| true);
    map.for_each_mut(|_, _| {});
}

fn pass_on<K: Eq + Hash + Drop, V: Drop, L: Limiter<K, V> + Drop, S: KeyHasher<K>>(
    map: &mut LruMap<K, V, L, S>,
    limiters: (L, L),
)
    ensures { RunWithoutInsert L.rules S.hash_of map.new map.old }
{
    map.trim_with(&mut |_, _| {});
    map.set_limiter_with(limiters.0, &mut |_, _| {});
    map.retain_with(|_, _| true, &mut |_, _| {});
    *map.limiter_mut() = limiters.1;
}

fn write<K: Eq + Hash, V: Drop, Q: LookupKey<K>, L: Limiter<K, V>, S: KeyHasher<K>>(
    map: &mut LruMap<K, V, L, S>,
    key: &Q,
    value: V,
)
    ensures { RunWithoutInsert L.rules S.hash_of map.new map.old }
{
    let _len = map.len();
    if let Some(place) = map.get(key) {
        *place = value;
    }
}

fn overwrite<K: Eq + Hash, V: Drop, Q: LookupKey<K>, L: Limiter<K, V>, S: KeyHasher<K>>(
    map: &mut LruMap<K, V, L, S>,
    key: &Q,
    value: V,
)
    ensures { RunWithoutInsert L.rules S.hash_of map.new map.old }
{
    let _len = map.len();
    if let Some(place) = map.peek_mut(key) {
        *place = value;
    }
}

fn find<K: Eq + Hash + Drop, V: Drop, Q: LookupKey<K>, L: Limiter<K, V>, S: KeyHasher<K>>(
    map: &mut LruMap<K, V, L, S>,
    key: &Q,
    value: V,
)
    ensures { RunWithoutInsert L.rules S.hash_of map.new map.old }
{
    if let Some(mut entry) = map.find_entry(key) {
        entry.promote();
        entry.demote();
        *entry.get_mut() = value;
        entry.remove_entry();
    }
}

fn walk<K: Eq + Hash, V: Drop, L: Limiter<K, V>, S: KeyHasher<K>>(
    map: &mut LruMap<K, V, L, S>,
    value: V,
)
    ensures { RunWithoutInsert L.rules S.hash_of map.new map.old }
{
    let _len = map.len();
    let mut walk = map.iter_mut();
    if walk.len() > 0 {
        let (_, place) = walk.lend_next();
        *place = value;
    }
}

fn insert<
    K: Eq + Hash + Drop,
    V: Drop,
    I: LookupKey<K> + Drop,
    L: Insertion<K, V, I>,
    S: KeyHasher<K>,
>(map: &mut LruMap<K, V, L, S>, keys: (I, I, I), values: (V, V, V))
    ensures { Run (Step L.rules L.offers I.names S.hash_of) map.new map.old }
{
    let _ = map.insert(keys.0, values.0);
    map.update(keys.1, values.1);
    let _ = map.insert_and_keep(keys.2, values.2);
}

fn insert_with<
    K: Eq + Hash + Drop,
    V: Drop,
    I: LookupKey<K> + Drop,
    L: Insertion<K, V, I>,
    S: KeyHasher<K>,
>(map: &mut LruMap<K, V, L, S>, keys: (I, I, I, I), values: (V, V, V, V))
    ensures { Run (Step L.rules L.offers I.names S.hash_of) map.new map.old }
{
    let _ = map.insert_with(keys.0, values.0, &mut |_, _| {});
    let _ = map.insert_full(keys.1, values.1, &mut |_, _| {});
    map.update_with(keys.2, values.2, &mut |_, _| {});
    if map.peek_key_value(&keys.3).is_none() {
        let hash = map.hasher().hash_named(&keys.3);
        let _ = map.insert_absent(hash, keys.3, values.3, &mut |_, _| {});
    }
}

fn extend<K: Eq + Hash + Drop, V: Drop, L: Insertion<K, V, K>, S: KeyHasher<K>>(
    map: &mut LruMap<K, V, L, S>,
    entries: Vec<(K, V)>,
)
    ensures { Run (Step L.rules L.offers K.eq S.hash_of) map.new map.old }
{
    let _ = map.try_extend(entries);
}

fn try_insert<K: Eq + Hash + Drop, V: Drop, L: Admission<K, V> + Copy, S: KeyHasher<K>>(
    map: &mut LruMap<K, V, L, S>,
    keys: (K, K),
    values: (V, V),
)
    ensures run { Run (Step L.rules (offers_of L.terms) K.eq S.hash_of) map.new map.old }
    ensures paid { PaysForInsertions map.old map.new }
{
    laws::try_inserts_pay_for_moves::<K, V, L, S>();
    let _len = map.len();
    let _ = map.try_insert(keys.0, values.0);
    let _ = map.try_insert(keys.1, values.1);
}

fn make<
    K: Eq + Hash + Drop,
    V: Drop,
    I: LookupKey<K> + Drop,
    E: Drop,
    L: Insertion<K, V, I>,
    S: KeyHasher<K>,
    F: FnOnce() -> V,
    G: FnOnce() -> Result<V, E>,
>(map: &mut LruMap<K, V, L, S>, keys: (I, I), make: F, try_to_make: G)
    requires first { F.pre make }
    requires second { G.pre try_to_make }
    ensures { Run (Step L.rules L.offers I.names S.hash_of) map.new map.old }
{
    let _ = map.ensure_newest(keys.0, make);
    let _ = map.ensure_newest_fallible(keys.1, try_to_make);
}

fn write_newest<K: Eq + Hash, V: Drop, L: Limiter<K, V>, S: KeyHasher<K>>(
    map: &mut LruMap<K, V, L, S>,
    value: V,
)
    ensures { RunWithoutInsert L.rules S.hash_of map.new map.old }
{
    let _len = map.len();
    if let Some(place) = map.newest_mut() {
        *place = value;
    }
}

fn insert_and_look_up<
    K: Eq + Hash + Drop,
    V: Drop,
    I: LookupKey<K> + Drop,
    Q: LookupKey<K>,
    L: Insertion<K, V, I>,
    S: KeyHasher<K>,
>(map: &mut LruMap<K, V, L, S>, inserted: I, value: V, key: &Q)
    ensures { Run (AnyStep L.rules L.offers I.names S.hash_of) map.new map.old }
{
    let _ = map.insert(inserted, value);
    look_up(map, key);
}
