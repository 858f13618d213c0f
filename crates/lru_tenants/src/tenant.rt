//! What calls do to the map of a tenant.
ghost use Rattle.std.specs.Prelude.{◌≡◌, true, false, List, length, reverse, Some, None, option_map, Ok, IfOk};
ghost use Rattle.std.specs.Option.{option_copied};
ghost use Rattle.lru_limits.specs.Admissions.{offers_of};
ghost use Rattle.lru_model.specs.Calls.{Remove, cleared};
ghost use Rattle.lru_model.specs.GetOrInserts.{MakesNewest};
ghost use Rattle.lru_model.specs.Callbacks.{CalledWith, InsertPasses, TrimPasses};
ghost use Rattle.lru_model.specs.Inserts.{Insert, kept_of};
ghost use Rattle.lru_model.specs.Lists.{lookup, first};
ghost use Rattle.lru_model.specs.Retains.{Retains};
ghost use Rattle.lru_model.specs.State.{Trims};
ghost use Rattle.lru_model.specs.Theorems.{InsertEnds};
ghost use Rattle.lru_tenants.specs.Cache.{IsTenant, with_limiter};
ghost use Rattle.lru_tenants.specs.PutFulls.{comes_back, rejects};

use lru_limits::Budgeted;
use schnellru::{Inserted, KeyHasher, LookupKey, LruMap, laws};
use std::alloc::AllocError;
use std::hash::Hash;

pub(crate) mod counted;

#[tactic(auto, using(lru_model::proofs::CallbackLemmas::may_take_always))]
pub(crate) fn insert<
    K: Eq + Hash + Drop,
    V: Drop,
    L: Budgeted<K, V>,
    S: KeyHasher<K>,
    F: FnMut(K, V),
>(map: &mut LruMap<K, V, L, S>, key: K, value: V, sink: &mut F) -> Result<bool, AllocError>
    requires tenant { IsTenant K.eq L.cost_of L.account L.budget_of map.old }
    requires callable { F.IsAlwaysCallable sink.old }
    ensures inserts { Insert L.rules (offers_of L.terms) K.eq S.hash_of key value
        map.old result map.new }
    ensures ends { InsertEnds L.rules (offers_of L.terms) K.eq S.hash_of key value map.old result map.new }
    ensures passed { (passed : List (K × V)) × CalledWith F.FnMut sink.old passed sink.new
        × InsertPasses L.rules (offers_of L.terms) K.eq S.hash_of key value map.old result passed
        map.new }
    ensures callable { F.IsAlwaysCallable sink.new }
    ensures budget { L.budget_of map.new.limiter ≡ L.budget_of map.old.limiter }
    ensures tenant { IsTenant K.eq L.cost_of L.account L.budget_of map.new }
{
    laws::calls_keep_sums::<K, V, K, L, S>();
    laws::calls_keep_the_budget::<K, V, L, S>();
    map.insert_with(key, value, sink)
}

#[tactic(auto, using(lru_model::proofs::CallbackLemmas::may_take_always))]
pub(crate) fn insert_full<
    K: Eq + Hash + Drop,
    V: Drop,
    L: Budgeted<K, V>,
    S: KeyHasher<K>,
    F: FnMut(K, V),
>(map: &mut LruMap<K, V, L, S>, key: K, value: V, sink: &mut F) -> Result<Inserted<V>, AllocError>
    requires tenant { IsTenant K.eq L.cost_of L.account L.budget_of map.old }
    requires callable { F.IsAlwaysCallable sink.old }
    ensures inserts { Insert L.rules (offers_of L.terms) K.eq S.hash_of key value map.old (kept_of result) map.new }
    ensures unkept { IfOk result (λ inserted. inserted.unkept
        ≡ comes_back L.terms K.eq key value L.rules map.old) }
    ensures rejects { rejects L.terms K.eq key value map.old ≡ true →
        (result ≡ Ok (record { kept = false; unkept = Some value })) × (map.new ≡ map.old) }
    ensures passed { (passed : List (K × V)) × CalledWith F.FnMut sink.old passed sink.new
        × InsertPasses L.rules (offers_of L.terms) K.eq S.hash_of key value map.old (kept_of result) passed map.new }
    ensures callable { F.IsAlwaysCallable sink.new }
    ensures budget { L.budget_of map.new.limiter ≡ L.budget_of map.old.limiter }
    ensures tenant { IsTenant K.eq L.cost_of L.account L.budget_of map.new }
{
    if rejects(map, &key, &value) {
        return Ok(Inserted {
            kept: false,
            unkept: Some(value),
        });
    }
    laws::calls_keep_sums::<K, V, K, L, S>();
    laws::calls_keep_the_budget::<K, V, L, S>();
    map.insert_full(key, value, sink)
}

fn rejects<K: Eq + Hash, V, L: Budgeted<K, V>, S: KeyHasher<K>>(
    map: &LruMap<K, V, L, S>,
    key: &K,
    value: &V,
) -> bool
    ensures { result ≡ rejects L.terms K.eq key.now value.now map.now }
{
    !map.limiter().accepts(map.len(), key, value) && !map.contains(key)
}

pub(crate) fn get_or_insert<
    K: Eq + Hash + Drop,
    V: Drop,
    L: Budgeted<K, V>,
    S: KeyHasher<K>,
    F: FnOnce() -> V,
>(map: &mut LruMap<K, V, L, S>, key: K, make: F) -> Result<bool, AllocError>
    requires tenant { IsTenant K.eq L.cost_of L.account L.budget_of map.old }
    requires callable { lookup (K.eq key) map.old.pairs ≡ None → F.pre make }
    ensures step { MakesNewest L.rules (offers_of L.terms) K.eq S.hash_of (F.post make) key map.old result map.new }
    ensures budget { L.budget_of map.new.limiter ≡ L.budget_of map.old.limiter }
    ensures tenant { IsTenant K.eq L.cost_of L.account L.budget_of map.new }
{
    laws::calls_keep_sums::<K, V, K, L, S>();
    laws::calls_keep_the_budget::<K, V, L, S>();
    map.ensure_newest(key, make)
}

pub(crate) fn newest<K: Eq + Hash, V, L: Budgeted<K, V>, S: KeyHasher<K>>(
    map: &LruMap<K, V, L, S>,
) -> Option<&V>
    ensures { option_copied result ≡ option_map (λ pair. pair.1) (first map.now.pairs) }
{
    match map.peek_newest() {
        Some((_, value)) => Some(value),
        None => None,
    }
}

pub(crate) fn remove<
    K: Eq + Hash + Drop,
    V: Drop,
    L: Budgeted<K, V>,
    S: KeyHasher<K>,
    Q: LookupKey<K>,
>(map: &mut LruMap<K, V, L, S>, key: &Q) -> Option<V>
    requires { IsTenant K.eq L.cost_of L.account L.budget_of map.old }
    ensures removes { Remove L.rules (Q.names key.now) map.old result map.new }
    ensures budget { L.budget_of map.new.limiter ≡ L.budget_of map.old.limiter }
    ensures tenant { IsTenant K.eq L.cost_of L.account L.budget_of map.new }
{
    laws::calls_keep_maps::<K, V, K, L, S>();
    laws::calls_keep_sums::<K, V, K, L, S>();
    laws::calls_keep_the_budget::<K, V, L, S>();
    let value = map.remove(key);
    let _len = map.len();
    value
}

pub(crate) fn retain<
    K: Eq + Hash + Drop,
    V: Drop,
    L: Budgeted<K, V>,
    S: KeyHasher<K>,
    F: FnMut(&K, &V) -> bool,
>(map: &mut LruMap<K, V, L, S>, keep: F)
    requires tenant { IsTenant K.eq L.cost_of L.account L.budget_of map.old }
    requires callable { F.IsAlwaysCallable keep }
    ensures retains { Retains F.FnMut L.rules keep map.old map.new }
    ensures budget { L.budget_of map.new.limiter ≡ L.budget_of map.old.limiter }
    ensures tenant { IsTenant K.eq L.cost_of L.account L.budget_of map.new }
{
    laws::calls_keep_sums::<K, V, K, L, S>();
    laws::calls_keep_the_budget::<K, V, L, S>();
    map.retain(keep);
}

pub(crate) fn clear<K: Eq + Hash + Drop, V: Drop, L: Budgeted<K, V>, S: KeyHasher<K>>(
    map: &mut LruMap<K, V, L, S>,
)
    requires { IsTenant K.eq L.cost_of L.account L.budget_of map.old }
    ensures clears { map.new ≡ cleared L.rules map.old }
    ensures budget { L.budget_of map.new.limiter ≡ L.budget_of map.old.limiter }
    ensures tenant { IsTenant K.eq L.cost_of L.account L.budget_of map.new }
{
    laws::calls_keep_sums::<K, V, K, L, S>();
    laws::calls_keep_the_budget::<K, V, L, S>();
    map.clear();
    let _len = map.len();
}

#[tactic(auto, using(lru_model::proofs::CallbackLemmas::may_take_always))]
pub(crate) fn set_budget<
    K: Eq + Hash + Drop,
    V: Drop,
    L: Budgeted<K, V>,
    S: KeyHasher<K>,
    F: FnMut(K, V),
>(map: &mut LruMap<K, V, L, S>, budget: u64, sink: &mut F)
    requires tenant { IsTenant K.eq L.cost_of L.account L.budget_of map.old }
    requires callable { F.IsAlwaysCallable sink.old }
    ensures trims { Trims L.rules (with_limiter (L.rebudgeted budget map.old.limiter) map.old) map.new }
    ensures passed { (passed : List (K × V)) × CalledWith F.FnMut sink.old passed sink.new
        × TrimPasses L.rules (with_limiter (L.rebudgeted budget map.old.limiter) map.old) passed map.new }
    ensures callable { F.IsAlwaysCallable sink.new }
    ensures budget { L.budget_of map.new.limiter ≡ budget }
    ensures tenant { IsTenant K.eq L.cost_of L.account L.budget_of map.new }
{
    laws::calls_keep_sums::<K, V, K, L, S>();
    laws::calls_keep_the_budget::<K, V, L, S>();
    map.limiter_mut().set_budget(budget);
    map.trim_with(sink);
}

pub(crate) fn empty<K: Eq + Hash, V, L: Budgeted<K, V>, S: KeyHasher<K>, F: FnMut(K, V)>(
    map: &mut LruMap<K, V, L, S>,
    sink: &mut F,
) -> usize
    requires callable { F.IsAlwaysCallable sink.old }
    ensures count { result ≡ length map.old.pairs }
    ensures passed { CalledWith F.FnMut sink.old (reverse map.old.pairs) sink.new }
    ensures callable { F.IsAlwaysCallable sink.new }
{
    let count = map.len();
    'pops: while let Some((key, value)) = map.pop_oldest() {
        sink(key, value);
    }
    count
}
