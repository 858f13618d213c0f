//! What counted calls do to the map of a tenant.
ghost use Rattle.std.specs.Prelude.{◌≡◌, true, is_some, length, None, Ok};
ghost use Rattle.lru_caches.specs.Counted.{looked_up};
ghost use Rattle.lru_limits.specs.Admissions.{offers_of};
ghost use Rattle.lru_model.specs.Calls.{promoted};
ghost use Rattle.lru_model.specs.GetOrInserts.{MakesNewest};
ghost use Rattle.lru_model.specs.Inserts.{Insert};
ghost use Rattle.lru_model.specs.Lists.{first, lookup, without};
ghost use Rattle.lru_tenants.specs.Counting.{counting_rules, counting_terms, counted, is_kept, with_counts};
ghost use Rattle.lru_tenants.specs.Counting.{CountsGetOrInsert, CountsInsert, IsCountingTenant};

use crate::counting::Counting;
use crate::tenant::insert;
use lru_caches::Counts;
use lru_limits::Budgeted;
use schnellru::{KeyHasher, LookupKey, LruMap};
use std::alloc::AllocError;
use std::hash::Hash;

pub(crate) fn set_counts<K: Eq + Hash, V, L: Budgeted<K, V>, S: KeyHasher<K>>(
    map: &mut LruMap<K, V, Counting<L>, S>,
    counts: Counts,
)
    requires { IsCountingTenant K.eq L.cost_of L.account L.budget_of map.old }
    ensures map { map.new ≡ with_counts counts map.old }
    ensures tenant { IsCountingTenant K.eq L.cost_of L.account L.budget_of map.new }
{
    map.limiter_mut().counts = counts;
    let _len = map.len();
}

fn count_look_up<K: Eq + Hash, V, L: Budgeted<K, V>, S: KeyHasher<K>>(
    map: &mut LruMap<K, V, Counting<L>, S>,
    found: bool,
)
    requires { IsCountingTenant K.eq L.cost_of L.account L.budget_of map.old }
    ensures map { map.new ≡ counted (looked_up found) map.old }
    ensures tenant { IsCountingTenant K.eq L.cost_of L.account L.budget_of map.new }
{
    let mut counts = map.limiter().counts;
    counts.count_look_up(found);
    set_counts(map, counts);
}

pub(crate) fn look_up<K: Eq + Hash, V, L: Budgeted<K, V>, S: KeyHasher<K>, Q: LookupKey<K>>(
    map: &mut LruMap<K, V, Counting<L>, S>,
    key: &Q,
) -> bool
    requires { IsCountingTenant K.eq L.cost_of L.account L.budget_of map.old }
    ensures there { result ≡ is_some (lookup (Q.names key.now) map.old.pairs) }
    ensures map { map.new ≡ counted (looked_up result) (promoted (Q.names key.now) map.old) }
    ensures tenant { IsCountingTenant K.eq L.cost_of L.account L.budget_of map.new }
{
    let there = map.promote(key);
    count_look_up(map, there);
    there
}

pub(crate) fn insert_counted<K: Eq + Hash + Drop, V: Drop, L: Budgeted<K, V>, S: KeyHasher<K>>(
    map: &mut LruMap<K, V, Counting<L>, S>,
    key: K,
    value: V,
) -> Result<bool, AllocError>
    requires { IsCountingTenant K.eq L.cost_of L.account L.budget_of map.old }
    ensures inserts { CountsInsert (Insert (counting_rules L.rules) (offers_of (counting_terms L.terms)) K.eq
        S.hash_of key value) (K.eq key) map.old result map.new }
    ensures budget { L.budget_of map.new.limiter.limiter ≡ L.budget_of map.old.limiter.limiter }
    ensures tenant { IsCountingTenant K.eq L.cost_of L.account L.budget_of map.new }
{
    let others = map.len() - map.contains(&key) as usize;
    insert_beside(map, key, value, others)
}

// `others` is the number of entries with other keys.
fn insert_beside<K: Eq + Hash + Drop, V: Drop, L: Budgeted<K, V>, S: KeyHasher<K>>(
    map: &mut LruMap<K, V, Counting<L>, S>,
    key: K,
    value: V,
    others: usize,
) -> Result<bool, AllocError>
    requires tenant { IsCountingTenant K.eq L.cost_of L.account L.budget_of map.old }
    requires others { others ≡ length (without (K.eq key) map.old.pairs) }
    ensures inserts { CountsInsert (Insert (counting_rules L.rules) (offers_of (counting_terms L.terms)) K.eq
        S.hash_of key value) (K.eq key) map.old result map.new }
    ensures newest { result ≡ Ok true → is_some (first map.new.pairs) ≡ true }
    ensures budget { L.budget_of map.new.limiter.limiter ≡ L.budget_of map.old.limiter.limiter }
    ensures tenant { IsCountingTenant K.eq L.cost_of L.account L.budget_of map.new }
{
    let done = insert(map, key, value, &mut |_, _| {});
    let is_there = is_kept(&done);
    let evicted = others.saturating_sub(map.len() - is_there as usize);
    let mut counts = map.limiter().counts;
    counts.count_insert(&done, evicted as u64);
    set_counts(map, counts);
    done
}

pub(crate) fn get_or_insert_counted<
    K: Eq + Hash + Drop,
    V: Drop,
    L: Budgeted<K, V>,
    S: KeyHasher<K>,
    F: FnOnce() -> V,
>(map: &mut LruMap<K, V, Counting<L>, S>, key: K, make: F) -> Result<bool, AllocError>
    requires tenant { IsCountingTenant K.eq L.cost_of L.account L.budget_of map.old }
    requires callable { lookup (K.eq key) map.old.pairs ≡ None → F.pre make }
    ensures step { CountsGetOrInsert (MakesNewest (counting_rules L.rules) (offers_of (counting_terms L.terms)) K.eq
        S.hash_of (F.post make) key) (K.eq key) map.old result map.new }
    ensures newest { result ≡ Ok true → is_some (first map.new.pairs) ≡ true }
    ensures budget { L.budget_of map.new.limiter.limiter ≡ L.budget_of map.old.limiter.limiter }
    ensures tenant { IsCountingTenant K.eq L.cost_of L.account L.budget_of map.new }
{
    if map.promote(&key) {
        count_look_up(map, true);
        return Ok(true);
    }
    let others = map.len();
    let done = insert_beside(map, key, make(), others);
    count_look_up(map, false);
    done
}

fn is_kept(done: &Result<bool, AllocError>) -> bool
    ensures { result ≡ is_kept done.now }
{
    match done {
        Ok(kept) => *kept,
        Err(_) => false,
    }
}
