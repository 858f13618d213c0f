ghost use Rattle.std.specs.Prelude.{◌≡◌, ◌≤◌, IfOk, IfSome, sum_by};
ghost use Rattle.std.specs.Map.{values_of};
ghost use Rattle.std.specs.Result.{OnErr};
ghost use Rattle.lru_limits.specs.Admissions.{offers_of};
ghost use Rattle.lru_model.specs.Lists.{lookup};
ghost use Rattle.ordered_table.specs.EntrySize.{entry_size};
ghost use Rattle.lru_tenants.specs.Cache.{fresh, AreTenants, On};
ghost use Rattle.lru_tenants.specs.TenantRuns.{named, Gets, TenantStep, CacheStep, IsRun, IsOwnRun};

use crate::cache::TenantCache;
use crate::call::{TenantAnswer, TenantCall};
use crate::error::TenantError;
use crate::laws::costs_are_within_the_total_limit;
use lru_limits::Budgeted;
use schnellru::KeyHasher;
use std::alloc::{AllocError, Global};
use std::hash::Hash;

/// Carries out the calls in order, and returns one answer for each.
///
/// Each call finds the cache as the previous call left it (`run`), and so the named tenant as the previous call on this
/// tenant left it (`own`).
///
/// ```
/// let mut cache: TenantCache<u64, u64, u64> = TenantCache::new(alloc, [1, 2, 3, 4]);
/// let calls = vec![in alloc; TenantCall::Open(1, 3), TenantCall::Put(1, 7, 1), TenantCall::Get(2, 7)]?;
/// let answers = run_tenants(alloc, &mut cache, calls)?;
/// assert!(rt; answers.get(1) == Some(&TenantAnswer::Put(Ok(true))));
/// assert!(rt; answers.get(2) == Some(&TenantAnswer::Got(Err(TenantError::NotOpen))));
/// ```
///
/// Cost: the costs of the calls, and one allocation for the answers.
///
/// # Errors
///
/// Out of memory for the answers.
pub fn run_tenants<
    N: Copy + Eq + Hash + Drop,
    K: Copy + Eq + Hash + Drop,
    V: Copy + Drop,
    L: Budgeted<K, V> + Drop,
    S: KeyHasher<K> + Copy,
>(
    alloc: Global,
    cache: &mut TenantCache<N, K, V, L, S>,
    calls: Vec<TenantCall<N, K, V>>,
) -> Result<Vec<TenantAnswer<V>>, AllocError>
    ensures run { IfOk result (λ answers.
        IsRun L.rules (offers_of L.terms) L.cost_of L.account L.budget_of K.eq S.hash_of
        (fresh L.made (entry_size K.row V.row L.LinkType.row) (L.LinkType.number L.LinkType.MAX)) N.eq
        cache.old calls.items answers.items cache.new) }
    ensures own { IfOk result (λ answers. (name : N) →
        IsOwnRun L.rules (offers_of L.terms) L.cost_of L.account L.budget_of K.eq S.hash_of
        (fresh L.made (entry_size K.row V.row L.LinkType.row) (L.LinkType.number L.LinkType.MAX)) N.eq
        cache.old (λ n. N.eq n name)
        (lookup (N.eq name) cache.old.tenants) calls.items answers.items (lookup (N.eq name) cache.new.tenants)) }
    ensures tenants { AreTenants K.eq L.cost_of L.account L.budget_of cache.new }
    ensures limit { IfOk result (λ answers. IfSome cache.new.total_limit
        (λ limit. sum_by (λ map. L.account map.limiter) (values_of cache.new.tenants) ≤ limit)) }
    ensures unmade { OnErr result (cache.new ≡ cache.old) }

    ensures hasher { cache.new.hasher ≡ cache.old.hasher }
    ensures total_limit { cache.new.total_limit ≡ cache.old.total_limit }
{
    let _len = cache.len();
    let mut answers = Vec::with_capacity(alloc, calls.len())?;
    for call in calls {
        answers.push_reserved(make_tenant_call(cache, call));
    }
    costs_are_within_the_total_limit(cache);
    Ok(answers)
}

fn make_tenant_call<
    N: Copy + Eq + Hash + Drop,
    K: Copy + Eq + Hash + Drop,
    V: Copy + Drop,
    L: Budgeted<K, V> + Drop,
    S: KeyHasher<K> + Copy,
>(cache: &mut TenantCache<N, K, V, L, S>, call: TenantCall<N, K, V>) -> TenantAnswer<V>
    ensures { CacheStep L.rules (offers_of L.terms) L.cost_of L.account L.budget_of K.eq S.hash_of
        (fresh L.made (entry_size K.row V.row L.LinkType.row) (L.LinkType.number L.LinkType.MAX)) N.eq
        cache.old call result cache.new }
{
    let answer = answer_to(cache, call);
    let _len = cache.len();
    answer
}

fn answer_to<
    N: Copy + Eq + Hash + Drop,
    K: Copy + Eq + Hash + Drop,
    V: Copy + Drop,
    L: Budgeted<K, V> + Drop,
    S: KeyHasher<K> + Copy,
>(cache: &mut TenantCache<N, K, V, L, S>, call: TenantCall<N, K, V>) -> TenantAnswer<V>
    ensures { On N.eq (N.eq (named call)) (TenantStep L.rules (offers_of L.terms) L.cost_of L.account L.budget_of K.eq S.hash_of
        (fresh L.made (entry_size K.row V.row L.LinkType.row) (L.LinkType.number L.LinkType.MAX)) N.eq cache.old call)
        cache.old result cache.new }
{
    match call {
        TenantCall::Open(name, budget) => TenantAnswer::Opened(cache.open(name, budget)),
        TenantCall::Put(name, key, value) => TenantAnswer::Put(cache.put(&name, key, value)),
        TenantCall::Get(name, key) => TenantAnswer::Got(get(cache, &name, &key)),
        TenantCall::Cost(name) => TenantAnswer::Cost(cache.cost(&name)),
        TenantCall::Close(name) => TenantAnswer::Closed(cache.close(&name)),
    }
}

fn get<N: Eq + Hash, K: Eq + Hash, V: Copy, L: Budgeted<K, V>, S: KeyHasher<K> + Copy>(
    cache: &mut TenantCache<N, K, V, L, S>,
    name: &N,
    key: &K,
) -> Result<Option<V>, TenantError>
    ensures { On N.eq (N.eq name.now) (Gets (K.eq key.now)) cache.old result cache.new }
{
    match cache.get(name, key) {
        Ok(value) => Ok(value.copied()),
        Err(error) => Err(error),
    }
}
