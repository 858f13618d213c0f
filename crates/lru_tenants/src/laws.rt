//! Laws about calls. Each law is the contract of a function that does nothing. A caller that needs the law calls this
//! function.
ghost use Rattle.std.specs.Prelude.{◌≡◌, ◌≤◌, false, Bool, List, IfSome, sum_by};
ghost use Rattle.std.specs.List.{All};
ghost use Rattle.std.specs.Map.{values_of};
ghost use Rattle.lru_model.specs.Lists.{lookup};
ghost use Rattle.lru_model.specs.State.{State};
ghost use Rattle.lru_tenants.specs.Isolation.{Did, CacheRun, Chain};
ghost use Rattle.lru_tenants.specs.Pool.{Pool, PoolRun, Spared, SparesOthers};

use crate::cache::TenantCache;
use lru_limits::Budgeted;
use schnellru::KeyHasher;
use std::hash::Hash;

/// In any list of calls, each call finds the named tenant as the previous call on this tenant left it. Calls on other
/// tenants may come between (`own`). If no call names a tenant, the tenant does not change (`others`).
///
/// The premise: each call changes only the tenant that it names, as each clause with `On` says.
///
/// ```
/// each_tenant_has_its_own_run::<u64, u64, u64, ByCost, RandomState>();
/// ```
pub fn each_tenant_has_its_own_run<
    N: Eq + Hash,
    K: Eq + Hash,
    V,
    L: Budgeted<K, V>,
    S: KeyHasher<K>,
>()
    ensures own { (name : N) (dids : List (Did N (State K V L S))) (old new : List (N × State K V L S)) →
        CacheRun N.eq old dids new → Chain name (lookup (N.eq name) old) dids (lookup (N.eq name) new) }
    ensures others { (name : N) (dids : List (Did N (State K V L S))) (old new : List (N × State K V L S)) →
        CacheRun N.eq old dids new → All (λ did. did.names name ≡ false) dids →
        lookup (N.eq name) new ≡ lookup (N.eq name) old }
{}

/// If there is a total limit, the costs of all entries add up to at most this limit.
///
/// ```
/// costs_are_within_the_total_limit(&cache);
/// ```
pub fn costs_are_within_the_total_limit<
    N: Eq + Hash,
    K: Eq + Hash,
    V,
    L: Budgeted<K, V>,
    S: KeyHasher<K> + Copy,
>(cache: &TenantCache<N, K, V, L, S>)
    ensures { IfSome cache.now.total_limit
        (λ limit. sum_by (λ map. L.account map.limiter) (values_of cache.now.tenants) ≤ limit) }
{
    let _len = cache.len();
    let _sum = cache.total_budget();
}

/// If no call of a list names a tenant of a pool, the tenant keeps its share, and the calls may evict only its oldest
/// entries. If the tenant's cost is within its share, its map does not change (`others`).
///
/// The premise: each call spares every tenant that the call does not name, as the clause `spares` of `put` says. Other
/// calls change only the tenant that they name (`leaves`). If two calls that name the same tenant spare the other
/// tenants, the two calls together spare them, too (`joins`).
///
/// ```
/// calls_spare_other_tenants::<u64, u64, u64, ByCost, RandomState>();
/// ```
pub fn calls_spare_other_tenants<
    N: Eq + Hash,
    K: Eq + Hash,
    V,
    L: Budgeted<K, V>,
    S: KeyHasher<K>,
>()
    ensures others { (name : N) (calls : List (N → Bool)) (old new : Pool N K V L S) → PoolRun L.account N.eq old calls new →
        All (λ names. names name ≡ false) calls →
        Spared L.account (lookup (N.eq name) old.tenants) (lookup (N.eq name) new.tenants) }
    ensures leaves { (names : N → Bool) (old new : Pool N K V L S) →
        ((other : N) → names other ≡ false → lookup (N.eq other) new.tenants ≡ lookup (N.eq other) old.tenants) →
        SparesOthers L.account N.eq names old new }
    ensures joins { (names : N → Bool) (old mid new : Pool N K V L S) → SparesOthers L.account N.eq names old mid →
        SparesOthers L.account N.eq names mid new → SparesOthers L.account N.eq names old new }
{}
