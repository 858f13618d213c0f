ghost use Rattle.std.specs.Prelude.{◌≡◌, ℕ, ◌+◌, ◌≤◌, ◌<◌, length, sum_by, Contains, Some};
ghost use Rattle.std.specs.List.{All};
ghost use Rattle.std.specs.Map.{values_of};
ghost use Rattle.lru_tenants.specs.Cache.{IsTenant};
ghost use Rattle.lru_tenants.specs.Pool.{excess, IsPart, total_cost, total_share, Evicts, Evictions};

use crate::pool::part::{Part, drop_oldest, excess};
use lru_limits::Budgeted;
use schnellru::{KeyHasher, LruMap, Unlimited};
use std::hash::Hash;

// Returns the greatest excess of a tenant's cost over its share. If the excess is above 0, also returns the hash of the
// tenant's name. Does not lend the name itself, because the caller changes the map.
fn furthest<N: Eq + Hash, K: Eq + Hash, V, L: Budgeted<K, V>, S: KeyHasher<K>, H: KeyHasher<N>>(
    tenants: &LruMap<N, Part<K, V, L, S>, Unlimited, H>,
) -> (u64, u64)
    ensures most { All (λ own. excess L.account own ≤ result.0) (values_of tenants.now.pairs) }
    ensures there { 0 < result.0 → (pair : _) × Contains tenants.now.pairs pair
        × (excess L.account pair.1 ≡ result.0) × (H.hash_of tenants.now.hasher pair.0 ≡ result.1) }
{
    let mut most = 0;
    let mut hash = 0;
    for (name, own) in tenants.iter() {
        let above = excess(own);
        if above > most {
            most = above;
            hash = tenants.hasher().hash_named(name);
        }
    }
    (most, hash)
}

// Returns `None` only in Rust, where hashes and costs may be wrong.
fn evict<
    N: Eq + Hash,
    K: Eq + Hash + Drop,
    V: Drop,
    L: Budgeted<K, V>,
    S: KeyHasher<K>,
    H: KeyHasher<N>,
>(tenants: &mut LruMap<N, Part<K, V, L, S>, Unlimited, H>) -> Option<u64>
    requires each { All (λ own. IsTenant K.eq L.cost_of L.account L.budget_of own.1) (values_of tenants.old.pairs) }
    requires above { total_share tenants.old.pairs < total_cost L.account tenants.old.pairs }
    ensures evicts { Evicts L.rules L.account N.eq tenants.old.pairs tenants.new.pairs }
    ensures freed { (freed : ℕ) × (result ≡ Some freed)
        × (total_cost L.account tenants.new.pairs + freed ≡ total_cost L.account tenants.old.pairs) }
    ensures fewer { sum_by (λ own. length own.1.pairs) (values_of tenants.new.pairs)
        < sum_by (λ own. length own.1.pairs) (values_of tenants.old.pairs) }
    ensures shares { total_share tenants.new.pairs ≡ total_share tenants.old.pairs }
    ensures each { (limit : ℕ) → All (IsPart L.account K.eq L.cost_of L.budget_of limit) (values_of tenants.old.pairs)
        → All (IsPart L.account K.eq L.cost_of L.budget_of limit) (values_of tenants.new.pairs) }
    ensures hasher { tenants.new.hasher ≡ tenants.old.hasher }
{
    let (most, hash) = furthest(tenants);
    let _len = tenants.len();
    let own = tenants.peek_by_hash_mut(hash, |_, own| excess(own) == most)?;
    drop_oldest(own)
}

pub(super) fn settle<
    N: Eq + Hash,
    K: Eq + Hash + Drop,
    V: Drop,
    L: Budgeted<K, V>,
    S: KeyHasher<K>,
    H: KeyHasher<N>,
>(tenants: &mut LruMap<N, Part<K, V, L, S>, Unlimited, H>, mut total: u128, limit: u64) -> u128
    requires each { All (IsPart L.account K.eq L.cost_of L.budget_of limit) (values_of tenants.old.pairs) }
    requires shares { total_share tenants.old.pairs ≤ limit }
    requires total { total ≡ total_cost L.account tenants.old.pairs }
    ensures evictions { Evictions L.rules L.account N.eq limit tenants.new.pairs tenants.old.pairs }
    ensures total { result ≡ total_cost L.account tenants.new.pairs }
    ensures within { result ≤ limit }
    ensures shares { total_share tenants.new.pairs ≡ total_share tenants.old.pairs }
    ensures each { All (IsPart L.account K.eq L.cost_of L.budget_of limit) (values_of tenants.new.pairs) }
{
    'evictions: while total > limit as u128 {
        let Some(freed) = evict(tenants) else {
            return total;
        };
        total -= freed as u128;
    }
    total
}
