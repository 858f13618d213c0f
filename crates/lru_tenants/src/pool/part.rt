ghost use Rattle.std.specs.Prelude.{◌≡◌, ℕ, ◌+◌, ◌<◌, suc, length, Some};
ghost use Rattle.lru_model.specs.Calls.{PopOldest};
ghost use Rattle.lru_model.specs.State.{State, empty_map};
ghost use Rattle.ordered_table.specs.EntrySize.{entry_size};
ghost use Rattle.lru_tenants.specs.Cache.{IsTenant};
ghost use Rattle.lru_tenants.specs.Pool.{cost, excess, IsPart, with_map};

use lru_limits::Budgeted;
use schnellru::{KeyHasher, LruMap, laws};
use std::alloc::Global;
use std::hash::Hash;

/// A tenant's share of the limit, and its map.
pub(super) type Part<K, V, L, S> = (u64, LruMap<K, V, L, S>);

pub(super) fn excess<K: Eq + Hash, V, L: Budgeted<K, V>, S: KeyHasher<K>>(
    own: &Part<K, V, L, S>,
) -> u64
    ensures { result ≡ excess L.account own.now }
{
    let (share, map) = own;
    map.limiter().account().saturating_sub(*share)
}

pub(super) fn cost_of<K: Eq + Hash, V, L: Budgeted<K, V>, S: KeyHasher<K>>(
    map: &LruMap<K, V, L, S>,
) -> u64
    ensures { result ≡ L.account map.now.limiter }
{
    map.limiter().account()
}

// Returns `None` only in Rust, where costs may be wrong.
pub(super) fn drop_oldest<K: Eq + Hash + Drop, V: Drop, L: Budgeted<K, V>, S: KeyHasher<K>>(
    own: &mut Part<K, V, L, S>,
) -> Option<u64>
    requires tenant { IsTenant K.eq L.cost_of L.account L.budget_of own.old.1 }
    requires above { own.old.0 < cost L.account own.old }
    ensures pops { (gone : K × V) × (left : State K V L S) × PopOldest L.rules own.old.1 (Some gone) left
        × (own.new ≡ with_map left own.old) }
    ensures freed { (freed : ℕ) × (result ≡ Some freed) × (cost L.account own.new + freed ≡ cost L.account own.old) }
    ensures fewer { length own.old.1.pairs ≡ suc (length own.new.1.pairs) }
    ensures budget { L.budget_of own.new.1.limiter ≡ L.budget_of own.old.1.limiter }
    ensures tenant { IsTenant K.eq L.cost_of L.account L.budget_of own.new.1 }
{
    laws::calls_keep_sums::<K, V, K, L, S>();
    laws::calls_keep_the_budget::<K, V, L, S>();
    let (_, map) = own;
    let before = cost_of(map);
    let _oldest = map.pop_oldest()?;
    let after = cost_of(map);
    Some(before - after)
}

pub(super) fn opened<K: Eq + Hash, V, L: Budgeted<K, V>, S: KeyHasher<K>>(
    alloc: Global,
    hasher: S,
    limit: u64,
    share: u64,
) -> Part<K, V, L, S>
    ensures own { result ≡ (
      share,
      empty_map (L.made limit) hasher (entry_size K.row V.row L.LinkType.row)
          (L.LinkType.number L.LinkType.MAX),
    ) }
    ensures part { IsPart L.account K.eq L.cost_of L.budget_of limit result }
    ensures empty { L.account result.1.limiter ≡ 0 }
{
    laws::runs_begin_with_maps::<K, V, L, S>();
    let limiter = L::with_budget(limit);
    let map = LruMap::with_limiter_and_hasher(alloc, limiter, hasher);
    (share, map)
}
