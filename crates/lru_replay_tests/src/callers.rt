//! Functions that make runs, as in docs/CALLING.md. Their contracts follow from laws on runs.
ghost use Rattle.std.specs.Prelude.{◌≡◌, ◌≤◌, ◌+◌, ◌*◌, ℕ, Bool, true, length, IfOk, OnOk, nat_eq};
ghost use Rattle.std.specs.List.{IsDistinct, sum_by};
ghost use Rattle.lru_model.specs.Exact.{HasTableFor};
ghost use Rattle.lru_model.specs.Lists.{IsFront, keys_of};
ghost use Rattle.lru_model.specs.State.{contents};
ghost use Rattle.lru_replay.specs.CallRuns.{IsRun, ListCallStep};
ghost use Rattle.lru_replay.specs.Replies.{all_said};
ghost use Rattle.lru_model.specs.Theorems.{PaysForMoves, UsesAtMost, others};

use lru_limits::{Insertion, KeyHasher, Limiter};
use lru_replay::laws::{granted_calls_are_exact, lists_are_runs};
use lru_replay::{Answer, Call, run_calls, run_summing};
use schnellru::{Both, ByCost, ByLength, ByMemoryUsage, LruMap, RandomState, laws};
use std::alloc::{AllocError, Global};

/// Two inserts keep a map within its limits. Entries of other keys keep their order, and only the oldest of them may
/// be evicted. The stored entries pay for the moves of entries (`PaysForMoves`).
fn put_both(
    alloc: Global,
    map: &mut LruMap<u64, u64, Both<ByLength, ByMemoryUsage>>,
    first: (u64, u64),
    second: (u64, u64),
) -> Result<Vec<Answer<u64, u64>>, AllocError>
    requires length { length map.old.pairs ≤ map.old.limiter.0 }
    requires usage { UsesAtMost map.old.limiter.1 map.old }
    ensures length { OnOk result (length map.new.pairs ≤ map.old.limiter.0) }
    ensures usage { OnOk result (UsesAtMost map.old.limiter.1 map.new) }
    ensures oldest { (test : ℕ → Bool) → test first.0 ≡ true → test second.0 ≡ true →
        OnOk result (IsFront (others test map.new.pairs) (others test map.old.pairs)) }
    ensures paid { OnOk result (PaysForMoves map.old map.new) }
{
    lists_are_runs::<u64, u64, Both<ByLength, ByMemoryUsage>, RandomState>();
    laws::runs_keep_the_length::<u64, u64, u64, Both<ByLength, ByMemoryUsage>, RandomState>();
    laws::runs_keep_the_memory_usage::<u64, u64, u64, Both<ByLength, ByMemoryUsage>, RandomState>();
    laws::runs_evict_the_oldest::<u64, u64, u64, Both<ByLength, ByMemoryUsage>, RandomState>();
    laws::runs_pay_for_moves::<u64, u64, u64, Both<ByLength, ByMemoryUsage>, RandomState>();
    let _len = map.len();
    let calls = vec![in alloc;
        Call::Insert(first.0, first.1),
        Call::Insert(second.0, second.1),
    ]?;
    run_calls(alloc, map, calls)
}

/// Two inserts keep a map within its limit of cost.
fn charge_both(
    alloc: Global,
    map: &mut LruMap<u64, u64, ByCost>,
    first: (u64, u64),
    second: (u64, u64),
) -> Result<Vec<Answer<u64, u64>>, AllocError>
    requires summed { map.old.limiter.cost ≡ sum_by (λ p. p.1) map.old.pairs }
    requires within { map.old.limiter.cost ≤ map.old.limiter.limit }
    ensures within { OnOk result (map.new.limiter.cost ≤ map.new.limiter.limit) }
    ensures summed { OnOk result (map.new.limiter.cost ≡ sum_by (λ p. p.1) map.new.pairs) }
{
    lists_are_runs::<u64, u64, ByCost, RandomState>();
    laws::runs_keep_sums::<u64, u64, u64, ByCost, RandomState>();
    laws::runs_keep_the_budget::<u64, u64, ByCost, RandomState>();
    let calls = vec![in alloc;
        Call::Insert(first.0, first.1),
        Call::Insert(second.0, second.1),
    ]?;
    run_summing(alloc, map, calls)
}

/// Makes m calls on a map with a maximum length and n entries. If there is a table for 8 * (n + m + 1) entries, the
/// calls change the map as they would change a list without a table.
fn call_on_list<S: KeyHasher<u64>>(
    alloc: Global,
    map: &mut LruMap<u64, u64, ByLength, S>,
    calls: Vec<Call<u64, u64, ByLength>>,
) -> Result<Vec<Answer<u64, u64>>, AllocError>
    requires reached { HasTableFor (8 * (length map.old.pairs + length calls.items + 1)) map.old }
    ensures { IfOk result (λ answers. IsRun (ListCallStep ⟦<ByLength as Limiter<u64, u64>>⟧.rules
        ⟦<ByLength as Insertion<u64, u64, u64>>⟧.offers nat_eq (S.hash_of map.old.hasher))
        (λ list. IsDistinct nat_eq (keys_of list.pairs)) (contents map.old) calls.items (all_said answers.items)
        (contents map.new)) }
{
    granted_calls_are_exact::<u64, u64, ByLength, S>();
    let _len = map.len();
    let answers = run_calls(alloc, map, calls)?;
    Ok(answers)
}
