ghost use Rattle.std.specs.Prelude.{◌≡◌, IfOk, true, false};
ghost use Rattle.std.specs.Result.{OnErr};
ghost use Rattle.lru_limits.specs.Admissions.{offers_of};
ghost use Rattle.lru_model.specs.State.{contents, IsMap};
ghost use Rattle.lru_model.specs.Theorems.{IsSummed};
ghost use Rattle.lru_replay.specs.CallRuns.{IsRun, SummingStep, KeepsCost};
ghost use Rattle.lru_replay.specs.Replies.{said, all_said};

use crate::calls::make_call;
use crate::{Answer, Call};
use schnellru::laws::runs_keep_sums;
use schnellru::{KeyHasher, LruMap, Summing};
use std::alloc::{AllocError, Global};
use std::hash::Hash;

/// Carries out the calls on the map like `run_calls`, but makes no call that would make the limiter's total wrong.
///
/// If a `Write` would change the cost of its entry, or a `SetLimiter` has another total, the answer is `CostDiffers`,
/// and nothing changes.
///
/// ```
/// let mut costs: LruMap<u64, u64, ByCost> = LruMap::new(alloc, ByCost::new(10), [1, 2, 3, 4], 16);
/// let calls = vec![in alloc; Call::Insert(1, 2), Call::Write(1, 3), Call::Peek(1)]?;
/// let answers = run_summing(alloc, &mut costs, calls)?;
/// let refuses = answers.get(1) == Some(&Answer::CostDiffers);
/// assert!(rt; refuses && answers.get(2) == Some(&Answer::Value(Some(2))));
/// ```
///
/// Cost: as `run_calls`, plus one more look-up for each `Write`.
///
/// # Errors
///
/// Out of memory for the answers. No call was made.
pub fn run_summing<K, V, L, S>(
    alloc: Global,
    map: &mut LruMap<K, V, L, S>,
    calls: Vec<Call<K, V, L>>,
) -> Result<Vec<Answer<K, V>>, AllocError>
where
    K: Copy + Eq + Hash + Drop,
    V: Copy + Drop,
    L: Summing<K, V> + Drop,
    S: KeyHasher<K>,
    ensures run { IfOk result (λ answers. IsRun (SummingStep L.rules (offers_of L.terms) K.eq S.hash_of
        L.cost_of L.account) (IsMap K.eq) map.old calls.items (all_said answers.items) map.new) }
    ensures sums { IsSummed L.cost_of L.account map.old → IfOk result (λ answers. IsRun
        (SummingStep L.rules (offers_of L.terms) K.eq S.hash_of L.cost_of L.account)
        (λ st. IsMap K.eq st × IsSummed L.cost_of L.account st)
        map.old calls.items (all_said answers.items) map.new) }
    ensures account { IsSummed L.cost_of L.account map.old → IsSummed L.cost_of L.account map.new }
    ensures unmade { OnErr result (map.new ≡ map.old) }
{
    let mut answers = Vec::with_capacity(alloc, calls.len())?;
    for call in calls {
        answers.push_reserved(make_summing_call(alloc, map, call));
    }
    Ok(answers)
}

fn make_summing_call<K, V, L, S>(
    alloc: Global,
    map: &mut LruMap<K, V, L, S>,
    call: Call<K, V, L>,
) -> Answer<K, V>
where
    K: Copy + Eq + Hash + Drop,
    V: Copy + Drop,
    L: Summing<K, V> + Drop,
    S: KeyHasher<K>,
    ensures step { SummingStep L.rules (offers_of L.terms) K.eq S.hash_of
        L.cost_of L.account map.old call (said result) map.new }
    ensures map { IsMap K.eq map.new }
    ensures account { IsSummed L.cost_of L.account map.old → IsSummed L.cost_of L.account map.new }
{
    runs_keep_sums::<K, V, K, L, S>();
    if !keeps_cost(map, &call) {
        return Answer::CostDiffers;
    }
    make_call(alloc, map, call)
}

fn keeps_cost<K, V, L, S>(map: &LruMap<K, V, L, S>, call: &Call<K, V, L>) -> bool
where
    K: Eq + Hash,
    L: Summing<K, V>,
    S: KeyHasher<K>,
    ensures map { IsMap K.eq map.now }
    ensures yes { result ≡ true → KeepsCost K.eq L.cost_of L.account (contents map.now) call.now }
    ensures no { result ≡ false → KeepsCost K.eq L.cost_of L.account (contents map.now) call.now → ⊥ }
{
    let _len = map.len();
    match call {
        Call::Write(key, value) => match map.peek_key_value(key) {
            Some((stored, old)) => L::cost_of(stored, value) == L::cost_of(stored, old),
            None => true,
        },
        Call::SetLimiter(limiter) => limiter.account() == map.limiter().account(),
        _ => true,
    }
}
