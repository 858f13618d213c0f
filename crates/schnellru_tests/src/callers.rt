//! Functions that call a map: the code of docs/CALLING.md.
ghost use Rattle.std.specs.Prelude.{◌≡◌, ◌≤◌, ◌<◌, ◌⊎◌, ℕ, ◌+◌, ◌*◌, ◌/◌, ◌∷◌, ◌++◌, List, length, reverse, take, nat_eq};
ghost use Rattle.std.specs.Prelude.{Some, None, Ok, IfOk, OnOk, OnErr, true, is_some, sum_by, string_len};
ghost use Rattle.std.specs.Prelude.{map as mapped};
ghost use Rattle.std.specs.List.{All, IsDistinct};
ghost use Rattle.std.specs.String.{string_eq};
ghost use Rattle.group_table.specs.Bucket.{deleted};
ghost use Rattle.group_table.specs.Change.{count_up};
ghost use Rattle.group_table.specs.Sizes.{full_capacity};
ghost use Rattle.lru_limits.specs.Texts.{names_text};
ghost use Rattle.lru_model.specs.Lists.{keys_of, lookup, lookup_entry, without, IsFront};
ghost use Rattle.lru_model.specs.Place.{HasPairsButNoGrowth};
ghost use Rattle.lru_model.specs.Sizes.{usage, max_of_32_bits};
ghost use Rattle.lru_model.specs.State.{buckets, growth_left, FirstFreeIs};
ghost use Rattle.lru_model.specs.Calls.{promoted};
ghost use Rattle.lru_model.specs.Callbacks.{CalledWith};
ghost use Rattle.lru_model.specs.Kept.{KeepsToLength};
ghost use Rattle.lru_model.specs.Runs.{AnyStep, Run, EachStep, EvictsFromOldEnd};
ghost use Rattle.lru_model.specs.Theorems.{KeepsValues, PaysForMoves, UsesAtMost, others};

use schnellru::{
    Both, ByCost, ByLength, ByMemoryUsage, Insertion, KeyHasher, Limiter, LruMap, MoveReport,
    RandomState, ReserveError, UnlimitedCompact, laws,
};
use std::alloc::{AllocError, Global};
use std::hash::Hash;

fn put(map: &mut LruMap<u64, u64>, key: u64, value: u64) -> Result<bool, AllocError>
    ensures { result ≡ Ok true → lookup (nat_eq key) map.new.pairs ≡ Some value }
{
    let kept = map.insert(key, value)?;
    if kept {
        let found = map.peek(&key).copied();
        prove!(found == Some(value));
    }
    Ok(kept)
}

/// Does what `put` does, for any types, with a limiter that changes no value.
fn put_any<K: Eq + Hash + Drop, V: Drop, L: Insertion<K, V, K>>(
    map: &mut LruMap<K, V, L>,
    key: K,
    value: V,
) -> Result<bool, AllocError>
    requires { KeepsValues L.offers }
    ensures { result ≡ Ok true → lookup (K.eq key) map.new.pairs ≡ Some value }
{
    map.insert(key, value)
}

fn touch(map: &mut LruMap<u64, u64>, key: u64) -> bool
    ensures there { result ≡ is_some (lookup (nat_eq key) map.old.pairs) }
    ensures newest { map.new ≡ promoted (nat_eq key) map.old }
{
    map.promote(&key)
}

fn overwrite(map: &mut LruMap<u64, u64>, key: u64, value: u64) -> bool
    ensures { result ≡ true → lookup (nat_eq key) map.new.pairs ≡ Some value }
{
    match map.get(&key) {
        Some(place) => {
            *place = value;
            true
        }
        None => false,
    }
}

/// Before and after the call, the value of each key of the map is what the closure returns for the key.
fn memo<F: Fn(u64) -> u64>(
    map: &mut LruMap<u64, u64>,
    answers: F,
    key: u64,
) -> Result<u64, AllocError>
    requires callable { F.IsAlwaysCallable answers }
    requires known { All (λ p. F.post answers p.0 p.1) map.old.pairs }
    ensures value { IfOk result (λ value. F.post answers key value) }
    ensures knows { All (λ p. F.post answers p.0 p.1) map.new.pairs }
{
    laws::calls_evict_the_oldest::<u64, u64, u64, ByLength, RandomState>();
    if let Some(value) = map.get(&key) {
        return Ok(*value);
    }
    let value = answers(key);
    map.insert(key, value)?;
    Ok(value)
}

fn fetch<F: Fn(&String) -> String>(
    map: &mut LruMap<String, String>,
    key: String,
    load: F,
) -> Result<String, AllocError>
    requires callable { F.IsAlwaysCallable load }
    ensures { IsFront (others (string_eq key) map.new.pairs) (others (string_eq key) map.old.pairs) }
{
    laws::calls_evict_the_oldest::<String, String, String, ByLength, RandomState>();
    if let Some(text) = map.get(&key) {
        return text.clone();
    }
    let text = load(&key);
    map.insert(key, text.clone()?)?;
    Ok(text)
}

fn reset(map: &mut LruMap<String, u64>)
    ensures { map.new ≡ record map.old { pairs = mapped (λ pair. (pair.0, 0)) map.old.pairs } }
{
    let mut walk = map.iter_mut();
    'pairs: while walk.len() > 0 {
        let (_, value) = walk.lend_next();
        *value = 0;
    }
}

/// On average, growth moves each stored entry at most twice.
fn count_all(alloc: Global, texts: &[String]) -> Result<MoveReport, AllocError>
    ensures { IfOk result (λ report. report.moved ≤ 2 * report.placed) }
{
    laws::runs_begin_with_maps::<String, u64, ByLength, RandomState>();
    laws::inserts_pay_for_moves::<String, u64, String, ByLength, RandomState>();
    let mut map: LruMap<String, u64> = LruMap::new(alloc, ByLength::new(1000), [1, 2, 3, 4], 40);
    for text in texts {
        map.insert(text.clone()?, 1)?;
    }
    Ok(map.move_report())
}

/// The table makes at most three insertions for each text, including the insertions of moved entries.
fn keep_all(alloc: Global, texts: &[String]) -> Result<LruMap<String, u64>, AllocError>
    ensures { IfOk result (λ map. map.counts.insertions ≤ 3 * length texts.now) }
{
    laws::runs_begin_with_maps::<String, u64, ByLength, RandomState>();
    laws::try_inserts_pay_for_moves::<String, u64, ByLength, RandomState>();
    let mut map: LruMap<String, u64> = LruMap::new(alloc, ByLength::new(1000), [1, 2, 3, 4], 40);
    for text in texts {
        let _ = map.try_insert(text.clone()?, 1);
    }
    Ok(map)
}

fn put_within(map: &mut LruMap<String, u64>, key: String, value: u64) -> Result<bool, AllocError>
    requires { length map.old.pairs ≤ map.old.limiter }
    ensures { length map.new.pairs ≤ map.new.limiter }
{
    laws::calls_keep_the_length::<String, u64, String, ByLength, RandomState>();
    map.insert(key, value)
}

/// Does what `put_within` does, under limits of the length and of the table's bytes.
fn put_within_both(
    map: &mut LruMap<String, u64, Both<ByMemoryUsage, ByLength>>,
    key: String,
    value: u64,
) -> Result<bool, AllocError>
    requires length { length map.old.pairs ≤ map.old.limiter.1 }
    requires usage { UsesAtMost map.old.limiter.0 map.old }
    ensures length { length map.new.pairs ≤ map.new.limiter.1 }
    ensures usage { UsesAtMost map.new.limiter.0 map.new }
{
    laws::calls_keep_the_length::<
        String,
        u64,
        String,
        Both<ByMemoryUsage, ByLength>,
        RandomState,
    >();
    laws::calls_keep_the_memory_usage::<
        String,
        u64,
        String,
        Both<ByMemoryUsage, ByLength>,
        RandomState,
    >();
    map.insert(key, value)
}

fn exchange(
    map: &mut LruMap<String, String, ByCost>,
    old: &str,
    new: String,
    text: String,
) -> Result<bool, AllocError>
    requires summed { map.old.limiter.cost ≡ sum_by (λ p. string_len p.1) map.old.pairs }
    requires within { map.old.limiter.cost ≤ map.old.limiter.limit }
    ensures summed { map.new.limiter.cost ≡ sum_by (λ p. string_len p.1) map.new.pairs }
    ensures within { map.new.limiter.cost ≤ map.new.limiter.limit }
{
    laws::calls_keep_sums::<String, String, String, ByCost, RandomState>();
    laws::calls_keep_the_budget::<String, String, ByCost, RandomState>();
    map.remove(&old);
    map.insert(new, text)
}

/// The insert and the update evict only the oldest entries, and pay for the entries that they move. Afterwards, no two
/// keys are equal.
fn put_and_update(
    map: &mut LruMap<String, u64>,
    first: String,
    second: String,
    value: u64,
) -> Result<(), AllocError>
    ensures oldest { OnOk result ((run : Run (AnyStep ⟦<ByLength as Limiter<String, u64>>⟧.rules
        ⟦<ByLength as Insertion<String, u64, String>>⟧.offers string_eq ⟦<RandomState as KeyHasher<String>>⟧.hash_of)
        map.new map.old) × EachStep (EvictsFromOldEnd ⟦<ByLength as Limiter<String, u64>>⟧.rules
        ⟦<ByLength as Insertion<String, u64, String>>⟧.offers string_eq ⟦<RandomState as KeyHasher<String>>⟧.hash_of)
        run) }
    ensures paid { OnOk result (PaysForMoves map.old map.new) }
    ensures keys { OnOk result (IsDistinct string_eq (keys_of map.new.pairs)) }
{
    laws::runs_keep_maps::<String, u64, String, ByLength, RandomState>();
    laws::runs_evict_the_oldest::<String, u64, String, ByLength, RandomState>();
    laws::runs_pay_for_moves::<String, u64, String, ByLength, RandomState>();
    let _len = map.len();
    map.insert(first, value)?;
    map.pop_newest();
    map.update(second, value);
    Ok(())
}

fn put_tightly(map: &mut LruMap<String, u64>, key: String, value: u64) -> Result<bool, AllocError>
    ensures { buckets map.old < buckets map.new →
        full_capacity (buckets map.new) < 4 * (length map.old.pairs + 1) }
{
    laws::inserts_grow_little::<String, u64, String, ByLength, RandomState>();
    let _len = map.len();
    map.insert(key, value)
}

fn put_and_keep_half(
    map: &mut LruMap<String, u64, ByMemoryUsage>,
    key: String,
    value: u64,
) -> Result<bool, AllocError>
    requires { lookup_entry (string_eq key) map.old.pairs ≡ None }
    ensures { result ≡ Ok true → (map.new.pairs ≡ (key, value) ∷ map.old.pairs)
        ⊎ (full_capacity (buckets map.old) / 2 ≤ length map.new.pairs) }
{
    laws::growth_keeps_the_list::<String, u64, ByMemoryUsage, RandomState>();
    laws::refused_growth_keeps_half::<String, u64, ByMemoryUsage, RandomState>();
    map.insert(key, value)
}

/// Puts an entry of a new key into a full table. A search for the key first meets a bucket whose entry was removed. The
/// new entry fills that bucket, and all other entries stay.
fn put_into_deleted(
    map: &mut LruMap<String, u64>,
    key: String,
    value: u64,
) -> Result<bool, AllocError>
    requires absent { lookup_entry (string_eq key) map.old.pairs ≡ None }
    requires within { length map.old.pairs < map.old.limiter }
    requires full { HasPairsButNoGrowth map.old }
    requires first { FirstFreeIs deleted (⟦<RandomState as KeyHasher<String>>⟧.hash_of map.old.hasher key)
        map.old.table.states }
    ensures added { (result ≡ Ok true) × (map.new.pairs ≡ (key, value) ∷ map.old.pairs) }
    ensures table { buckets map.new ≡ buckets map.old }
{
    laws::deleted_buckets_serve::<String, u64, String, ByLength, RandomState>();
    map.insert(key, value)
}

fn forget(map: &mut LruMap<String, u64>, key: &str) -> Option<u64>
    ensures { lookup_entry (names_text key.now) map.new.pairs ≡ None }
{
    laws::removed_keys_are_absent::<String, u64, &str, ByLength, RandomState>();
    let _len = map.len();
    map.remove(&key)
}

fn shrink_within(map: &mut LruMap<String, u64>) -> Result<bool, AllocError>
    ensures usage { (n : ℕ) → UsesAtMost n map.old → UsesAtMost n map.new }
    ensures counted { result ≡ Ok true →
        map.new.counts.shrunk ≡ count_up map.old.counts.shrunk (length map.old.pairs) }
{
    laws::shrinks_pay_for_moves::<String, u64, ByLength, RandomState>();
    laws::shrinks_leave_a_tight_table::<String, u64, ByLength, RandomState>();
    map.shrink_to_fit()
}

fn resize(map: &mut LruMap<String, u64>, n: usize) -> bool
    ensures pairs { map.new.pairs ≡ map.old.pairs }
    ensures placed { map.new.counts.placed ≡ map.old.counts.placed }
    ensures growth_left { result ≡ true → n ≤ growth_left map.new }
{
    laws::shrinks_keep_the_list::<String, u64, ByLength, RandomState>();
    laws::reservations_keep_the_list::<String, u64, ByLength, RandomState>();
    laws::reservations_make_room::<String, u64, ByLength, RandomState>();
    let _ = map.shrink_to_fit();
    match map.try_reserve(n) {
        Ok(()) => true,
        Err(_) => false,
    }
}

fn usage_again(map: &LruMap<String, u64>, entry_bytes: usize) -> usize
    requires links { map.now.max ≡ max_of_32_bits }
    requires entry { map.now.entry_bytes ≡ entry_bytes }
    ensures { usage map.now.entry_bytes (buckets map.now) ≡ Some result }
{
    laws::usages_are_their_budgets::<String, u64, ByLength, RandomState>();
    let _len = map.len();
    let bytes = map.memory_usage();
    LruMap::<String, u64>::memory_usage_for_memory_budget(bytes, entry_bytes)
}

#[tactic(auto, using(lru_model::proofs::CallbackLemmas::may_take_always))]
fn put_and_show<F: FnMut(u64, u64)>(
    map: &mut LruMap<u64, u64>,
    key: u64,
    value: u64,
    callback: &mut F,
) -> Result<bool, AllocError>
    requires callable { F.IsAlwaysCallable callback.old }
    ensures shown { result ≡ Ok true → (passed : List (ℕ × ℕ)) × CalledWith F.FnMut callback.old passed callback.new
        × (map.new.pairs ++ reverse passed ≡ (key, value) ∷ without (nat_eq key) map.old.pairs) }
{
    laws::nothing_is_lost::<u64, u64, u64, ByLength, RandomState>();
    map.insert_with(key, value, callback)
}

fn trim_and_count(map: &mut LruMap<u64, u64>) -> usize {
    let _len = map.len();
    let mut count = 0usize;
    map.trim_with(&mut |_, _| count += 1);
    count
}

/// Adds an entry of a new key, or returns why the table has no growth left. Evicts nothing.
fn put_and_keep_all(
    map: &mut LruMap<u64, u64, UnlimitedCompact>,
    key: u64,
    value: u64,
) -> Result<(), ReserveError>
    requires { lookup_entry (nat_eq key) map.old.pairs ≡ None }
    ensures added { OnOk result (map.new.pairs ≡ (key, value) ∷ map.old.pairs) }
    ensures kept { OnErr result (map.new.pairs ≡ map.old.pairs) }
{
    laws::inserts_with_room_are_exact::<u64, u64, u64, UnlimitedCompact, RandomState>();
    map.try_reserve(1)?;
    let _ = map.insert(key, value);
    Ok(())
}

fn map_of_length(alloc: Global, most: u32) -> LruMap<u64, u64>
    requires { most ≤ 939524096 }
    ensures { KeepsToLength result }
{
    laws::maps_keep_to_their_length::<u64, u64, RandomState>();
    LruMap::new(alloc, ByLength::new(most), [1, 2, 3, 4], 24)
}

fn put_newest(map: &mut LruMap<u64, u64>, key: u64, value: u64) -> Result<bool, AllocError>
    requires { KeepsToLength map.old }
    ensures newest { OnOk result
        (map.new.pairs ≡ take map.old.limiter ((key, value) ∷ without (nat_eq key) map.old.pairs)) }
    ensures keeps { KeepsToLength map.new }
{
    laws::inserts_leave_the_newest::<u64, u64, RandomState>();
    laws::maps_keep_to_their_length::<u64, u64, RandomState>();
    map.insert(key, value)
}
