//! Programs with `String` keys. Their contracts say how often they miss.
ghost use Rattle.std.specs.Prelude.{◌≡◌, ◌≤◌, ◌<◌, ◌-◌, ◌+◌, ◌*◌, ℕ, [], List, IfOk, OnOk};
ghost use Rattle.std.specs.String.{string_eq};
ghost use Rattle.lru_model.specs.Kept.{KeepsToLength};
ghost use Rattle.lru_model.specs.Lists.{keys_of};
ghost use Rattle.lru_replay.specs.References.{Reference, Referenced, of_length};
ghost use Rattle.lru_theory.specs.Policies.{Loads, Served};
ghost use Rattle.lru_theory.specs.Traces.{fault, misses};

use lru_replay::references::{
    calls_make_references, maps_are_competitive, references_keep_the_newest,
};
use schnellru::{ByLength, LruMap, RandomState, laws};
use std::alloc::{AllocError, Global};

/// Returns how many values it computed.
fn compute_at_miss<F: Fn(&String) -> u64>(
    map: &mut LruMap<String, u64>,
    text: &String,
    compute: &F,
) -> Result<u64, AllocError>
    requires callable { F.IsAlwaysCallable compute.now }
    requires keeps { KeepsToLength map.old }
    ensures reference { OnOk result (Reference (of_length string_eq) text.now map.old map.new) }
    ensures computed { IfOk result (λ count. count ≡ fault string_eq text.now (keys_of map.old.pairs)) }
{
    calls_make_references::<String, u64, RandomState>();
    if let Some(_value) = map.get(text) {
        return Ok(0);
    }
    let value = compute(text);
    map.insert(text.clone()?, value)?;
    Ok(1)
}

/// Returns how many values it computed: one for each miss of the trace.
pub fn read_through<F: Fn(&String) -> u64>(
    map: &mut LruMap<String, u64>,
    texts: &[String],
    compute: &F,
) -> Result<u64, AllocError>
    requires callable { F.IsAlwaysCallable compute.now }
    requires keeps { KeepsToLength map.old }
    ensures run { IfOk result (λ count. Referenced (of_length string_eq) map.old texts.now count map.new) }
    ensures count { IfOk result
        (λ count. count ≡ misses string_eq map.old.limiter (keys_of map.old.pairs) texts.now) }
{
    references_keep_the_newest::<String, u64, RandomState>();
    let _len = map.len();
    let mut count = 0u64;
    for text in texts {
        count += compute_at_miss(map, text, compute)?;
    }
    Ok(count)
}

/// The larger map computes at most as many values as the smaller map. Suppose that the smaller map has k places and
/// computes n values. Then each policy with h ≤ k places pays at least (k + 1 - h) / k * n times. The policy begins
/// empty, stores each text, and may load texts ahead.
fn compare<F: Fn(&String) -> u64>(
    alloc: Global,
    texts: &[String],
    lengths: (u32, u32),
    compute: &F,
) -> Result<(u64, u64), AllocError>
    requires callable { F.IsAlwaysCallable compute.now }
    requires ordered { lengths.0 ≤ lengths.1 }
    requires small { lengths.1 ≤ 939524096 }
    ensures fewer { IfOk result (λ counts. counts.1 ≤ counts.0) }
    ensures competitive { IfOk result (λ counts. (h paid : ℕ) (left : List _) → h ≤ lengths.0 →
        Served (Loads string_eq h) left [] texts.now paid →
        (lengths.0 + 1 - h) * counts.0 ≤ lengths.0 * paid) }
{
    laws::maps_keep_to_their_length::<String, u64, RandomState>();
    lru_theory::more_places_never_miss_more::<String>();
    maps_are_competitive::<String, u64, RandomState>();
    let mut small: LruMap<String, u64> = LruMap::new(
        alloc,
        ByLength::new(lengths.0),
        [1, 2, 3, 4],
        40,
    );
    let mut large: LruMap<String, u64> = LruMap::new(
        alloc,
        ByLength::new(lengths.1),
        [1, 2, 3, 4],
        40,
    );
    Ok((
        read_through(&mut small, texts, compute)?,
        read_through(&mut large, texts, compute)?,
    ))
}
