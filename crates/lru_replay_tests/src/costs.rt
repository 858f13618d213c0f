//! Programs with `String` keys under a limit of cost. Their contracts say how often they load a value.
ghost use Rattle.std.specs.Prelude.{◌≡◌, ◌≤◌, ◌<◌, ◌+◌, ◌*◌, ◌^◌, ℕ, [], true, length, take, IfOk, OnOk, string_len, vec_len};
ghost use Rattle.std.specs.Prelude.{Ok, Vec};
ghost use Rattle.std.specs.List.{All};
ghost use Rattle.std.specs.String.{string_eq};
ghost use Rattle.std.specs.declared.alloc.Global.{Global};
ghost use Rattle.std.specs.declared.string.String.{String};
ghost use Rattle.lru_limits.specs.Budget.{pair_cost};
ghost use Rattle.lru_model.specs.Lists.{keys_of};
ghost use Rattle.lru_replay.specs.References.{KeepsToCost, Reference, Referenced, of_cost};
ghost use Rattle.lru_theory.specs.Budgets.{faults_within};
ghost use Rattle.lru_theory.specs.Traces.{AreEqual, fault};
ghost use Rattle.std.proofs.Common.{ap, nat_eq};
ghost use Rattle.std.specs.String.{string_bytes};
ghost use Rattle.lru_theory.proofs.EqualKeys.{equal_long};

use lru_replay::costs::{
    calls_make_references, gets_that_insert_if_made_make_references,
    gets_that_insert_make_references, maps_keep_to_their_cost, more_capacity_never_misses_more,
    references_keep_the_newest,
};
use schnellru::{ByCost, ByWeight, GetOrInsertError, LruMap, RandomState};
use std::alloc::{AllocError, Global};
use std::test::Fail;
use test_helpers::check;

/// Where values come from. The text determines how many bytes its value has.
trait Source {
    ghost size: { String Global → ℕ };

    fn load(&self, text: &String) -> Result<Vec<u8>, AllocError>
        ensures { IfOk result (λ bytes. vec_len bytes ≡ size text.now) };

    ghost alike: { (text other : String Global) → string_eq text other ≡ true → size text ≡ size other };
}

/// Returns how many values it loaded.
fn load_at_miss<L: Source>(
    map: &mut LruMap<String, Vec<u8>, ByCost>,
    text: &String,
    source: &L,
) -> Result<u64, AllocError>
    requires keeps { KeepsToCost (λ key bytes. vec_len bytes) L.size map.old }
    requires cheap { L.size text.now ≤ map.old.limiter.limit }
    ensures reference { OnOk result
        (Reference (of_cost string_eq (λ key bytes. vec_len bytes) L.size) text.now map.old map.new) }
    ensures loaded { IfOk result (λ count. count ≡ fault string_eq text.now (keys_of map.old.pairs)) }
{
    calls_make_references::<String, Vec<u8>, RandomState>();
    if let Some(_bytes) = map.get(text) {
        return Ok(0);
    }
    let bytes = source.load(text)?;
    map.insert(text.clone()?, bytes)?;
    Ok(1)
}

/// Returns how many values it loaded: one for each miss of a cache with the map's limit.
fn read_through<L: Source>(
    map: &mut LruMap<String, Vec<u8>, ByCost>,
    texts: &[String],
    source: &L,
) -> Result<u64, AllocError>
    requires keeps { KeepsToCost (λ key bytes. vec_len bytes) L.size map.old }
    requires cheap { All (λ text. L.size text ≤ map.old.limiter.limit) texts.now }
    ensures run { IfOk result
        (λ count. Referenced (of_cost string_eq (λ key bytes. vec_len bytes) L.size) map.old texts.now count map.new) }
    ensures count { IfOk result (λ count. count ≡ faults_within string_eq L.size map.old.limiter.limit
        (keys_of map.old.pairs) texts.now) }
{
    references_keep_the_newest::<String, Vec<u8>, RandomState>();
    let mut count = 0u64;
    for text in texts {
        count += load_at_miss(map, text, source)?;
    }
    Ok(count)
}

fn map_within<L: Source>(alloc: Global, limit: u64) -> LruMap<String, Vec<u8>, ByCost>
    requires small { limit < 2 ^ 63 }
    requires dear { (text : String Global) → limit < 234881023 * L.size text }
    ensures keeps { KeepsToCost (λ key bytes. vec_len bytes) L.size result }
    ensures empty { result.pairs ≡ [] }
    ensures limit { result.limiter.limit ≡ limit }
{
    maps_keep_to_their_cost::<String, Vec<u8>, RandomState>();
    LruMap::new(alloc, ByCost::new(limit), [1, 2, 3, 4], 40)
}

/// The map with the larger limit loads at most as many values as the other map.
fn compare<L: Source>(
    alloc: Global,
    texts: &[String],
    limits: (u64, u64),
    source: &L,
) -> Result<(u64, u64), AllocError>
    requires ordered { limits.0 ≤ limits.1 }
    requires small { limits.1 < 2 ^ 63 }
    requires dear { (text : String Global) → limits.1 < 234881023 * L.size text }
    requires cheap { All (λ text. L.size text ≤ limits.0) texts.now }
    ensures fewer { IfOk result (λ counts. counts.1 ≤ counts.0) }
{
    lru_theory::a_larger_budget_never_misses_more::<String>();
    let mut small = map_within::<L>(alloc, limits.0);
    let mut large = map_within::<L>(alloc, limits.1);
    Ok((
        read_through(&mut small, texts, source)?,
        read_through(&mut large, texts, source)?,
    ))
}

fn read_both<L: Source>(
    small: &mut LruMap<String, Vec<u8>, ByCost>,
    large: &mut LruMap<String, Vec<u8>, ByCost>,
    texts: &[String],
    source: &L,
) -> Result<(u64, u64), AllocError>
    requires keeps { KeepsToCost (λ key bytes. vec_len bytes) L.size small.old
        × KeepsToCost (λ key bytes. vec_len bytes) L.size large.old }
    requires ordered { small.old.limiter.limit ≤ large.old.limiter.limit }
    requires newest { AreEqual string_eq (keys_of small.old.pairs)
        (take (length small.old.pairs) (keys_of large.old.pairs)) }
    requires cheap { All (λ text. L.size text ≤ small.old.limiter.limit) texts.now
        × All (λ text. L.size text ≤ large.old.limiter.limit) texts.now }
    ensures { IfOk result (λ counts. counts.1 ≤ counts.0) }
{
    more_capacity_never_misses_more::<String, Vec<u8>, RandomState>();
    Ok((
        read_through(small, texts, source)?,
        read_through(large, texts, source)?,
    ))
}

/// If each text determines how many bytes its value has, and this number is within the limit, a successful call is a
/// reference.
fn remember<F: FnOnce() -> Vec<u8>>(
    map: &mut LruMap<String, Vec<u8>, ByCost>,
    text: String,
    make: F,
) -> Result<bool, AllocError>
    requires callable { F.pre make }
    ensures { (size : String Global → ℕ) →
        ((key other : String Global) → string_eq key other ≡ true → size key ≡ size other) →
        KeepsToCost (λ key bytes. vec_len bytes) size map.old →
        ((bytes : Vec ℕ Global) → F.post make bytes → vec_len bytes ≡ size text) → size text ≤ map.old.limiter.limit →
        OnOk result (Reference (of_cost string_eq (λ key bytes. vec_len bytes) size) text map.old map.new) }
{
    gets_that_insert_make_references::<String, Vec<u8>, F, RandomState>();
    let kept = map.ensure_newest(text, make)?;
    Ok(kept)
}

fn try_to_remember<F: FnOnce() -> Result<Vec<u8>, u64>>(
    map: &mut LruMap<String, Vec<u8>, ByCost>,
    text: String,
    make: F,
) -> Result<bool, GetOrInsertError<u64>>
    requires callable { F.pre make }
    ensures { (size : String Global → ℕ) →
        ((key other : String Global) → string_eq key other ≡ true → size key ≡ size other) →
        KeepsToCost (λ key bytes. vec_len bytes) size map.old →
        ((bytes : Vec ℕ Global) → F.post make (Ok bytes) → vec_len bytes ≡ size text) →
        size text ≤ map.old.limiter.limit →
        OnOk result (Reference (of_cost string_eq (λ key bytes. vec_len bytes) size) text map.old map.new) }
{
    gets_that_insert_if_made_make_references::<String, Vec<u8>, u64, F, RandomState>();
    let kept = map.ensure_newest_fallible(text, make)?;
    Ok(kept)
}

/// If the weight of the entry is the cost of its key, and at most the limit, a successful call is a reference.
fn insert_weighed(
    map: &mut LruMap<u64, String, ByWeight<16>>,
    key: u64,
    text: String,
) -> Result<bool, AllocError>
    ensures { (cost : ℕ → ℕ) → KeepsToCost (λ key text. pair_cost 16 key (string_len text)) cost map.old →
        pair_cost 16 key (string_len text) ≡ cost key → cost key ≤ map.old.limiter.limit →
        OnOk result (Reference (of_cost nat_eq (λ key text. pair_cost 16 key (string_len text)) cost) key map.old
        map.new) }
{
    calls_make_references::<u64, String, RandomState>();
    let kept = map.insert(key, text)?;
    Ok(kept)
}

#[derive(Drop)]
struct Bytes;

impl Source for Bytes {
    ghost size = { λ text. length (string_bytes text) + 1 };

    ghost alike = { λ text other same.
        ap (λ n. n + 1) (equal_long nat_eq (string_bytes text) (string_bytes other) same) };

    fn load(&self, text: &String) -> Result<Vec<u8>, AllocError> {
        let mut bytes = text.clone()?.into_bytes();
        bytes.push(0)?;
        Ok(bytes)
    }
}

fn are_short(texts: &[String], limit: u64) -> bool
    ensures { result ≡ true → All (λ text. length (string_bytes text) + 1 ≤ limit) texts.now }
{
    for text in texts {
        if text.as_bytes().len() as u64 >= limit {
            return false;
        }
    }
    true
}

fn loads(alloc: Global, texts: &[String], limits: (u64, u64)) -> Option<(u64, u64)> {
    if limits.0 > limits.1 || limits.1 > 1000 || !are_short(texts, limits.0) {
        return None;
    }
    compare(alloc, texts, limits, &Bytes).ok()
}

#[test]
fn larger_limits_load_less(rt: HostRuntime) -> Result<(), Fail> {
    let mut texts = Vec::new(rt.alloc());
    for key in [1, 22, 1, 333, 22, 1u64] {
        texts.push(format!(in rt.alloc(); "{key}")?)?;
    }
    for (limits, counts) in [((4, 5), (6, 5)), ((8, 9), (5, 3))] {
        check!(rt; loads(rt.alloc(), &texts, limits) == Some(counts));
    }
    Ok(())
}
