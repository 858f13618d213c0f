//! The functions that C calls. `bindings/c/lru.h` documents each function. C does not pass the parameter `alloc`.
//!
//! If a handle has no map, every call except `lru_new` and `lru_clone` changes nothing and finds nothing. Without a
//! map, a call that inserts returns `NO_MAP`.
ghost use Rattle.std.specs.Prelude.{◌≡◌, ◌≤◌, ◌+◌, ℕ, nat_eq, length, is_some, is_ok, Option, Some, None};
ghost use Rattle.std.specs.Prelude.{Result, Bool, true, false, ⊤};
ghost use Rattle.std.specs.declared.alloc.AllocError.{AllocError};
ghost use Rattle.lru_limits.specs.Limiters.{length_rules, length_offers};
ghost use Rattle.lru_limits.specs.Mixing.{seeded};
ghost use Rattle.lru_model.specs.Calls.{Remove, PopOldest, promoted, cleared};
ghost use Rattle.lru_model.specs.Inserts.{Insert};
ghost use Rattle.lru_model.specs.Lists.{lookup, first, last, next_older};
ghost use Rattle.lru_model.specs.Reservations.{Reserve};
ghost use Rattle.lru_model.specs.Shrinks.{Shrink};
ghost use Rattle.lru_model.specs.Sizes.{max_of_32_bits, usage};
ghost use Rattle.lru_model.specs.State.{empty_map, buckets, contents, growth_left, Trims, IsWithin};
ghost use Rattle.lru_model.specs.declared.results.ReserveError.{ReserveError};
ghost use Rattle.lru_c.specs.Answers.{found_of, pair_of, inserted_of, filled, fitting, Inserts, GetsOrInserts, OnMap};
ghost use Rattle.lru_c.specs.Answers.{put_code};
ghost use Rattle.lru_c.specs.Handle.{hash_of};

use crate::answers::{
    Entry, Found, Inserted, NO_MAP, Pair, as_code, as_found, as_inserted, as_pair,
};
use crate::calls::{
    copied, copy_entries, get, get_or_insert, insert, peek, pop_oldest, remove, show,
};
use crate::handle::{Lru, with_map};
use schnellru::{ByLength, LruMap};
use std::alloc::Global;

// A bucket contains a key, a value and two links of 32 bits.
const ENTRY_BYTES: usize = 24;

#[unsafe(no_mangle)]
pub extern "C" fn lru_abi_version() -> u32
    ensures { result ≡ 5 }
{
    5
}

#[unsafe(no_mangle)]
pub extern "C" fn lru_new(alloc: Global, lru: &mut Lru, max_length: u32, seeds: &[u64; 4]) -> bool
    ensures made { result ≡ true → lru.new.map ≡ Some (empty_map max_length (seeded seeds.now) 24 max_of_32_bits) }
    ensures failed { result ≡ false → lru.new.map ≡ None }
{
    lru.take(alloc);
    let map = LruMap::new(alloc, ByLength::new(max_length), *seeds, ENTRY_BYTES);
    match Box::new(alloc, map) {
        Ok(map) => {
            lru.put(map);
            true
        }
        Err(_) => false,
    }
}

#[unsafe(no_mangle)]
pub extern "C" fn lru_free(alloc: Global, lru: &mut Lru)
    ensures { lru.new.map ≡ None }
{
    drop(lru.take(alloc));
}

#[unsafe(no_mangle)]
pub extern "C" fn lru_insert(
    alloc: Global,
    lru: &mut Lru,
    key: u64,
    value: u64,
    evicted: &mut Entry,
) -> Inserted
    ensures { OnMap ((result ≡ inserted_of 3 None false) × (evicted.new ≡ evicted.old))
        (λ old new. Inserts key value old result evicted.old evicted.new new) lru.old.map lru.new.map }
{
    with_map!(
        lru,
        alloc,
        |map| insert(&mut map, key, value, evicted),
        as_inserted(NO_MAP, None, false)
    )
}

#[unsafe(no_mangle)]
pub extern "C" fn lru_get_or_insert(
    alloc: Global,
    lru: &mut Lru,
    key: u64,
    value: u64,
    evicted: &mut Entry,
) -> Inserted
    ensures { OnMap ((result ≡ inserted_of 3 None false) × (evicted.new ≡ evicted.old))
        (λ old new. GetsOrInserts key value old result evicted.old evicted.new new) lru.old.map lru.new.map }
{
    with_map!(
        lru,
        alloc,
        |map| get_or_insert(&mut map, key, value, evicted),
        as_inserted(NO_MAP, None, false)
    )
}

#[unsafe(no_mangle)]
pub extern "C" fn lru_put(alloc: Global, lru: &mut Lru, key: u64, value: u64) -> u32
    ensures { OnMap (result ≡ 3) (λ old new. (done : Result Bool AllocError) × (result ≡ put_code done)
        × Insert length_rules length_offers nat_eq hash_of key value old done new) lru.old.map lru.new.map }
{
    with_map!(lru, alloc, |map| as_code(map.insert(key, value)), NO_MAP)
}

#[unsafe(no_mangle)]
#[tactic(auto, using(crate::proofs::HandleMaps::got_fits))]
pub extern "C" fn lru_get(alloc: Global, lru: &mut Lru, key: u64) -> Found
    ensures { OnMap (result ≡ found_of None) (λ old new. (result ≡ found_of (lookup (nat_eq key) old.pairs))
        × (new ≡ promoted (nat_eq key) old)) lru.old.map lru.new.map }
{
    with_map!(lru, alloc, |map| get(&mut map, key), as_found(None))
}

#[unsafe(no_mangle)]
pub extern "C" fn lru_peek(alloc: Global, lru: &mut Lru, key: u64) -> Found
    ensures { OnMap (result ≡ found_of None)
        (λ old new. (result ≡ found_of (lookup (nat_eq key) old.pairs)) × (new ≡ old)) lru.old.map lru.new.map }
{
    with_map!(lru, alloc, |map| peek(&map, key), as_found(None))
}

#[unsafe(no_mangle)]
pub extern "C" fn lru_contains(alloc: Global, lru: &mut Lru, key: u64) -> bool
    ensures { OnMap (result ≡ false)
        (λ old new. (result ≡ is_some (lookup (nat_eq key) old.pairs)) × (new ≡ old)) lru.old.map lru.new.map }
{
    with_map!(lru, alloc, |map| map.contains(&key), false)
}

#[unsafe(no_mangle)]
#[tactic(auto, using(crate::proofs::HandleMaps::got_fits))]
pub extern "C" fn lru_promote(alloc: Global, lru: &mut Lru, key: u64) -> bool
    ensures { OnMap (result ≡ false) (λ old new. (result ≡ is_some (lookup (nat_eq key) old.pairs))
        × (new ≡ promoted (nat_eq key) old)) lru.old.map lru.new.map }
{
    with_map!(lru, alloc, |map| map.promote(&key), false)
}

#[unsafe(no_mangle)]
#[tactic(auto, using(crate::proofs::HandleMaps::removed_fits))]
pub extern "C" fn lru_remove(alloc: Global, lru: &mut Lru, key: u64) -> Found
    ensures { OnMap (result ≡ found_of None) (λ old new. (value : Option ℕ) × (result ≡ found_of value)
        × Remove length_rules (nat_eq key) old value new) lru.old.map lru.new.map }
{
    with_map!(lru, alloc, |map| remove(&mut map, key), as_found(None))
}

#[unsafe(no_mangle)]
#[tactic(auto, using(crate::proofs::HandleMaps::popped_fits))]
pub extern "C" fn lru_pop_oldest(alloc: Global, lru: &mut Lru) -> Pair
    ensures { OnMap (result ≡ pair_of None) (λ old new. (pair : Option (ℕ × ℕ)) × (result ≡ pair_of pair)
        × PopOldest length_rules old pair new) lru.old.map lru.new.map }
{
    with_map!(lru, alloc, |map| pop_oldest(&mut map), as_pair(None))
}

#[unsafe(no_mangle)]
pub extern "C" fn lru_peek_oldest(alloc: Global, lru: &mut Lru) -> Pair
    ensures { OnMap (result ≡ pair_of None)
        (λ old new. (result ≡ pair_of (last old.pairs)) × (new ≡ old)) lru.old.map lru.new.map }
{
    with_map!(lru, alloc, |map| show(map.peek_oldest()), as_pair(None))
}

#[unsafe(no_mangle)]
pub extern "C" fn lru_peek_newest(alloc: Global, lru: &mut Lru) -> Pair
    ensures { OnMap (result ≡ pair_of None)
        (λ old new. (result ≡ pair_of (first old.pairs)) × (new ≡ old)) lru.old.map lru.new.map }
{
    with_map!(lru, alloc, |map| show(map.peek_newest()), as_pair(None))
}

#[unsafe(no_mangle)]
pub extern "C" fn lru_peek_older(alloc: Global, lru: &mut Lru, key: u64) -> Pair
    ensures { OnMap (result ≡ pair_of None)
        (λ old new. (result ≡ pair_of (next_older (nat_eq key) old.pairs)) × (new ≡ old)) lru.old.map lru.new.map }
{
    with_map!(lru, alloc, |map| show(map.peek_older(&key)), as_pair(None))
}

#[unsafe(no_mangle)]
pub extern "C" fn lru_copy_newest(alloc: Global, lru: &mut Lru, entries: &mut [Entry]) -> usize
    ensures { OnMap ((result ≡ 0) × (entries.new ≡ entries.old))
        (λ old new. (result ≡ fitting old.pairs entries.old) × (entries.new ≡ filled old.pairs entries.old)
        × (new ≡ old)) lru.old.map lru.new.map }
{
    with_map!(lru, alloc, |map| copy_entries(&map, entries), 0)
}

#[unsafe(no_mangle)]
pub extern "C" fn lru_len(alloc: Global, lru: &mut Lru) -> usize
    ensures { OnMap (result ≡ 0) (λ old new. (result ≡ length old.pairs) × (result ≤ old.limiter) × (new ≡ old))
        lru.old.map lru.new.map }
{
    with_map!(lru, alloc, |map| map.len(), 0)
}

#[unsafe(no_mangle)]
pub extern "C" fn lru_max_length(alloc: Global, lru: &mut Lru) -> u32
    ensures { OnMap (result ≡ 0) (λ old new. (result ≡ old.limiter) × (new ≡ old)) lru.old.map lru.new.map }
{
    with_map!(lru, alloc, |map| map.limiter().max_length(), 0)
}

#[unsafe(no_mangle)]
pub extern "C" fn lru_capacity(alloc: Global, lru: &mut Lru) -> usize
    ensures { OnMap (result ≡ 0)
        (λ old new. (result ≡ length old.pairs + growth_left old) × (new ≡ old)) lru.old.map lru.new.map }
{
    with_map!(lru, alloc, |map| map.guaranteed_capacity(), 0)
}

#[unsafe(no_mangle)]
pub extern "C" fn lru_memory_usage(alloc: Global, lru: &mut Lru) -> usize
    ensures { OnMap (result ≡ 0)
        (λ old new. (usage old.entry_bytes (buckets old) ≡ Some result) × (new ≡ old)) lru.old.map lru.new.map }
{
    with_map!(lru, alloc, |map| map.memory_usage(), 0)
}

#[unsafe(no_mangle)]
#[tactic(auto, using(crate::proofs::HandleMaps::cleared_fits))]
pub extern "C" fn lru_clear(alloc: Global, lru: &mut Lru)
    ensures { OnMap ⊤ (λ old new. new ≡ cleared length_rules old) lru.old.map lru.new.map }
{
    with_map!(lru, alloc, |map| map.clear(), ())
}

#[unsafe(no_mangle)]
#[tactic(auto, using(crate::proofs::HandleMaps::reserved_fits))]
pub extern "C" fn lru_reserve(alloc: Global, lru: &mut Lru, additional: usize) -> bool
    ensures { OnMap (result ≡ false) (λ old new. (done : Result (Unit {0}) ReserveError) × (result ≡ is_ok done)
        × Reserve length_rules additional old done new) lru.old.map lru.new.map }
{
    with_map!(lru, alloc, |map| map.try_reserve(additional).is_ok(), false)
}

#[unsafe(no_mangle)]
#[tactic(auto, using(crate::proofs::HandleMaps::shrunk_fits))]
pub extern "C" fn lru_shrink(alloc: Global, lru: &mut Lru) -> bool
    ensures { OnMap (result ≡ false) (λ old new. (done : Result Bool AllocError) × (result ≡ is_ok done)
        × Shrink old done new) lru.old.map lru.new.map }
{
    with_map!(lru, alloc, |map| map.shrink_to_fit().is_ok(), false)
}

#[unsafe(no_mangle)]
#[tactic(auto, using(crate::proofs::HandleMaps::limited_fits))]
pub extern "C" fn lru_set_max_length(alloc: Global, lru: &mut Lru, max_length: u32)
    ensures { OnMap ⊤ (λ old new. Trims length_rules (record old { limiter = max_length }) new
        × IsWithin length_rules (contents new)) lru.old.map lru.new.map }
{
    if let Some(mut map) = lru.take(alloc) {
        map.set_limiter(ByLength::new(max_length));
        lru.put(map);
    }
}

#[unsafe(no_mangle)]
pub extern "C" fn lru_clone(alloc: Global, lru: &mut Lru, copy: &mut Lru) -> bool
    ensures kept { lru.new.map ≡ lru.old.map }
    ensures made { result ≡ true → OnMap ⊥ (λ old new. new ≡ old) lru.old.map copy.new.map }
    ensures failed { result ≡ false → copy.new.map ≡ None }
{
    copy.take(alloc);
    let Some(map) = lru.take(alloc) else {
        return false;
    };
    let made = copied(alloc, &map);
    lru.put(map);
    match made {
        Some(made) => {
            copy.put(made);
            true
        }
        None => false,
    }
}
