//! The functions that C calls on a map of byte strings. `bindings/c/lru.h` documents each function. C does not pass
//! `alloc`.
//!
//! If a handle has no map, every call except `lru_bytes_new` and `lru_bytes_clone` changes nothing and finds nothing.
//! Without a map, a put returns `NO_MAP`.
ghost use Rattle.std.specs.Prelude.{◌≡◌, ◌≤◌, ◌∷◌, length, is_some, slice_get, IfSome, Option, Some, None, ⊤};
ghost use Rattle.std.specs.Prelude.{true, false};
ghost use Rattle.lru_limits.specs.Mixing.{seeded};
ghost use Rattle.lru_model.specs.Calls.{Remove, promoted, cleared};
ghost use Rattle.lru_model.specs.Lists.{lookup, last, next_older, without};
ghost use Rattle.lru_model.specs.Sizes.{max_of_64_bits};
ghost use Rattle.lru_model.specs.State.{empty_map, contents, Trims, IsWithin};
ghost use Rattle.lru_c.specs.Answers.{OnMap};
ghost use Rattle.lru_c.specs.Bytes.{Bytes, names_bytes, bytes_rules, total_weight, no_entry};
ghost use Rattle.lru_c.specs.Bytes.{Reads, Lends, Puts, Pops, PopsFor, Shows, Copies, value_of, must_evict, texts};

use crate::answers::NO_MAP;
use crate::bytes::answers::{Lent, Popped, Value, no_value, nothing_popped};
use crate::bytes::calls::{copied, get, lend, peek, pop_for, pop_oldest, put, show};
use crate::bytes::handle::{BytesMap, LruBytes};
use crate::bytes::keys::Named;
use crate::handle::with_map;
use lru_limits::ByWeight;
use schnellru::LruMap;
use std::alloc::Global;

// A bucket contains two vectors of 24 bytes and two links of 64 bits.
const ENTRY_BYTES: usize = 64;

#[unsafe(no_mangle)]
pub extern "C" fn lru_bytes_new(
    alloc: Global,
    lru: &mut LruBytes,
    budget: u64,
    seeds: &[u64; 4],
) -> bool
    ensures made { result ≡ true → lru.new.map ≡
        Some (empty_map (record { limit = budget; cost = 0 }) (seeded seeds.now) 64 max_of_64_bits) }
    ensures failed { result ≡ false → lru.new.map ≡ None }
{
    lru.take(alloc);
    let map: BytesMap = LruMap::new(alloc, ByWeight::new(budget), *seeds, ENTRY_BYTES);
    match Box::new(alloc, map) {
        Ok(map) => {
            lru.put(map);
            true
        }
        Err(_) => false,
    }
}

#[unsafe(no_mangle)]
pub extern "C" fn lru_bytes_free(alloc: Global, lru: &mut LruBytes)
    ensures { lru.new.map ≡ None }
{
    drop(lru.take(alloc));
}

#[unsafe(no_mangle)]
pub extern "C" fn lru_bytes_put(alloc: Global, lru: &mut LruBytes, key: &[u8], value: &[u8]) -> u32
    ensures puts { OnMap (result ≡ 3) (λ old new. Puts key.now value.now old result new) lru.old.map lru.new.map }
    ensures stored { result ≡ 0 → IfSome lru.new.map (λ map. value_of key.now map ≡ Some value.now) }
    ensures rejected { result ≡ 1 → IfSome lru.new.map (λ map. value_of key.now map ≡ None) }
    ensures in_room { result ≡ 0 → OnMap ⊤ (λ old new. must_evict key.now (length value.now) old ≡ false →
        texts new.pairs ≡ (key.now, value.now) ∷ texts (without (names_bytes key.now) old.pairs))
        lru.old.map lru.new.map }
    ensures others { OnMap ⊤ (λ old new. must_evict key.now (length value.now) old ≡ false →
        without (names_bytes key.now) new.pairs ≡ without (names_bytes key.now) old.pairs) lru.old.map lru.new.map }
{
    with_map!(lru, alloc, |map| put(alloc, &mut map, key, value), NO_MAP)
}

#[unsafe(no_mangle)]
#[tactic(auto, using(crate::proofs::WithinBudget::got_in_budget))]
pub extern "C" fn lru_bytes_get(
    alloc: Global,
    lru: &mut LruBytes,
    key: &[u8],
    buffer: &mut [u8],
) -> Value
    ensures { OnMap (Reads None result buffer.old buffer.new)
        (λ old new. Reads (lookup (names_bytes key.now) old.pairs) result buffer.old buffer.new
        × (new ≡ promoted (names_bytes key.now) old)) lru.old.map lru.new.map }
{
    with_map!(lru, alloc, |map| get(&mut map, key, buffer), no_value())
}

#[unsafe(no_mangle)]
#[tactic(auto, using(crate::proofs::WithinBudget::got_in_budget))]
pub extern "C" fn lru_bytes_lend(
    alloc: Global,
    lru: &mut LruBytes,
    key: &[u8],
    lent: &mut Lent,
) -> bool
    ensures { OnMap (Lends None result lent.old lent.new)
        (λ old new. Lends (lookup (names_bytes key.now) old.pairs) result lent.old lent.new
        × (new ≡ promoted (names_bytes key.now) old)) lru.old.map lru.new.map }
{
    with_map!(lru, alloc, |map| lend(&mut map, key, lent), false)
}

#[unsafe(no_mangle)]
pub extern "C" fn lru_bytes_peek(
    alloc: Global,
    lru: &mut LruBytes,
    key: &[u8],
    buffer: &mut [u8],
) -> Value
    ensures { OnMap (Reads None result buffer.old buffer.new)
        (λ old new. Reads (lookup (names_bytes key.now) old.pairs) result buffer.old buffer.new × (new ≡ old))
        lru.old.map lru.new.map }
{
    with_map!(lru, alloc, |map| peek(&map, key, buffer), no_value())
}

#[unsafe(no_mangle)]
pub extern "C" fn lru_bytes_contains(alloc: Global, lru: &mut LruBytes, key: &[u8]) -> bool
    ensures { OnMap (result ≡ false)
        (λ old new. (result ≡ is_some (lookup (names_bytes key.now) old.pairs)) × (new ≡ old))
        lru.old.map lru.new.map }
{
    with_map!(lru, alloc, |map| map.contains(&Named(key)), false)
}

#[unsafe(no_mangle)]
pub extern "C" fn lru_bytes_remove(alloc: Global, lru: &mut LruBytes, key: &[u8]) -> bool
    ensures { OnMap (result ≡ false) (λ old new. (value : Option Bytes) × (result ≡ is_some value)
        × Remove bytes_rules (names_bytes key.now) old value new) lru.old.map lru.new.map }
{
    with_map!(lru, alloc, |map| map.remove(&Named(key)).is_some(), false)
}

#[unsafe(no_mangle)]
pub extern "C" fn lru_bytes_pop_oldest(
    alloc: Global,
    lru: &mut LruBytes,
    key: &mut [u8],
    value: &mut [u8],
) -> Popped
    ensures { OnMap ((result ≡ no_entry) × (key.new ≡ key.old) × (value.new ≡ value.old))
        (λ old new. Pops old result key.old key.new value.old value.new new) lru.old.map lru.new.map }
{
    with_map!(
        lru,
        alloc,
        |map| pop_oldest(&mut map, key, value),
        nothing_popped()
    )
}

#[unsafe(no_mangle)]
pub extern "C" fn lru_bytes_pop_for(
    alloc: Global,
    lru: &mut LruBytes,
    key: &[u8],
    value_len: usize,
    key_buffer: &mut [u8],
    value_buffer: &mut [u8],
) -> Popped
    ensures pops { OnMap
        ((result ≡ no_entry) × (key_buffer.new ≡ key_buffer.old) × (value_buffer.new ≡ value_buffer.old))
        (λ old new. PopsFor key.now value_len old result key_buffer.old key_buffer.new value_buffer.old
        value_buffer.new new) lru.old.map lru.new.map }
    ensures found { IfSome lru.old.map (λ map. result.found ≡ must_evict key.now value_len map) }
{
    with_map!(
        lru,
        alloc,
        |map| pop_for(&mut map, key, value_len, key_buffer, value_buffer),
        nothing_popped()
    )
}

#[unsafe(no_mangle)]
pub extern "C" fn lru_bytes_peek_oldest(
    alloc: Global,
    lru: &mut LruBytes,
    key: &mut [u8],
    value: &mut [u8],
) -> Popped
    ensures { OnMap ((result ≡ no_entry) × (key.new ≡ key.old) × (value.new ≡ value.old))
        (λ old new. Shows (last old.pairs) result key.old key.new value.old value.new × (new ≡ old))
        lru.old.map lru.new.map }
{
    with_map!(
        lru,
        alloc,
        |map| show(map.peek_oldest(), key, value),
        nothing_popped()
    )
}

#[unsafe(no_mangle)]
pub extern "C" fn lru_bytes_peek_older(
    alloc: Global,
    lru: &mut LruBytes,
    key: &[u8],
    key_buffer: &mut [u8],
    value_buffer: &mut [u8],
) -> Popped
    ensures { OnMap
        ((result ≡ no_entry) × (key_buffer.new ≡ key_buffer.old) × (value_buffer.new ≡ value_buffer.old))
        (λ old new. Shows (next_older (names_bytes key.now) old.pairs) result key_buffer.old key_buffer.new
        value_buffer.old value_buffer.new × (new ≡ old)) lru.old.map lru.new.map }
{
    with_map!(
        lru,
        alloc,
        |map| show(map.peek_older(&Named(key)), key_buffer, value_buffer),
        nothing_popped()
    )
}

#[unsafe(no_mangle)]
pub extern "C" fn lru_bytes_peek_at(
    alloc: Global,
    lru: &mut LruBytes,
    index: usize,
    key: &mut [u8],
    value: &mut [u8],
) -> Popped
    ensures { OnMap ((result ≡ no_entry) × (key.new ≡ key.old) × (value.new ≡ value.old))
        (λ old new. Shows (slice_get old.pairs index) result key.old key.new value.old value.new × (new ≡ old))
        lru.old.map lru.new.map }
{
    with_map!(
        lru,
        alloc,
        |map| show(map.get_index(index), key, value),
        nothing_popped()
    )
}

#[unsafe(no_mangle)]
pub extern "C" fn lru_bytes_len(alloc: Global, lru: &mut LruBytes) -> usize
    ensures { OnMap (result ≡ 0) (λ old new. (result ≡ length old.pairs) × (new ≡ old)) lru.old.map lru.new.map }
{
    with_map!(lru, alloc, |map| map.len(), 0)
}

#[unsafe(no_mangle)]
pub extern "C" fn lru_bytes_cost(alloc: Global, lru: &mut LruBytes) -> u64
    ensures { OnMap (result ≡ 0) (λ old new. (result ≡ old.limiter.cost) × (result ≡ total_weight old.pairs)
        × (result ≤ old.limiter.limit) × (new ≡ old)) lru.old.map lru.new.map }
{
    with_map!(lru, alloc, |map| map.limiter().cost(), 0)
}

#[unsafe(no_mangle)]
pub extern "C" fn lru_bytes_budget(alloc: Global, lru: &mut LruBytes) -> u64
    ensures { OnMap (result ≡ 0) (λ old new. (result ≡ old.limiter.limit) × (new ≡ old)) lru.old.map lru.new.map }
{
    with_map!(lru, alloc, |map| map.limiter().limit(), 0)
}

#[unsafe(no_mangle)]
pub extern "C" fn lru_bytes_set_budget(alloc: Global, lru: &mut LruBytes, budget: u64)
    ensures { OnMap ⊤ (λ old new.
        Trims bytes_rules (record old { limiter = record old.limiter { limit = budget } }) new
        × IsWithin bytes_rules (contents new)) lru.old.map lru.new.map }
{
    if let Some(mut map) = lru.take(alloc) {
        let limiter = map.limiter().with_limit(budget);
        map.set_limiter(limiter);
        lru.put(map);
    }
}

#[unsafe(no_mangle)]
#[tactic(auto, using(crate::proofs::WithinBudget::copy_in_budget))]
pub extern "C" fn lru_bytes_clone(alloc: Global, lru: &mut LruBytes, copy: &mut LruBytes) -> bool
    ensures kept { lru.new.map ≡ lru.old.map }
    ensures made { result ≡ true → OnMap ⊥ Copies lru.old.map copy.new.map }
    ensures failed { result ≡ false → copy.new.map ≡ None }
{
    copy.take(alloc);
    let Some(map) = lru.take(alloc) else {
        return false;
    };
    let made = copied(alloc, &map);
    lru.put(map);
    match made {
        Some(made) => {
            copy.put(made);
            true
        }
        None => false,
    }
}

#[unsafe(no_mangle)]
#[tactic(auto, using(crate::proofs::WithinBudget::cleared_in_budget))]
pub extern "C" fn lru_bytes_clear(alloc: Global, lru: &mut LruBytes)
    ensures { OnMap ⊤ (λ old new. new ≡ cleared bytes_rules old) lru.old.map lru.new.map }
{
    with_map!(lru, alloc, |map| map.clear(), ())
}
