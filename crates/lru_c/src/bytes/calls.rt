ghost use Rattle.std.specs.Prelude.{◌≡◌, ◌+◌, ◌&&◌, ◌∷◌, length, Some, None, IfSome, option_map, nat_le};
ghost use Rattle.std.specs.Prelude.{true, false};
ghost use Rattle.std.specs.Map.Iter.{deref_pair};
ghost use Rattle.lru_model.specs.Calls.{promoted};
ghost use Rattle.lru_model.specs.Lists.{lookup, last, without};
ghost use Rattle.lru_c.specs.Bytes.{names_bytes, weight, poured, Reads, IsReady, FindsMemory, Puts, Pops, Shows};
ghost use Rattle.lru_c.specs.Bytes.{Copies, IsWithinBudget, Lends, value_of, others_weight, must_evict, PopsFor, texts};

use crate::answers::{OUT_OF_MEMORY, REJECTED, STORED};
use crate::bytes::answers::{Lent, Popped, Value, no_value, nothing_popped};
use crate::bytes::handle::{BytesMap, OVERHEAD};
use crate::bytes::keys::Named;
use lru_limits::ByWeight;
use schnellru::{RandomState, laws};
use std::alloc::Global;

#[inline]
fn weight_of(key: usize, value: usize) -> u64
    ensures { result ≡ weight key value }
{
    (key as u64)
        .saturating_add(value as u64)
        .saturating_add(OVERHEAD)
}

// Returns the weight of a key's entry, or 0 if the map does not contain the key.
#[tactic(auto, using(crate::proofs::RoomyPuts::weight_split))]
fn weight_in(map: &BytesMap, key: &[u8]) -> u64
    requires within { IsWithinBudget map.now }
    ensures { others_weight key.now map.now + result ≡ map.now.limiter.cost }
{
    match map.peek_key_value(&Named(key)) {
        Some((key, value)) => weight_of(key.as_slice().len(), value.as_slice().len()),
        None => 0,
    }
}

fn must_evict(map: &BytesMap, key: &[u8], value_len: usize) -> bool
    requires within { IsWithinBudget map.now }
    ensures { result ≡ must_evict key.now value_len map.now }
{
    let limit = map.limiter().limit();
    let added = weight_of(key.len(), value_len);
    // A put rejects an entry that is over the budget, without reading its key.
    if added > limit {
        return false;
    }
    let others = map.limiter().cost() - weight_in(map, key);
    others > limit - added
}

/// Inserts a copy of the value under a copy of the key. Allocates all memory before it changes an entry. If the map
/// contains the key, only the copies need memory.
pub fn put(alloc: Global, map: &mut BytesMap, key: &[u8], value: &[u8]) -> u32
    ensures puts { Puts key.now value.now map.old result map.new }
    ensures stored { result ≡ 0 → value_of key.now map.new ≡ Some value.now }
    ensures rejected { result ≡ 1 → IsWithinBudget map.old → value_of key.now map.new ≡ None }
    ensures in_room { result ≡ 0 → IsWithinBudget map.old → must_evict key.now (length value.now) map.old ≡ false →
        texts map.new.pairs ≡ (key.now, value.now) ∷ texts (without (names_bytes key.now) map.old.pairs) }
    ensures others { IsWithinBudget map.old → must_evict key.now (length value.now) map.old ≡ false →
        without (names_bytes key.now) map.new.pairs ≡ without (names_bytes key.now) map.old.pairs }
{
    laws::inserts_with_room_are_exact::<Vec<u8>, Vec<u8>, Vec<u8>, ByWeight<64>, RandomState>();
    let _len = map.len();
    let limit = map.limiter().limit();
    // The key is not read here, so C may pass a length that is far too great.
    if key.len() as u64 > limit {
        return REJECTED;
    }
    if weight_of(key.len(), value.len()) > limit {
        map.remove(&Named(key));
        return REJECTED;
    }
    let Ok(own_key) = Vec::from_slice(alloc, key) else {
        return OUT_OF_MEMORY;
    };
    let Ok(own_value) = Vec::from_slice(alloc, value) else {
        return OUT_OF_MEMORY;
    };
    if !get_ready_for(map, key) {
        return OUT_OF_MEMORY;
    }
    match map.insert(own_key, own_value) {
        Ok(true) => STORED,
        Ok(false) => REJECTED,
        Err(_) => unreachable!(),
    }
}

fn get_ready_for(map: &mut BytesMap, key: &[u8]) -> bool
    ensures ready { result ≡ true → IsReady key.now map.old map.new }
    ensures finds { result ≡ true → FindsMemory key.now map.new }
    ensures failed { result ≡ false → map.new ≡ map.old }
{
    if map.len() < map.guaranteed_capacity() || map.contains(&Named(key)) {
        return true;
    }
    map.try_reserve(1).is_ok()
}

#[inline]
fn pour(bytes: &[u8], buffer: &mut [u8])
    ensures { buffer.new ≡ poured bytes.now buffer.old }
{
    if bytes.len() <= buffer.len() {
        buffer[..bytes.len()].copy_from_slice(bytes);
    }
}

fn read(value: &Vec<u8>, buffer: &mut [u8]) -> Value
    ensures { Reads (Some value.now) result buffer.old buffer.new }
{
    let bytes = value.as_slice();
    pour(bytes, buffer);
    Value {
        len: bytes.len(),
        found: true,
    }
}

pub fn get(map: &mut BytesMap, key: &[u8], buffer: &mut [u8]) -> Value
    ensures value { Reads (lookup (names_bytes key.now) map.old.pairs) result buffer.old buffer.new }
    ensures promoted { map.new ≡ promoted (names_bytes key.now) map.old }
{
    match map.get(&Named(key)) {
        Some(value) => read(&*value, buffer),
        None => no_value(),
    }
}

/// Returns the length of the value of a key. If the value fits into the buffer, copies it. Does not change the order.
pub fn peek(map: &BytesMap, key: &[u8], buffer: &mut [u8]) -> Value
    ensures { Reads (lookup (names_bytes key.now) map.now.pairs) result buffer.old buffer.new }
{
    match map.peek(&Named(key)) {
        Some(value) => read(value, buffer),
        None => no_value(),
    }
}

/// Stores the address and the length of a key's value in `lent`, and makes the key's entry the newest. Returns whether
/// the map contains the key.
pub fn lend(map: &mut BytesMap, key: &[u8], lent: &mut Lent) -> bool
    ensures lends { Lends (lookup (names_bytes key.now) map.old.pairs) result lent.old lent.new }
    ensures promoted { map.new ≡ promoted (names_bytes key.now) map.old }
{
    match map.get(&Named(key)) {
        Some(value) => {
            *lent = Lent {
                bytes: value.as_ptr(),
                len: value.as_slice().len(),
            };
            true
        }
        None => false,
    }
}

pub fn pop_oldest(map: &mut BytesMap, key: &mut [u8], value: &mut [u8]) -> Popped
    ensures { Pops map.old result key.old key.new value.old value.new map.new }
{
    let Some((key_len, value_len)) = oldest_lengths(map) else {
        return nothing_popped();
    };
    let removed = both_fit(key_len, value_len, key.len(), value.len());
    if removed {
        if let Some((own_key, own_value)) = map.pop_oldest() {
            pour(own_key.as_slice(), key);
            pour(own_value.as_slice(), value);
        }
    }
    Popped {
        key_len,
        value_len,
        found: true,
        removed,
    }
}

/// Prepares a put of the key `own` with a value of this length. If the put must evict another entry, makes the entry of
/// `own` the newest, and calls `pop_oldest`.
pub fn pop_for(
    map: &mut BytesMap,
    own: &[u8],
    value_len: usize,
    key: &mut [u8],
    value: &mut [u8],
) -> Popped
    requires within { IsWithinBudget map.old }
    ensures { PopsFor own.now value_len map.old result key.old key.new value.old value.new map.new }
{
    if !must_evict(map, own, value_len) {
        return nothing_popped();
    }
    map.promote(&Named(own));
    pop_oldest(map, key, value)
}

pub fn show(pair: Option<(&Vec<u8>, &Vec<u8>)>, key: &mut [u8], value: &mut [u8]) -> Popped
    ensures { Shows (option_map deref_pair pair.entry) result key.old key.new value.old value.new }
{
    let Some((own_key, own_value)) = pair else {
        return nothing_popped();
    };
    let (key_len, value_len) = (own_key.as_slice().len(), own_value.as_slice().len());
    if both_fit(key_len, value_len, key.len(), value.len()) {
        pour(own_key.as_slice(), key);
        pour(own_value.as_slice(), value);
    }
    Popped {
        key_len,
        value_len,
        found: true,
        removed: false,
    }
}

pub fn copied(alloc: Global, map: &BytesMap) -> Option<Box<BytesMap>>
    ensures { IfSome result (λ copy. Copies map.now copy.value) }
{
    match map.clone() {
        Ok(copy) => Box::new(alloc, copy).ok(),
        Err(_) => None,
    }
}

#[inline]
fn both_fit(key: usize, value: usize, key_size: usize, value_size: usize) -> bool
    ensures { result ≡ (nat_le key key_size && nat_le value value_size) }
{
    key <= key_size && value <= value_size
}

fn oldest_lengths(map: &BytesMap) -> Option<(usize, usize)>
    ensures { result ≡ option_map (λ pair. (length pair.0.items, length pair.1.items)) (last map.now.pairs) }
{
    match map.peek_oldest() {
        Some((key, value)) => Some((key.as_slice().len(), value.as_slice().len())),
        None => None,
    }
}
