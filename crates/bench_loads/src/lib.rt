//! Loads on the map. A Rust program times one call of `rattle_load` for each load. If memory runs out, an entry is
//! missing, so the result differs from the result of the other maps.
#![tactic(auto)]

mod more;

use schnellru::{ByLength, LruMap};
use std::alloc::Global;

#[inline]
fn step_of_load(map: &mut LruMap<u64, u64>, kind: u8, key: u64, sum: u64) -> u64 {
    match kind {
        0 => {
            let _ = map.insert(key, key ^ 7);
            sum
        }
        1 => sum.wrapping_mul(31).wrapping_add(match map.get(&key) {
            Some(value) => *value,
            None => 1,
        }),
        2 => sum.wrapping_mul(31).wrapping_add(match map.peek(&key) {
            Some(value) => *value,
            None => 1,
        }),
        3 => sum ^ map.remove(&key).unwrap_or(1),
        _ => {
            if let Some(value) = map.get(&key) {
                return sum.wrapping_add(*value);
            }
            let _ = map.insert(key, key ^ 7);
            sum
        }
    }
}

/// Carries out a load on a map of at most `length` entries, and walks over the entries that are left.
#[unsafe(no_mangle)]
pub extern "C" fn rattle_load(alloc: Global, length: u32, kinds: &[u8], keys: &[u64]) -> u64 {
    let mut map = LruMap::new(alloc, ByLength::new(length), [1, 2, 3, 4], 32);
    let mut sum = 0u64;
    if kinds.len() != keys.len() {
        return sum;
    }
    // The loop has one counter, because the compiled loop of the other crate also has one. A zip of the slices would
    // have two counters.
    for i in 0..kinds.len() {
        sum = step_of_load(&mut map, kinds[i], keys[i], sum);
    }
    for (key, value) in map.iter() {
        sum = sum.wrapping_mul(31).wrapping_add(*key ^ *value);
    }
    sum
}
