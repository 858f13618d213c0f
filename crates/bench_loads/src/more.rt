//! Loads with texts, large values, costs, walks and copies. Each returns a sum to compare with the other maps.
use schnellru::{ByCost, ByLength, LruMap, UnlimitedCompact};
use std::alloc::Global;

fn map_of_texts(alloc: Global, length: u32, texts: &str, width: usize) -> LruMap<String, u64> {
    let mut map = LruMap::new(alloc, ByLength::new(length), [1, 2, 3, 4], 40);
    let mut rest = texts;
    for number in 0..texts.len() as u64 {
        let Some((text, after)) = rest.split_at_checked(width) else {
            break;
        };
        if let Ok(text) = String::from_str(alloc, text) {
            let _ = map.insert(text, number);
        }
        rest = after;
    }
    map
}

/// Inserts texts of `width` bytes once, and then gets each text `rounds` times, by a `&str`.
#[unsafe(no_mangle)]
pub extern "C" fn rattle_texts(
    alloc: Global,
    length: u32,
    texts: &[u8],
    width: usize,
    rounds: u64,
) -> u64 {
    let texts = str::from_utf8(texts).unwrap_or("");
    let mut map = map_of_texts(alloc, length, texts, width);
    let mut sum = 0u64;
    for _ in 0..rounds {
        let mut rest = texts;
        for _ in 0..texts.len() {
            let Some((text, after)) = rest.split_at_checked(width) else {
                break;
            };
            if let Some(value) = map.get(&text) {
                sum = sum.wrapping_mul(31).wrapping_add(*value);
            }
            rest = after;
        }
    }
    sum
}

/// Cuts `bytes` into values of 100 bytes, inserts them into a map of at most `length` entries, and looks up each key.
#[unsafe(no_mangle)]
pub extern "C" fn rattle_large_values(
    alloc: Global,
    length: u32,
    bytes: &[u8],
    keys: &[u64],
) -> u64 {
    let mut map: LruMap<u64, [u8; 100]> = LruMap::new(
        alloc,
        ByLength::new(length),
        [1, 2, 3, 4],
        120,
    );
    let (values, _) = bytes.as_chunks::<100>();
    let mut sum = 0u64;
    for key in keys {
        if let Some(value) = values.get((*key % 64) as usize) {
            let _ = map.insert(*key, *value);
        }
    }
    for key in keys {
        if let Some(value) = map.get(key) {
            sum = sum.wrapping_mul(31).wrapping_add(value[99] as u64);
        }
    }
    sum
}

/// Inserts a value of 1 to 64 under each key, with a limit on the sum of the values.
#[unsafe(no_mangle)]
pub extern "C" fn rattle_costs(alloc: Global, limit: u64, keys: &[u64]) -> u64 {
    let mut map: LruMap<u64, u64, ByCost> = LruMap::new(
        alloc,
        ByCost::new(limit),
        [1, 2, 3, 4],
        32,
    );
    for key in keys {
        let _ = map.insert(*key, key % 64 + 1);
    }
    (map.len() as u64)
        .wrapping_mul(31)
        .wrapping_add(map.limiter().cost())
}

fn filled(alloc: Global, count: u64) -> LruMap<u64, u64, UnlimitedCompact> {
    let mut map = LruMap::new(alloc, UnlimitedCompact, [1, 2, 3, 4], 16);
    for key in 0..count {
        let _ = map.insert(key, key);
    }
    map
}

/// Fills a map with the keys below `count`, and walks over it `rounds` times, newest first.
#[unsafe(no_mangle)]
pub extern "C" fn rattle_walks(alloc: Global, count: u64, rounds: u64) -> u64 {
    let map = filled(alloc, count);
    let mut sum = 0u64;
    for _ in 0..rounds {
        for (_, value) in map.iter() {
            sum = sum.wrapping_mul(31).wrapping_add(*value);
        }
    }
    sum
}

/// Fills a map with the keys below `count`, and copies it `rounds` times.
#[unsafe(no_mangle)]
pub extern "C" fn rattle_copies(alloc: Global, count: u64, rounds: u64) -> u64 {
    let map = filled(alloc, count);
    let mut sum = 0u64;
    for _ in 0..rounds {
        if let Ok(copy) = map.clone() {
            sum = sum.wrapping_add(copy.len() as u64);
        }
    }
    sum
}
