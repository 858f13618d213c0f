//! Tables for tests, and lists of the keys in their buckets. `keys_after` follows the rules of docs/TABLE.md.
use group_table::{Table, buckets_for_capacity, full_capacity};
use std::alloc::{AllocError, Global};
use std::cell::Cell;
use std::mem;

const MOST: usize = 1 << 21;

/// A factor for scattered hashes. The hashes of factor 0 are all equal, and the hashes of factor 1 count up.
pub(super) const SCATTERED: u64 = 0x9e37_79b9_7f4a_7c15;

pub(super) fn hash_of(factor: u64, key: u64) -> u64 {
    key.wrapping_mul(factor).wrapping_add(0x1234_5678_9abc_def0)
}

pub(super) fn table_of<T>(alloc: Global, buckets: usize) -> Result<Table<T>, AllocError> {
    match buckets_for_capacity(full_capacity(buckets), MOST) {
        Some(count) => Table::with_buckets(alloc, count),
        None => Ok(Table::new(alloc)),
    }
}

pub(super) fn fill(table: &mut Table<u64>, factor: u64, next: u64) -> u64 {
    for key in next..u64::MAX {
        if table.try_place(hash_of(factor, key), key).is_err() {
            return key;
        }
    }
    u64::MAX
}

pub(super) fn thin(table: &mut Table<u64>, step: usize, left: usize) {
    for b in 0..table.buckets() {
        if b % step.max(1) == 0 && table.len() > left && table.is_full(b) {
            table.take(b);
        }
    }
}

pub(super) fn moved(
    table: &mut Table<u64>,
    buckets: usize,
    factor: u64,
    asked: &Cell<usize>,
) -> Result<Vec<u32>, AllocError> {
    let hash = |key: &u64| {
        asked.set(asked.get().wrapping_add(1));
        hash_of(factor, *key)
    };
    let count = buckets_for_capacity(full_capacity(buckets), MOST).unwrap_or(0);
    if count == table.buckets() && count < MOST {
        return table.rehash(hash);
    }
    if count < MOST && table.len() <= full_capacity(count) {
        return table.relocate(count, hash);
    }
    Err(AllocError)
}

pub(super) fn is_copied(table: &Table<u64>, refused: u64) -> bool {
    let copy = table.clone_with(|key| if *key == refused {
        Err(AllocError)
    } else {
        Ok(*key)
    });
    copy.is_ok()
}

pub(super) fn keys_of(alloc: Global, table: &Table<u64>) -> Result<Vec<Option<u64>>, AllocError> {
    let mut keys = Vec::new(alloc);
    for b in 0..table.buckets() {
        let is_full = table.is_full(b);
        keys.push(if is_full { Some(*table.get(b)) } else { None })?;
    }
    Ok(keys)
}

pub(super) fn first_free(keys: &[Option<u64>], hash: u64) -> Option<usize> {
    let mask = keys.len().wrapping_sub(1);
    let mut start = hash as usize;
    for group in 1..=keys.len() {
        for lane in 0..16usize {
            let b = start.wrapping_add(lane) & mask;
            if keys.get(b) == Some(&None) {
                return Some(b);
            }
        }
        start = start.wrapping_add(group.wrapping_mul(16));
    }
    None
}

pub(super) fn exchange(keys: &mut [Option<u64>], b: usize, key: Option<u64>) -> Option<u64> {
    match keys.get_mut(b) {
        Some(place) => mem::replace(place, key),
        None => None,
    }
}

/// Moves the keys of `old` in order, each into the first free bucket. In a rehash, a key stays if its bucket is among
/// the first 16 buckets that a search for the key visits. If a key takes the bucket of a key that has not moved yet,
/// this other key moves next.
pub(super) fn keys_after(
    alloc: Global,
    old: &[Option<u64>],
    buckets: usize,
    factor: u64,
) -> Result<Vec<Option<u64>>, AllocError> {
    let is_rehash = old.len() == buckets;
    let mut waiting = Vec::from_slice(alloc, old)?;
    let mut keys = vec![in alloc; None; buckets]?;
    for b in 0..old.len() {
        let mut next = exchange(&mut waiting, b, None);
        for turn in 0..old.len() {
            let Some(key) = next else {
                break;
            };
            let hash = hash_of(factor, key);
            let from_start = b.wrapping_sub(hash as usize) & buckets.wrapping_sub(1);
            let mut to = first_free(&keys, hash).unwrap_or(buckets);
            if is_rehash && turn == 0 && from_start < 16 {
                to = b;
            }
            exchange(&mut keys, to, next);
            let waits_at = if is_rehash { to } else { usize::MAX };
            next = exchange(&mut waiting, waits_at, None);
        }
    }
    Ok(keys)
}
