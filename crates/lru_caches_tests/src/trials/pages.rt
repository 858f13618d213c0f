//! A page cache, compared with an array of blocks. The disk fails at each of its calls in turn.
use crate::disk::{Disk, DiskError};
use lru_caches::{BlockDevice, PageCache, PageError, Unclosed};
use std::alloc::Global;
use std::cell::Cell;
use test_helpers::Random;

const LENGTH: usize = 100;

const CAPACITIES: usize = 6;

const MOST: u64 = 80;

/// The number of disk calls in a run that does not fail, summed over all capacities. Another program counted these
/// calls.
pub const NEEDED: u64 = 310;

const WORKS: u64 = 1 << 60;

type Cache<'a> = PageCache<u64, Disk<'a>>;

type Blocks = [u64; 4];

fn has_failed(cache: &Cache) -> bool {
    cache.device().calls_left.get() > WORKS
}

fn agree(cache: &mut Cache, model: &mut Blocks, random: &mut Random) -> bool {
    let (kind, n) = (random.below(8), random.below(5));
    if kind < 3 {
        let shown = cache.read(n);
        let there = model.get(n as usize).copied();
        return shown
            == if has_failed(cache) {
                Err(PageError::Device(DiskError))
            } else {
                there.ok_or(PageError::NoBlock)
            };
    }
    if kind < 7 {
        let (n, block) = (n % 4, random.below(1000));
        let is_written = cache.write(n, block).is_ok();
        if is_written {
            model[n as usize] = block;
        }
        return is_written != has_failed(cache);
    }
    let is_flushed = cache.flush().is_ok();
    is_flushed != has_failed(cache) && (!is_flushed || cache.device().blocks == *model)
}

fn shows(cache: &mut Cache, model: &Blocks) -> bool {
    let mut right = true;
    for n in 0..4usize {
        right = cache.read(n as u64) == Ok(model[n]) && right;
    }
    right
}

// Makes `LENGTH` random calls, or stops at a failed sync. The first result says whether the disk failed. The second
// result says whether all results were right and, if the close succeeded, the crash lost no write.
fn run(alloc: Global, capacity: usize, k: u64, stays_broken: bool) -> (bool, bool) {
    let (calls_left, mut model) = (Cell::new(k), [10, 11, 12, 13]);
    let dropped = [k % 2 == 0, k % 3 == 0, k % 5 == 0, true];
    let mut cache = PageCache::new(alloc, Disk::new(model, dropped, &calls_left), capacity);
    let (mut random, mut failed, mut right) = (Random::new(7), false, true);
    for _ in 0..LENGTH {
        right = agree(&mut cache, &mut model, &mut random) && right;
        if calls_left.get() > WORKS {
            failed = true;
            calls_left.set(WORKS);
            if !cache.device().is_usable() {
                break;
            }
            right = (stays_broken || shows(&mut cache, &model)) && right;
            calls_left.set(if stays_broken { 0 } else { k });
        }
    }
    match cache.close() {
        Ok(mut disk) => {
            disk.crash();
            (failed, disk.blocks == model && right)
        }
        Err(Unclosed { cache, error: _ }) => {
            cache.discard();
            (true, right)
        }
    }
}

pub fn runs_that_end_well(alloc: Global, stays_broken: bool) -> (u64, u64) {
    let (mut tried, mut kept) = (0u64, 0u64);
    for capacity in 0..CAPACITIES {
        for k in 0..MOST {
            let (failed, is_right) = run(alloc, capacity, k, stays_broken);
            tried = tried.saturating_add(failed as u64);
            kept = kept.saturating_add((failed && is_right) as u64);
        }
    }
    (tried, kept)
}
