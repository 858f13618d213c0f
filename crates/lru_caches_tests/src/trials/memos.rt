//! A memo and a loader, compared with a list of the keys whose results they remember.
ghost use Rattle.std.specs.Fn.{FnReturnsAt};
ghost use Rattle.std.specs.Prelude.{nat_eq};
ghost use Rattle.lru_caches.specs.Answers.{AreAnswers, loads};

use lru_caches::{Loader, Memo};
use schnellru::ByLength;
use std::alloc::Global;
use std::cell::Cell;
use test_helpers::{Hog, Random};

pub const CALLS: u64 = 100_000;

const LENGTHS: [u32; 10] = [0, 1, 2, 3, 5, 8, 19, 60, 99, 100];

const KEYS: u64 = 150;

fn use_key(keys: &mut [u64; 100], length: u32, key: u64) -> bool {
    let mut carried = key;
    for place in keys.iter_mut().take(length as usize) {
        let old = *place;
        *place = carried;
        carried = old;
        if old == key {
            return true;
        }
    }
    false
}

fn count<F: Fn(&u64) -> u64, G: Fn(&u64) -> Result<u64, u64>>(
    mut memo: Memo<u64, u64, F, ByLength>,
    mut loader: Loader<u64, u64, G, ByLength>,
    calls: &Cell<u64>,
    length: u32,
) -> u64
    requires callable { F.IsAlwaysCallable memo.function }
    requires known { AreAnswers nat_eq (FnReturnsAt F.Fn memo.function) memo.map.pairs }
    requires can_load { G.IsAlwaysCallable loader.function }
    requires loaded { AreAnswers nat_eq (loads (FnReturnsAt G.Fn loader.function)) loader.map.pairs }
{
    let (mut keys, mut random, mut count) = ([u64::MAX; 100], Random::new(3), 0u64);
    for _ in 0..CALLS / LENGTHS.len() as u64 {
        let key = random.below(KEYS).wrapping_add(1);
        calls.set(0);
        memo.answer(key);
        let _ = loader.load(key);
        let _ = loader.load(key.wrapping_add(KEYS));
        let is_stored = use_key(&mut keys, length, key);
        let expected = (!is_stored as u64).wrapping_mul(2).wrapping_add(1);
        count = count.saturating_add((calls.get() == expected) as u64);
    }
    count
}

pub fn calls_that_agree(alloc: Global) -> u64 {
    let mut sum = 0u64;
    for length in LENGTHS {
        let calls = Cell::new(0u64);
        let mut memo = Memo::new(alloc, ByLength::new(length), |n: &u64| {
            calls.set(calls.get().saturating_add(1));
            *n
        });
        let mut loader = Loader::new(alloc, ByLength::new(length), |n: &u64| {
            calls.set(calls.get().saturating_add(1));
            if *n <= KEYS { Ok(*n) } else { Err(*n) }
        });
        let hog = Hog::new(alloc, &[]);
        let (answer, loaded) = (memo.answer(0), loader.load(0));
        let is_empty = memo.len() == 0 && loader.len() == 0;
        let took_all = match &hog {
            Ok(hog) => hog.took_all(),
            Err(_) => true,
        };
        drop(hog);
        if answer == 0 && loaded == Ok(0) && (is_empty || !took_all) {
            sum = sum.saturating_add(count(memo, loader, &calls, length));
        }
    }
    sum
}
