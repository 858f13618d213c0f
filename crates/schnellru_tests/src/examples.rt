//! Written by `docs/examples.py` from the examples in the doc comments. Do not change it by hand.
use ordered_table::OrderedTable;
use schnellru::{
    ByLength, ByMemoryUsage, LruMap, MoveReport, RandomState, ReserveError, Unlimited,
    UnlimitedCompact,
};
use std::hash::BuildHasher;
use std::test::Fail;
use test_helpers::{all, check};
use test_maps::{fill, is_pair};

#[test]
fn of_map_figures(rt: HostRuntime) {
    let alloc = rt.alloc();
    let map: LruMap<u64, u32> = LruMap::with_hasher(
        alloc,
        ByLength::new(3),
        RandomState::default(),
        24,
    );
    check!(rt; map.is_empty() && map.memory_usage() == 0);
}

#[test]
fn of_map_figures_2(rt: HostRuntime) {
    let alloc = rt.alloc();
    let mut map: LruMap<u64, u64, UnlimitedCompact> = LruMap::default(alloc);
    let held = all!(
        map.try_reserve(7) == Ok(()),
        (map.guaranteed_capacity(), map.len()) == (7, 0)
    );
    check!(rt; held);
}

#[test]
fn of_map_figures_3(rt: HostRuntime) -> Result<(), Fail> {
    let alloc = rt.alloc();
    let mut map: LruMap<u32, u32, ByMemoryUsage> = LruMap::with_memory_budget(
        alloc,
        84,
        [1, 2, 3, 4],
        16,
    );
    for n in 1..=4 {
        map.insert(n, n)?;
    }
    let held = map.len() == 3 && map.memory_usage() == 84 && map.peek(&1).is_none();
    let usage = LruMap::<u32, u32, UnlimitedCompact>::memory_usage_for_memory_budget(512, 16);
    let held = held & all!(usage == 288);
    check!(rt; held);
    Ok(())
}

#[test]
fn of_map_report(rt: HostRuntime) -> Result<(), Fail> {
    let alloc = rt.alloc();
    let mut map: LruMap<u64, u64> = LruMap::with_limiter(alloc, ByLength::new(3));
    let held = all!(
        map.insert(1, 10)?,
        map.move_report()
            == MoveReport {
                moved: 0,
                placed: 1,
                shrunk: 0
            }
    );
    check!(rt; held);
    Ok(())
}

#[test]
fn of_map_shrink(rt: HostRuntime) -> Result<(), Fail> {
    let alloc = rt.alloc();
    let mut map: LruMap<u64, u64, UnlimitedCompact> = LruMap::default(alloc);
    let held = all!(
        map.try_reserve(7) == Ok(()),
        map.get_or_insert(1, || 10)?.copied() == Some(10),
        map.shrink_to_fit() == Ok(true),
        (map.len(), map.guaranteed_capacity()) == (1, 3),
        map.shrink_to_fit() == Ok(false)
    );
    check!(rt; held);
    Ok(())
}

#[test]
fn of_map(rt: HostRuntime) -> Result<(), Fail> {
    let alloc = rt.alloc();
    let mut map: LruMap<u64, u64> = LruMap::with_limiter(alloc, ByLength::new(2));
    map.insert(1, 10)?;
    map.insert(2, 20)?;
    map.get(&1);
    map.insert(3, 30)?;
    check!(rt; map.peek(&2).is_none());
    Ok(())
}

#[test]
fn of_map_2(rt: HostRuntime) {
    let alloc = rt.alloc();
    let seeded = RandomState::with_seeds([5, 6, 7, 8]);
    let map: LruMap<u64, u64> = LruMap::with_limiter_and_hasher(alloc, ByLength::new(3), seeded);
    check!(rt; map.is_empty());
}

#[test]
fn of_map_3(rt: HostRuntime) -> Result<(), Fail> {
    let alloc = rt.alloc();
    let mut map: LruMap<u64, u64> = LruMap::with_seed(alloc, ByLength::new(3), [5, 6, 7, 8], 24);
    map.insert(1, 10)?;
    let hash = RandomState::with_seeds([5, 6, 7, 8]).hash_one(&1u64);
    check!(rt; map.peek_by_hash(hash, |key, _| *key == 1).copied() == Some(10));
    Ok(())
}

#[test]
fn of_map_4(rt: HostRuntime) {
    let alloc = rt.alloc();
    let seeded = RandomState::with_seeds([5, 6, 7, 8]);
    let map: LruMap<u32, u32, ByMemoryUsage> = LruMap::with_memory_budget_and_hasher(
        alloc, 84, seeded, 16,
    );
    check!(rt; map.limiter().max_memory_usage() == 84);
}

#[test]
fn of_walk_into_iter(rt: HostRuntime) {
    let alloc = rt.alloc();
    let mut map: LruMap<u64, u64> = LruMap::with_limiter(alloc, ByLength::new(3));
    let held = all!(fill(&mut map), map.into_iter().next_back() == Some((1, 10)));
    check!(rt; held);
}

#[test]
fn of_lru_model_results(rt: HostRuntime) {
    let alloc = rt.alloc();
    let mut map: LruMap<u64, u64, Unlimited> = LruMap::new(alloc, Unlimited, [1, 2, 3, 4], 32);
    let held = all!(
        map.try_reserve(usize::MAX) == Err(ReserveError::TooLarge),
        map.try_reserve(1 << 50) == Err(ReserveError::Memory)
    );
    let mut map: LruMap<u32, u32, ByMemoryUsage> = LruMap::with_memory_budget(
        alloc,
        84,
        [1, 2, 3, 4],
        16,
    );
    let held = held & all!(map.try_reserve(4) == Err(ReserveError::Refused));
    check!(rt; held);
}

#[test]
fn of_ordered_table_ordered(rt: HostRuntime) -> Result<(), Fail> {
    let alloc = rt.alloc();
    let hasher = RandomState::default();
    let mut table: OrderedTable<u64, u64, u32> = OrderedTable::new(alloc);
    table.move_to(4, &hasher)?;
    for key in [1u64, 2, 3] {
        let _ = table.try_place(hasher.hash_one(&key), (key, 10 * key));
    }
    if let Some(b) = table.find(hasher.hash_one(&1u64), &1u64) {
        table.promote(b);
    }
    check!(rt; is_pair(table.iter().next(), 1, 10));
    Ok(())
}
