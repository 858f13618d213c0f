//! Written by `docs/examples.py` from the examples in the doc comments. Do not change it by hand.
use crate::beginnings::{Cache, Counted, Map, recount, refill, rewrite};
use crate::disk::Disk;
use lru_caches::{CountedMap, Counts, OrderedMap, PageCache, PageError};
use schnellru::{ByLength, LruMap};
use std::alloc::AllocError;
use std::cell::Cell;
use test_helpers::{all, check};
use test_maps::{is_pair, is_value};

fn counted_1(counted: &mut Counted) -> Result<bool, AllocError> {
    let held = all!(
        recount(counted),
        (counted.get(&1), counted.get(&9)) == (Some(10), None),
        counted.insert(4, 40)?
    );
    let counts = counted.counts();
    let held = held
        & all!(
            (
                counts.hits,
                counts.misses,
                counts.insertions,
                counts.evictions
            ) == (1, 1, 1, 1),
            recount(counted),
            counted.counts() == Counts::default(),
            recount(counted)
        );
    counted.get(&1);
    Ok(
        held & all!(
            (counted.take_counts().hits, counted.counts().hits) == (1, 0),
            recount(counted),
            (counted.map().len(), counted.map().peek(&2).copied()) == (3, Some(20))
        ),
    )
}

fn counted_2(counted: &mut Counted) -> Result<bool, AllocError> {
    Ok(all!(
        recount(counted),
        counted.promote(&1) && !counted.promote(&9),
        is_pair(counted.map().peek_newest(), 1, 10),
        (counted.counts().hits, counted.counts().misses) == (1, 1),
        recount(counted),
        counted.insert(4, 40)?,
        (counted.counts().insertions, counted.counts().evictions) == (1, 1),
        recount(counted),
        (counted.remove(&1), counted.counts()) == (Some(10), Counts::default())
    ))
}

#[test]
fn on_a_counted(rt: HostRuntime) {
    let alloc = rt.alloc();
    let mut counted: Counted = CountedMap::new(LruMap::with_limiter(alloc, ByLength::new(3)));
    let held = all!(
        counted_1(&mut counted).unwrap_or(false),
        counted_2(&mut counted).unwrap_or(false)
    );
    check!(rt; held);
}

fn map_1(map: &mut Map) -> bool {
    let held = refill(map);
    let mut entries = map.iter();
    held & all!(
        (entries.len(), entries.next(), entries.next_back())
            == (2, Some((&1, &11)), Some((&2, &20))),
        is_value(map.keys().next(), 1) && is_value(map.values().next_back(), 20),
        is_pair(map.get_key_value(&1), 1, 11) && map.get_key_value(&9).is_none(),
        refill(map),
        map.move_to_back(&1) && !map.move_to_back(&9),
        is_pair(map.last(), 1, 11)
    )
}

fn map_2(map: &mut Map) -> bool {
    all!(
        refill(map),
        map.try_reserve(100) == Ok(()),
        (map.shrink_to_fit(), map.shrink_to_fit()) == (Ok(true), Ok(false)),
        refill(map),
        map.len() == 2,
        !map.is_empty(),
        map.contains_key(&1) && !map.contains_key(&9),
        (map.get(&1), map.get(&9)) == (Some(&11), None)
    )
}

fn map_3(map: &mut Map) -> bool {
    let held = refill(map);
    if let Some(value) = map.get_mut(&2) {
        *value = 22;
    }
    held & all!(
        is_value(map.get(&2), 22),
        refill(map),
        map.pop_first() == Some((1, 11)),
        refill(map),
        map.pop_last() == Some((2, 20)),
        refill(map),
        (map.remove_entry(&2), map.remove_entry(&2)) == (Some((2, 20)), None)
    )
}

fn map_4(map: &mut Map) -> bool {
    let held = refill(map);
    let mut total = 0u64;
    for (key, value) in map.iter() {
        total = total.wrapping_add(key.wrapping_mul(*value));
    }
    let held = held
        & all!(
            total == 51,
            (map.remove(&2), map.remove(&2)) == (Some(20), None),
            refill(map)
        );
    map.retain(|key, value| *key == 1 || *value > 30);
    let held = held & all!((map.len(), map.contains_key(&1)) == (1, true), refill(map));
    map.clear();
    held & all!(map.is_empty())
}

#[test]
fn on_a_map(rt: HostRuntime) {
    let alloc = rt.alloc();
    let mut map: Map = OrderedMap::new(alloc);
    let held = all!(
        map_1(&mut map),
        map_2(&mut map),
        map_3(&mut map),
        map_4(&mut map)
    );
    check!(rt; held);
}

fn cache_1(cache: &mut Cache<'_>) -> bool {
    all!(
        rewrite(cache),
        cache.read_with(1, |block| *block / 2) == Ok(10),
        rewrite(cache),
        cache.prefetch(2..4) == Ok(()) && cache.contains(2) && cache.contains(3),
        rewrite(cache),
        (cache.write_with(1, |block| *block = 21), cache.read(1)) == (Ok(()), Ok(21)),
        rewrite(cache),
        (cache.dirty_len(), cache.flush_page(1), cache.dirty_len()) == (1, Ok(()), 0),
        cache.device().blocks == [10, 20, 12, 13],
        rewrite(cache),
        cache.dirty_len() == 1
    )
}

fn cache_2(cache: &mut Cache<'_>) -> bool {
    let held = all!(
        rewrite(cache),
        (cache.pin(0), cache.pin(1), cache.read(2)) == (Ok(()), Ok(()), Err(PageError::Full)),
        cache.is_pinned(0) && cache.unpin(0) && !cache.is_pinned(0),
        rewrite(cache)
    );
    cache.set_keeps_dirty(true);
    held & all!(
        (cache.keeps_dirty(), cache.write(0, 10), cache.read(2))
            == (true, Ok(()), Err(PageError::Full)),
        rewrite(cache),
        cache.read(4) == Err(PageError::NoBlock),
        rewrite(cache),
        cache.contains(1) && !cache.contains(2)
    )
}

fn cache_3(cache: &mut Cache<'_>) -> bool {
    let held = rewrite(cache);
    let (hits, misses) = (cache.hits(), cache.misses());
    held & all!(
        cache.read(1) == Ok(20)
            && cache.hits() == hits.saturating_add(1)
            && cache.misses() == misses,
        rewrite(cache),
        cache.misses() == cache.evictions().saturating_add(cache.len() as u64),
        rewrite(cache),
        cache.device().blocks == [10, 11, 12, 13],
        rewrite(cache),
        cache.flush() == Ok(()),
        cache.device().blocks == [10, 20, 12, 13]
    )
}

#[test]
fn on_a_cache(rt: HostRuntime) {
    let alloc = rt.alloc();
    let calls_left = Cell::new(100);
    let disk = Disk::new([10, 11, 12, 13], [false; 4], &calls_left);
    let mut cache = PageCache::new(alloc, disk, 2);
    let held = all!(
        cache_1(&mut cache),
        cache_2(&mut cache),
        cache_3(&mut cache)
    );
    cache.discard();
    check!(rt; held);
}
