//! Written by `docs/examples.py` from the examples in the doc comments. Do not change it by hand.
use schnellru::{ByLength, GetOrInsertError, KeyHasher, LruMap, RandomState, Updated};
use std::alloc::AllocError;
use std::hash::BuildHasher;
use test_helpers::{all, check};
use test_maps::{fill, is_pair, is_value};

fn map_1(map: &mut LruMap<u64, u64>) -> bool {
    let held = fill(map);
    let hash = RandomState::default().hash_one(&1u64);
    let held = held
        & all!(
            map.get_by_hash(hash, |key, _| *key == 1).copied() == Some(10),
            is_pair(map.peek_newest(), 1, 10),
            fill(map),
            map.peek_by_hash(hash, |_, value| *value == 10).copied() == Some(10),
            fill(map)
        );
    if let Some(value) = map.peek_by_hash_mut(hash, |key, _| *key == 1) {
        *value = 100;
    }
    held & all!(is_value(map.peek(&1), 100))
}

fn map_2(map: &mut LruMap<u64, u64>) -> Result<bool, AllocError> {
    let held = fill(map);
    let mut copy = map.clone()?;
    let held = held
        & all!(
            copy.remove(&1) == Some(10),
            (copy.len(), map.len()) == (2, 3),
            fill(map)
        );
    if let Some(mut entry) = map.find_entry(&1) {
        *entry.get_mut() = 100;
        entry.promote();
    }
    let held = held & all!(is_pair(map.peek_newest(), 1, 100), fill(map));
    if let Some(entry) = map.find_entry(&1) {
        if *entry.get() == 10 {
            entry.remove_entry();
        }
    }
    Ok(held & all!(!map.contains(&1) && map.find_entry(&9).is_none()))
}

fn map_3(map: &mut LruMap<u64, u64>) -> bool {
    let held = fill(map);
    let hash = RandomState::default().hash_one(&1u64);
    if let Some(mut entry) = map.find_entry_by_hash(hash, |key, _| *key == 1) {
        entry.promote();
    }
    let held = held
        & all!(
            is_pair(map.peek_newest(), 1, 10),
            fill(map),
            map.find_entry(&1).is_some_and(|entry| *entry.key() == 1),
            fill(map),
            map.find_entry(&1).is_some_and(|entry| *entry.get() == 10),
            fill(map)
        );
    if let Some(mut entry) = map.find_entry(&1) {
        *entry.get_mut() = 100;
    }
    held & all!(is_pair(map.peek_oldest(), 1, 100))
}

fn map_4(map: &mut LruMap<u64, u64>) -> Result<bool, AllocError> {
    let held = fill(map);
    if let Some(entry) = map.find_entry(&1) {
        let value = entry.into_mut();
        *value = 100;
    }
    let held = held & all!(is_pair(map.peek_oldest(), 1, 100), fill(map));
    if let Some(mut entry) = map.find_entry(&1) {
        entry.promote();
    }
    let held = held & all!(is_pair(map.peek_newest(), 1, 10), fill(map));
    if let Some(mut entry) = map.find_entry(&3) {
        entry.demote();
    }
    let held = held & all!(is_pair(map.peek_oldest(), 3, 30), fill(map));
    map.try_extend([(4, 40), (5, 50)])?;
    Ok(held & all!(is_pair(map.peek_newest(), 5, 50)))
}

fn map_5(map: &mut LruMap<u64, u64>) -> bool {
    let held = fill(map);
    map.set_limiter(ByLength::new(1));
    held & all!(map.limiter().max_length() == 1)
}

fn map_6<S: KeyHasher<u64>>(map: &mut LruMap<u64, u64, ByLength, S>) -> Result<bool, AllocError> {
    let hash = map.hasher().hash_named(&5);
    let inserted = map.insert_hashed(hash, 5, 50, &mut |_, _| {})?;
    Ok(inserted.kept)
}

fn map_7(map: &mut LruMap<u64, u64>) -> Result<bool, AllocError> {
    let held = fill(map);
    *map.limiter_mut() = ByLength::new(1);
    let held = held & all!(map.len() == 3);
    map.insert(4, 40)?;
    let held = held & all!(map.len() == 1, fill(map));
    if map.ensure_newest(1, || 0)? {
        if let Some(count) = map.newest_mut() {
            *count = count.saturating_add(1);
        }
    }
    Ok(
        held & all!(
            fill(map),
            map.get_or_insert(1, || 10)?.copied() == Some(10),
            map.get_or_insert(1, || 20)?.copied() == Some(10)
        ),
    )
}

fn map_8(map: &mut LruMap<u64, u64>) -> Result<bool, GetOrInsertError<u8>> {
    Ok(all!(
        fill(map),
        map.ensure_newest_fallible(4, || Err(7u8)).is_err(),
        map.peek(&4).is_none(),
        map.ensure_newest_fallible(4, || Ok::<u64, u8>(40))?,
        is_pair(map.peek_newest(), 4, 40),
        fill(map),
        map.get_or_insert_fallible(5, || Err(7u8)).is_err(),
        map.peek(&5).is_none(),
        map.get_or_insert_fallible(5, || Ok::<u64, u8>(50))?
            .copied()
            == Some(50)
    ))
}

fn map_9(map: &mut LruMap<u64, u64>) -> Result<bool, AllocError> {
    let held = all!(
        fill(map),
        map.insert(1, 10)?,
        map.insert(1, 20)?,
        is_value(map.peek(&1), 20),
        fill(map)
    );
    let mut left = None;
    map.insert_with(4, 40, &mut |key, value| left = Some((key, value)))?;
    let held = held & all!(left == Some((1, 10)), fill(map));
    let inserted = map.insert_full(1, 11, &mut |_, _| {})?;
    Ok(held & all!((inserted.kept, inserted.unkept) == (true, Some(10))))
}

fn map_10<S: KeyHasher<u64>>(map: &mut LruMap<u64, u64, ByLength, S>) -> Result<bool, AllocError> {
    let hash = map.hasher().hash_named(&5);
    if map.peek_key_value(&5).is_none() {
        map.insert_absent(hash, 5, 50, &mut |_, _| {})?;
    }
    Ok(is_pair(map.peek_newest(), 5, 50))
}

fn map_11(map: &mut LruMap<u64, u64>) -> Result<bool, AllocError> {
    let held = fill(map);
    let (done, left) = map.insert_and_keep(4, 40)?;
    let held = held
        & all!(
            done == Ok(true) && left.as_slice() == [(1, 10)].as_slice(),
            fill(map)
        );
    if let Some(value) = map.get(&1) {
        *value = 100;
    }
    Ok(
        held & all!(
            is_pair(map.peek_newest(), 1, 100),
            fill(map),
            is_pair(map.get_key_value(&1), 1, 10),
            is_pair(map.peek_newest(), 1, 10),
            fill(map),
            map.promote(&1) && !map.promote(&9),
            is_pair(map.peek_newest(), 1, 10)
        ),
    )
}

fn map_12(map: &mut LruMap<u64, u64>) -> bool {
    let held = all!(
        fill(map),
        map.demote(&3) && !map.demote(&9),
        is_pair(map.peek_oldest(), 3, 30),
        fill(map),
        map.contains(&1) && !map.contains(&9),
        is_value(map.peek(&1), 10),
        is_pair(map.peek_key_value(&1), 1, 10)
    );
    if let Some(value) = map.peek_mut(&1) {
        *value = 100;
    }
    held & all!(is_pair(map.peek_oldest(), 1, 100))
}

fn map_13(map: &mut LruMap<u64, u64>) -> bool {
    all!(
        fill(map),
        is_pair(map.peek_oldest(), 1, 10),
        is_pair(map.peek_newest(), 3, 30),
        map.pop_oldest_if(|key, _| *key == 9) == None,
        map.pop_oldest_if(|key, _| *key == 1) == Some((1, 10)),
        fill(map),
        map.try_pop_oldest(|_, _| Err(7u8)) == Err(7),
        map.try_pop_oldest(|_, _| -> Result<(), u8> { Ok(()) }) == Ok(Some((1, 10))),
        fill(map),
        map.pop_oldest() == Some((1, 10))
    )
}

fn map_14(map: &mut LruMap<u64, u64>) -> bool {
    let held = all!(
        fill(map),
        map.pop_newest() == Some((3, 30)),
        fill(map),
        map.remove_entry(&1) == Some((1, 10)),
        map.remove_entry(&1) == None,
        fill(map),
        map.remove(&1) == Some(10),
        map.remove(&1) == None,
        fill(map)
    );
    map.clear();
    held & all!((map.len(), map.guaranteed_capacity()) == (0, 3))
}

fn map_15(map: &mut LruMap<u64, u64>) -> bool {
    let held = fill(map);
    map.retain(|_, value| *value > 10);
    let held = held & all!(map.len() == 2 && !map.contains(&1), fill(map));
    let mut removed = 0u64;
    map.retain_with(
        |key, _| *key != 2,
        &mut |key, _| removed = removed.wrapping_add(key),
    );
    let held = held & all!(removed == 2, fill(map));
    *map.limiter_mut() = ByLength::new(1);
    map.trim();
    held & all!(map.len() == 1 && map.contains(&3))
}

fn map_16(map: &mut LruMap<u64, u64>) -> bool {
    let held = fill(map);
    let old = map.set_limiter(ByLength::new(1));
    let held = held & all!(old.max_length() == 3 && map.len() == 1, fill(map));
    let mut evicted = 0u64;
    *map.limiter_mut() = ByLength::new(1);
    map.trim_with(&mut |key, _| evicted = evicted.wrapping_add(key));
    let held = held & all!(evicted == 3, fill(map));
    let mut evicted = 0u64;
    map.set_limiter_with(
        ByLength::new(1),
        &mut |key, _| evicted = evicted.wrapping_add(key),
    );
    held & all!(evicted == 3)
}

fn map_17(map: &mut LruMap<u64, u64>) -> bool {
    let held = all!(fill(map), map.try_insert(4, 40) == Err((4, 40)));
    map.pop_oldest();
    held & all!((map.try_insert(4, 40), map.try_insert(4, 41)) == (Ok(()), Err((4, 41))))
}

fn map_18<S: KeyHasher<u64>>(map: &mut LruMap<u64, u64, ByLength, S>) -> bool {
    let hash = map.hasher().hash_named(&4);
    let held = map.try_insert_hashed(hash, 4, 40) == Err((4, 40));
    map.pop_oldest();
    held & all!(map.try_insert_hashed(hash, 4, 40) == Ok(()))
}

fn map_19(map: &mut LruMap<u64, u64>) -> bool {
    let held = all!(
        fill(map),
        map.update(1, 11) == Updated::Replaced(10),
        is_pair(map.peek_oldest(), 1, 11) && map.update(9, 90) == Updated::Absent(90),
        fill(map)
    );
    let mut left = None;
    map.update_with(2, 21, &mut |key, value| left = Some((key, value)));
    let held = held & all!(left.is_none() && is_value(map.peek(&2), 21), fill(map));
    let mut sum = 0u64;
    for (key, value) in map.drain() {
        sum = sum.wrapping_add(key.wrapping_mul(value));
    }
    held & all!(map.is_empty())
}

fn map_20(map: &mut LruMap<u64, u64>) -> bool {
    let held = fill(map);
    let mut walk = map.iter_mut();
    if walk.len() > 0 {
        let (_, value) = walk.lend_next();
        *value = 200;
    }
    let held = held & all!(fill(map));
    let mut walk = map.iter_mut();
    if walk.len() > 0 {
        let (_, value) = walk.lend_next_back();
        *value = 100;
    }
    let held = held & all!(fill(map));
    let mut walk = map.iter_mut();
    if let Some((_, value)) = walk.next() {
        *value = 300;
    }
    if let Some((_, value)) = walk.next_back() {
        *value = 100;
    }
    held & all!(walk.len() == 1)
}

fn map_21(map: &mut LruMap<u64, u64>) -> bool {
    let held = fill(map);
    map.for_each_mut(|_, value| *value = value.saturating_add(1));
    let held = held & all!(is_value(map.peek(&1), 11), fill(map));
    let mut walk = map.iter();
    let held = held & all!(is_pair(walk.next_back(), 1, 10) && walk.len() == 2);
    let mut total = 0u64;
    for (key, value) in map.iter() {
        total = total.wrapping_add(key.wrapping_mul(*value));
    }
    held & all!(
        total == 140,
        is_value(map.keys().next(), 3) && is_value(map.keys().next_back(), 1)
    )
}

fn map_22(map: &mut LruMap<u64, u64>) -> bool {
    all!(
        fill(map),
        is_value(map.values().next(), 30) && map.values().len() == 3,
        is_pair(map.get_index(0), 3, 30) && map.get_index(3).is_none(),
        (map.get_index_of(&1), map.get_index_of(&9)) == (Some(2), None),
        is_pair(map.peek_older(&2), 1, 10) && map.peek_older(&1).is_none(),
        is_pair(map.peek_newer(&2), 3, 30) && map.peek_newer(&3).is_none()
    )
}

fn map_23(map: &mut LruMap<u64, u64>) -> bool {
    let held = fill(map);
    let answer = map.ensure_newest_fallible(4, || Err(7u8));
    held & all!(answer == Err(GetOrInsertError::Caller(7)))
}

#[test]
fn on_a_map(rt: HostRuntime) {
    let alloc = rt.alloc();
    let mut map: LruMap<u64, u64> = LruMap::with_limiter(alloc, ByLength::new(3));
    let held = all!(
        map_1(&mut map),
        map_2(&mut map).unwrap_or(false),
        map_3(&mut map),
        map_4(&mut map).unwrap_or(false),
        map_5(&mut map),
        fill(&mut map),
        map_6(&mut map).unwrap_or(false),
        map_7(&mut map).unwrap_or(false),
        map_8(&mut map).unwrap_or(false),
        map_9(&mut map).unwrap_or(false),
        fill(&mut map),
        map_10(&mut map).unwrap_or(false),
        map_11(&mut map).unwrap_or(false),
        map_12(&mut map),
        map_13(&mut map),
        map_14(&mut map),
        map_15(&mut map),
        map_16(&mut map),
        map_17(&mut map),
        fill(&mut map),
        map_18(&mut map),
        map_19(&mut map),
        map_20(&mut map),
        map_21(&mut map),
        map_22(&mut map),
        map_23(&mut map)
    );
    check!(rt; held);
}
