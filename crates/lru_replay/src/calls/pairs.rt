//! Calls that return pairs. Each call requests the memory for the pairs before it changes the map.
ghost use Rattle.std.specs.Prelude.{◌≡◌, ◌++◌, ◌+◌, ◌≤◌, ◌<◌, option_to_list};
ghost use Rattle.std.specs.Vec.{vec_len, vec_capacity};
ghost use Rattle.lru_model.specs.Drains.{newest_given, oldest_given, pops_first};
ghost use Rattle.lru_model.specs.State.{contents, Leaves, pops};
ghost use Rattle.lru_replay.specs.declared.calls.Call.TheVariants as calls;
ghost use Rattle.lru_replay.specs.CallRuns.{CallStep};
ghost use Rattle.lru_replay.specs.Replies.{said};

use crate::Answer;
use schnellru::{Insertion, KeyHasher, Limiter, LruMap};
use std::alloc::Global;
use std::hash::Hash;

pub fn list<K: Copy + Eq + Hash, V: Copy, L: Insertion<K, V, K>, S: KeyHasher<K>>(
    alloc: Global,
    map: &LruMap<K, V, L, S>,
) -> Answer<K, V>
    ensures { CallStep L.rules L.offers K.eq S.hash_of map.now calls.List (said result) map.now }
{
    let Ok(mut pairs) = Vec::with_capacity(alloc, map.len()) else {
        return Answer::Memory;
    };
    for (key, value) in map.iter() {
        pairs.push_reserved((*key, *value));
    }
    Answer::Pairs(pairs)
}

pub fn insert_with<K: Eq + Hash + Drop, V: Drop, L: Insertion<K, V, K>, S: KeyHasher<K>>(
    map: &mut LruMap<K, V, L, S>,
    key: K,
    value: V,
) -> Answer<K, V>
    ensures { CallStep L.rules L.offers K.eq S.hash_of map.old (calls.InsertWith key value) (said result) map.new }
{
    match map.insert_and_keep(key, value) {
        Ok((done, out)) => Answer::Given { done, out },
        Err(_) => Answer::Memory,
    }
}

pub fn drain_pairs<K: Eq + Hash + Drop, V: Drop, L: Insertion<K, V, K>, S: KeyHasher<K>>(
    alloc: Global,
    map: &mut LruMap<K, V, L, S>,
    front: usize,
    back: usize,
) -> Answer<K, V>
    ensures { CallStep L.rules L.offers K.eq S.hash_of map.old (calls.Drain front back) (said result) map.new }
{
    let newest = front.min(map.len());
    let oldest = back.min(map.len() - newest);
    let Ok(mut pairs) = Vec::with_capacity(alloc, newest + oldest) else {
        return Answer::Memory;
    };
    take_newest(map, newest, &mut pairs);
    take_oldest(map, oldest, &mut pairs);
    map.clear();
    Answer::Pairs(pairs)
}

fn take_newest<K: Eq + Hash, V, L: Limiter<K, V>, S: KeyHasher<K>>(
    map: &mut LruMap<K, V, L, S>,
    count: usize,
    pairs: &mut Vec<(K, V)>,
)
    requires { vec_len pairs.old + count ≤ vec_capacity pairs.old }
    ensures pairs { pairs.new.items ≡ pairs.old.items ++ newest_given L.rules count (contents map.old) }
    ensures len { vec_len pairs.new ≤ vec_len pairs.old + count }
    ensures capacity { vec_capacity pairs.new ≡ vec_capacity pairs.old }
    ensures left { Leaves map.old (pops_first L.rules count (contents map.old)) map.new }
{
    for _ in 0..count {
        add(pairs, map.pop_newest());
    }
}

fn take_oldest<K: Eq + Hash, V, L: Limiter<K, V>, S: KeyHasher<K>>(
    map: &mut LruMap<K, V, L, S>,
    count: usize,
    pairs: &mut Vec<(K, V)>,
)
    requires { vec_len pairs.old + count ≤ vec_capacity pairs.old }
    ensures pairs { pairs.new.items ≡ pairs.old.items ++ oldest_given L.rules count (contents map.old) }
    ensures left { Leaves map.old (pops L.rules count (contents map.old)) map.new }
{
    for _ in 0..count {
        add(pairs, map.pop_oldest());
    }
}

fn add<K, V>(pairs: &mut Vec<(K, V)>, pair: Option<(K, V)>)
    requires { vec_len pairs.old < vec_capacity pairs.old }
    ensures items { pairs.new.items ≡ pairs.old.items ++ option_to_list pair }
    ensures len { vec_len pairs.new ≤ vec_len pairs.old + 1 }
    ensures capacity { vec_capacity pairs.new ≡ vec_capacity pairs.old }
{
    if let Some(pair) = pair {
        pairs.push_reserved(pair);
    }
}
