//! Calls that copy a lent value, write a value, or join several results into one answer.
ghost use Rattle.std.specs.Prelude.{◌≡◌, Option, is_some, if◌then◌else◌};
ghost use Rattle.lru_model.specs.Calls.{promoted, written};
ghost use Rattle.lru_model.specs.Lists.{lookup, first, last, newest_value};
ghost use Rattle.lru_replay.specs.declared.calls.Call.TheVariants as calls;
ghost use Rattle.lru_replay.specs.Replies.{said};
ghost use Rattle.lru_replay.specs.Steps.{ReplyStep, FindsByHash};

use crate::Answer;
use schnellru::{Insertion, KeyHasher, Limiter, LruMap};
use std::hash::Hash;

pub fn insert<K: Eq + Hash + Drop, V: Drop, L: Insertion<K, V, K>, S: KeyHasher<K>>(
    map: &mut LruMap<K, V, L, S>,
    key: K,
    value: V,
) -> Answer<K, V>
    ensures { ReplyStep L.rules L.offers K.eq S.hash_of map.old (calls.Insert key value) (said result) map.new }
{
    match map.insert(key, value) {
        Ok(there) => Answer::Flag(there),
        Err(_) => Answer::Memory,
    }
}

pub fn get_or_insert<K: Eq + Hash + Drop, V: Copy + Drop, L: Insertion<K, V, K>, S: KeyHasher<K>>(
    map: &mut LruMap<K, V, L, S>,
    key: K,
    value: V,
) -> Answer<K, V>
    ensures { ReplyStep L.rules L.offers K.eq S.hash_of map.old (calls.GetOrInsert key value) (said result) map.new }
{
    match map.ensure_newest(key, || value) {
        Ok(true) => Answer::Value(newest_value(map)),
        Ok(false) => Answer::Value(None),
        Err(_) => Answer::Memory,
    }
}

fn newest_value<K: Eq + Hash, V: Copy, L: Limiter<K, V>, S: KeyHasher<K>>(
    map: &LruMap<K, V, L, S>,
) -> Option<V>
    ensures { result ≡ newest_value map.now.pairs }
{
    match map.peek_newest() {
        Some((_, value)) => Some(*value),
        None => None,
    }
}

pub fn get<K: Eq + Hash, V: Copy, L: Limiter<K, V>, S: KeyHasher<K>>(
    map: &mut LruMap<K, V, L, S>,
    key: &K,
) -> Option<V>
    ensures value { result ≡ lookup (K.eq key.now) map.old.pairs }
    ensures promoted { map.new ≡ promoted (K.eq key.now) map.old }
{
    match map.get(key) {
        Some(value) => Some(*value),
        None => None,
    }
}

pub fn write<K: Eq + Hash, V: Drop, L: Limiter<K, V>, S: KeyHasher<K>>(
    map: &mut LruMap<K, V, L, S>,
    key: &K,
    value: V,
) -> bool
    ensures there { result ≡ is_some (lookup (K.eq key.now) map.old.pairs) }
    ensures written { map.new ≡ written (K.eq key.now) value map.old }
{
    match map.peek_mut(key) {
        Some(place) => {
            *place = value;
            true
        }
        None => false,
    }
}

pub fn get_by_hash<K: Eq + Hash, V: Copy, L: Limiter<K, V>, S: KeyHasher<K>>(
    map: &mut LruMap<K, V, L, S>,
    hash: u64,
    key: &K,
) -> Option<V>
    ensures found { FindsByHash K.eq (S.hash_of map.old.hasher) hash key.now map.old.pairs result }
    ensures promoted { map.new ≡ (if is_some result then promoted (K.eq key.now) map.old else map.old) }
{
    let _len = map.len();
    match map.get_by_hash(hash, |other, _| key == other) {
        Some(value) => Some(*value),
        None => None,
    }
}

pub fn peek_by_hash<K: Eq + Hash, V: Copy, L: Limiter<K, V>, S: KeyHasher<K>>(
    map: &LruMap<K, V, L, S>,
    hash: u64,
    key: &K,
) -> Option<V>
    ensures { FindsByHash K.eq (S.hash_of map.now.hasher) hash key.now map.now.pairs result }
{
    let _len = map.len();
    match map.peek_by_hash(hash, |other, _| key == other) {
        Some(value) => Some(*value),
        None => None,
    }
}

pub fn peek_oldest<K: Copy + Eq + Hash, V: Copy, L: Limiter<K, V>, S: KeyHasher<K>>(
    map: &LruMap<K, V, L, S>,
) -> Option<(K, V)>
    ensures { result ≡ last map.now.pairs }
{
    match map.peek_oldest() {
        Some((key, value)) => Some((*key, *value)),
        None => None,
    }
}

pub fn peek_newest<K: Copy + Eq + Hash, V: Copy, L: Limiter<K, V>, S: KeyHasher<K>>(
    map: &LruMap<K, V, L, S>,
) -> Option<(K, V)>
    ensures { result ≡ first map.now.pairs }
{
    match map.peek_newest() {
        Some((key, value)) => Some((*key, *value)),
        None => None,
    }
}

pub fn stats<K: Eq + Hash, V, L: Insertion<K, V, K>, S: KeyHasher<K>>(
    map: &LruMap<K, V, L, S>,
) -> Answer<K, V>
    ensures { ReplyStep L.rules L.offers K.eq S.hash_of map.now calls.Stats (said result) map.now }
{
    Answer::Stats {
        len: map.len(),
        capacity: map.guaranteed_capacity(),
        memory: map.memory_usage(),
        report: map.move_report(),
    }
}
