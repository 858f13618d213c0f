//! The calls on a map that return structs for C.
ghost use Rattle.std.specs.Prelude.{◌≡◌, ◌≤◌, ℕ, nat_eq, false, length, List, Option, None, IfOk, OnErr, IfSome};
ghost use Rattle.std.specs.Prelude.{option_map};
ghost use Rattle.std.specs.Map.Iter.{deref_pair};
ghost use Rattle.lru_limits.specs.Limiters.{length_rules, length_offers};
ghost use Rattle.lru_model.specs.Calls.{Remove, PopOldest, promoted};
ghost use Rattle.lru_model.specs.Lists.{lookup};
ghost use Rattle.lru_model.specs.Callbacks.{InsertPasses};
ghost use Rattle.lru_model.specs.Inserts.{kept_of};
ghost use Rattle.lru_model.specs.Kept.{most_exact_length};
ghost use Rattle.lru_model.specs.Theorems.{others};
ghost use Rattle.lru_c.specs.Answers.{found_of, pair_of, noted_pair, filled, fitting, first_other};
ghost use Rattle.lru_c.specs.Answers.{Inserts, GetsOrInserts};
ghost use Rattle.lru_c.specs.Handle.{FitsHandle, hash_of};

use crate::answers::{
    Entry, Found, Inserted, OUT_OF_MEMORY, Pair, STORED, as_code, as_found, as_inserted, as_pair,
    note_other,
};
use crate::handle::Map;
use schnellru::{ByLength, RandomState, laws};
use std::alloc::{AllocError, Global};

/// Inserts a value. If the insert evicts an entry of another key, writes this entry to `place`. Returns the replaced
/// value.
#[inline]
pub fn insert(map: &mut Map, key: u64, value: u64, place: &mut Entry) -> Inserted
    requires fits { FitsHandle map.old }
    ensures { Inserts key value map.old result place.old place.new map.new }
{
    let mut noted = false;
    match insert_and_note(map, key, value, &mut noted, place) {
        Ok(inserted) => as_inserted(as_code(Ok(inserted.kept)), inserted.unkept, noted),
        Err(_) => as_inserted(OUT_OF_MEMORY, None, noted),
    }
}

/// If the map contains the key, makes the key's entry the newest, and returns its value as the replaced value.
/// Otherwise calls `insert`.
#[inline]
pub fn get_or_insert(map: &mut Map, key: u64, value: u64, place: &mut Entry) -> Inserted
    requires fits { FitsHandle map.old }
    ensures { GetsOrInserts key value map.old result place.old place.new map.new }
{
    let found = get(map, key);
    if found.found {
        return as_inserted(STORED, Some(found.value), false);
    }
    insert(map, key, value, place)
}

#[inline]
fn insert_and_note(
    map: &mut Map,
    key: u64,
    value: u64,
    noted: &mut bool,
    place: &mut Entry,
) -> Result<schnellru::Inserted<u64>, AllocError>
    requires fits { FitsHandle map.old }
    requires none { noted.old ≡ false }
    ensures passed { (passed : List (ℕ × ℕ)) × (noted_pair noted.new place.new ≡ first_other key passed)
        × InsertPasses length_rules length_offers nat_eq hash_of key value map.old (kept_of result) passed map.new
        × (map.old.limiter ≤ most_exact_length → length (others (nat_eq key) passed) ≤ 1) }
    ensures untouched { noted.new ≡ false → place.new ≡ place.old }
    ensures replaced { IfOk result (λ inserted. inserted.unkept ≡ lookup (nat_eq key) map.old.pairs) }
    ensures out_of_memory { OnErr result (lookup (nat_eq key) map.old.pairs ≡ None) }
{
    laws::inserts_leave_the_newest::<u64, u64, RandomState>();
    laws::nothing_is_lost::<u64, u64, u64, ByLength, RandomState>();
    // Shows the prover that the table is sound.
    let _len = map.len();
    map.insert_full(key, value, &mut |k, v| note_other(noted, place, key, k, v))
}

#[inline]
pub fn get(map: &mut Map, key: u64) -> Found
    ensures value { result ≡ found_of (lookup (nat_eq key) map.old.pairs) }
    ensures promoted { map.new ≡ promoted (nat_eq key) map.old }
{
    match map.get(&key) {
        Some(value) => as_found(Some(*value)),
        None => as_found(None),
    }
}

#[inline]
pub fn peek(map: &Map, key: u64) -> Found
    ensures { result ≡ found_of (lookup (nat_eq key) map.now.pairs) }
{
    match map.peek(&key) {
        Some(value) => as_found(Some(*value)),
        None => as_found(None),
    }
}

#[inline]
pub fn remove(map: &mut Map, key: u64) -> Found
    ensures { (value : Option ℕ) × (result ≡ found_of value) × Remove length_rules (nat_eq key) map.old value map.new }
{
    as_found(map.remove(&key))
}

#[inline]
pub fn pop_oldest(map: &mut Map) -> Pair
    ensures { (pair : Option (ℕ × ℕ)) × (result ≡ pair_of pair) × PopOldest length_rules map.old pair map.new }
{
    as_pair(map.pop_oldest())
}

#[inline]
pub fn show(pair: Option<(&u64, &u64)>) -> Pair
    ensures { result ≡ pair_of (option_map deref_pair pair.entry) }
{
    match pair {
        Some((key, value)) => as_pair(Some((*key, *value))),
        None => as_pair(None),
    }
}

pub fn copied(alloc: Global, map: &Map) -> Option<Box<Map>>
    ensures { IfSome result (λ copy. copy.value ≡ map.now) }
{
    match map.clone() {
        Ok(copy) => Box::new(alloc, copy).ok(),
        Err(_) => None,
    }
}

/// Copies entries, newest first, until the slice is full or no entry is left. Returns how many were copied.
pub fn copy_entries(map: &Map, entries: &mut [Entry]) -> usize
    ensures filled { entries.new ≡ filled map.now.pairs entries.old }
    ensures count { result ≡ fitting map.now.pairs entries.old }
{
    let mut rest = map.iter();
    let mut count = 0;
    while count < entries.len() {
        let Some((key, value)) = rest.next() else {
            return count;
        };
        entries[count] = Entry {
            key: *key,
            value: *value,
        };
        count += 1;
    }
    count
}
