//! What the calls return to C: plain structs, because C has no `Option`.
ghost use Rattle.std.specs.Prelude.{◌≡◌, false};
ghost use Rattle.lru_c.specs.Answers.{found_of, pair_of, inserted_of, noted_pair, noting_other, put_code};

use std::alloc::AllocError;

/// What a put returns if the map contains the key with the new value afterwards. A `get_or_insert` that finds the key
/// returns `STORED`, too.
pub const STORED: u32 = 0;
/// What a put returns if the key is not in the map afterwards, and no allocation failed.
pub const REJECTED: u32 = 1;
/// What a put returns if memory ran out.
pub const OUT_OF_MEMORY: u32 = 2;
/// What a put returns if the handle has no map.
pub const NO_MAP: u32 = 3;

/// A value, if there is one.
#[repr(C)]
#[derive(Drop)]
pub struct Found {
    pub value: u64,
    pub found: bool,
}

/// An entry, if there is one.
#[repr(C)]
#[derive(Drop)]
pub struct Pair {
    pub key: u64,
    pub value: u64,
    pub found: bool,
}

#[repr(C)]
#[derive(Clone, Copy)]
pub struct Entry {
    pub key: u64,
    pub value: u64,
}

/// What an insert did. The struct fits into two registers.
#[repr(C)]
#[derive(Drop)]
pub struct Inserted {
    pub old_value: u64,
    pub code: u32,
    pub replaced: bool,
    /// Whether the insert evicted an entry.
    pub evicted: bool,
}

#[inline]
pub fn as_found(value: Option<u64>) -> Found
    ensures { result ≡ found_of value }
{
    match value {
        Some(value) => Found { value, found: true },
        None => Found {
            value: 0,
            found: false,
        },
    }
}

#[inline]
pub fn as_pair(entry: Option<(u64, u64)>) -> Pair
    ensures { result ≡ pair_of entry }
{
    match entry {
        Some((key, value)) => Pair {
            key,
            value,
            found: true,
        },
        None => Pair {
            key: 0,
            value: 0,
            found: false,
        },
    }
}

#[inline]
pub fn as_inserted(code: u32, old_value: Option<u64>, evicted: bool) -> Inserted
    ensures { result ≡ inserted_of code old_value evicted }
{
    match old_value {
        Some(old_value) => Inserted {
            old_value,
            code,
            replaced: true,
            evicted,
        },
        None => Inserted {
            old_value: 0,
            code,
            replaced: false,
            evicted,
        },
    }
}

#[inline]
pub fn as_code(done: Result<bool, AllocError>) -> u32
    ensures { result ≡ put_code done }
{
    match done {
        Ok(true) => STORED,
        Ok(false) => REJECTED,
        Err(_) => OUT_OF_MEMORY,
    }
}

#[inline]
pub fn note_other(noted: &mut bool, place: &mut Entry, inserted: u64, key: u64, value: u64)
    ensures pair { noted_pair noted.new place.new
        ≡ noting_other inserted (noted_pair noted.old place.old) (key, value) }
    ensures untouched { noted.new ≡ false → (noted.old ≡ false) × (place.new ≡ place.old) }
{
    if !*noted && inserted != key {
        *noted = true;
        *place = Entry { key, value };
    }
}
