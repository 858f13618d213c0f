//! Copies of texts, and keys that the limiter makes. Each request for memory is refused in turn.
use schnellru::LruMap;
use std::alloc::Global;
use test_helpers::{Counting, Hog, InsertKey, check};

/// The limiter allocates each key, and allocates it again after each growth that fails.
fn texts_are_refused(alloc: Global, map: &mut LruMap<String, u32, Counting>) -> Option<bool> {
    let mut right = true;
    // A clone requests memory for entries, for control bytes, and for each text (one byte).
    let mut hog = Hog::new(alloc, &[160, 20, 1, 1, 1]).ok()?;
    for n in 0..6u32 {
        right = (map.clone().is_err() == (n < 5)) & right;
        hog.release();
    }
    drop(hog);
    // An insert requests memory for the text, and for a growth.
    let mut hog = Hog::new(alloc, &[1, 8 * 40, 24, 16]).ok()?;
    for n in 0..5u32 {
        right = (map.insert(InsertKey("9"), 9).is_err() == (n < 4)) & right;
        right = (map.limiter().inserts == n.wrapping_add(3)) & right;
        hog.release();
    }
    Some(right | !hog.took_all())
}

#[test]
fn copies_and_keys_that_are_made(rt: HostRuntime) {
    let alloc = rt.alloc();
    let mut map = LruMap::new(alloc, Counting::default(), [1, 2, 3, 4], 16);
    for text in ["1", "2", "3"] {
        let _ = map.insert(InsertKey(text), 1);
    }
    check!(rt; texts_are_refused(alloc, &mut map).unwrap_or(false));
}
