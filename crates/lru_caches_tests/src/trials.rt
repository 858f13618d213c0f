//! Tests what no contract says: how often functions and devices are called, and that inserts find memory.
mod memos;
mod pages;
mod recursion;

use lru_caches::OrderedMap;
use test_helpers::check;

#[test]
fn functions_are_called_if_a_result_is_not_stored(rt: HostRuntime) {
    check!(rt; memos::calls_that_agree(rt.alloc()) == memos::CALLS);
    check!(rt; recursion::answers(rt.alloc()) == 1);
}

#[test]
fn an_ordered_map_of_many_keys(rt: HostRuntime) {
    let mut map = OrderedMap::new(rt.alloc());
    for key in 0..100_000u64 {
        check!(rt; map.insert(key, key) == Ok(None));
    }
}

/// In run k, the disk fails after k calls. Then the disk fails again after k more calls, or stays broken.
#[test]
fn a_disk_that_fails(rt: HostRuntime) {
    for stays_broken in [false, true] {
        let (tried, kept) = pages::runs_that_end_well(rt.alloc(), stays_broken);
        check!(rt; (tried, kept) == (pages::NEEDED, pages::NEEDED));
    }
}
