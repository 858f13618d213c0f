//! Tests the memory that a list of calls takes for its answers.
use lru_tenants::{TenantAnswer, TenantCache, TenantCall, run_tenants};
use std::alloc::Global;
use std::mem::size_of;
use std::test::Fail;
use test_helpers::{Hog, check};

fn lists_made(alloc: Global, cache: &mut TenantCache<u64, u64, u64>) -> u32 {
    let mut made = 0u32;
    for _ in 0..100u32 {
        let Ok(calls) = vec![in alloc; TenantCall::Cost(1)] else {
            return 0;
        };
        made = made.wrapping_add(run_tenants(alloc, cache, calls).is_ok() as u32);
    }
    made
}

// Without memory for its answers, a list of calls fails. Each list frees its memory, so 100 lists run in the memory of
// one list and its answers.
#[test]
fn a_list_takes_the_memory_of_its_answers(rt: HostRuntime) -> Result<(), Fail> {
    let list = size_of::<TenantCall<u64, u64, u64>>();
    let answers = size_of::<TenantAnswer<u64>>();
    let mut cache = TenantCache::new(rt.alloc(), [1, 2, 3, 4]);
    let mut hog = Hog::new(rt.alloc(), &[list, answers])?;
    hog.release();
    let without = lists_made(rt.alloc(), &mut cache);
    hog.release();
    let with = lists_made(rt.alloc(), &mut cache);
    let all = hog.took_all();
    drop(hog);
    check!(rt; with == 100 && (without == 0 || !all));
    Ok(())
}
