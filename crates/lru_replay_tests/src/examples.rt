//! Written by `docs/examples.py` from the examples in the doc comments. Do not change it by hand.
use lru_replay::{Answer, Call, ReplayEnd, ReplayError, replay, run_calls, run_summing, status};
use schnellru::{ByCost, ByLength, LruMap};
use std::test::Fail;
use test_helpers::{all, check};

#[test]
fn of_calls_summing(rt: HostRuntime) -> Result<(), Fail> {
    let alloc = rt.alloc();
    let mut costs: LruMap<u64, u64, ByCost> = LruMap::new(alloc, ByCost::new(10), [1, 2, 3, 4], 16);
    let calls = vec![in alloc; Call::Insert(1, 2), Call::Write(1, 3), Call::Peek(1)]?;
    let answers = run_summing(alloc, &mut costs, calls)?;
    let refuses = answers.get(1) == Some(&Answer::CostDiffers);
    check!(rt; refuses && answers.get(2) == Some(&Answer::Value(Some(2))));
    Ok(())
}

#[test]
fn of_calls(rt: HostRuntime) -> Result<(), Fail> {
    let alloc = rt.alloc();
    let mut map: LruMap<u64, u64> = LruMap::new(alloc, ByLength::new(3), [1, 2, 3, 4], 16);
    let calls = vec![in alloc; Call::Insert(1, 10), Call::Get(1), Call::Peek(2)]?;
    let answers = run_calls(alloc, &mut map, calls)?;
    let gives = answers.get(1) == Some(&Answer::Value(Some(10)));
    check!(rt; gives && answers.get(2) == Some(&Answer::Value(None)));
    Ok(())
}

#[test]
fn of_lines_outcome(rt: HostRuntime) -> Result<(), Fail> {
    let alloc = rt.alloc();
    let held = status(&Ok(ReplayEnd::NoLimiter)) == 1;
    let (read, write) = (ReplayError::Read, ReplayError::Write);
    let text = format!(in alloc; "{read}, {write}")?;
    let held = held
        & all!(
            text.as_str() == "read failed, write failed",
            (read as u8, write as u8) == (1, 2)
        );
    check!(rt; held);
    Ok(())
}

#[test]
fn of_lines_replays(rt: HostRuntime) {
    let alloc = rt.alloc();
    let mut reader = b"length 1\ninsert 1 10\n".as_slice();
    let mut writer = Vec::new(alloc);
    let held = all!(
        replay(alloc, &mut reader, &mut writer) == Ok(ReplayEnd::Done),
        writer.as_slice() == b"true\n".as_slice()
    );
    check!(rt; held);
}
