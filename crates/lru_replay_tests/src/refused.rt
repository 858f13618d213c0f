//! Runs of calls, as lists and as lines. The first requests for memory succeed, and the next request fails.
use lru_replay::{Answer, Call, ReplayEnd, replay, run_calls, run_summing};
use schnellru::ByCost;
use std::alloc::{AllocError, Global};
use std::mem::size_of;
use std::test::Fail;
use test_helpers::{Hog, check};
use test_maps::{insert_all, map_of};

const ANSWERS: usize = 3 * size_of::<Answer<u64, u64>>();

const LIST: usize = 128;

type Facts = (bool, bool, bool, bool);

fn facts_of(answers: Option<Vec<Answer<u64, u64>>>) -> Facts {
    match answers.as_ref().map(|answers| answers.as_slice()) {
        Some([inserted, listed, drained]) => (
            true,
            *inserted == Answer::Flag(true),
            matches!(listed, Answer::Pairs(_)),
            matches!(drained, Answer::Pairs(_)),
        ),
        _ => (false, false, false, false),
    }
}

fn expected(met: usize) -> Facts {
    match met {
        0 => (false, false, false, false),
        1..=3 => (true, false, false, false),
        4 => (true, true, false, false),
        5 => (true, true, true, false),
        _ => (true, true, true, true),
    }
}

fn hog_that_meets(alloc: Global, requests: &[usize], met: usize) -> Result<Hog, AllocError> {
    let mut hog = Hog::new(alloc, requests)?;
    for _ in 0..met {
        hog.release();
    }
    Ok(hog)
}

/// Makes three calls on a map of seven entries: first an insert that grows a table of 8 buckets, then a list, then a
/// drain. Only the first `met` requests for memory succeed.
fn is_as_expected(alloc: Global, met: usize, sums: bool) -> Result<bool, AllocError> {
    let mut map = map_of(alloc, ByCost::new(1000));
    insert_all(&mut map, 1..=7)?;
    let drain = Call::Drain { front: 8, back: 0 };
    let calls = vec![in alloc; Call::Insert(8, 80), Call::List, drain]?;
    let hog = hog_that_meets(alloc, &[ANSWERS, 512, 32, 64, LIST, LIST], met)?;
    let answers = if sums {
        run_summing(alloc, &mut map, calls).ok()
    } else {
        run_calls(alloc, &mut map, calls).ok()
    };
    let all = hog.took_all();
    drop(hog);
    Ok(!all | (facts_of(answers) == expected(met)))
}

#[test]
fn lists_of_calls(rt: HostRuntime) {
    for met in 0..=6usize {
        for sums in [false, true] {
            check!(rt; is_as_expected(rt.alloc(), met, sums) == Ok(true));
        }
    }
}

fn writes(
    alloc: Global,
    input: &[u8],
    requests: &[usize],
    met: usize,
    text: &[u8],
) -> Result<bool, AllocError> {
    let mut reader = input;
    let mut writer: Vec<u8> = Vec::with_capacity(alloc, 1000)?;
    let hog = hog_that_meets(alloc, requests, met)?;
    let end = replay(alloc, &mut reader, &mut writer);
    let all = hog.took_all();
    drop(hog);
    Ok(end == Ok(ReplayEnd::Done) && (!all || writer.as_slice() == text))
}

const INPUT: &[u8] =
    b"compact\ninsert 1 10\ninsert 2 20\ninsert 3 30\ninsert 4 40\nlist\nreserve 1\nstats\n";

const PUTS: &[u8] = b"compact\nput 1 10\nput 2 20\nlist\n";

const ANSWERS_TO_PUTS: &[u8] = b"true\ntrue\n2:20 1:10\n";

const TABLES: [usize; 5] = [96, 20, 192, 24, 16];

fn text_of(met: usize) -> &'static [u8] {
    match met {
        0..=1 =>
            b"no memory\nno memory\nno memory\nno memory\n-\nno memory\nlen 0 capacity 0 memory 0 moved 0 placed 0\n",
        2..=4 =>
            b"true\ntrue\ntrue\nno memory\n3:30 2:20 1:10\nno memory\nlen 3 capacity 3 memory 148 moved 0 placed 3\n",
        _ =>
            b"true\ntrue\ntrue\ntrue\n4:40 3:30 2:20 1:10\nok\nlen 4 capacity 7 memory 280 moved 3 placed 4\n",
    }
}

fn text_of_puts(met: usize) -> &'static [u8] {
    match met {
        0 => b"no memory\nno memory\n-\n",
        1..=2 => b"no memory 1:10\nno memory 2:20\n-\n",
        _ => b"true\nno memory\n1:10\n",
    }
}

#[test]
fn lines(rt: HostRuntime) -> Result<(), Fail> {
    for met in 0..=5usize {
        check!(rt; writes(rt.alloc(), INPUT, &TABLES, met, text_of(met))?);
    }
    for met in 0..=3usize {
        check!(rt; writes(rt.alloc(), PUTS, &[16, 96, 20], met, text_of_puts(met))?);
    }
    Ok(())
}

/// Many replays run in the memory that a few replays need.
#[test]
fn replays_give_their_memory_back(rt: HostRuntime) -> Result<(), Fail> {
    let alloc = rt.alloc();
    let mut writer: Vec<u8> = Vec::with_capacity(alloc, 1000)?;
    let mut hog = Hog::new(alloc, &[1 << 16])?;
    hog.release();
    let mut right = 0u32;
    for round in 0..4000u32 {
        let (mut reader, text) = if round % 2 == 0 {
            (INPUT, text_of(5))
        } else {
            (PUTS, ANSWERS_TO_PUTS)
        };
        writer.clear();
        let is_done = replay(alloc, &mut reader, &mut writer) == Ok(ReplayEnd::Done);
        right = right.wrapping_add((is_done && writer.as_slice() == text) as u32);
    }
    drop(hog);
    check!(rt; right == 4000);
    Ok(())
}
