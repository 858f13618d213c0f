use crate::limiters::{Numbered, number_of};
use lru_replay::Call;
use lru_replay::lines::words;
use std::alloc::Global;

/// Returns the calls that the lines spell. A line that spells no call becomes `Call::Stats`, so its row fails.
pub fn calls_of<L: Numbered + Drop>(alloc: Global, lines: &str) -> Vec<Call<u64, u64, L>> {
    let mut calls = Vec::new(alloc);
    for line in lines.lines() {
        let _ = calls.push(call_of(line));
    }
    calls
}

fn number(text: &str) -> u64 {
    text.parse().unwrap_or(u64::MAX)
}

fn call_of<L: Numbered>(line: &str) -> Call<u64, u64, L> {
    match words::call_of(line.as_bytes()) {
        Some(call) => call,
        None => other_call(line),
    }
}

fn other_call<L: Numbered>(line: &str) -> Call<u64, u64, L> {
    let (word, rest) = line.split_once(' ').unwrap_or((line, ""));
    match (word, rest.split_once(' ')) {
        ("peek-oldest", None) => Call::PeekOldest,
        ("peek-newest", None) => Call::PeekNewest,
        ("trim", None) => Call::Trim,
        ("set", _) => Call::SetLimiter(L::of(number_of(rest))),
        (_, Some((first, second))) => call_of_pair(word, number(first), number(second)),
        _ => Call::Stats,
    }
}

fn call_of_pair<L>(word: &str, first: u64, second: u64) -> Call<u64, u64, L> {
    match word {
        "get-or-insert" => Call::GetOrInsert(first, second),
        "get-by-hash" => Call::GetByHash(first, second),
        "peek-by-hash" => Call::PeekByHash(first, second),
        "write" => Call::Write(first, second),
        "drain" => Call::Drain {
            front: first as usize,
            back: second as usize,
        },
        _ => Call::Stats,
    }
}
