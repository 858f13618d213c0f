//! Rows of calls on a map, including limiters and calls that the program `replay` cannot spell.
use crate::answers::write_answers;
use crate::calls::calls_of;
use crate::hasher::Polynomial;
use crate::limiters::{Numbered, number_of};
use crate::text::Text;
use lru_replay::{run_calls, run_summing};
use schnellru::{
    ByCost, ByLength, ByMemoryUsage, Insertion, LruMap, Storing, Unlimited, UnlimitedCompact,
};
use std::alloc::Global;
use std::fmt::Debug;
use test_helpers::{Alternating, Blanking, LinkedBy};

#[derive(Clone, Copy)]
struct Calls<'a> {
    alloc: Global,
    number: u64,
    hasher: Polynomial,
    lines: &'a str,
    shows_limiter: bool,
}

pub fn answers_of(alloc: Global, input: &str) -> Text {
    let mut out = Text::new(alloc);
    let (first, lines) = input.split_once('\n').unwrap_or((input, ""));
    let (first, hash) = first.split_once(" hash ").unwrap_or((first, ""));
    let words = first.strip_prefix("map ").unwrap_or("");
    let factor = match hash {
        "zero" => 0,
        "sum" => 1,
        _ => 6_364_136_223_846_793_005,
    };
    let limited = lines.strip_suffix("limiter\n");
    let calls = Calls {
        alloc,
        number: number_of(words),
        hasher: Polynomial { factor, hash: 0 },
        lines: limited.unwrap_or(lines),
        shows_limiter: limited.is_some(),
    };
    write_under(&mut out, words, calls);
    out
}

fn write_under(out: &mut Text, words: &str, calls: Calls) {
    let (kind, _) = words.split_once(' ').unwrap_or((words, ""));
    match kind {
        "summing" => write_summing(out, calls),
        "length" => write_on::<ByLength>(out, calls),
        "memory" => write_on::<ByMemoryUsage>(out, calls),
        "cost" => write_on::<ByCost>(out, calls),
        "unlimited" => write_on::<Unlimited>(out, calls),
        "compact" => write_on::<UnlimitedCompact>(out, calls),
        "blank" => write_on::<Storing<Blanking>>(out, calls),
        "links" if calls.number == 255 => write_on::<Storing<LinkedBy<u8>>>(out, calls),
        "links" => write_on::<Storing<LinkedBy<u16>>>(out, calls),
        "no" | "growth" | "over" => write_on::<Storing<Alternating>>(out, calls),
        _ => out.word("no map\n"),
    }
}

fn write_on<L: Insertion<u64, u64, u64> + Numbered + Debug + Drop>(out: &mut Text, calls: Calls) {
    let mut map = LruMap::with_hasher(calls.alloc, L::of(calls.number), calls.hasher, 16);
    let answers = run_calls(calls.alloc, &mut map, calls_of(calls.alloc, calls.lines));
    write_answers(calls.alloc, out, answers);
    if calls.shows_limiter {
        out.shown(map.limiter());
    }
}

fn write_summing(out: &mut Text, calls: Calls) {
    let limiter = ByCost::new(calls.number);
    let mut map = LruMap::with_hasher(calls.alloc, limiter, calls.hasher, 16);
    let answers = run_summing(calls.alloc, &mut map, calls_of(calls.alloc, calls.lines));
    write_answers(calls.alloc, out, answers);
    if calls.shows_limiter {
        out.shown(map.limiter());
    }
}
