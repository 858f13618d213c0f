//! A cache of responses with a tenant for each host. The program reads lines from standard input, and prints an answer
//! to each line, except to a `now` line.
#![tactic(auto)]

mod cache;
mod line;
mod metrics;

use cache::{Response, ResponseCache};
use line::{Expiry, Line};
use lru_tenants::TenantError;
use std::env;
use std::io::{self, Write};
use std::process::ExitCode;

const UNKNOWN: u8 = 4;

const HELP: &str = "\
example_responses < LINES
    Keeps responses, a tenant with its own budget for each host, and prints an answer to each line.

now TIME                                     sets the time, in seconds
host HOST budget BYTES                       opens a host, or sets its budget
put HOST PATH TIME|max-age=SECONDS BODY      stores a response that expires at, or after, this time
get HOST PATH                                prints a response that has not expired
purge HOST PATH                              removes a response, or with PATH* all below a prefix
stats                                        prints the counts of each host
metrics                                      prints the counts as Prometheus reads them

Exit status: 0 after the last line, 1 if a read or a write failed, 4 after an unknown argument.
";

fn text_of(error: TenantError) -> &'static str {
    match error {
        TenantError::NotOpen => "no host",
        TenantError::AlreadyOpen => "already open",
        TenantError::Memory => "no memory",
        TenantError::OverTotal => "over the total limit",
    }
}

fn say_evicted(rt: &HostRuntime, what: &str, evicted: u64) -> io::Result<()> {
    println!(rt; "{what}, {evicted} evicted")
}

fn set_host(
    rt: &HostRuntime,
    cache: &mut ResponseCache,
    host: &str,
    budget: u64,
) -> io::Result<()> {
    match cache.set_host(host, budget) {
        Ok((what, evicted)) => say_evicted(rt, what, evicted),
        Err(error) => println!(rt; "{}", text_of(error)),
    }
}

fn put(
    rt: &HostRuntime,
    cache: &mut ResponseCache,
    host: &str,
    path: &str,
    expires: u64,
    body: &str,
) -> io::Result<()> {
    let Ok(body) = Vec::from_slice(rt.alloc(), body.as_bytes()) else {
        return println!(rt; "{}", text_of(TenantError::Memory));
    };
    match cache.put(host, path, Response { body, expires }) {
        (Ok(true), evicted) => say_evicted(rt, "stored", evicted),
        (Ok(false), evicted) => say_evicted(rt, "rejected", evicted),
        (Err(error), _) => println!(rt; "{}", text_of(error)),
    }
}

fn show(rt: &HostRuntime, response: &Response) -> io::Result<()> {
    print!(rt; "hit until {}: ", response.expires)?;
    io::writer(rt).write_all(&response.body)?;
    println!(rt; "")
}

fn stats(rt: &HostRuntime, cache: &ResponseCache) -> io::Result<()> {
    for name in cache.hosts()? {
        let counts = cache.counts(name);
        let (entries, cost) = cache.size(name);
        println!(rt;
            "{name}: {} hits, {} misses, {} insertions, {} rejections, {} evictions, {entries} entries, cost {cost}",
            counts.hits, counts.misses, counts.insertions, counts.rejections, counts.evictions
        )?;
    }
    Ok(())
}

fn answer(
    rt: &HostRuntime,
    cache: &mut ResponseCache,
    now: &mut u64,
    line: Option<Line>,
) -> io::Result<()> {
    let text = match line {
        Some(Line::Now(time)) => {
            *now = time;
            return Ok(());
        }
        Some(Line::Host(host, budget)) => return set_host(rt, cache, host, budget),
        Some(Line::Put(host, path, expiry, body)) => {
            let expires = match expiry {
                Expiry::At(time) => time,
                Expiry::MaxAge(age) => now.saturating_add(age),
            };
            return put(rt, cache, host, path, expires, body);
        }
        Some(Line::Get(host, path)) => match cache.get(host, path, *now) {
            Ok(Some(response)) => return show(rt, &response),
            Ok(None) => "miss",
            Err(error) => text_of(error),
        },
        Some(Line::Purge(host, path)) => match cache.purge(host, path) {
            Ok(true) => "purged",
            Ok(false) => "not there",
            Err(error) => text_of(error),
        },
        Some(Line::PurgeBelow(host, prefix)) => match cache.purge_below(host, prefix) {
            Ok(()) => "purged",
            Err(error) => text_of(error),
        },
        Some(Line::Stats) => return stats(rt, cache),
        Some(Line::Metrics) => return metrics::write(rt, cache),
        None => "what?",
    };
    println!(rt; "{text}")
}

fn help(rt: &HostRuntime, argument: &str) -> ExitCode {
    if argument == "--help" {
        let _ = print!(rt; "{HELP}");
        return ExitCode::SUCCESS;
    }
    let _ = eprintln!(rt; "example_responses: unknown argument {argument}; try --help");
    ExitCode::from(UNKNOWN)
}

fn answer_lines(rt: &HostRuntime) -> io::Result<()> {
    let mut cache = ResponseCache::new(rt.alloc());
    let mut now = 0;
    for text in rt.lines(rt.alloc()) {
        answer(rt, &mut cache, &mut now, line::parse(text?.as_str()))?;
    }
    Ok(())
}

fn main(rt: HostRuntime) -> ExitCode {
    let argument = match env::args(&rt) {
        Ok(mut arguments) => arguments.nth(1),
        Err(_) => return ExitCode::from(UNKNOWN),
    };
    if let Some(argument) = argument {
        return help(&rt, argument.as_str());
    }
    match answer_lines(&rt) {
        Ok(()) => ExitCode::SUCCESS,
        Err(_) => ExitCode::FAILURE,
    }
}
