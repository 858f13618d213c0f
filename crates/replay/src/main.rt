//! Replays lines of calls on an LRU map, from standard input to standard output.
#![tactic(auto)]

use lru_replay::lines::words::LINES;
use lru_replay::{replay, status};
use std::env;
use std::io::{self, BufReader, BufWriter};
use std::process::ExitCode;

const NO_BUFFER: u8 = 3;

const UNKNOWN: u8 = 4;

const ABOUT: &str = "\
replay < LINES
    Makes calls on one LRU map, and writes an answer line for each. Keys and values are numbers.
";

const STATUSES: &str = "\
Exit status: 0 after the last line, 1 if the first line is no limit, 2 if a read or a write failed,
3 without memory for the buffers, 4 after an unknown argument.
";

fn main(rt: HostRuntime) -> ExitCode {
    let argument = match env::args(&rt) {
        Ok(mut arguments) => arguments.nth(1),
        Err(_) => return ExitCode::from(UNKNOWN),
    };
    if let Some(argument) = argument {
        return answer(&rt, argument.as_str());
    }
    let Ok(mut reader) = BufReader::new(rt.alloc(), rt.reader()) else {
        return ExitCode::from(NO_BUFFER);
    };
    let Ok(mut writer) = BufWriter::new(rt.alloc(), io::writer(&rt)) else {
        return ExitCode::from(NO_BUFFER);
    };
    let end = replay(rt.alloc(), &mut reader, &mut writer);
    // After a failed write, dropping the buffer would write its bytes again.
    let (_output, _unwritten) = writer.into_parts();
    ExitCode::from(status(&end))
}

fn answer(rt: &HostRuntime, argument: &str) -> ExitCode {
    if argument == "--help" {
        let _ = print!(rt; "{ABOUT}\n{LINES}\n{STATUSES}");
        return ExitCode::SUCCESS;
    }
    let _ = eprintln!(rt; "replay: unknown argument {argument}; try --help");
    ExitCode::from(UNKNOWN)
}
