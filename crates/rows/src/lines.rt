//! Rows whose input is lines for the program `replay`.
use crate::row::Row;
use crate::streams::{Failure, Narrow, Slow, count_lines, error_at, front_lines};
use lru_replay::{ReplayEnd, ReplayError, replay, status};
use std::alloc::Global;
use std::io::{BufReader, ErrorKind};

/// For an input of at most `LONGEST_CUT` bytes, each read and each write fails once. For a longer input, only the first
/// three reads and the first three writes fail.
const LONGEST_CUT: usize = 2000;

type End = Result<ReplayEnd, ReplayError>;

pub fn answers_of(alloc: Global, input: &[u8]) -> Vec<u8> {
    let mut reader = input;
    let mut text = Vec::new(alloc);
    let _ = replay(alloc, &mut reader, &mut text);
    text
}

fn replay_all(alloc: Global, reader: &mut &[u8], writer: &mut Narrow) -> End {
    replay(alloc, reader, writer)
}

fn replay_slowly(alloc: Global, slow: Slow, writer: &mut Narrow) -> Option<End> {
    match BufReader::new(alloc, slow) {
        Ok(mut reader) => Some(replay(alloc, &mut reader, writer)),
        Err(_) => None,
    }
}

/// Returns the first fault of a replay of the row, with the number of the failed read or write.
pub fn first_fault(alloc: Global, row: &Row) -> Option<(&'static str, usize)> {
    if !in_pieces(alloc, row) {
        return Some(("single bytes, or by its status", 0));
    }
    let longest = row.input.len().max(row.text.len());
    // The last read, at the end of the input, has the number `input.len()`.
    let tried = if row.input.len() > LONGEST_CUT {
        2
    } else {
        longest
    };
    for at in 0..=tried {
        if !with_failing_flush(alloc, row, at) {
            return Some(("a failing flush", at));
        }
        if at <= row.input.len() && !with_failing_read(alloc, row, at) {
            return Some(("a failing read", at));
        }
        if at < row.text.len() && !with_failing_write(alloc, row, at) {
            return Some(("a failing write", at));
        }
    }
    None
}

/// Returns whether a replay in single bytes ends with the status and the text of the row, and flushes once.
fn in_pieces(alloc: Global, row: &Row) -> bool {
    let slow = Slow::new(row.input.as_slice(), 1).failing(3, ErrorKind::Interrupted);
    let interrupted = Failure::Error(ErrorKind::Interrupted);
    let mut writer = Narrow::new(alloc, 1).failing(3, 1000, interrupted);
    let Some(end) = replay_slowly(alloc, slow, &mut writer) else {
        return false;
    };
    status(&end) == row.status && writer.has(row.text.as_slice(), 1)
}

/// Returns whether the replay writes the whole text, and then reports a failed flush.
fn with_failing_flush(alloc: Global, row: &Row, at: usize) -> bool {
    let mut reader = row.input.as_slice();
    let mut writer = Narrow::new(alloc, 100);
    writer.flush_fails = Some(error_at(at));
    let end = replay_all(alloc, &mut reader, &mut writer);
    end == Err(ReplayError::Write) && writer.has(row.text.as_slice(), 1)
}

/// Returns whether the replay ends correctly if the read with number `at` fails. If the first line names no limiter,
/// the replay reads no other line.
fn with_failing_read(alloc: Global, row: &Row, at: usize) -> bool {
    let input = row.input.as_slice();
    let slow = Slow::new(input, 1).failing(at, error_at(at));
    let mut writer = Narrow::new(alloc, 100);
    let end = replay_slowly(alloc, slow, &mut writer);
    let lines = count_lines(&input[..at.min(input.len())]);
    if lines > 0 && row.status == 1 {
        return end == Some(Ok(ReplayEnd::NoLimiter)) && writer.has(row.text.as_slice(), 1);
    }
    let text = front_lines(row.text.as_slice(), lines.saturating_sub(1));
    end == Some(Err(ReplayError::Read)) && writer.has(text, 1)
}

/// Replays the row on a writer that takes single bytes and fails at write number `at`. Returns whether the replay
/// writes the first `at` bytes of the text, reads no line after the line of the failed answer, and flushes nothing.
fn with_failing_write(alloc: Global, row: &Row, at: usize) -> bool {
    let failure = if at % 4 == 0 {
        Failure::NoBytes
    } else {
        Failure::Error(error_at(at))
    };
    let mut reader = row.input.as_slice();
    let mut writer = Narrow::new(alloc, 1).failing(at, 1, failure);
    let end = replay_all(alloc, &mut reader, &mut writer);
    let text = &row.text.as_slice()[..at.min(row.text.len())];
    let first = if row.status == 1 { 1 } else { 2 };
    let lines = front_lines(
        row.input.as_slice(),
        count_lines(text).saturating_add(first),
    );
    let is_read = lines.len().saturating_add(reader.len()) == row.input.len();
    end == Err(ReplayError::Write) && writer.has(text, 0) && is_read
}
