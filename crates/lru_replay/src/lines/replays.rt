//! Replays, which read lines and write answer lines.
ghost use Rattle.std.specs.Prelude.{ℕ, List, nat_eq};
ghost use Rattle.lru_model.specs.State.{IsMap};
ghost use Rattle.lru_replay.specs.Maps.{empty};
ghost use Rattle.lru_replay.specs.Output.{Writes};
ghost use Rattle.lru_replay.specs.Replay.{IsTextUnder, Replays};
ghost use Rattle.lru_replay.specs.LineRuns.{LineStep, AnswersLine, IsTextOf, Answers};

use crate::calls::make_call;
use crate::lines::drain::write_drain;
use crate::lines::figures::ReportsCost;
use crate::lines::line::{Ending, Line, read_line};
use crate::lines::output::{write_answer, write_bytes};
use crate::lines::pairs::write_pairs;
use crate::lines::words::{Limit, call_of, limit_of};
use crate::{Call, ReplayEnd, ReplayError};
use schnellru::{
    ByCost, ByLength, ByMemoryUsage, Insertion, LruMap, RandomState, UnlimitedCompact,
};
use std::alloc::Global;
use std::io::{BufRead, Write};

const ENTRY_BYTES: usize = 32;

fn answer_call<L: Insertion<u64, u64, u64> + ReportsCost + Drop, W: Write>(
    alloc: Global,
    map: &mut LruMap<u64, u64, L>,
    line: &[u8],
    writer: &mut W,
) -> Result<(), ReplayError>
    ensures { (text : List ℕ) × LineStep L.rules L.offers L.reported map.old line.now text map.new
        × Writes (W.contents writer.old) (W.contents writer.new) result text }
{
    let Some(call) = call_of(line) else {
        return write_bytes(writer, b"bad");
    };
    if let Call::List = call {
        return write_pairs(writer, map.iter());
    }
    if let Call::Drain { front, back: _ } = call {
        return write_drain(writer, map, front);
    }
    let cost = map.limiter().reported_cost();
    let answer = make_call(alloc, map, call);
    write_answer(writer, answer, cost)
}

fn answer_line<L: Insertion<u64, u64, u64> + ReportsCost + Drop, W: Write>(
    alloc: Global,
    map: &mut LruMap<u64, u64, L>,
    line: &[u8],
    writer: &mut W,
) -> Result<(), ReplayError>
    ensures step { AnswersLine L.rules L.offers L.reported map.old line.now map.new
        (W.contents writer.old) (W.contents writer.new) result }
    ensures map { IsMap nat_eq map.new }
{
    let carried_out = answer_call(alloc, map, line, writer);
    learn(map);
    carried_out?;
    write_bytes(writer, b"\n")
}

fn learn<L: Insertion<u64, u64, u64>>(map: &LruMap<u64, u64, L>)
    ensures { IsMap nat_eq map.now }
{
    let _len = map.len();
}

fn answer_lines<L: Insertion<u64, u64, u64> + ReportsCost + Drop, R: BufRead, W: Write>(
    alloc: Global,
    map: &mut LruMap<u64, u64, L>,
    reader: &mut R,
    writer: &mut W,
) -> Result<(), ReplayError>
    ensures { Answers (IsTextOf L.rules L.offers L.reported map.old) (R.remaining reader.old) (R.remaining reader.new)
        (W.contents writer.old) (W.contents writer.new) result }
{
    let mut line = Line::new();
    for _ in 0..u64::MAX {
        match read_line(reader, &mut line)? {
            Ending::Feed => answer_line(alloc, map, line.as_slice(), writer)?,
            Ending::InputEnd => return answer_line(alloc, map, line.as_slice(), writer),
            Ending::Nothing => return Ok(()),
        }
    }
    Err(ReplayError::Read)
}

fn answer_with<L: Insertion<u64, u64, u64> + ReportsCost + Drop, R: BufRead, W: Write>(
    alloc: Global,
    limiter: L,
    entry_bytes: usize,
    reader: &mut R,
    writer: &mut W,
) -> Result<(), ReplayError>
    ensures { Answers
        (IsTextOf L.rules L.offers L.reported (empty limiter entry_bytes (L.LinkType.number L.LinkType.MAX)))
        (R.remaining reader.old) (R.remaining reader.new) (W.contents writer.old) (W.contents writer.new) result }
{
    let mut map = LruMap::with_hasher(alloc, limiter, RandomState::default(), entry_bytes);
    answer_lines(alloc, &mut map, reader, writer)
}

fn answer_under<R: BufRead, W: Write>(
    alloc: Global,
    limit: Limit,
    reader: &mut R,
    writer: &mut W,
) -> Result<(), ReplayError>
    ensures { Answers (IsTextUnder limit) (R.remaining reader.old) (R.remaining reader.new)
        (W.contents writer.old) (W.contents writer.new) result }
{
    match limit {
        Limit::Length(most) => answer_with(alloc, ByLength::new(most), ENTRY_BYTES, reader, writer),
        Limit::Memory(budget, entry_bytes) => {
            let limiter = ByMemoryUsage::new(budget);
            answer_with(alloc, limiter, entry_bytes, reader, writer)
        }
        Limit::Cost(most) => answer_with(alloc, ByCost::new(most), ENTRY_BYTES, reader, writer),
        Limit::Compact => answer_with(alloc, UnlimitedCompact, ENTRY_BYTES, reader, writer),
    }
}

fn answer_all<R: BufRead, W: Write>(
    alloc: Global,
    reader: &mut R,
    writer: &mut W,
) -> Result<ReplayEnd, ReplayError>
    ensures { Replays (R.remaining reader.old) (R.remaining reader.new)
        (W.contents writer.old) (W.contents writer.new) result }
{
    let mut line = Line::new();
    let ending = read_line(reader, &mut line)?;
    let Some(limit) = limit_of(line.as_slice()) else {
        write_bytes(writer, b"no limiter\n")?;
        return Ok(ReplayEnd::NoLimiter);
    };
    let Ending::Feed = ending else {
        return Ok(ReplayEnd::Done);
    };
    answer_under(alloc, limit, reader, writer)?;
    Ok(ReplayEnd::Done)
}

/// Carries out the lines of the reader on an LRU map, and writes the answer lines. The first line names the limiter and
/// has no answer; docs/REPLAY.md lists the lines and their answers. If no write fails, the output is flushed once, at
/// the end.
///
/// ```
/// let mut reader = b"length 1\ninsert 1 10\n".as_slice();
/// let mut writer = Vec::new(alloc);
/// assert_eq!(rt; replay(alloc, &mut reader, &mut writer), Ok(ReplayEnd::Done));
/// assert_eq!(rt; writer.as_slice(), b"true\n".as_slice());
/// ```
///
/// The contract is about the whole streams of bytes. It does not depend on how reads and writes divide these streams.
/// If the type of a reader or a writer says nothing about its bytes, the contract says nothing about these bytes.
///
/// Cost: the cost of the calls. A line of any length is read in constant memory. `put` requests memory for the entries
/// that it writes.
///
/// # Errors
///
/// `Read`: a read failed. The lines that were read whole are answered, and the output is flushed. `Write`: a write or
/// the flush failed. After a failed write, no more lines are read and nothing more is written.
pub fn replay<R: BufRead, W: Write>(
    alloc: Global,
    reader: &mut R,
    writer: &mut W,
) -> Result<ReplayEnd, ReplayError>
    ensures { Replays (R.remaining reader.old) (R.remaining reader.new)
        (W.contents writer.old) (W.contents writer.new) result }
{
    let end = answer_all(alloc, reader, writer);
    if let Err(ReplayError::Write) = end {
        return end;
    }
    match writer.flush() {
        Ok(()) => end,
        Err(_) => Err(ReplayError::Write),
    }
}
