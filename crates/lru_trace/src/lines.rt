//! The lines of a trace, and their keys.
ghost use Rattle.std.specs.Prelude.{◌≡◌, ◌≢◌, ℕ, ◌+◌, ◌-◌, ◌^◌, ◌<◌, ◌≤◌, List, [], ◌∷◌, ◌++◌, true, false, Some, None};
ghost use Rattle.std.specs.Prelude.{IfOk, OnOk, OnErr, IfErr, MatchOption, length};
ghost use Rattle.lru_trace.specs.Curves.{IsCurveOf, AreAlike, AreTooLarge, Follows, Leads, references_of};
ghost use Rattle.lru_trace.specs.Lines.{is_key, fed, EndsSo, TakesLine};
ghost use Rattle.lru_trace.specs.References.{bits_of, body, deletes, size_of, reference_of, references_in, others_so};
ghost use Rattle.lru_trace.specs.Samples.{sampled};
ghost use Rattle.lru_trace.specs.Outcome.{KeysRead, SomeRead, TooLargeRead};

use crate::byte_curve::SizeError;
use crate::columns::{cell, text_in};
use crate::curves::AnyCurve;
use crate::options::{Options, Policies};
use crate::outcome::TraceError;
use crate::progress::Progress;
use crate::samples::is_sampled;
use crate::sizes::number_of;
use std::io::{BufRead, ErrorKind, Write};

/// The greatest length of a key, in bytes.
const LONGEST_KEY: usize = 64;

#[derive(Clone, Copy)]
pub enum Ending {
    Feed,
    InputEnd,
    Nothing,
}

#[derive(Clone, Copy, Debug, PartialEq, Eq)]
pub struct Others {
    /// The number of lines that spell no key or, with `Policies::Sized`, no size.
    pub malformed: u64,
    /// The number of references to keys outside the sample, after the warm-up.
    pub skipped: u64,
    /// How many lines delete a key.
    pub deleted: u64,
}

impl Others {
    fn add(&mut self, more: Others)
        requires malformed { self.old.malformed + more.malformed < 2 ^ 64 }
        requires skipped { self.old.skipped + more.skipped < 2 ^ 64 }
        requires deleted { self.old.deleted + more.deleted < 2 ^ 64 }
        ensures { self.new ≡ record {
          malformed = self.old.malformed + more.malformed;
          skipped = self.old.skipped + more.skipped;
          deleted = self.old.deleted + more.deleted;
        } }
    {
        self.malformed += more.malformed;
        self.skipped += more.skipped;
        self.deleted += more.deleted;
    }
}

fn take_feed(line: &mut Vec<u8>) -> Ending
    ensures { EndsSo result line.old.items line.new.items }
{
    let len = line.len();
    if len == 0 {
        return Ending::Nothing;
    }
    if line[len - 1] != b'\n' {
        return Ending::InputEnd;
    }
    line.truncate(len - 1);
    Ending::Feed
}

pub fn read_line<R: BufRead>(reader: &mut R, line: &mut Vec<u8>) -> Result<Ending, TraceError>
    ensures ok { IfOk result
        (λ ending. TakesLine (R.remaining reader.old) (R.remaining reader.new) ending line.new.items) }
    ensures err { OnErr result (SomeRead (R.remaining reader.old) (R.remaining reader.new)) }
    ensures kind { IfErr result (λ e. (e ≢ TraceError.Write) × (e ≢ TraceError.TooLarge)) }
{
    line.clear();
    match reader.read_until(b'\n', line) {
        Ok(_) => Ok(take_feed(line)),
        Err(e) if e.kind() == ErrorKind::OutOfMemory => Err(TraceError::Memory),
        Err(_) => Err(TraceError::Read),
    }
}

fn key_of(line: &[u8]) -> Option<&str>
    ensures { MatchOption result (is_key line.now ≡ false) (λ key. (key.now ≡ line.now) × (is_key line.now ≡ true)) }
{
    if line.is_empty() || line.len() > LONGEST_KEY {
        return None;
    }
    match str::from_utf8(line) {
        Ok(key) => Some(key),
        Err(_) => None,
    }
}

fn deletes(line: &[u8], policies: Policies) -> bool
    ensures value { result ≡ deletes policies line.now }
    ensures long { result ≡ true → 2 ≤ length line.now }
{
    match policies {
        Policies::Deletes { .. } => line.starts_with(b"- "),
        Policies::Lru { .. } | Policies::Best | Policies::Sized { .. } => false,
    }
}

fn body(line: &[u8], policies: Policies) -> &[u8]
    ensures { result.now ≡ body policies line.now }
{
    if deletes(line, policies) {
        return &line[2..];
    }
    line
}

fn size_of(line: &[u8], policies: Policies) -> Option<u64>
    ensures { result ≡ size_of policies line.now }
{
    match policies {
        Policies::Lru { .. } | Policies::Best => Some(1),
        Policies::Deletes { .. } => Some(u64::from(!deletes(line, policies))),
        Policies::Sized { size, .. } => Some(number_of(cell(line, size))? as u64),
    }
}

fn reference_of<'a>(line: &'a [u8], options: Options) -> Option<(&'a str, u64)>
    ensures { MatchOption result (reference_of options line.now ≡ None)
        (λ reference. reference_of options line.now ≡ Some (reference.0.now, reference.1)) }
{
    let key = key_of(text_in(body(line, options.policies), options.column))?;
    let size = size_of(line, options.policies)?;
    Some((key, size))
}

fn refer_line(
    curve: &mut AnyCurve,
    options: Options,
    warm: bool,
    line: &[u8],
) -> Result<Others, SizeError>
    requires { references_of curve.old < 2 ^ 64 - 1 }
    ensures others { IfOk result (λ others. others ≡ others_so options (line.now ∷ []) warm) }
    ensures ok { OnOk result (Follows warm curve.old
        (sampled (bits_of options) (references_in options (line.now ∷ []))) curve.new) }
    ensures large { IfErr result (λ e. e ≡ SizeError.TooLarge → Leads warm curve.old
        (sampled (bits_of options) (references_in options (line.now ∷ []))) AreTooLarge) }
    ensures references { references_of curve.new ≤ references_of curve.old + 1 }
    ensures alike { AreAlike curve.old curve.new }
{
    let Some((key, size)) = reference_of(line, options) else {
        return Ok(Others {
            malformed: 1,
            skipped: 0,
            deleted: 0,
        });
    };
    let deleted = u64::from(deletes(line, options.policies));
    if !is_sampled(key.as_bytes(), options.bits()) {
        return Ok(Others {
            malformed: 0,
            skipped: u64::from(!warm && deleted == 0),
            deleted,
        });
    }
    curve.refer(warm, key, size)?;
    Ok(Others {
        malformed: 0,
        skipped: 0,
        deleted,
    })
}

/// References the key of each remaining line (see `docs/TRACE.md`) if the key is in the sample. Returns the numbers of
/// malformed lines, of skipped lines, and of lines that delete a key. After each million lines, writes the number of
/// lines to `progress`.
///
/// # Errors
///
/// `Read`, `Memory` or `TooLarge`, as for `trace`.
pub fn read_keys<R: BufRead, P: Write>(
    reader: &mut R,
    line: &mut Vec<u8>,
    options: Options,
    curve: &mut AnyCurve,
    progress: &mut Progress<P>,
) -> Result<Others, TraceError>
    requires { IsCurveOf [] [] curve.old }
    ensures ok { IfOk result (λ others.
        KeysRead (R.remaining reader.old) (R.remaining reader.new) options curve.new others) }
    ensures err { OnErr result (SomeRead (R.remaining reader.old) (R.remaining reader.new)) }
    ensures large { IfErr result (λ e. e ≡ TraceError.TooLarge →
        TooLargeRead 0 (R.remaining reader.old) (R.remaining reader.new) options) }
    ensures alike { AreAlike curve.old curve.new }
    ensures kind { IfErr result (λ e. e ≢ TraceError.Write) }
{
    let warm_up = options.policies.warm_up();
    let mut others = Others {
        malformed: 0,
        skipped: 0,
        deleted: 0,
    };
    for lines in 0..u64::MAX - 1 {
        progress.note(lines);
        let warm = lines - others.malformed - others.deleted < warm_up;
        let ending = read_line(reader, line)?;
        if let Ending::Nothing = ending {
            return Ok(others);
        }
        others.add(refer_line(curve, options, warm, line)?);
        if let Ending::InputEnd = ending {
            return Ok(others);
        }
    }
    Err(TraceError::Read)
}
