//! Reads lines, one at a time, into a fixed array.
ghost use Rattle.std.specs.Prelude.{◌≡◌, ℕ, ◌<◌, ◌≤◌, List, [], ◌∷◌, ◌++◌, length, take, MatchBool, IfOk, IfErr, OnErr};
ghost use Rattle.lru_replay.specs.Lines.{TakesPiece, TakesLine, TakesPart};

use crate::lines::bytes::index_of;
use crate::lines::outcome::ReplayError;
use std::io::{BufRead, ErrorKind};
use std::marker::Model;

/// The length in bytes of the longest line with a meaning: `insert` with two numbers of 20 digits.
const LONGEST: usize = 48;

/// The greatest number of bytes that a `Line` stores: one more than `LONGEST`, so that a longer line is noticed.
pub const HELD: usize = LONGEST + 1;

#[derive(Drop)]
pub struct Line {
    bytes: [u8; HELD],
    len: usize,
}

impl Model for Line {
    ghost use Rattle.std.specs.Prelude.{ℕ, ◌≤◌, List, take};
    ghost use Rattle.lru_replay.specs.declared.lines.line.TheConstants.{HELD};

    ghost Value = { List ℕ };

    ghost view = { λ l. take l.len l.bytes };

    ghost invariant = { λ l. l.len ≤ HELD };
}

impl Line {
    pub fn new() -> Line
        ensures { result ≡ [] }
    {
        Line {
            bytes: [0; HELD],
            len: 0,
        }
    }

    pub fn as_slice(&self) -> &[u8]
        ensures { result.now ≡ self.now }
    {
        &self.bytes[..self.len]
    }

    fn clear(&mut self)
        ensures { self.new ≡ [] }
    {
        self.len = 0;
    }

    fn is_empty(&self) -> bool
        ensures { MatchBool result (self.now ≡ []) (0 < length self.now) }
    {
        self.len == 0
    }

    fn len(&self) -> usize
        ensures { result ≡ length self.now }
    {
        self.len
    }

    fn push(&mut self, byte: u8)
        requires { length self.old < HELD }
        ensures { self.new ≡ self.old ++ byte ∷ [] }
    {
        self.bytes[self.len] = byte;
        self.len += 1;
    }

    fn extend(&mut self, piece: &[u8])
        requires { length self.old ≤ HELD }
        ensures { self.new ≡ take HELD (self.old ++ piece.now) }
    {
        for byte in piece {
            if self.len() == HELD {
                break;
            }
            self.push(*byte);
        }
    }
}

/// The result of one read of the reader's buffer.
#[derive(Clone, Copy)]
pub enum Piece {
    Part,
    Last,
    End,
}

/// Takes the part of the line that the reader's buffer contains. An interrupted read gives no byte.
fn take_piece<R: BufRead>(reader: &mut R, line: &mut Line) -> Result<Piece, ReplayError>
    requires { length line.old ≤ HELD }
    ensures ok { IfOk result (λ piece. (bytes : List ℕ)
        × TakesPiece (R.remaining reader.old) (R.remaining reader.new) piece bytes
        × (line.new ≡ take HELD (line.old ++ bytes))) }
    ensures err { OnErr result (TakesPart (R.remaining reader.old) (R.remaining reader.new) []) }
{
    let available = match reader.fill_buf() {
        Ok(available) => available,
        Err(e) => {
            return if e.kind() == ErrorKind::Interrupted {
                Ok(Piece::Part)
            } else {
                Err(ReplayError::Read)
            };
        }
    };
    let len = available.len();
    let at = index_of(available, b'\n');
    line.extend(&available[..at]);
    if len == 0 {
        reader.consume(0);
        return Ok(Piece::End);
    }
    if at == len {
        reader.consume(at);
        return Ok(Piece::Part);
    }
    reader.consume(at + 1);
    Ok(Piece::Last)
}

#[derive(Clone, Copy)]
pub enum Ending {
    Feed,
    InputEnd,
    Nothing,
}

/// Reads the next line to its end, and stores its first `HELD` bytes. Repeats an interrupted read of the buffer.
///
/// # Errors
///
/// `ReplayError::Read`: a read failed, or the line did not end within `u64::MAX` reads.
pub fn read_line<R: BufRead>(reader: &mut R, line: &mut Line) -> Result<Ending, ReplayError>
    ensures ok { IfOk result (λ ending. (bytes : List ℕ)
        × TakesLine (R.remaining reader.old) (R.remaining reader.new) ending bytes
        × (line.new ≡ take HELD bytes)) }
    ensures err { OnErr result ((bytes : List ℕ)
        × TakesPart (R.remaining reader.old) (R.remaining reader.new) bytes) }
    ensures failed { IfErr result (λ e. e ≡ ReplayError.Read) }
{
    line.clear();
    for _ in 0..u64::MAX {
        match take_piece(reader, line) {
            Ok(Piece::Part) => {}
            Ok(Piece::Last) => return Ok(Ending::Feed),
            Ok(Piece::End) => {
                return if line.is_empty() {
                    Ok(Ending::Nothing)
                } else {
                    Ok(Ending::InputEnd)
                };
            }
            Err(_) => return Err(ReplayError::Read),
        }
    }
    Err(ReplayError::Read)
}
