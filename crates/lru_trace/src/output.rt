ghost use Rattle.std.specs.Prelude.{MatchBool};
ghost use Rattle.std.specs.Io.KnownBytes.{Appends};
ghost use Rattle.lru_trace.specs.Outcome.{Begins};

use std::io::{ErrorKind, Write};

/// Writes the bytes, and returns whether all were written. An interrupted write is repeated.
pub fn write_bytes<W: Write>(writer: &mut W, bytes: &[u8]) -> bool
    ensures { MatchBool result (Appends (W.contents writer.old) (W.contents writer.new) bytes.now)
        (Begins (W.contents writer.old) (W.contents writer.new) bytes.now) }
{
    let mut rest = bytes;
    for _ in 0..u64::MAX {
        if rest.is_empty() {
            return true;
        }
        match writer.write(rest) {
            Ok(0) => return false,
            Ok(n) => rest = &rest[n..],
            Err(e) => {
                if e.kind() != ErrorKind::Interrupted {
                    return false;
                }
            }
        }
    }
    false
}
