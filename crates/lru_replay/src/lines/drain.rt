//! The line `drain`.
ghost use Rattle.std.specs.Prelude.{ℕ, List};
ghost use Rattle.lru_model.specs.Drains.{Drained};
ghost use Rattle.lru_replay.specs.Output.{Writes, pairs_text};

use crate::ReplayError;
use crate::lines::taken::{end_of_pairs, write_taken};
use schnellru::{Insertion, LruMap};
use std::io::Write;

/// Takes out the `most` newest pairs, writes each at once, and then drops the others. After a failed write, nothing
/// more is written, but the map still loses all its pairs.
pub fn write_drain<L: Insertion<u64, u64, u64>, W: Write>(
    writer: &mut W,
    map: &mut LruMap<u64, u64, L>,
    most: usize,
) -> Result<(), ReplayError>
    ensures { (pairs : List (ℕ × ℕ)) × Drained L.rules most 0 map.old pairs map.new
        × Writes (W.contents writer.old) (W.contents writer.new) result (pairs_text pairs) }
{
    let count = most.min(map.len());
    let mut any = false;
    let mut written = Ok(());
    for _ in 0..count {
        let taken = map.pop_newest();
        written = write_taken(writer, written, any, taken);
        any = any | taken.is_some();
    }
    map.clear();
    end_of_pairs(writer, written, any)
}
