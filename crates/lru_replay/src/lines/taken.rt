//! Writes the pairs that `drain` takes out, one at a time.
ghost use Rattle.std.specs.Prelude.{ℕ, List, [], ◌++◌, Option, if◌then◌else◌, codes};
ghost use Rattle.lru_replay.specs.Output.{Writes, taken_text};

use crate::lines::outcome::ReplayError;
use crate::lines::output::{write_bytes, write_next};
use std::io::Write;

pub fn write_taken<W: Write>(
    writer: &mut W,
    before: Result<(), ReplayError>,
    any: bool,
    taken: Option<(u64, u64)>,
) -> Result<(), ReplayError>
    ensures { (begun : Option (List ℕ)) (text : List ℕ) → Writes begun (W.contents writer.old) before text →
        Writes begun (W.contents writer.new) result (text ++ taken_text any taken) }
{
    before?;
    write_next(writer, any, taken)
}

pub fn end_of_pairs<W: Write>(
    writer: &mut W,
    before: Result<(), ReplayError>,
    any: bool,
) -> Result<(), ReplayError>
    ensures { (begun : Option (List ℕ)) (text : List ℕ) → Writes begun (W.contents writer.old) before text →
        Writes begun (W.contents writer.new) result (text ++ (if any then [] else codes "-")) }
{
    before?;
    if any {
        return Ok(());
    }
    write_bytes(writer, b"-")
}
