ghost use Rattle.lru_replay.specs.Output.{Writes, rest_text, pairs_text};

use crate::ReplayError;
use crate::lines::output::{write_bytes, write_pair};
use schnellru::{LinkType, Walk};
use std::io::Write;

pub fn write_pairs<N: LinkType, W: Write>(
    writer: &mut W,
    pairs: Walk<'_, u64, u64, N>,
) -> Result<(), ReplayError>
    ensures { Writes (W.contents writer.old) (W.contents writer.new) result (pairs_text pairs.entry) }
{
    let mut pairs = pairs;
    let Some((key, value)) = pairs.next() else {
        return write_bytes(writer, b"-");
    };
    write_pair(writer, *key, *value)?;
    write_rest(writer, pairs)
}

fn write_rest<N: LinkType, W: Write>(
    writer: &mut W,
    pairs: Walk<'_, u64, u64, N>,
) -> Result<(), ReplayError>
    ensures { Writes (W.contents writer.old) (W.contents writer.new) result (rest_text pairs.entry) }
{
    for (key, value) in pairs {
        write_bytes(writer, b" ")?;
        write_pair(writer, *key, *value)?;
    }
    Ok(())
}
