//! The curve of a trace gives the misses of a map.
ghost use Rattle.std.specs.Prelude.{◌≡◌, ◌≤◌, [], map, IfOk};
ghost use Rattle.std.specs.String.{string_bytes, string_eq};
ghost use Rattle.lru_theory.specs.Traces.{misses};
ghost use Rattle.lru_trace.specs.Counted.{IsOf};

use crate::misses::misses_on_map;
use lru_trace::Curve;
use std::alloc::{AllocError, Global};

fn curve_of(alloc: Global, texts: &[String]) -> Result<Curve, AllocError>
    ensures { IfOk result (IsOf [] (map string_bytes texts.now)) }
{
    let mut curve = Curve::new(alloc)?;
    for text in texts {
        curve.refer(text)?;
    }
    Ok(curve)
}

/// Counts the misses of the texts in a new map of `length` entries. Returns the count of a curve, and the count of the
/// map itself.
fn predict(alloc: Global, texts: &[String], length: u32) -> Result<(u64, u64), AllocError>
    requires { length ≤ 939524096 }
    ensures curve { IfOk result (λ counts. counts.0 ≡ misses string_eq length [] texts.now) }
    ensures map { IfOk result (λ counts. counts.1 ≡ misses string_eq length [] texts.now) }
{
    let curve = curve_of(alloc, texts)?;
    Ok((
        curve.misses(length as usize),
        misses_on_map(alloc, texts, length)?,
    ))
}
