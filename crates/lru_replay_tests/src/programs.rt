//! More programs with `String` keys, and two maps that get the same calls.
ghost use Rattle.std.specs.Prelude.{◌≡◌, ◌≤◌, ◌∷◌, [], None, OnOk, IfOk};
ghost use Rattle.std.specs.String.{string_eq};
ghost use Rattle.lru_model.specs.Kept.{KeepsToLength};
ghost use Rattle.lru_model.specs.Lists.{keys_of, lookup};
ghost use Rattle.lru_replay.specs.References.{Reference, Referenced, of_length};
ghost use Rattle.lru_theory.specs.Inclusion.{IsIncluded};

use crate::references::read_through;
use lru_replay::references::{
    a_smaller_map_is_included, calls_change_the_keys, calls_make_references,
    gets_that_insert_if_made_make_references, gets_that_insert_make_references,
    more_capacity_never_misses_more, programs_make_references,
};
use schnellru::{ByLength, GetOrInsertError, LruMap, RandomState};
use std::alloc::AllocError;

/// A successful call is a reference.
fn remember<F: FnOnce() -> u64>(
    map: &mut LruMap<String, u64>,
    text: String,
    make: F,
) -> Result<bool, AllocError>
    requires callable { F.pre make }
    requires keeps { KeepsToLength map.old }
    ensures { OnOk result (Reference (of_length string_eq) text map.old map.new) }
{
    gets_that_insert_make_references::<String, u64, F, RandomState>();
    let kept = map.ensure_newest(text, make)?;
    Ok(kept)
}

fn try_to_remember<F: FnOnce() -> Result<u64, u64>>(
    map: &mut LruMap<String, u64>,
    text: String,
    make: F,
) -> Result<bool, GetOrInsertError<u64>>
    requires callable { F.pre make }
    requires keeps { KeepsToLength map.old }
    ensures { OnOk result (Reference (of_length string_eq) text map.old map.new) }
{
    gets_that_insert_if_made_make_references::<String, u64, u64, F, RandomState>();
    let kept = map.ensure_newest_fallible(text, make)?;
    Ok(kept)
}

/// A successful call is a reference that misses.
fn insert_new(map: &mut LruMap<String, u64>, text: String, value: u64) -> Result<bool, AllocError>
    requires absent { lookup (string_eq text) map.old.pairs ≡ None }
    requires keeps { KeepsToLength map.old }
    ensures { OnOk result (Referenced (of_length string_eq) map.old (text ∷ []) 1 map.new) }
{
    calls_make_references::<String, u64, RandomState>();
    programs_make_references::<String, u64, RandomState>();
    let kept = map.insert(text, value)?;
    Ok(kept)
}

fn read_both<F: Fn(&String) -> u64>(
    small: &mut LruMap<String, u64>,
    large: &mut LruMap<String, u64>,
    texts: &[String],
    compute: &F,
) -> Result<(u64, u64), AllocError>
    requires callable { F.IsAlwaysCallable compute.now }
    requires keeps { KeepsToLength small.old × KeepsToLength large.old }
    requires ordered { small.old.limiter ≤ large.old.limiter }
    requires included { IsIncluded string_eq small.old.limiter large.old.limiter (keys_of small.old.pairs)
        (keys_of large.old.pairs) }
    ensures { IfOk result (λ counts. counts.1 ≤ counts.0) }
{
    more_capacity_never_misses_more::<String, u64, RandomState>();
    Ok((
        read_through(small, texts, compute)?,
        read_through(large, texts, compute)?,
    ))
}

fn keep_and_forget(
    small: &mut LruMap<String, u64>,
    large: &mut LruMap<String, u64>,
    kept: &String,
    gone: &String,
)
    requires ordered { small.old.limiter ≤ large.old.limiter }
    requires included { IsIncluded string_eq small.old.limiter large.old.limiter (keys_of small.old.pairs)
        (keys_of large.old.pairs) }
    ensures { IsIncluded string_eq small.old.limiter large.old.limiter (keys_of small.new.pairs)
        (keys_of large.new.pairs) }
{
    calls_change_the_keys::<String, u64, RandomState>();
    a_smaller_map_is_included::<String, u64, RandomState>();
    small.promote(kept);
    small.remove(gone);
    large.promote(kept);
    large.remove(gone);
}
