//! The misses that a new map counts, compared with other policies.
ghost use Rattle.std.specs.Prelude.{◌≡◌, ◌≤◌, ◌<◌, ◌+◌, ◌-◌, ◌*◌, ℕ, [], List, IfOk};
ghost use Rattle.std.specs.String.{string_eq};
ghost use Rattle.lru_theory.specs.Policies.{Loads, Served};
ghost use Rattle.lru_theory.specs.Traces.{misses};

use crate::references::read_through;
use schnellru::{ByLength, LruMap, RandomState, laws};
use std::alloc::{AllocError, Global};

pub fn misses_on_map(alloc: Global, texts: &[String], length: u32) -> Result<u64, AllocError>
    requires { length ≤ 939524096 }
    ensures { IfOk result (λ count. count ≡ misses string_eq length [] texts.now) }
{
    laws::maps_keep_to_their_length::<String, u64, RandomState>();
    let mut map: LruMap<String, u64> = LruMap::new(alloc, ByLength::new(length), [1, 2, 3, 4], 40);
    read_through(&mut map, texts, &|_| 0)
}

/// Counts the misses of a new map. The contract compares them with the payments of any policy with h places. The policy
/// begins empty, stores each text, and may load texts ahead.
fn near_best(alloc: Global, texts: &[String], length: u32) -> Result<u64, AllocError>
    requires { length ≤ 939524096 }
    ensures { IfOk result (λ count. (h paid : ℕ) (left : List _) → 0 < h → h ≤ length →
        Served (Loads string_eq h) left [] texts.now paid → (length + 1 - h) * count ≤ length * paid) }
{
    lru_theory::lru_is_near_min::<String>();
    lru_theory::min_is_best::<String>();
    lru_theory::loading_ahead_gains_nothing::<String>();
    let count = misses_on_map(alloc, texts, length)?;
    Ok(count)
}
