//! A cache of texts that takes at most 200 MiB, by the law `calls_keep_the_bytes`.
ghost use Rattle.std.specs.Prelude.{◌≡◌, ◌*◌, ◌^◌, IfOk, string_capacity};
ghost use Rattle.lru_limits.specs.Bytes.{both_own, block_bytes};
ghost use Rattle.lru_model.specs.Theorems.{KeepsBytes, TakesAtMost};
ghost use Rattle.lru_model.specs.State.{IsMap};

use lru_model::Updated;
use schnellru::{ByBytes, LruMap, RandomState, laws};
use std::alloc::{AllocError, Global};

fn cache_of_texts(alloc: Global) -> LruMap<String, String, ByBytes>
    ensures keeps { KeepsBytes (both_own (λ k. block_bytes (string_capacity k)) (λ v. block_bytes (string_capacity v)))
        result }
    ensures limit { result.limiter.limit ≡ 200 * 2 ^ 20 }
{
    laws::calls_keep_the_bytes::<String, String, RandomState>();
    LruMap::with_limiter(alloc, ByBytes::new(200 << 20))
}

/// Whatever the calls return, the cache takes at most its limit.
fn change(
    map: &mut LruMap<String, String, ByBytes>,
    key: String,
    text: String,
    other: String,
    new: String,
    old: &str,
) -> Result<bool, AllocError>
    requires { KeepsBytes (both_own (λ k. block_bytes (string_capacity k)) (λ v. block_bytes (string_capacity v)))
        map.old }
    ensures keeps { KeepsBytes (both_own (λ k. block_bytes (string_capacity k))
        (λ v. block_bytes (string_capacity v))) map.new }
    ensures memory { TakesAtMost (both_own (λ k. block_bytes (string_capacity k))
        (λ v. block_bytes (string_capacity v))) map.old.limiter.limit map.new }
{
    laws::calls_keep_the_bytes::<String, String, RandomState>();
    laws::runs_keep_the_bytes::<String, String, RandomState>();
    let _len = map.len();
    let kept = map.insert(key, text);
    map.update(other, new);
    map.remove(&old);
    let _ = map.shrink_to_fit();
    kept
}

/// Shrinks the table, and sets a limiter that counts the new table. The cache still takes at most its limit.
fn shrink(map: &mut LruMap<String, String, ByBytes>)
    requires { KeepsBytes (both_own (λ k. block_bytes (string_capacity k)) (λ v. block_bytes (string_capacity v)))
        map.old }
    ensures { KeepsBytes (both_own (λ k. block_bytes (string_capacity k)) (λ v. block_bytes (string_capacity v)))
        map.new }
{
    laws::calls_keep_the_bytes::<String, String, RandomState>();
    let _len = map.len();
    let _ = map.shrink_to_fit();
    let limiter = map.limiter().with_table(map.memory_usage() as u64);
    map.set_limiter(limiter);
}
