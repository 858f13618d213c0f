//! Calls of a memo, of a loader and of a page cache that are references.
ghost use Rattle.std.specs.Prelude.{◌≡◌, ◌≤◌, ◌∷◌, ℕ, Bool, false, IfOk, IsOk, List, OnOk, Result, nat_eq, take};
ghost use Rattle.std.specs.Fn.{FnReturnsAt};
ghost use Rattle.std.specs.String.{string_eq};
ghost use Rattle.std.specs.declared.alloc.AllocError.{AllocError};
ghost use Rattle.lru_caches.specs.Answers.{AreAnswers, loads};
ghost use Rattle.lru_caches.specs.Pages.{pinned};
ghost use Rattle.lru_model.specs.Kept.{KeepsToLength};
ghost use Rattle.lru_model.specs.Lists.{keys_of};
ghost use Rattle.lru_replay.specs.References.{Reference, of_length};
ghost use Rattle.lru_theory.specs.Inclusion.{IsIncluded};
ghost use Rattle.lru_theory.specs.Traces.{recency, refer};

use lru_caches::{BlockDevice, Loader, Memo, PageCache, PageError};
use lru_replay::references::calls_make_references;
use schnellru::{ByLength, RandomState};

/// If the memo does not run out of memory, the call is a reference.
fn answer<F: Fn(&String) -> u64>(memo: &mut Memo<String, u64, F, ByLength>, key: String) -> u64
    requires callable { F.IsAlwaysCallable memo.old.function }
    requires known { AreAnswers string_eq (FnReturnsAt F.Fn memo.old.function) memo.old.map.pairs }
    requires keeps { KeepsToLength memo.old.map }
    ensures { (kept : Result Bool AllocError) × (IsOk kept → Reference (of_length string_eq) key memo.old.map memo.new.map) }
{
    calls_make_references::<String, u64, RandomState>();
    memo.answer(key)
}

/// If the call returns `Ok`, and the loader does not run out of memory, the call is a reference.
fn load<F: Fn(&String) -> Result<u64, u64>>(
    loader: &mut Loader<String, u64, F, ByLength>,
    key: String,
) -> Result<u64, u64>
    requires callable { F.IsAlwaysCallable loader.old.function }
    requires known { AreAnswers string_eq (loads (FnReturnsAt F.Fn loader.old.function)) loader.old.map.pairs }
    requires keeps { KeepsToLength loader.old.map }
    ensures { IfOk result (λ value. (kept : Result Bool AllocError) ×
        (IsOk kept → Reference (of_length string_eq) key loader.old.map loader.new.map)) }
{
    calls_make_references::<String, u64, RandomState>();
    let value = loader.load(key)?;
    Ok(value)
}

/// Reads a block through a page cache that has no pins and may evict dirty pages. A successful read is a reference to
/// the block number: the numbers of the pages change like the keys of an LRU cache (`refers`). If the cached pages were
/// the pages that were read last, this is still so afterwards (`newest`).
fn read<D: BlockDevice<u8>>(cache: &mut PageCache<u8, D>, n: u64) -> Result<u8, PageError<D::Error>>
    requires plain { cache.old.keeps_dirty ≡ false }
    requires unpinned { (m : ℕ) → pinned cache.old m ≡ false }
    ensures refers { IfOk result
        (λ block. keys_of cache.new.pages ≡ refer nat_eq cache.old.capacity n (keys_of cache.old.pages)) }
    ensures newest { (past : List ℕ) →
        keys_of cache.old.pages ≡ take cache.old.capacity (recency nat_eq past) →
        OnOk result (keys_of cache.new.pages ≡ take cache.old.capacity (recency nat_eq (n ∷ past))) }
{
    lru_theory::a_cache_is_the_newest::<u64>();
    cache.without_pins_the_newest_stay();
    let block = cache.read(n)?;
    Ok(block)
}

fn read_both<D: BlockDevice<u8>>(
    small: &mut PageCache<u8, D>,
    large: &mut PageCache<u8, D>,
    n: u64,
) -> Result<u8, PageError<D::Error>>
    requires plain { (small.old.keeps_dirty ≡ false) × (large.old.keeps_dirty ≡ false) }
    requires unpinned { (m : ℕ) → (pinned small.old m ≡ false) × (pinned large.old m ≡ false) }
    requires ordered { small.old.capacity ≤ large.old.capacity }
    requires included { IsIncluded nat_eq small.old.capacity large.old.capacity (keys_of small.old.pages)
        (keys_of large.old.pages) }
    ensures { OnOk result (IsIncluded nat_eq small.old.capacity large.old.capacity (keys_of small.new.pages)
        (keys_of large.new.pages)) }
{
    lru_theory::a_smaller_cache_is_included::<u64>();
    read(small, n)?;
    let block = read(large, n)?;
    Ok(block)
}
