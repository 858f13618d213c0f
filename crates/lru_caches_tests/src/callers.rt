//! Functions with their own contracts, which call a page cache, an ordered map and a counted map.
ghost use Rattle.std.specs.Prelude.{◌≡◌, ◌≢◌, ◌+◌, ◌^◌, ◌-◌, ◌<◌, ℕ, nat_eq, true, is_some, Some, OnOk, OnErr};
ghost use Rattle.std.specs.Map.{lookup, set_value};
ghost use Rattle.lru_caches.specs.Pages.{shown, ShowsTheSame};

use lru_caches::{BlockDevice, CountedMap, OrderedMap, PageCache, PageError};
use schnellru::ByLength;
use std::alloc::AllocError;

pub fn copy_block<D: BlockDevice<u64>>(
    cache: &mut PageCache<u64, D>,
    from: u64,
    to: u64,
) -> Result<(), PageError<D::Error>>
    ensures copied { OnOk result (D.IsHonest cache.new.device → (block : D.Seen) →
        shown D.BlockDevice cache.old from ≡ Some block → shown D.BlockDevice cache.new to ≡ Some block) }
    ensures others { OnOk result (D.IsHonest cache.new.device → (m : ℕ) (block : D.Seen) → m ≢ to →
        shown D.BlockDevice cache.old m ≡ Some block → shown D.BlockDevice cache.new m ≡ Some block) }
    ensures failed { OnErr result (ShowsTheSame D.BlockDevice cache.old cache.new) }
{
    let block = cache.read(from)?;
    cache.write(to, block)
}

pub fn write_durably<D: BlockDevice<u64>>(
    cache: &mut PageCache<u64, D>,
    n: u64,
    block: u64,
) -> Result<(), PageError<D::Error>>
    ensures durable { OnOk result (D.IsHonest cache.new.device → (b : D.Seen) →
        D.may_leave cache.new.device n b → b ≡ D.seen block) }
{
    cache.write(n, block)?;
    cache.flush()
}

pub fn overwrite(map: &mut OrderedMap<u64, u64>, key: u64, value: u64) -> bool
    ensures there { result ≡ is_some (lookup (nat_eq key) map.old) }
    ensures written { result ≡ true → map.new ≡ set_value (nat_eq key) map.old value }
{
    match map.get_mut(&key) {
        Some(place) => {
            *place = value;
            true
        }
        None => false,
    }
}

/// Looks a path up. If the path is not there, stores how many bytes its page has. Returns whether the path was there.
pub fn visit(
    pages: &mut CountedMap<String, u64, ByLength>,
    path: String,
    bytes: u64,
) -> Result<bool, AllocError>
    requires { pages.old.counts.hits + pages.old.counts.misses < 2 ^ 64 - 1 }
    ensures { pages.new.counts.hits + pages.new.counts.misses ≡ pages.old.counts.hits + pages.old.counts.misses + 1 }
{
    if pages.promote(&path) {
        return Ok(true);
    }
    pages.insert(path, bytes)?;
    Ok(false)
}
