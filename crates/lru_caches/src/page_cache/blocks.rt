ghost use Rattle.std.specs.Prelude.{◌≡◌, ◌≢◌, ◌⊎◌, ◌-◌, ℕ, Some, false, IsTrue, IfOk, IfErr, OnOk, OnErr, IsOk};
ghost use Rattle.std.specs.Fn.{FnOnceReturnsAt, FnOnceReturnsAtMut};
ghost use Rattle.lru_caches.specs.Pages.{shown, pages_read, pages_written, IsCached, IsGood, ShowsTheSame, UsesPage};
ghost use Rattle.lru_caches.specs.Pages.{ReadsPages, ReadsUntil};

use crate::device::BlockDevice;
use crate::page_cache::evict::{find_room, replace};
use crate::page_cache::flush::reserve_number;
use crate::page_cache::pages::{admit, load, overwrite, promote, read_newest, write_newest};
use crate::page_cache::{PageCache, PageError};
use schnellru::KeyHasher;
use std::ops::Range;

impl<B: Copy, D: BlockDevice<B>, S: KeyHasher<u64>> PageCache<B, D, S> {
    pub(super) fn bring(&mut self, n: u64) -> Result<(), PageError<D::Error>>
        ensures page { OnOk result ((block : B)
            × (D.IsHonest self.new.device → shown D.BlockDevice self.new n ≡ Some (D.seen block))
            × (self.new.pages ≡ pages_read n block self.old)) }
        ensures keeps { ShowsTheSame D.BlockDevice self.old self.new }
        ensures hit { IsCached n self.old → IsOk result }
        ensures broken { D.is_usable self.old.device ≡ false → IsCached n self.old ⊎ (result ≡ Err PageError.Broken) }
        ensures uses { UsesPage D.BlockDevice n self.old result self.new }
    {
        let hash = self.map.hasher().hash_named(&n);
        if promote(&mut self.map, &mut self.counts, hash, n) {
            return Ok(());
        }
        admit(&self.device, n)?;
        reserve_number(&mut self.numbers, self.map.len())?;
        let gone = find_room(&self.map, self.capacity, self.keeps_dirty)?;
        load(
            self.alloc,
            &mut self.map,
            &mut self.device,
            &mut self.counts,
            gone,
            hash,
            n,
        )
    }

    /// Returns a block, and makes its page the newest.
    ///
    /// If the page is not cached and the cache is full, evicts the oldest page that may be evicted. If the evicted page
    /// is dirty, writes it to the device first. A pinned page may not be evicted. If the cache
    /// [keeps dirty pages](Self::set_keeps_dirty), a dirty page may not be evicted either.
    ///
    /// ```
    /// assert_eq!(rt; (cache.read(1), cache.len()), (Ok(20), 1));
    /// ```
    ///
    /// Cost: `O(1)` expected, amortised over the growth of the table, and at most one read and one write of the device.
    /// An eviction also takes `O(k)` if k pages are older than the evicted page.
    ///
    /// # Errors
    ///
    /// Fails only if the page is not cached. `Broken`, `NoBlock` or `Full`: see [`PageError`]. `Device`: the read of
    /// the block or the write of a dirty page failed. No page was evicted. `Memory`: out of memory. A page may have
    /// been evicted.
    pub fn read(&mut self, n: u64) -> Result<B, PageError<D::Error>>
        ensures block { IfOk result (λ block. D.IsHonest self.new.device
            → shown D.BlockDevice self.new n ≡ Some (D.seen block)) }
        ensures pages { IfOk result (λ block. self.new.pages ≡ pages_read n block self.old) }
        ensures keeps { ShowsTheSame D.BlockDevice self.old self.new }
        ensures hit { IsCached n self.old → IsOk result }
        ensures broken { D.is_usable self.old.device ≡ false → IsCached n self.old ⊎ (result ≡ Err PageError.Broken) }
        ensures uses { UsesPage D.BlockDevice n self.old result self.new }
    {
        self.read_with(n, |block| *block)
    }

    /// Does what `read` does, but lends the block to a closure, and returns what the closure returns.
    ///
    /// ```
    /// assert_eq!(rt; cache.read_with(1, |block| *block / 2), Ok(10));
    /// ```
    ///
    /// Cost: as `read`, plus a call of the closure.
    ///
    /// # Errors
    ///
    /// As `read`. After an error, the closure is not called.
    pub fn read_with<R, U: FnOnce(&B) -> R>(
        &mut self,
        n: u64,
        read: U,
    ) -> Result<R, PageError<D::Error>>
        requires { U.IsAlwaysCallable read }
        ensures block { IfOk result (λ given. (block : B) × FnOnceReturnsAt U.FnOnce read block given
            × (D.IsHonest self.new.device → shown D.BlockDevice self.new n ≡ Some (D.seen block))
            × (self.new.pages ≡ pages_read n block self.old)) }
        ensures keeps { ShowsTheSame D.BlockDevice self.old self.new }
        ensures hit { IsCached n self.old → IsOk result }
        ensures broken { D.is_usable self.old.device ≡ false → IsCached n self.old ⊎ (result ≡ Err PageError.Broken) }
        ensures uses { UsesPage D.BlockDevice n self.old result self.new }
    {
        self.bring(n)?;
        Ok(read_newest(&self.map, read))
    }

    /// Calls `read` for each number of the range, in order.
    ///
    /// ```
    /// assert!(rt; cache.prefetch(2..4) == Ok(()) && cache.contains(2) && cache.contains(3));
    /// ```
    ///
    /// Cost: as a `read` of each block.
    ///
    /// # Errors
    ///
    /// The error of the first `read` that fails. All earlier blocks were read.
    pub fn prefetch(&mut self, blocks: Range<u64>) -> Result<(), PageError<D::Error>>
        ensures reads { OnOk result
            (ReadsPages D.BlockDevice blocks.start (blocks.end - blocks.start) self.old self.new) }
        ensures failed { IfErr result (ReadsUntil D.BlockDevice blocks.start blocks.end self.old self.new) }
        ensures keeps { ShowsTheSame D.BlockDevice self.old self.new }
        ensures capacity { self.new.capacity ≡ self.old.capacity }
        ensures mode { self.new.keeps_dirty ≡ self.old.keeps_dirty }
    {
        for n in blocks.start..blocks.end {
            self.bring(n)?;
        }
        Ok(())
    }

    /// Replaces a block in the cache, and makes its page the newest. The device gets the block later.
    ///
    /// If the page is not cached and the cache is full, evicts a page (see `read`). A pinned page stays pinned.
    ///
    /// ```
    /// assert_eq!(rt; cache.write(1, 20), Ok(()));
    /// ```
    ///
    /// Cost: as `read`, without the read of the device.
    ///
    /// # Errors
    ///
    /// As `read`, but `Broken` is possible even if the page is cached. After an error, the block is not replaced.
    // A call that is not inlined copies the block.
    #[inline]
    pub fn write(&mut self, n: u64, block: B) -> Result<(), PageError<D::Error>>
        ensures written { OnOk result (shown D.BlockDevice self.new n ≡ Some (D.seen block)) }
        ensures others { D.IsHonest self.new.device →
            (m : ℕ) → m ≢ n → shown D.BlockDevice self.new m ≡ shown D.BlockDevice self.old m }
        ensures failed { OnErr result (ShowsTheSame D.BlockDevice self.old self.new) }
        ensures pages { OnOk result (self.new.pages ≡ pages_written n block self.old) }
        ensures hit { IsCached n self.old → IsTrue (D.is_usable self.old.device) → IsOk result }
        ensures broken { D.is_usable self.old.device ≡ false → result ≡ Err PageError.Broken }
        ensures uses { UsesPage D.BlockDevice n self.old result self.new }
    {
        admit(&self.device, n)?;
        let hash = self.map.hasher().hash_named(&n);
        if overwrite(&mut self.map, &mut self.counts, hash, n, &block) {
            return Ok(());
        }
        reserve_number(&mut self.numbers, self.map.len())?;
        let gone = find_room(&self.map, self.capacity, self.keeps_dirty)?;
        replace(
            self.alloc,
            &mut self.map,
            &mut self.device,
            &mut self.counts,
            gone,
            hash,
            n,
            &block,
            true,
        )
    }

    /// Lends a block to a closure, and returns what the closure returns. The closure may write the block in place. The
    /// page becomes dirty and the newest.
    ///
    /// If the page is not cached, reads the block first. A pinned page stays pinned.
    ///
    /// ```
    /// assert_eq!(rt; (cache.write_with(1, |block| *block = 21), cache.read(1)), (Ok(()), Ok(21)));
    /// ```
    ///
    /// Cost: as `read`, plus a call of the closure.
    ///
    /// # Errors
    ///
    /// As `read`, but `Broken` is possible even if the page is cached. After an error, the closure is not called.
    pub fn write_with<R, U: FnOnce(&mut B) -> R>(
        &mut self,
        n: u64,
        write: U,
    ) -> Result<R, PageError<D::Error>>
        requires { U.IsAlwaysCallable write }
        ensures written { IfOk result (λ given. (was block : B) × FnOnceReturnsAtMut U.FnOnce write was given block
            × (IsGood D.BlockDevice self.new.device → (b : D.Seen)
            → shown D.BlockDevice self.old n ≡ Some b → b ≡ D.seen was)
            × (shown D.BlockDevice self.new n ≡ Some (D.seen block))
            × (self.new.pages ≡ pages_written n block self.old)) }
        ensures others { IsGood D.BlockDevice self.new.device → (m : ℕ) (b : D.Seen) → m ≢ n
            → shown D.BlockDevice self.old m ≡ Some b → shown D.BlockDevice self.new m ≡ Some b }
        ensures failed { OnErr result (ShowsTheSame D.BlockDevice self.old self.new) }
        ensures hit { IsCached n self.old → IsTrue (D.is_usable self.old.device) → IsOk result }
        ensures broken { D.is_usable self.old.device ≡ false → result ≡ Err PageError.Broken }
        ensures uses { UsesPage D.BlockDevice n self.old result self.new }
    {
        if !self.device.is_usable() {
            return Err(PageError::Broken);
        }
        self.bring(n)?;
        Ok(write_newest(&mut self.map, write))
    }
}
