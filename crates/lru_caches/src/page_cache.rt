ghost use Rattle.std.specs.Prelude.{◌≡◌, ◌≤◌, ℕ, [], Some, true, false, length, max, IsTrue, IsErr, ◌↔◌, IfOk, IfErr, OnOk, OnErr};
ghost use Rattle.lru_model.specs.Lists.{is_empty};
ghost use Rattle.lru_caches.specs.Pages.{shown, cleaned, IsCached, ShowsTheSame, CrashAdds, IsFlushCause, IsFlush, IsCutOff};

use crate::device::BlockDevice;
use crate::page_cache::flush::{list_dirty, make_clean, write_all_back};
use crate::page_cache::pages::{Counts, Pages};
use schnellru::{KeyHasher, LruMap, RandomState, UnlimitedCompact};
use std::alloc::Global;
use std::fmt::Display;
use std::marker::Model;
use thiserror::Error;

mod blocks;
mod boxed;
mod evict;
mod flush;
mod laws;
mod pages;
mod pins;

/// Why a call on a page cache failed. Unless a `sync` failed, the call changed no block that the cache shows.
///
/// ```
/// assert_eq!(rt; cache.read(4), Err(PageError::NoBlock));
/// ```
#[derive(Debug, Drop, PartialEq, Error)]
#[error_bound(E: Display)]
pub enum PageError<E> {
    /// The device failed in this call, with this error.
    #[error("the device failed: {0}")]
    Device(E),
    /// Memory ran out for one more page, or the table already holds its maximum of 1,879,048,192 pages.
    #[error("out of memory")]
    Memory,
    /// The device has no block with this number.
    #[error("no such block")]
    NoBlock,
    /// The cache is full, and no page may be evicted. Each page is pinned, or is a dirty page that the cache keeps
    /// until a flush. Nothing has changed.
    #[error("no page may be evicted")]
    Full,
    /// A `sync` of the device has failed, so earlier writes may be lost. Discard the cache.
    #[error("a sync of the device has failed")]
    Broken,
}

/// A write-back cache of the blocks of a device.
///
/// The cache contains at most `capacity` pages. A write makes the cached page dirty. The cache writes a dirty page to
/// the device when it evicts or flushes the page.
///
/// After a `flush` that returned `Ok`, a crash leaves each block as the cache showed it at the flush, unless a later
/// call wrote the block. `docs/CACHES.md` names the premises.
///
/// Call `close` or `discard` at the end. Code that drops or forgets a cache does not compile, because dirty pages would
/// be lost.
///
/// ```
/// let mut cache = PageCache::new(alloc, disk, 2);
/// assert_eq!(rt; cache.write(1, 20), Ok(()));
/// assert_eq!(rt; (cache.read(1), cache.len()), (Ok(20), 1));
/// assert_eq!(rt; cache.flush(), Ok(()));
/// cache.discard();
/// ```
pub struct PageCache<B: Copy, D: BlockDevice<B>, S: KeyHasher<u64> = RandomState> {
    map: Pages<B, S>,
    // memory for the page numbers of a flush, reserved in advance
    numbers: Vec<u64>,
    capacity: usize,
    keeps_dirty: bool,
    counts: Counts,
    device: D,
    alloc: Global,
}

impl<B: Copy, D: BlockDevice<B>, S: KeyHasher<u64>> Model for PageCache<B, D, S> {
    ghost use Rattle.std.specs.Prelude.{◌≤◌, ◌<◌, length, vec_capacity};
    ghost use Rattle.lru_caches.specs.Pages.{Cached, AreClean, AreThere};

    ghost Value = { Cached B D };

    ghost view = { λ c. record {
      pages = c.map.pairs;
      capacity = c.capacity;
      keeps_dirty = c.keeps_dirty;
      counts = c.counts;
      device = c.device;
    } };

    ghost invariant = { λ c. AreClean D.BlockDevice c.map.pairs c.device
        × AreThere D.BlockDevice c.map.pairs c.device
        × (length c.map.pairs ≤ c.capacity) × (0 < c.capacity)
        × (length c.map.pairs ≤ vec_capacity c.numbers) };
}

impl<B: Copy, D: BlockDevice<B>> PageCache<B, D, RandomState> {
    /// Makes an empty cache of a device. The cache holds at most `capacity` pages, or one page if `capacity` is 0.
    ///
    /// If strangers choose the block numbers, call `with_hasher`.
    ///
    /// Each block is in a box of its own. In a trial, a page took up to 160 bytes besides its block, and up to 244 while
    /// the table grew.
    ///
    /// Cost: `O(1)`, and no memory.
    ///
    /// ```
    /// let mut cache = PageCache::new(alloc, disk, 2);
    /// ```
    pub fn new(alloc: Global, device: D, capacity: usize) -> Self
        ensures device { result.device ≡ device }
        ensures empty { result.pages ≡ [] }
        ensures capacity { result.capacity ≡ max 1 capacity }
        ensures mode { result.keeps_dirty ≡ false }
        ensures counts { result.counts ≡ record { hits = 0; misses = 0; evictions = 0 } }
    {
        PageCache::with_hasher(alloc, device, capacity, RandomState::default())
    }
}

impl<B: Copy, D: BlockDevice<B>, S: KeyHasher<u64>> PageCache<B, D, S> {
    /// Makes an empty cache, with a hasher of block numbers (see `new`).
    ///
    /// Cost: `O(1)`, and no memory.
    ///
    /// ```
    /// let seeded = RandomState::with_seeds([5, 6, 7, 8]);
    /// let mut cache = PageCache::with_hasher(alloc, disk, 2, seeded);
    /// assert!(rt; cache.is_empty());
    /// cache.discard();
    /// ```
    pub fn with_hasher(alloc: Global, device: D, capacity: usize, hasher: S) -> Self
        ensures device { result.device ≡ device }
        ensures empty { result.pages ≡ [] }
        ensures capacity { result.capacity ≡ max 1 capacity }
        ensures mode { result.keeps_dirty ≡ false }
        ensures counts { result.counts ≡ record { hits = 0; misses = 0; evictions = 0 } }
    {
        PageCache {
            map: LruMap::with_limiter_and_hasher(alloc, UnlimitedCompact, hasher),
            numbers: Vec::new(alloc),
            capacity: capacity.max(1),
            keeps_dirty: false,
            counts: Counts {
                hits: 0,
                misses: 0,
                evictions: 0,
            },
            device,
            alloc,
        }
    }

    /// Returns how many pages are cached.
    ///
    /// Cost: `O(1)`.
    ///
    /// ```
    /// assert_eq!(rt; (cache.read(1), cache.len()), (Ok(20), 1));
    /// ```
    pub fn len(&self) -> usize
        ensures len { result ≡ length self.now.pages }
        ensures at_most { result ≤ self.now.capacity }
    {
        self.map.len()
    }

    /// Returns whether no page is cached.
    ///
    /// Cost: `O(1)`.
    ///
    /// ```
    /// assert!(rt; cache.is_empty());
    /// ```
    pub fn is_empty(&self) -> bool
        ensures { result ≡ is_empty self.now.pages }
    {
        self.map.is_empty()
    }

    /// Returns whether a page is cached.
    ///
    /// Cost: `O(1)` expected.
    ///
    /// ```
    /// assert!(rt; cache.contains(1) && !cache.contains(2));
    /// ```
    pub fn contains(&self, n: u64) -> bool
        ensures { IsTrue result ↔ IsCached n self.now }
    {
        self.map.contains(&n)
    }

    /// Returns the number of successful reads, writes and pins whose page was cached. The number stops at `u64::MAX`.
    ///
    /// Cost: `O(1)`.
    ///
    /// ```
    /// let (hits, misses) = (cache.hits(), cache.misses());
    /// assert!(rt; cache.read(1) == Ok(20) && cache.hits() == hits.saturating_add(1) && cache.misses() == misses);
    /// ```
    pub fn hits(&self) -> u64
        ensures { result ≡ self.now.counts.hits }
    {
        self.counts.hits
    }

    /// Returns the number of successful reads, writes and pins whose page was not cached. The number stops at
    /// `u64::MAX`.
    ///
    /// Cost: `O(1)`.
    ///
    /// ```
    /// let (hits, misses) = (cache.hits(), cache.misses());
    /// assert!(rt; cache.read(1) == Ok(20) && cache.hits() == hits.saturating_add(1) && cache.misses() == misses);
    /// ```
    pub fn misses(&self) -> u64
        ensures { result ≡ self.now.counts.misses }
    {
        self.counts.misses
    }

    /// Returns the number of evicted pages, which stops at `u64::MAX`.
    ///
    /// Cost: `O(1)`.
    ///
    /// ```
    /// assert_eq!(rt; cache.misses(), cache.evictions().saturating_add(cache.len() as u64));
    /// ```
    pub fn evictions(&self) -> u64
        ensures { result ≡ self.now.counts.evictions }
    {
        self.counts.evictions
    }

    /// Lends the device, which may still contain old blocks for the dirty pages.
    ///
    /// Cost: `O(1)`.
    ///
    /// ```
    /// assert_eq!(rt; cache.device().blocks, [10, 11, 12, 13]);
    /// ```
    pub fn device(&self) -> &D
        ensures { result.now ≡ self.now.device }
    {
        &self.device
    }

    /// Writes all dirty pages to the device, and then calls its `sync`. The pages stay cached, and are clean.
    ///
    /// ```
    /// assert_eq!(rt; cache.flush(), Ok(()));
    /// assert_eq!(rt; cache.device().blocks, [10, 20, 12, 13]);
    /// ```
    ///
    /// Cost for n dirty pages: `O(len + n log n)`, n writes of the device, and a `sync`. The `sync` is called even if n
    /// is 0.
    ///
    /// # Errors
    ///
    /// `Broken`: an earlier `sync` failed. `Device`: a write or the `sync` failed, and the dirty pages stay dirty.
    pub fn flush(&mut self) -> Result<(), PageError<D::Error>>
        ensures keeps { ShowsTheSame D.BlockDevice self.old self.new }
        ensures flushed { OnOk result (D.IsHonest self.new.device →
            (n : ℕ) → D.blocks self.new.device n ≡ shown D.BlockDevice self.old n) }
        ensures durable { OnOk result (D.IsHonest self.new.device →
            (n : ℕ) (block b : D.Seen) → shown D.BlockDevice self.old n ≡ Some block
            → D.may_leave self.new.device n b → b ≡ block) }
        ensures clean { OnOk result (self.new.pages ≡ cleaned self.old.pages) }
        ensures dirty { OnErr result (self.new.pages ≡ self.old.pages) }
        ensures crash { CrashAdds D.BlockDevice self.old.pages self.old.device self.new.device }
        ensures usable { OnOk result (IsTrue (D.is_usable self.new.device)) }
        ensures broken { D.is_usable self.old.device ≡ false → (result ≡ Err PageError.Broken) × (self.new ≡ self.old) }
        ensures cause { IfErr result (IsFlushCause D.BlockDevice self.old.device self.new.device) }
        ensures numbers { (n : ℕ) → D.has self.new.device n ≡ D.has self.old.device n }
        ensures honest { D.IsHonest self.new.device → D.IsHonest self.old.device }
        ensures capacity { self.new.capacity ≡ self.old.capacity }
        ensures mode { self.new.keeps_dirty ≡ self.old.keeps_dirty }
        ensures counts { self.new.counts ≡ self.old.counts }
        ensures order { OnOk result (IsFlush D.BlockDevice self.old.pages self.old.device self.new.device) }
        ensures cut_off { IsTrue (D.is_usable self.old.device)
            → OnErr result (IsCutOff D.BlockDevice self.old.pages self.old.device self.new.device) }
    {
        if !self.device.is_usable() {
            return Err(PageError::Broken);
        }
        list_dirty(&self.map, &mut self.numbers);
        write_all_back(&self.map, self.numbers.as_slice(), &mut self.device)?;
        make_clean(&mut self.map);
        Ok(())
    }

    /// Flushes the cache, and returns the device.
    ///
    /// ```
    /// let mut cache = match cache.close() {
    ///     Ok(disk) => PageCache::new(alloc, disk, 2),
    ///     Err(Unclosed { cache, error: _ }) => cache,
    /// };
    /// cache.discard();
    /// ```
    ///
    /// Cost: as `flush`.
    ///
    /// # Errors
    ///
    /// The flush failed. The error contains the cache, whose pages have not changed.
    pub fn close(mut self) -> Result<D, Unclosed<B, D, S>>
    where
        S: Drop,
        ensures closed { IfOk result (λ device. D.IsHonest device →
            (n : ℕ) → D.blocks device n ≡ shown D.BlockDevice self n) }
        ensures durable { IfOk result (λ device. D.IsHonest device →
            (n : ℕ) (block b : D.Seen) → shown D.BlockDevice self n ≡ Some block → D.may_leave device n b → b ≡ block) }
        ensures usable { IfOk result (λ device. IsTrue (D.is_usable device)) }
        ensures broken { D.is_usable self.device ≡ false → IsErr result }
        ensures failed { IfErr result (λ unclosed. ShowsTheSame D.BlockDevice self unclosed.cache) }
        ensures pages { IfErr result (λ unclosed. unclosed.cache.pages ≡ self.pages) }
        ensures crash { IfErr result (λ unclosed.
            CrashAdds D.BlockDevice self.pages self.device unclosed.cache.device) }
        ensures cause { IfErr result (λ unclosed.
            IsFlushCause D.BlockDevice self.device unclosed.cache.device unclosed.error) }
        ensures capacity { IfErr result (λ unclosed. unclosed.cache.capacity ≡ self.capacity) }
        ensures mode { IfErr result (λ unclosed. unclosed.cache.keeps_dirty ≡ self.keeps_dirty) }
    {
        match self.flush() {
            Ok(()) => Ok(self.discard()),
            Err(error) => Err(Unclosed { cache: self, error }),
        }
    }

    /// Drops the cached pages and returns the device. Writes since the last flush may be lost.
    ///
    /// ```
    /// cache.discard();
    /// ```
    ///
    /// Cost: `O(len)`.
    pub fn discard(self) -> D
    where
        S: Drop,
        ensures { result ≡ self.device }
    {
        let PageCache {
            map: _,
            numbers: _,
            capacity: _,
            keeps_dirty: _,
            counts: _,
            device,
            alloc: _,
        } = self;
        device
    }
}

/// A cache that was not closed, because its flush failed.
///
/// ```
/// Err(Unclosed { cache, error: _ }) => cache,
/// ```
pub struct Unclosed<B: Copy, D: BlockDevice<B>, S: KeyHasher<u64> = RandomState> {
    pub cache: PageCache<B, D, S>,
    pub error: PageError<D::Error>,
}
