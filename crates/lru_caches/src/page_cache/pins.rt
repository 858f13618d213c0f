ghost use Rattle.std.specs.Prelude.{◌≡◌, ◌⊎◌, ℕ, Some, false, OnOk, IsOk};
ghost use Rattle.lru_caches.specs.Pages.{shown, pages_pinned, pinned, unpinned_at, IsCached, ShowsTheSame, UsesPage};

use crate::device::BlockDevice;
use crate::page_cache::pages::{is_pinned_at, pin_newest, unpin_page};
use crate::page_cache::{PageCache, PageError};
use schnellru::KeyHasher;

impl<B: Copy, D: BlockDevice<B>, S: KeyHasher<u64>> PageCache<B, D, S> {
    /// Pins a page and makes it the newest. If the page is not cached, reads it first. The page is not evicted until
    /// `unpin`.
    ///
    /// One `unpin` ends all pins of a page. A flush also writes dirty pages that are pinned.
    ///
    /// ```
    /// assert_eq!(rt; (cache.pin(0), cache.pin(1), cache.read(2)), (Ok(()), Ok(()), Err(PageError::Full)));
    /// assert!(rt; cache.is_pinned(0) && cache.unpin(0) && !cache.is_pinned(0));
    /// ```
    ///
    /// Cost and `# Errors`: as `read`.
    pub fn pin(&mut self, n: u64) -> Result<(), PageError<D::Error>>
        ensures pages { OnOk result ((block : B)
            × (D.IsHonest self.new.device → shown D.BlockDevice self.new n ≡ Some (D.seen block))
            × (self.new.pages ≡ pages_pinned n block self.old)) }
        ensures keeps { ShowsTheSame D.BlockDevice self.old self.new }
        ensures hit { IsCached n self.old → IsOk result }
        ensures broken { D.is_usable self.old.device ≡ false → IsCached n self.old ⊎ (result ≡ Err PageError.Broken) }
        ensures uses { UsesPage D.BlockDevice n self.old result self.new }
    {
        self.bring(n)?;
        pin_newest(&mut self.map);
        Ok(())
    }

    /// Ends the pin of a page, and returns whether there was a pin. Does not change the order of use.
    ///
    /// ```
    /// assert!(rt; cache.is_pinned(0) && cache.unpin(0) && !cache.is_pinned(0));
    /// ```
    ///
    /// Cost: `O(1)` expected.
    pub fn unpin(&mut self, n: u64) -> bool
        ensures was { result ≡ pinned self.old n }
        ensures unpinned { self.new ≡ record self.old { pages = unpinned_at n self.old.pages } }
        ensures shows { (m : ℕ) → shown D.BlockDevice self.new m ≡ shown D.BlockDevice self.old m }
    {
        unpin_page(&mut self.map, n)
    }

    /// Returns whether a page is pinned.
    ///
    /// ```
    /// assert!(rt; cache.is_pinned(0) && cache.unpin(0) && !cache.is_pinned(0));
    /// ```
    ///
    /// Cost: `O(1)` expected.
    pub fn is_pinned(&self, n: u64) -> bool
        ensures { result ≡ pinned self.now n }
    {
        is_pinned_at(&self.map, n)
    }

    /// Returns whether the cache keeps dirty pages until a flush. A new cache does not keep dirty pages.
    ///
    /// ```
    /// assert_eq!(rt; (cache.keeps_dirty(), cache.write(0, 10), cache.read(2)), (true, Ok(()), Err(PageError::Full)));
    /// ```
    ///
    /// Cost: `O(1)`.
    pub fn keeps_dirty(&self) -> bool
        ensures { result ≡ self.now.keeps_dirty }
    {
        self.keeps_dirty
    }

    /// Sets whether the cache keeps dirty pages until a flush. If it does, only flushes write to the device.
    ///
    /// ```
    /// cache.set_keeps_dirty(true);
    /// assert_eq!(rt; (cache.keeps_dirty(), cache.write(0, 10), cache.read(2)), (true, Ok(()), Err(PageError::Full)));
    /// ```
    ///
    /// Cost: `O(1)`.
    pub fn set_keeps_dirty(&mut self, keeps_dirty: bool)
        ensures { self.new ≡ record self.old { keeps_dirty = keeps_dirty } }
    {
        self.keeps_dirty = keeps_dirty;
    }
}
