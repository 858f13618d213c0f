//! A law: the contract of a function that does nothing.
ghost use Rattle.std.specs.Prelude.{◌≡◌, ◌∷◌, ℕ, nat_eq, take, false};
ghost use Rattle.lru_model.specs.Lists.{without};
ghost use Rattle.lru_caches.specs.Pages.{pages_after, pinned};

use crate::device::BlockDevice;
use crate::page_cache::PageCache;
use crate::page_cache::pages::Page;
use schnellru::KeyHasher;

impl<B: Copy, D: BlockDevice<B>, S: KeyHasher<u64>> PageCache<B, D, S> {
    /// If no page is pinned, and the cache does not keep dirty pages, the cache contains the pages that were used last.
    pub fn without_pins_the_newest_stay(&self)
        ensures { self.now.keeps_dirty ≡ false → ((n : ℕ) → pinned self.now n ≡ false) → (n : ℕ) (page : Page B)
            → pages_after n page self.now
            ≡ take self.now.capacity ((n, page) ∷ without (nat_eq n) self.now.pages) }
    {
        let _ = self.map.len();
    }
}
