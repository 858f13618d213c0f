ghost use Rattle.std.specs.Prelude.{◌≡◌, ◌≢◌, ◌⊎◌, ◌≤◌, ◌<◌, ◌+◌, ◌-◌, ℕ, ◌∷◌, length, nat_eq, None, Some, false};
ghost use Rattle.std.specs.Prelude.{IsTrue, IfErr, IfOk, OnOk, OnErr};
ghost use Rattle.std.specs.Map.{lookup};
ghost use Rattle.lru_caches.specs.Pages.{block_at, evicted, evicts, goes_dirty, missed, victim, with_room};
ghost use Rattle.lru_caches.specs.Pages.{AreClean, AreThere, CrashAdds, IsFault, Serves};

use crate::device::BlockDevice;
use crate::page_cache::PageError;
use crate::page_cache::boxed::{Boxed, store};
use crate::page_cache::flush::write_page;
use crate::page_cache::pages::{Counts, Page, Pages, add_page};
use schnellru::KeyHasher;
use std::alloc::Global;

fn find_victim<B: Copy, S: KeyHasher<u64>>(map: &Pages<B, S>, keeps_dirty: bool) -> Option<u64>
    ensures { result ≡ victim keeps_dirty map.now.pairs }
{
    let mut pages = map.iter();
    while let Some((n, page)) = pages.next_back() {
        if page.is_free(keeps_dirty) {
            return Some(*n);
        }
    }
    None
}

/// Returns the number of the page to evict for a new page, or `None` if the cache is not full.
pub(super) fn find_room<B: Copy, E, S: KeyHasher<u64>>(
    map: &Pages<B, S>,
    capacity: usize,
    keeps_dirty: bool,
) -> Result<Option<u64>, PageError<E>>
    requires { length map.now.pairs ≤ capacity }
    ensures room { IfOk result (λ gone. evicted gone map.now.pairs ≡ with_room capacity keeps_dirty map.now.pairs) }
    ensures left { IfOk result (λ gone. length (evicted gone map.now.pairs) < capacity) }
    ensures clean { IfOk result (λ gone. IsTrue keeps_dirty → goes_dirty gone map.now.pairs ≡ false) }
    ensures full { IfErr result (λ e. (e ≡ PageError.Full) × (length map.now.pairs ≡ capacity)
        × (victim keeps_dirty map.now.pairs ≡ None)) }
{
    if map.len() < capacity {
        return Ok(None);
    }
    match find_victim(map, keeps_dirty) {
        Some(n) => Ok(Some(n)),
        None => Err(PageError::Full),
    }
}

/// Evicts the page `gone`, if any, and returns its box.
fn evict<B: Copy, D: BlockDevice<B>, S: KeyHasher<u64>>(
    map: &mut Pages<B, S>,
    device: &mut D,
    gone: Option<u64>,
) -> Result<Option<Boxed<B>>, PageError<D::Error>>
    requires usable { IsTrue (D.is_usable device.old) }
    requires clean { AreClean D.BlockDevice map.old.pairs device.old }
    requires there { AreThere D.BlockDevice map.old.pairs device.old }
    ensures clean { AreClean D.BlockDevice map.new.pairs device.new }
    ensures there { AreThere D.BlockDevice map.new.pairs device.new }
    ensures shows { D.IsHonest device.new → (m : ℕ) →
        block_at D.BlockDevice map.new.pairs device.new m ≡ block_at D.BlockDevice map.old.pairs device.old m }
    ensures crash { CrashAdds D.BlockDevice map.old.pairs device.old device.new }
    ensures untouched { goes_dirty gone map.old.pairs ≡ false → device.new ≡ device.old }
    ensures serves { Serves D.BlockDevice device.old device.new }
    ensures cause { IfErr result (IsFault D.BlockDevice device.old device.new) }
    ensures kept { OnErr result (map.new.pairs ≡ map.old.pairs) }
    ensures absent { (m : ℕ) → lookup (nat_eq m) map.old.pairs ≡ None → lookup (nat_eq m) map.new.pairs ≡ None }
    ensures evicted { OnOk result (map.new.pairs ≡ evicted gone map.old.pairs) }
    ensures no_more { length map.new.pairs ≤ length map.old.pairs }
    ensures hasher { map.new.hasher ≡ map.old.hasher }
{
    let Some(n) = gone else {
        return Ok(None);
    };
    let _ = map.len();
    write_page(map, device, n)?;
    Ok(map.remove(&n).map(|page| page.block))
}

/// Evicts the page `gone`, if any, and inserts page n as the newest.
pub(super) fn replace<B: Copy, D: BlockDevice<B>, S: KeyHasher<u64>>(
    alloc: Global,
    map: &mut Pages<B, S>,
    device: &mut D,
    counts: &mut Counts,
    gone: Option<u64>,
    hash: u64,
    n: u64,
    block: &B,
    is_dirty: bool,
) -> Result<(), PageError<D::Error>>
    requires usable { IsTrue (D.is_usable device.old) }
    requires number { IsTrue (D.has device.old n) }
    requires absent { lookup (nat_eq n) map.old.pairs ≡ None }
    requires hash { hash ≡ S.hash_of map.old.hasher n }
    requires as_read { is_dirty ≡ false → D.IsHonest device.old
        → D.blocks device.old n ≡ Some (D.seen block.now) }
    requires clean { AreClean D.BlockDevice map.old.pairs device.old }
    requires there { AreThere D.BlockDevice map.old.pairs device.old }
    ensures clean { AreClean D.BlockDevice map.new.pairs device.new }
    ensures there { AreThere D.BlockDevice map.new.pairs device.new }
    ensures others { D.IsHonest device.new → (m : ℕ) → m ≢ n
        → block_at D.BlockDevice map.new.pairs device.new m ≡ block_at D.BlockDevice map.old.pairs device.old m }
    ensures failed { OnErr result (D.IsHonest device.new → (m : ℕ)
        → block_at D.BlockDevice map.new.pairs device.new m ≡ block_at D.BlockDevice map.old.pairs device.old m) }
    ensures stored { OnOk result (map.new.pairs
        ≡ (n, record { block = block.now; is_dirty = is_dirty; is_pinned = false }) ∷ evicted gone map.old.pairs) }
    ensures within { (capacity : ℕ) → length map.old.pairs ≤ capacity → length (evicted gone map.old.pairs) < capacity
        → length map.new.pairs ≤ capacity }
    ensures no_more { length map.new.pairs ≤ length map.old.pairs + 1 }
    ensures crash { CrashAdds D.BlockDevice map.old.pairs device.old device.new }
    ensures untouched { goes_dirty gone map.old.pairs ≡ false → device.new ≡ device.old }
    ensures serves { Serves D.BlockDevice device.old device.new }
    ensures cause { IfErr result (λ e. IsFault D.BlockDevice device.old device.new e ⊎ (e ≡ PageError.Memory)) }
    ensures left { IfErr result (λ e. ((map.new.pairs ≡ map.old.pairs) × (counts.new ≡ counts.old))
        ⊎ ((e ≡ PageError.Memory) × (map.new.pairs ≡ evicted gone map.old.pairs)
        × (counts.new ≡ evicts (length map.old.pairs - length (evicted gone map.old.pairs)) counts.old))) }
    ensures counted { OnOk result (counts.new
        ≡ missed (length map.old.pairs - length (evicted gone map.old.pairs)) counts.old) }
{
    let before = map.len();
    let spare = evict(map, device, gone)?;
    let evicted = before - map.len();
    counts.evictions = counts.evictions.saturating_add(evicted as u64);
    let page = Page {
        block: store(alloc, spare, block).map_err(|_| PageError::Memory)?,
        is_dirty,
        is_pinned: false,
    };
    add_page(map, hash, n, page)?;
    counts.misses = counts.misses.saturating_add(1);
    Ok(())
}
