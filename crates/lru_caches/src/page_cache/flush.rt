ghost use Rattle.std.specs.Prelude.{◌≡◌, ◌≢◌, ◌⊎◌, ◌≤◌, ◌<◌, ℕ, length, nat_eq, Some, true, false};
ghost use Rattle.std.specs.Prelude.{◌++◌, List, All, vec_capacity, IsPermutation, IsTrue, IfErr, OnOk, OnErr};
ghost use Rattle.std.specs.List.{IsDistinct};
ghost use Rattle.std.specs.List.Sorted.{IsStrictlyIncreasing};
ghost use Rattle.std.specs.Map.{lookup, keys_of};
ghost use Rattle.lru_caches.specs.Pages.{block_at, cleaned, cleaned_at, dirty, dirty_numbers, is_dirty};
ghost use Rattle.lru_caches.specs.Pages.{AreClean, AreThere, AreWritten, CrashAdds, IsFault, Serves};
ghost use Rattle.lru_caches.specs.Pages.{IsFlush, IsCutOff, IsFlushCause, ShowsTheSame};

use crate::device::BlockDevice;
use crate::page_cache::pages::{Page, Pages};
use crate::page_cache::{PageCache, PageError};
use schnellru::KeyHasher;

/// Reserves memory for one more page number, so that flushes allocate nothing.
pub(super) fn reserve_number<E>(numbers: &mut Vec<u64>, pages: usize) -> Result<(), PageError<E>>
    ensures reserved { OnOk result (pages < vec_capacity numbers.new) }
    ensures keeps { vec_capacity numbers.old ≤ vec_capacity numbers.new }
    ensures memory { IfErr result (λ e. e ≡ PageError.Memory) }
{
    numbers.clear();
    let Some(needed) = pages.checked_add(1) else {
        return Err(PageError::Memory);
    };
    numbers.reserve(needed).map_err(|_| PageError::Memory)
}

pub(super) fn list_dirty<B: Copy, S: KeyHasher<u64>>(map: &Pages<B, S>, numbers: &mut Vec<u64>)
    requires reserved { length map.now.pairs ≤ vec_capacity numbers.old }
    ensures all { IsPermutation (dirty_numbers map.now.pairs) numbers.new.items }
    ensures sorted { IsStrictlyIncreasing numbers.new.items }
    ensures dirty { All (λ n. is_dirty (lookup (nat_eq n) map.now.pairs) ≡ true) numbers.new.items }
    ensures keeps { vec_capacity numbers.new ≡ vec_capacity numbers.old }
{
    collect_dirty(map, numbers);
    numbers.sort_unstable();
}

fn collect_dirty<B: Copy, S: KeyHasher<u64>>(map: &Pages<B, S>, numbers: &mut Vec<u64>)
    requires reserved { length map.now.pairs ≤ vec_capacity numbers.old }
    ensures all { numbers.new.items ≡ dirty_numbers map.now.pairs }
    ensures distinct { IsDistinct nat_eq (keys_of map.now.pairs) }
    ensures keeps { vec_capacity numbers.new ≡ vec_capacity numbers.old }
{
    numbers.clear();
    for (n, page) in map.iter() {
        if page.is_dirty {
            numbers.push_reserved(*n);
        }
    }
}

pub(super) fn write_back<B: Copy, D: BlockDevice<B>>(
    device: &mut D,
    n: u64,
    page: &Page<B>,
) -> Result<(), PageError<D::Error>>
    requires usable { IsTrue (D.is_usable device.old) }
    requires there { IsTrue (D.has device.old n) }
    ensures written { OnOk result (page.now.is_dirty ≡ true → D.blocks device.new n ≡ Some (D.seen page.now.block)) }
    ensures clean { page.now.is_dirty ≡ false → D.blocks device.new n ≡ D.blocks device.old n }
    ensures others { (m : ℕ) → m ≢ n → D.blocks device.new m ≡ D.blocks device.old m }
    ensures crash { (m : ℕ) (b : D.Seen) → D.may_leave device.new m b → D.may_leave device.old m b
        ⊎ ((m ≡ n) × IsTrue page.now.is_dirty × ((b ≡ D.seen page.now.block) ⊎ D.IsTorn b)) }
    ensures serves { Serves D.BlockDevice device.old device.new }
    ensures cause { IfErr result (IsFault D.BlockDevice device.old device.new) }
    ensures calm { OnOk result (D.faults device.new ≡ D.faults device.old) }
    ensures gives { page.now.is_dirty ≡ true → D.write_gives device.old n (D.seen page.now.block) device.new }
    ensures untouched { page.now.is_dirty ≡ false → device.new ≡ device.old }
{
    if !page.is_dirty {
        return Ok(());
    }
    device.write(n, page.block.get()).map_err(PageError::Device)
}

pub(super) fn write_page<B: Copy, D: BlockDevice<B>, S: KeyHasher<u64>>(
    map: &Pages<B, S>,
    device: &mut D,
    n: u64,
) -> Result<(), PageError<D::Error>>
    requires usable { IsTrue (D.is_usable device.old) }
    requires clean { AreClean D.BlockDevice map.now.pairs device.old }
    requires there { AreThere D.BlockDevice map.now.pairs device.old }
    ensures clean { AreClean D.BlockDevice map.now.pairs device.new }
    ensures shows { (m : ℕ) →
        block_at D.BlockDevice map.now.pairs device.new m ≡ block_at D.BlockDevice map.now.pairs device.old m }
    ensures crash { CrashAdds D.BlockDevice map.now.pairs device.old device.new }
    ensures serves { Serves D.BlockDevice device.old device.new }
    ensures cause { IfErr result (IsFault D.BlockDevice device.old device.new) }
    ensures calm { OnOk result (D.faults device.new ≡ D.faults device.old) }
    ensures others { (m : ℕ) → m ≢ n → D.blocks device.new m ≡ D.blocks device.old m }
    ensures written { OnOk result ((page : Page B) → lookup (nat_eq n) map.now.pairs ≡ Some page
        → page.is_dirty ≡ true → D.blocks device.new n ≡ Some (D.seen page.block)) }
    ensures gives { (page : Page B) → lookup (nat_eq n) map.now.pairs ≡ Some page → page.is_dirty ≡ true
        → D.write_gives device.old n (D.seen page.block) device.new }
    ensures untouched { is_dirty (lookup (nat_eq n) map.now.pairs) ≡ false → device.new ≡ device.old }
{
    match map.peek(&n) {
        Some(page) => write_back(device, n, page),
        None => Ok(()),
    }
}

pub(super) fn write_all_back<B: Copy, D: BlockDevice<B>, S: KeyHasher<u64>>(
    map: &Pages<B, S>,
    numbers: &[u64],
    device: &mut D,
) -> Result<(), PageError<D::Error>>
    requires usable { IsTrue (D.is_usable device.old) }
    requires clean { AreClean D.BlockDevice map.now.pairs device.old }
    requires there { AreThere D.BlockDevice map.now.pairs device.old }
    requires all { IsPermutation (dirty_numbers map.now.pairs) numbers.now }
    requires dirty { All (λ n. is_dirty (lookup (nat_eq n) map.now.pairs) ≡ true) numbers.now }
    requires sorted { IsStrictlyIncreasing numbers.now }
    ensures clean { AreClean D.BlockDevice map.now.pairs device.new }
    ensures there { AreThere D.BlockDevice map.now.pairs device.new }
    ensures shows { IsTrue (D.is_usable device.new) → (n : ℕ) →
        block_at D.BlockDevice map.now.pairs device.new n ≡ block_at D.BlockDevice map.now.pairs device.old n }
    ensures written { OnOk result (D.IsHonest device.new → (n : ℕ) →
        D.blocks device.new n ≡ block_at D.BlockDevice map.now.pairs device.old n) }
    ensures durable { OnOk result ((n : ℕ) (block b : D.Seen) → D.blocks device.new n ≡ Some block
        → D.may_leave device.new n b → b ≡ block) }
    ensures crash { CrashAdds D.BlockDevice map.now.pairs device.old device.new }
    ensures usable { OnOk result (IsTrue (D.is_usable device.new)) }
    ensures numbers { (n : ℕ) → D.has device.new n ≡ D.has device.old n }
    ensures honest { D.IsHonest device.new → D.IsHonest device.old }
    ensures cause { IfErr result (IsFault D.BlockDevice device.old device.new) }
    ensures order { OnOk result (IsFlush D.BlockDevice map.now.pairs device.old device.new) }
    ensures cut_off { OnErr result (IsCutOff D.BlockDevice map.now.pairs device.old device.new) }
{
    write_each_back(map, numbers, device)?;
    device.sync().map_err(PageError::Device)
}

fn write_each_back<B: Copy, D: BlockDevice<B>, S: KeyHasher<u64>>(
    map: &Pages<B, S>,
    numbers: &[u64],
    device: &mut D,
) -> Result<(), PageError<D::Error>>
    requires usable { IsTrue (D.is_usable device.old) }
    requires clean { AreClean D.BlockDevice map.now.pairs device.old }
    requires there { AreThere D.BlockDevice map.now.pairs device.old }
    requires all { IsPermutation (dirty_numbers map.now.pairs) numbers.now }
    requires dirty { All (λ n. is_dirty (lookup (nat_eq n) map.now.pairs) ≡ true) numbers.now }
    ensures clean { AreClean D.BlockDevice map.now.pairs device.new }
    ensures shows { (n : ℕ) →
        block_at D.BlockDevice map.now.pairs device.new n ≡ block_at D.BlockDevice map.now.pairs device.old n }
    ensures written { OnOk result (D.IsHonest device.new → (n : ℕ) →
        D.blocks device.new n ≡ block_at D.BlockDevice map.now.pairs device.old n) }
    ensures crash { CrashAdds D.BlockDevice map.now.pairs device.old device.new }
    ensures serves { Serves D.BlockDevice device.old device.new }
    ensures cause { IfErr result (IsFault D.BlockDevice device.old device.new) }
    ensures calm { OnOk result (D.faults device.new ≡ D.faults device.old) }
    ensures order { OnOk result (AreWritten D.BlockDevice numbers.now map.now.pairs device.old device.new) }
    ensures cut_off { OnErr result ((done : List ℕ) × (rest : List ℕ) × (numbers.now ≡ done ++ rest)
        × AreWritten D.BlockDevice done map.now.pairs device.old device.new) }
{
    for n in numbers {
        write_page(map, device, *n)?;
    }
    Ok(())
}

pub(super) fn make_clean<B: Copy, S: KeyHasher<u64>>(map: &mut Pages<B, S>)
    ensures { map.new.pairs ≡ cleaned map.old.pairs }
{
    map.for_each_mut(|_, page| page.is_dirty = false);
}

fn clean_page<B: Copy, S: KeyHasher<u64>>(map: &mut Pages<B, S>, n: u64)
    ensures { map.new.pairs ≡ cleaned_at n map.old.pairs }
{
    if let Some(page) = map.peek_mut(&n) {
        page.is_dirty = false;
    }
}

impl<B: Copy, D: BlockDevice<B>, S: KeyHasher<u64>> PageCache<B, D, S> {
    /// If a page is cached and dirty, writes it to the device, and makes it clean. Does not change the order of use.
    ///
    /// `flush_page` does not call `sync`. Until a `flush` returns `Ok`, a crash may leave the old block or a torn
    /// block.
    ///
    /// ```
    /// assert_eq!(rt; (cache.dirty_len(), cache.flush_page(1), cache.dirty_len()), (1, Ok(()), 0));
    /// assert_eq!(rt; cache.device().blocks, [10, 20, 12, 13]);
    /// ```
    ///
    /// Cost: `O(1)` expected, and at most one write of the device.
    ///
    /// # Errors
    ///
    /// `Broken`: an earlier `sync` failed. `Device`: the write failed, and the page stays dirty.
    pub fn flush_page(&mut self, n: u64) -> Result<(), PageError<D::Error>>
        ensures keeps { ShowsTheSame D.BlockDevice self.old self.new }
        ensures pages { OnOk result (self.new.pages ≡ cleaned_at n self.old.pages) }
        ensures dirty { OnErr result (self.new.pages ≡ self.old.pages) }
        ensures gives { IsTrue (D.is_usable self.old.device) → (page : Page B)
            → lookup (nat_eq n) self.old.pages ≡ Some page → page.is_dirty ≡ true
            → D.write_gives self.old.device n (D.seen page.block) self.new.device }
        ensures untouched { dirty self.old n ≡ false → self.new.device ≡ self.old.device }
        ensures crash { CrashAdds D.BlockDevice self.old.pages self.old.device self.new.device }
        ensures broken { D.is_usable self.old.device ≡ false → (result ≡ Err PageError.Broken) × (self.new ≡ self.old) }
        ensures cause { IfErr result (IsFlushCause D.BlockDevice self.old.device self.new.device) }
        ensures serves { Serves D.BlockDevice self.old.device self.new.device }
        ensures capacity { self.new.capacity ≡ self.old.capacity }
        ensures mode { self.new.keeps_dirty ≡ self.old.keeps_dirty }
        ensures counts { self.new.counts ≡ self.old.counts }
    {
        if !self.device.is_usable() {
            return Err(PageError::Broken);
        }
        write_page(&self.map, &mut self.device, n)?;
        clean_page(&mut self.map, n);
        Ok(())
    }

    /// Returns how many pages are dirty.
    ///
    /// ```
    /// assert_eq!(rt; cache.dirty_len(), 1);
    /// ```
    ///
    /// Cost: `O(len)`.
    pub fn dirty_len(&self) -> usize
        ensures { result ≡ length (dirty_numbers self.now.pages) }
    {
        count_dirty(&self.map)
    }
}

fn count_dirty<B: Copy, S: KeyHasher<u64>>(map: &Pages<B, S>) -> usize
    ensures { result ≡ length (dirty_numbers map.now.pairs) }
{
    let mut count = 0usize;
    for (_, page) in map.iter() {
        if page.is_dirty {
            count += 1;
        }
    }
    count
}
