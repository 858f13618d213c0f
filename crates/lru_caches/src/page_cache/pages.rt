ghost use Rattle.std.specs.Prelude.{◌≡◌, ◌≢◌, ◌⊎◌, ◌≤◌, ◌<◌, ◌+◌, ◌-◌, ℕ, List, ◌∷◌, length, nat_eq, None, Some, Option};
ghost use Rattle.std.specs.Prelude.{is_some, true, false, if◌then◌else◌, IsTrue, IfErr, IfOk, OnOk, OnErr};
ghost use Rattle.std.specs.Fn.{FnOnceReturnsAt, FnOnceReturnsAtMut};
ghost use Rattle.std.specs.Map.{lookup};
ghost use Rattle.lru_model.specs.Calls.{promoted};
ghost use Rattle.lru_model.specs.Lists.{without};
ghost use Rattle.lru_caches.specs.Pages.{block_at, evicted, evicts, goes_dirty, hit, is_pinned, may_go, missed, unpinned_at};
ghost use Rattle.lru_caches.specs.Pages.{AreClean, AreThere, CrashAdds, CrashKeeps, IsFault, Serves};

use crate::device::BlockDevice;
use crate::page_cache::PageError;
use crate::page_cache::boxed::Boxed;
use crate::page_cache::evict::replace;
use schnellru::{KeyHasher, LruMap, UnlimitedCompact};
use std::alloc::Global;

#[derive(Drop)]
pub(super) struct Page<B> {
    pub(super) block: Boxed<B>,
    pub(super) is_dirty: bool,
    pub(super) is_pinned: bool,
}

#[derive(Clone, Copy)]
pub(super) struct Counts {
    pub(super) hits: u64,
    pub(super) misses: u64,
    pub(super) evictions: u64,
}

impl Counts {
    fn count_hit_if(&mut self, there: bool)
        ensures { self.new ≡ (if there then hit self.old else self.old) }
    {
        if there {
            self.hits = self.hits.saturating_add(1);
        }
    }
}

impl<B> Page<B> {
    pub(super) fn is_free(&self, keeps_dirty: bool) -> bool
        ensures { result ≡ may_go keeps_dirty self.now }
    {
        !(self.is_pinned || keeps_dirty && self.is_dirty)
    }
}

pub(super) type Pages<B, S> = LruMap<u64, Page<B>, UnlimitedCompact, S>;

pub(super) fn admit<B: Copy, D: BlockDevice<B>>(
    device: &D,
    n: u64,
) -> Result<(), PageError<D::Error>>
    ensures there { OnOk result (IsTrue (D.has device.now n)) }
    ensures usable { OnOk result (IsTrue (D.is_usable device.now)) }
    ensures cause { IfErr result (λ e. ((e ≡ PageError.Broken) × (D.is_usable device.now ≡ false))
        ⊎ ((e ≡ PageError.NoBlock) × (D.has device.now n ≡ false))) }
    ensures broken { D.is_usable device.now ≡ false → result ≡ Err PageError.Broken }
    ensures lacking { IsTrue (D.is_usable device.now) → D.has device.now n ≡ false → result ≡ Err PageError.NoBlock }
    ensures passes { IsTrue (D.is_usable device.now) → IsTrue (D.has device.now n) → result ≡ Ok tt }
{
    if !device.is_usable() {
        return Err(PageError::Broken);
    }
    if !device.has(n) {
        return Err(PageError::NoBlock);
    }
    Ok(())
}

fn read_block<B: Copy, D: BlockDevice<B>>(device: &mut D, n: u64) -> Result<B, PageError<D::Error>>
    requires usable { IsTrue (D.is_usable device.old) }
    requires there { IsTrue (D.has device.old n) }
    ensures block { IfOk result (λ block. D.IsHonest device.new → D.blocks device.new n ≡ Some (D.seen block)) }
    ensures keeps { (m : ℕ) (b : D.Seen) → D.blocks device.old m ≡ Some b → D.blocks device.new m ≡ Some b }
    ensures crash { CrashKeeps D.BlockDevice device.old device.new }
    ensures serves { Serves D.BlockDevice device.old device.new }
    ensures cause { IfErr result (IsFault D.BlockDevice device.old device.new) }
    ensures calm { OnOk result (D.faults device.new ≡ D.faults device.old) }
{
    device.read(n).map_err(PageError::Device)
}

pub(super) fn load<B: Copy, D: BlockDevice<B>, S: KeyHasher<u64>>(
    alloc: Global,
    map: &mut Pages<B, S>,
    device: &mut D,
    counts: &mut Counts,
    gone: Option<u64>,
    hash: u64,
    n: u64,
) -> Result<(), PageError<D::Error>>
    requires usable { IsTrue (D.is_usable device.old) }
    requires number { IsTrue (D.has device.old n) }
    requires absent { lookup (nat_eq n) map.old.pairs ≡ None }
    requires hash { hash ≡ S.hash_of map.old.hasher n }
    requires clean { AreClean D.BlockDevice map.old.pairs device.old }
    requires there { AreThere D.BlockDevice map.old.pairs device.old }
    ensures clean { AreClean D.BlockDevice map.new.pairs device.new }
    ensures there { AreThere D.BlockDevice map.new.pairs device.new }
    ensures page { OnOk result ((block : B) × (D.IsHonest device.new
        → block_at D.BlockDevice map.new.pairs device.new n ≡ Some (D.seen block)) × (map.new.pairs
        ≡ (n, record { block = block; is_dirty = false; is_pinned = false }) ∷ evicted gone map.old.pairs)) }
    ensures shows { D.IsHonest device.new → (m : ℕ) (b : D.Seen)
        → block_at D.BlockDevice map.old.pairs device.old m ≡ Some b → block_at D.BlockDevice map.new.pairs device.new m ≡ Some b }
    ensures crash { CrashAdds D.BlockDevice map.old.pairs device.old device.new }
    ensures unwritten { goes_dirty gone map.old.pairs ≡ false → CrashKeeps D.BlockDevice device.old device.new }
    ensures serves { Serves D.BlockDevice device.old device.new }
    ensures cause { IfErr result (λ e. IsFault D.BlockDevice device.old device.new e ⊎ (e ≡ PageError.Memory)) }
    ensures within { (capacity : ℕ) → length map.old.pairs ≤ capacity → length (evicted gone map.old.pairs) < capacity
        → length map.new.pairs ≤ capacity }
    ensures no_more { length map.new.pairs ≤ length map.old.pairs + 1 }
    ensures left { IfErr result (λ e. ((map.new.pairs ≡ map.old.pairs) × (counts.new ≡ counts.old))
        ⊎ ((e ≡ PageError.Memory) × (map.new.pairs ≡ evicted gone map.old.pairs)
        × (counts.new ≡ evicts (length map.old.pairs - length (evicted gone map.old.pairs)) counts.old))) }
    ensures counted { OnOk result (counts.new
        ≡ missed (length map.old.pairs - length (evicted gone map.old.pairs)) counts.old) }
{
    let block = read_block(device, n)?;
    replace(alloc, map, device, counts, gone, hash, n, &block, false)
}

pub(super) fn promote<B: Copy, S: KeyHasher<u64>>(
    map: &mut Pages<B, S>,
    counts: &mut Counts,
    hash: u64,
    n: u64,
) -> bool
    requires { hash ≡ S.hash_of map.old.hasher n }
    ensures there { result ≡ is_some (lookup (nat_eq n) map.old.pairs) }
    ensures same { (m : ℕ) → lookup (nat_eq m) map.new.pairs ≡ lookup (nat_eq m) map.old.pairs }
    ensures len { length map.new.pairs ≡ length map.old.pairs }
    ensures used { (page : Page B) → lookup (nat_eq n) map.old.pairs ≡ Some page
        → map.new.pairs ≡ (n, page) ∷ without (nat_eq n) map.old.pairs }
    ensures stays { result ≡ false → map.new.pairs ≡ map.old.pairs }
    ensures hasher { map.new.hasher ≡ map.old.hasher }
    ensures counts { counts.new ≡ (if result then hit counts.old else counts.old) }
{
    let there = promote_hashed(map, hash, n);
    counts.count_hit_if(there);
    there
}

fn promote_hashed<B: Copy, S: KeyHasher<u64>>(map: &mut Pages<B, S>, hash: u64, n: u64) -> bool
    requires { hash ≡ S.hash_of map.old.hasher n }
    ensures there { result ≡ is_some (lookup (nat_eq n) map.old.pairs) }
    ensures promoted { map.new ≡ promoted (nat_eq n) map.old }
{
    let _len = map.len();
    match map.get_by_hash(hash, |other, _| *other == n) {
        Some(_) => true,
        None => false,
    }
}

pub(super) fn overwrite<B: Copy, S: KeyHasher<u64>>(
    map: &mut Pages<B, S>,
    counts: &mut Counts,
    hash: u64,
    n: u64,
    block: &B,
) -> bool
    requires { hash ≡ S.hash_of map.old.hasher n }
    ensures there { result ≡ is_some (lookup (nat_eq n) map.old.pairs) }
    ensures stays { result ≡ false → map.new.pairs ≡ map.old.pairs }
    ensures hasher { result ≡ false → map.new.hasher ≡ map.old.hasher }
    ensures others { (m : ℕ) → m ≢ n → lookup (nat_eq m) map.new.pairs ≡ lookup (nat_eq m) map.old.pairs }
    ensures len { length map.new.pairs ≡ length map.old.pairs }
    ensures written { result ≡ true → lookup (nat_eq n) map.new.pairs ≡ Some (record {
      block = block.now;
      is_dirty = true;
      is_pinned = is_pinned (lookup (nat_eq n) map.old.pairs);
    }) }
    ensures used { result ≡ true → map.new.pairs ≡ (
      n,
      record {
        block = block.now;
        is_dirty = true;
        is_pinned = is_pinned (lookup (nat_eq n) map.old.pairs);
      },
    ) ∷ without (nat_eq n) map.old.pairs }
    ensures counts { counts.new ≡ (if result then hit counts.old else counts.old) }
{
    if !promote(map, counts, hash, n) {
        return false;
    }
    fill_newest(map, block);
    true
}

fn fill_newest<B: Copy, S: KeyHasher<u64>>(map: &mut Pages<B, S>, block: &B)
    ensures { (n : ℕ) (page : Page B) (others : List (ℕ × Page B)) → map.old.pairs ≡ (n, page) ∷ others
        → map.new.pairs ≡ (n, record page { block = block.now; is_dirty = true }) ∷ others }
{
    if let Some(page) = map.newest_mut() {
        page.block.set(block);
        page.is_dirty = true;
    }
}

pub(super) fn add_page<B: Copy, E, S: KeyHasher<u64>>(
    map: &mut Pages<B, S>,
    hash: u64,
    n: u64,
    page: Page<B>,
) -> Result<(), PageError<E>>
    requires absent { lookup (nat_eq n) map.old.pairs ≡ None }
    requires hash { hash ≡ S.hash_of map.old.hasher n }
    ensures added { OnOk result (map.new.pairs ≡ (n, page) ∷ map.old.pairs) }
    ensures stay { OnErr result (map.new.pairs ≡ map.old.pairs) }
    ensures memory { IfErr result (λ e. e ≡ PageError.Memory) }
{
    map.try_insert_hashed(hash, n, page)
        .map_err(|_| PageError::Memory)
}

pub(super) fn read_newest<B: Copy, S: KeyHasher<u64>, R, U: FnOnce(&B) -> R>(
    map: &Pages<B, S>,
    read: U,
) -> R
    requires readable { U.IsAlwaysCallable read }
    requires some { 0 < length map.now.pairs }
    ensures { (n : ℕ) (page : Page B) (others : List (ℕ × Page B)) → map.now.pairs ≡ (n, page) ∷ others
        → FnOnceReturnsAt U.FnOnce read page.block result }
{
    match map.peek_newest() {
        Some((_, page)) => read(page.block.get()),
        None => unreachable!(),
    }
}

pub(super) fn write_newest<B: Copy, S: KeyHasher<u64>, R, U: FnOnce(&mut B) -> R>(
    map: &mut Pages<B, S>,
    write: U,
) -> R
    requires writable { U.IsAlwaysCallable write }
    requires some { 0 < length map.old.pairs }
    ensures { (n : ℕ) (page : Page B) (others : List (ℕ × Page B)) → map.old.pairs ≡ (n, page) ∷ others
        → (block : B) × FnOnceReturnsAtMut U.FnOnce write page.block result block
        × (map.new.pairs ≡ (n, record { block = block; is_dirty = true; is_pinned = page.is_pinned }) ∷ others) }
{
    match map.newest_mut() {
        Some(page) => {
            page.is_dirty = true;
            page.block.write(write)
        }
        None => unreachable!(),
    }
}

pub(super) fn pin_newest<B: Copy, S: KeyHasher<u64>>(map: &mut Pages<B, S>)
    ensures { (n : ℕ) (page : Page B) (others : List (ℕ × Page B)) → map.old.pairs ≡ (n, page) ∷ others
        → map.new.pairs ≡ (n, record page { is_pinned = true }) ∷ others }
{
    if let Some(page) = map.newest_mut() {
        page.is_pinned = true;
    }
}

pub(super) fn unpin_page<B: Copy, S: KeyHasher<u64>>(map: &mut Pages<B, S>, n: u64) -> bool
    ensures was { result ≡ is_pinned (lookup (nat_eq n) map.old.pairs) }
    ensures unpinned { map.new.pairs ≡ unpinned_at n map.old.pairs }
{
    match map.peek_mut(&n) {
        Some(page) => {
            let was_pinned = page.is_pinned;
            page.is_pinned = false;
            was_pinned
        }
        None => false,
    }
}

pub(super) fn is_pinned_at<B: Copy, S: KeyHasher<u64>>(map: &Pages<B, S>, n: u64) -> bool
    ensures { result ≡ is_pinned (lookup (nat_eq n) map.now.pairs) }
{
    match map.peek(&n) {
        Some(page) => page.is_pinned,
        None => false,
    }
}
